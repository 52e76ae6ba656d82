//! Finds tokens by place with binary search, and moves their comments out.
ghost use Rattle.std.specs.Prelude.{◌≡◌, ◌+◌, ◌<◌, ◌≤◌, ◌^◌, ◌==◌, ◌↔◌, nat_le, ℕ, map, length, IsTrue, IfOk, OnErr};
ghost use Rattle.std.specs.List.{position, position_or_len, prefix_len};
ghost use Rattle.cedar_tokens.specs.Places.{InOrderFrom};
ghost use Rattle.cedar_layout.specs.Lookups.{AreInOrder, CountsSteps, HandsOutLines, HandsOutNamed, comment_parts, comments_in, emptied, emptied_in, ends_at, shown, starts_at, starts_from};
ghost use Rattle.cedar_layout.specs.Inside.Halving.{edge_of, is_sought};

use crate::layout::Steps;
use cedar_tokens::token::{Comment, Span, WrappedToken};
use std::alloc::{AllocError, Global};
use std::marker::Brand;
use std::sync::ledger::{Blank, Ledger};

/// Whether the tokens' spans are nonempty, in order and disjoint, as the lookups require. Allocates nothing.
pub fn in_order(tokens: &[WrappedToken<'_>]) -> bool
    ensures { IsTrue result ↔ AreInOrder tokens.now }
{
    let mut from = 0;
    for token in tokens {
        let span = token.span;
        if span.start < from || span.end <= span.start {
            return false;
        }
        from = span.end;
    }
    true
}

/// Takes the comment of the token that starts at `span.start` and leaves it empty; `None` if no token starts there.
/// Allocates nothing.
pub fn get_comment_at_start<'src>(
    span: Span,
    tokens: &mut [WrappedToken<'src>],
) -> Option<Comment<'src>>
    requires { AreInOrder tokens.old }
    ensures answer { HandsOutNamed (starts_at span.start) tokens.old tokens.new result }
    ensures order { AreInOrder tokens.new }
{
    comment_at_start_afresh::<Brand>(span, tokens, Blank::new(1))
}

/// Like `get_comment_at_start`, and counts the steps.
pub fn get_comment_at_start_counted<'src, L: Ledger>(
    span: Span,
    tokens: &mut [WrappedToken<'src>],
    steps: &mut Steps<L>,
) -> Option<Comment<'src>>
    requires { AreInOrder tokens.old }
    ensures answer { HandsOutNamed (starts_at span.start) tokens.old tokens.new result }
    ensures steps { CountsSteps (length tokens.old) steps.old steps.new }
    ensures order { AreInOrder tokens.new }
{
    take_comment(Sought::StartsAt(span.start), tokens, steps)
}

/// Takes the leading lines of the token that starts at `span.start` and leaves none; `None` if no token starts there.
/// Allocates nothing.
pub fn get_leading_comment_at_start<'src>(
    span: Span,
    tokens: &mut [WrappedToken<'src>],
) -> Option<Vec<&'src str>>
    requires { AreInOrder tokens.old }
    ensures answer { HandsOutLines (starts_at span.start) tokens.old tokens.new result }
    ensures order { AreInOrder tokens.new }
{
    leading_comment_at_start_afresh::<Brand>(span, tokens, Blank::new(1))
}

/// Like `get_leading_comment_at_start`, and counts the steps.
pub fn get_leading_comment_at_start_counted<'src, L: Ledger>(
    span: Span,
    tokens: &mut [WrappedToken<'src>],
    steps: &mut Steps<L>,
) -> Option<Vec<&'src str>>
    requires { AreInOrder tokens.old }
    ensures answer { HandsOutLines (starts_at span.start) tokens.old tokens.new result }
    ensures steps { CountsSteps (length tokens.old) steps.old steps.new }
    ensures order { AreInOrder tokens.new }
{
    let place = find(Sought::StartsAt(span.start), tokens, steps)?;
    Some(tokens[place].consume_leading_comment())
}

/// Takes the comment of the token that ends at `span.end` and leaves it empty; `None` if no token ends there.
/// Allocates nothing.
pub fn get_comment_at_end<'src>(
    span: Span,
    tokens: &mut [WrappedToken<'src>],
) -> Option<Comment<'src>>
    requires { AreInOrder tokens.old }
    ensures answer { HandsOutNamed (ends_at span.end) tokens.old tokens.new result }
    ensures order { AreInOrder tokens.new }
{
    comment_at_end_afresh::<Brand>(span, tokens, Blank::new(1))
}

/// Like `get_comment_at_end`, and counts the steps.
pub fn get_comment_at_end_counted<'src, L: Ledger>(
    span: Span,
    tokens: &mut [WrappedToken<'src>],
    steps: &mut Steps<L>,
) -> Option<Comment<'src>>
    requires { AreInOrder tokens.old }
    ensures answer { HandsOutNamed (ends_at span.end) tokens.old tokens.new result }
    ensures steps { CountsSteps (length tokens.old) steps.old steps.new }
    ensures order { AreInOrder tokens.new }
{
    take_comment(Sought::EndsAt(span.end), tokens, steps)
}

/// Takes the comment of the first token that starts at or after `span.end` and leaves it empty; `None` if there is none.
/// Allocates nothing.
pub fn get_comment_after_end<'src>(
    span: Span,
    tokens: &mut [WrappedToken<'src>],
) -> Option<Comment<'src>>
    requires { AreInOrder tokens.old }
    ensures answer { HandsOutNamed (starts_from span.end) tokens.old tokens.new result }
    ensures order { AreInOrder tokens.new }
{
    comment_after_end_afresh::<Brand>(span, tokens, Blank::new(1))
}

/// Like `get_comment_after_end`, and counts the steps.
pub fn get_comment_after_end_counted<'src, L: Ledger>(
    span: Span,
    tokens: &mut [WrappedToken<'src>],
    steps: &mut Steps<L>,
) -> Option<Comment<'src>>
    requires { AreInOrder tokens.old }
    ensures answer { HandsOutNamed (starts_from span.end) tokens.old tokens.new result }
    ensures steps { CountsSteps (length tokens.old) steps.old steps.new }
    ensures order { AreInOrder tokens.new }
{
    take_comment(Sought::StartsFrom(span.end), tokens, steps)
}

/// Takes the comments of the tokens that start at or after `span.start` and end at or before `span.end`, in order, and
/// leaves them empty. If memory runs out, nothing has changed.
pub fn get_comment_in_range<'src>(
    alloc: Global,
    span: Span,
    tokens: &mut [WrappedToken<'src>],
) -> Result<Vec<Comment<'src>>, AllocError>
    requires { AreInOrder tokens.old }
    ensures answer { IfOk result (λ v. map comment_parts v.items ≡ comments_in span (map shown tokens.old)) }
    ensures left { IfOk result (λ _. map shown tokens.new ≡ emptied_in span (map shown tokens.old)) }
    ensures refused { OnErr result (map shown tokens.new ≡ map shown tokens.old) }
    ensures order { AreInOrder tokens.new }
{
    comment_in_range_afresh::<Brand>(alloc, span, tokens, Blank::new(1))
}

/// Like `get_comment_in_range`, and counts the steps of the search for the first token.
pub fn get_comment_in_range_counted<'src, L: Ledger>(
    alloc: Global,
    span: Span,
    tokens: &mut [WrappedToken<'src>],
    steps: &mut Steps<L>,
) -> Result<Vec<Comment<'src>>, AllocError>
    requires { AreInOrder tokens.old }
    ensures answer { IfOk result (λ v. map comment_parts v.items ≡ comments_in span (map shown tokens.old)) }
    ensures left { IfOk result (λ _. map shown tokens.new ≡ emptied_in span (map shown tokens.old)) }
    ensures refused { OnErr result (map shown tokens.new ≡ map shown tokens.old) }
    ensures steps { CountsSteps (length tokens.old) steps.old steps.new }
    ensures order { AreInOrder tokens.new }
{
    let first = find(Sought::StartsFrom(span.start), tokens, steps);
    take_from(alloc, first, span, tokens)
}

/// The token that a lookup names, by its place.
#[derive(Clone, Copy)]
enum Sought {
    StartsAt(usize),
    EndsAt(usize),
    /// The first that starts there or later.
    StartsFrom(usize),
}

/// An edge of a token.
#[derive(Clone, Copy)]
enum Edge {
    Start,
    End,
}

impl Edge {
    fn of(self, span: Span) -> usize
        ensures { result ≡ edge_of self span }
    {
        match self {
            Edge::Start => span.start,
            Edge::End => span.end,
        }
    }
}

/// How many tokens have this edge before `at`. A step is a comparison of `at` with an edge.
fn count_before<L: Ledger>(
    edge: Edge,
    at: usize,
    tokens: &[WrappedToken<'_>],
    steps: &mut Steps<L>,
) -> usize
    requires { AreInOrder tokens.now }
    ensures place { result ≡ position_or_len (λ t. nat_le at (edge_of edge t.span)) tokens.now }
    ensures least { 0 < length tokens.now → steps.old < steps.new }
    ensures grows { steps.old ≤ steps.new }
    ensures most { (d : ℕ) → length tokens.now < 2 ^ d → steps.new ≤ steps.old + d }
{
    let mut low = 0;
    let mut high = tokens.len();
    while low < high {
        let middle = low + (high - low) / 2;
        steps.tick();
        if edge.of(tokens[middle].span) < at {
            low = middle + 1;
        } else {
            high = middle;
        }
    }
    low
}

/// The place of the first token with this edge at or after `at`.
fn find_from<L: Ledger>(
    edge: Edge,
    at: usize,
    tokens: &[WrappedToken<'_>],
    steps: &mut Steps<L>,
) -> Option<usize>
    requires { AreInOrder tokens.now }
    ensures place { result ≡ position (λ t. nat_le at (edge_of edge t.span)) tokens.now }
    ensures least { 0 < length tokens.now → steps.old < steps.new }
    ensures grows { steps.old ≤ steps.new }
    ensures most { (d : ℕ) → length tokens.now < 2 ^ d → steps.new ≤ steps.old + d }
{
    let place = count_before(edge, at, tokens, steps);
    if place < tokens.len() {
        Some(place)
    } else {
        None
    }
}

/// The place of the token with this edge at `at`.
fn find_at<L: Ledger>(
    edge: Edge,
    at: usize,
    tokens: &[WrappedToken<'_>],
    steps: &mut Steps<L>,
) -> Option<usize>
    requires { AreInOrder tokens.now }
    ensures place { result ≡ position (λ t. edge_of edge t.span == at) tokens.now }
    ensures steps { CountsSteps (length tokens.now) steps.old steps.new }
{
    let place = find_from(edge, at, tokens, steps)?;
    steps.tick();
    if edge.of(tokens[place].span) == at {
        Some(place)
    } else {
        None
    }
}

/// The place of the token looked for.
fn find<L: Ledger>(
    sought: Sought,
    tokens: &[WrappedToken<'_>],
    steps: &mut Steps<L>,
) -> Option<usize>
    requires { AreInOrder tokens.now }
    ensures place { result ≡ position (λ t. is_sought sought (shown t)) tokens.now }
    ensures steps { CountsSteps (length tokens.now) steps.old steps.new }
{
    match sought {
        Sought::StartsAt(at) => find_at(Edge::Start, at, tokens, steps),
        Sought::EndsAt(at) => find_at(Edge::End, at, tokens, steps),
        Sought::StartsFrom(at) => find_from(Edge::Start, at, tokens, steps),
    }
}

fn take_comment<'src, L: Ledger>(
    sought: Sought,
    tokens: &mut [WrappedToken<'src>],
    steps: &mut Steps<L>,
) -> Option<Comment<'src>>
    requires { AreInOrder tokens.old }
    ensures answer { HandsOutNamed (is_sought sought) tokens.old tokens.new result }
    ensures steps { CountsSteps (length tokens.old) steps.old steps.new }
    ensures order { AreInOrder tokens.new }
{
    let place = find(sought, tokens, steps)?;
    Some(tokens[place].consume_comment())
}

/// The comments of the tokens in the span, where `first` is the place of the first that starts in or after it.
fn take_from<'src>(
    alloc: Global,
    first: Option<usize>,
    span: Span,
    tokens: &mut [WrappedToken<'src>],
) -> Result<Vec<Comment<'src>>, AllocError>
    requires order { AreInOrder tokens.old }
    requires first { first ≡ position (λ t. starts_from span.start (shown t)) tokens.old }
    ensures answer { IfOk result (λ v. map comment_parts v.items ≡ comments_in span (map shown tokens.old)) }
    ensures left { IfOk result (λ _. map shown tokens.new ≡ emptied_in span (map shown tokens.old)) }
    ensures refused { OnErr result (map shown tokens.new ≡ map shown tokens.old) }
    ensures order { AreInOrder tokens.new }
{
    match first {
        Some(first) => take_until(alloc, span, &mut tokens[first..]),
        None => Ok(Vec::new(alloc)),
    }
}

/// The comments of the tokens in the span, if none starts before it.
fn take_until<'src>(
    alloc: Global,
    span: Span,
    tokens: &mut [WrappedToken<'src>],
) -> Result<Vec<Comment<'src>>, AllocError>
    requires { InOrderFrom span.start (map (λ t. t.span) tokens.old) }
    ensures answer { IfOk result (λ v. map comment_parts v.items ≡ comments_in span (map shown tokens.old)) }
    ensures left { IfOk result (λ _. map shown tokens.new ≡ emptied_in span (map shown tokens.old)) }
    ensures refused { OnErr result (map shown tokens.new ≡ map shown tokens.old) }
{
    let count = count_until(tokens, span.end);
    take_all(alloc, &mut tokens[..count])
}

/// How many tokens from the first on end at or before `end`.
fn count_until(tokens: &[WrappedToken<'_>], end: usize) -> usize
    ensures count { result ≡ prefix_len (λ t. nat_le t.span.end end) tokens.now }
    ensures fits { result ≤ length tokens.now }
{
    tokens
        .iter()
        .take_while(|token| token.span.end <= end)
        .count()
}

/// The comments of all these tokens.
fn take_all<'src>(
    alloc: Global,
    tokens: &mut [WrappedToken<'src>],
) -> Result<Vec<Comment<'src>>, AllocError>
    ensures answer { IfOk result (λ v. map comment_parts v.items ≡ map (λ t. t.comment) (map shown tokens.old)) }
    ensures left { IfOk result (λ _. map shown tokens.new ≡ map emptied (map shown tokens.old)) }
    ensures refused { OnErr result (map shown tokens.new ≡ map shown tokens.old) }
{
    let mut comments = Vec::with_capacity(alloc, tokens.len())?;
    for token in tokens.iter_mut() {
        comments.push_reserved(token.consume_comment());
    }
    Ok(comments)
}

// The same as `get_comment_at_start`, discarding the step count.
fn comment_at_start_afresh<'src, L: Ledger>(
    span: Span,
    tokens: &mut [WrappedToken<'src>],
    blank: Blank,
) -> Option<Comment<'src>>
    requires order { AreInOrder tokens.old }
    requires name { blank.name ≡ L.name }
    requires parts { blank.parts ≡ L.parts }
    requires some { 0 < L.parts }
    ensures answer { HandsOutNamed (starts_at span.start) tokens.old tokens.new result }
    ensures order { AreInOrder tokens.new }
{
    let mut steps: Steps<L> = Steps::new(blank);
    get_comment_at_start_counted(span, tokens, &mut steps)
}

// The same as `get_leading_comment_at_start`, discarding the step count.
fn leading_comment_at_start_afresh<'src, L: Ledger>(
    span: Span,
    tokens: &mut [WrappedToken<'src>],
    blank: Blank,
) -> Option<Vec<&'src str>>
    requires order { AreInOrder tokens.old }
    requires name { blank.name ≡ L.name }
    requires parts { blank.parts ≡ L.parts }
    requires some { 0 < L.parts }
    ensures answer { HandsOutLines (starts_at span.start) tokens.old tokens.new result }
    ensures order { AreInOrder tokens.new }
{
    let mut steps: Steps<L> = Steps::new(blank);
    get_leading_comment_at_start_counted(span, tokens, &mut steps)
}

// The same as `get_comment_at_end`, discarding the step count.
fn comment_at_end_afresh<'src, L: Ledger>(
    span: Span,
    tokens: &mut [WrappedToken<'src>],
    blank: Blank,
) -> Option<Comment<'src>>
    requires order { AreInOrder tokens.old }
    requires name { blank.name ≡ L.name }
    requires parts { blank.parts ≡ L.parts }
    requires some { 0 < L.parts }
    ensures answer { HandsOutNamed (ends_at span.end) tokens.old tokens.new result }
    ensures order { AreInOrder tokens.new }
{
    let mut steps: Steps<L> = Steps::new(blank);
    get_comment_at_end_counted(span, tokens, &mut steps)
}

// The same as `get_comment_after_end`, discarding the step count.
fn comment_after_end_afresh<'src, L: Ledger>(
    span: Span,
    tokens: &mut [WrappedToken<'src>],
    blank: Blank,
) -> Option<Comment<'src>>
    requires order { AreInOrder tokens.old }
    requires name { blank.name ≡ L.name }
    requires parts { blank.parts ≡ L.parts }
    requires some { 0 < L.parts }
    ensures answer { HandsOutNamed (starts_from span.end) tokens.old tokens.new result }
    ensures order { AreInOrder tokens.new }
{
    let mut steps: Steps<L> = Steps::new(blank);
    get_comment_after_end_counted(span, tokens, &mut steps)
}

// The same as `get_comment_in_range`, discarding the step count.
fn comment_in_range_afresh<'src, L: Ledger>(
    alloc: Global,
    span: Span,
    tokens: &mut [WrappedToken<'src>],
    blank: Blank,
) -> Result<Vec<Comment<'src>>, AllocError>
    requires order { AreInOrder tokens.old }
    requires name { blank.name ≡ L.name }
    requires parts { blank.parts ≡ L.parts }
    requires some { 0 < L.parts }
    ensures answer { IfOk result (λ v. map comment_parts v.items ≡ comments_in span (map shown tokens.old)) }
    ensures left { IfOk result (λ _. map shown tokens.new ≡ emptied_in span (map shown tokens.old)) }
    ensures refused { OnErr result (map shown tokens.new ≡ map shown tokens.old) }
    ensures order { AreInOrder tokens.new }
{
    let mut steps: Steps<L> = Steps::new(blank);
    get_comment_in_range_counted(alloc, span, tokens, &mut steps)
}
