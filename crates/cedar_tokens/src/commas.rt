//! Trailing commas, and what becomes of their comments.
ghost use Rattle.std.specs.Prelude.{◌≡◌, ◌≤◌, ◌++◌, ◌∷◌, [], IfOk, IfSome, IfNone, OnOk, OnErr, None, Some, map, vec_len, vec_capacity, MatchBool};
ghost use Rattle.cedar_tokens.specs.PlainList.{is_comma, is_closing_bracket, is_trailing_comma, plain_list, kept_tokens};
ghost use Rattle.std.specs.Prelude.{◌+◌, ◌&&◌, not, Option, true, false, length, List, ℕ};
ghost use Rattle.std.specs.Option.{option_map, option_to_list};
ghost use Rattle.cedar_tokens.specs.Places.{AreInOrder};
ghost use Rattle.cedar_tokens.specs.PlainList.{with_trailing_of};
ghost use Rattle.cedar_tokens.specs.Inside.MovedLines.{has_trailing_comma, moved_lines, lines_for, leaves, lines_of, lines_left, trailing_before, with_lines, HasNext, Follows, LeftToToken, MovedToBracket};
ghost use Rattle.cedar_tokens.specs.Tokens.{bare, decorated, leading_lines, trailing_text, token_text};

use crate::token::{Comment, WrappedToken, get_comment};
use std::alloc::{AllocError, Global};
use std::mem;
use std::vec::IntoIter;

/// Takes the trailing commas out of `tokens`: each comma whose next token is `)`, `]` or `}`.
///
/// Its comments stay between the same neighbours. If no comment is between the token before and the comma, that
/// token gets the comma's trailing text. Otherwise the comma's leading lines and the comments of its trailing text are
/// added before the bracket's lines. Spans don't change, so tokens in order stay in order. All memory is allocated first,
/// and none if there is no trailing comma: if memory runs out, `tokens` is unchanged.
pub fn drop_trailing_commas(
    alloc: Global,
    tokens: &mut Vec<WrappedToken<'_>>,
) -> Result<(), AllocError>
    ensures plain { OnOk result (map decorated tokens.new.items ≡ plain_list (map decorated tokens.old.items)) }
    ensures kept { OnOk result (map bare tokens.new.items ≡ map bare (kept_tokens tokens.old.items)) }
    ensures order { AreInOrder tokens.old.items → AreInOrder tokens.new.items }
    ensures err { OnErr result (tokens.new.items ≡ tokens.old.items) }
{
    if !has_trailing_comma(tokens) {
        return Ok(());
    }
    let moved = all_moved_lines(alloc, tokens)?;
    let kept = Vec::with_capacity(alloc, tokens.len())?;
    let all = mem::replace(tokens, Vec::new(alloc));
    *tokens = without_trailing_commas(all, moved, kept);
    Ok(())
}

// Whether one of the tokens is a trailing comma.
fn has_trailing_comma(tokens: &[WrappedToken<'_>]) -> bool
    ensures { result ≡ has_trailing_comma tokens.now }
{
    let mut after_comma = false;
    for token in tokens {
        if after_comma && is_closing_bracket(token) {
            return true;
        }
        after_comma = is_comma(token);
    }
    false
}

fn is_comma(token: &WrappedToken<'_>) -> bool
    ensures { result ≡ is_comma (token_text token.now.token) }
{
    token.token.text() == ","
}

fn is_closing_bracket(token: &WrappedToken<'_>) -> bool
    ensures { result ≡ is_closing_bracket (token_text token.now.token) }
{
    matches!(token.token.text(), ")" | "]" | "}")
}

// Whether a trailing comma leaves its trailing text to the token before it.
fn leaves(before: Option<&WrappedToken<'_>>, comma: &WrappedToken<'_>) -> bool
    ensures { result ≡ leaves (option_map (λ w. trailing_text w.now.comment) before.entry) (decorated comma.now) }
{
    match before {
        Some(token) => token.comment.trailing_comment().is_empty()
            && comma.comment.leading_comment().is_empty(),
        None => false,
    }
}

// Whether `token` is a trailing comma whose comments go to the bracket after it.
fn moves(
    before: Option<&WrappedToken<'_>>,
    token: &WrappedToken<'_>,
    next: &WrappedToken<'_>,
) -> bool
    ensures { result ≡ (is_trailing_comma (decorated token.now) (decorated next.now) && not (leaves (option_map (λ w. trailing_text w.now.comment) before.entry) (decorated token.now))) }
{
    is_comma(token) && is_closing_bracket(next) && !leaves(before, token)
}

// The lines of the bracket that takes the comma's comments.
fn lines_for<'src>(
    alloc: Global,
    comma: &WrappedToken<'src>,
    bracket: &WrappedToken<'src>,
) -> Result<Vec<&'src str>, AllocError>
    ensures { IfOk result (λ v. map (λ l. l.now) v.items ≡ lines_for (decorated comma.now) (decorated bracket.now)) }
{
    let mut lines = Vec::new(alloc);
    lines.extend_from_slice(comma.comment.leading_comment())?;
    for line in get_comment(comma.comment.trailing_comment()) {
        lines.push(line)?;
    }
    lines.extend_from_slice(bracket.comment.leading_comment())?;
    Ok(lines)
}

// The lines of each bracket that takes a comma's comments, in order.
fn all_moved_lines<'src>(
    alloc: Global,
    tokens: &[WrappedToken<'src>],
) -> Result<Vec<Vec<&'src str>>, AllocError>
    ensures { IfOk result (λ v. map lines_of v.items ≡ moved_lines None (map decorated tokens.now)) }
{
    let mut moved = Vec::new(alloc);
    let Some((first, rest)) = tokens.split_first() else {
        return Ok(moved);
    };
    let mut before: Option<&WrappedToken<'src>> = None;
    let mut last = first;
    for token in rest {
        if moves(before, last, token) {
            moved.push(lines_for(alloc, last, token)?)?;
        }
        before = Some(last);
        last = token;
    }
    Ok(moved)
}

// The token with the comma's trailing text in place of its own.
fn with_trailing<'src>(
    mut token: WrappedToken<'src>,
    comma: &WrappedToken<'src>,
) -> WrappedToken<'src>
    ensures decorated { decorated result ≡ with_trailing_of (decorated token.entry) (decorated comma.now) }
    ensures bare { bare result ≡ bare token.entry }
{
    let lines = token.consume_leading_comment();
    let comment = Comment::from_parts(lines, comma.comment.trailing_comment());
    WrappedToken::new(token.token, token.span, comment)
}

// The bracket with these lines in place of its own.
fn with_lines<'src>(bracket: WrappedToken<'src>, lines: Vec<&'src str>) -> WrappedToken<'src>
    ensures decorated { decorated result ≡ with_lines (decorated bracket.entry) (map (λ l. l.now) lines.entry.items) }
    ensures bare { bare result ≡ bare bracket.entry }
{
    let comment = Comment::from_parts(lines, bracket.comment.trailing_comment());
    WrappedToken::new(bracket.token, bracket.span, comment)
}

// The neighbours of a trailing comma with its comments.
fn settle<'src>(
    before: Option<WrappedToken<'src>>,
    comma: &WrappedToken<'src>,
    bracket: WrappedToken<'src>,
    moved: &mut IntoIter<Vec<&'src str>, Global>,
) -> (Option<WrappedToken<'src>>, WrappedToken<'src>)
    requires moved { leaves (trailing_before before) (decorated comma.now) ≡ false → HasNext (lines_left moved.old) (lines_for (decorated comma.now) (decorated bracket)) }
    ensures left { leaves (trailing_before before.entry) (decorated comma.now) ≡ true → LeftToToken (option_map decorated before.entry) (decorated comma.now) (decorated bracket.entry) (option_map decorated result.0) (decorated result.1) × (lines_left moved.new ≡ lines_left moved.old) }
    ensures moved { leaves (trailing_before before.entry) (decorated comma.now) ≡ false → MovedToBracket (option_map decorated before.entry) (decorated comma.now) (decorated bracket.entry) (option_map decorated result.0) (decorated result.1) × Follows (lines_left moved.old) (lines_left moved.new) }
    ensures bare { (option_map bare result.0 ≡ option_map bare before.entry) × (bare result.1 ≡ bare bracket.entry) }
{
    match before {
        Some(token) if leaves(Some(&token), comma) => (Some(with_trailing(token, comma)), bracket),
        before => (before, with_lines(bracket, moved.next().unwrap())),
    }
}

// Adds the token, if there is one, after the others. There is room for it.
fn keep<'src>(kept: &mut Vec<WrappedToken<'src>>, token: Option<WrappedToken<'src>>)
    requires room { vec_len kept.old + length (option_to_list token) ≤ vec_capacity kept.old }
    ensures items { kept.new.items ≡ kept.old.items ++ option_to_list token.entry }
    ensures len { vec_len kept.new ≡ vec_len kept.old + length (option_to_list token.entry) }
    ensures capacity { vec_capacity kept.old ≤ vec_capacity kept.new }
{
    if let Some(token) = token {
        kept.push(token).unwrap();
    }
}

// The last token that stays: `next`, with `before` added to `kept`, or else `before`.
fn pass<'src>(
    kept: &mut Vec<WrappedToken<'src>>,
    before: Option<WrappedToken<'src>>,
    next: Option<WrappedToken<'src>>,
) -> Option<WrappedToken<'src>>
    requires room { vec_len kept.old + length (option_to_list before) ≤ vec_capacity kept.old }
    ensures some { IfSome next.entry (λ t. (result ≡ Some t) × (kept.new.items ≡ kept.old.items ++ option_to_list before.entry) × (vec_len kept.new ≡ vec_len kept.old + length (option_to_list before.entry))) }
    ensures none { IfNone next.entry ((result ≡ before.entry) × (kept.new.items ≡ kept.old.items) × (vec_len kept.new ≡ vec_len kept.old)) }
    ensures capacity { vec_capacity kept.old ≤ vec_capacity kept.new }
{
    match next {
        Some(next) => {
            keep(kept, before);
            Some(next)
        }
        None => before,
    }
}

// The tokens without the trailing commas; `moved` has the lines of the brackets that take their comments.
fn without_trailing_commas<'src>(
    all: Vec<WrappedToken<'src>>,
    moved: Vec<Vec<&'src str>>,
    mut kept: Vec<WrappedToken<'src>>,
) -> Vec<WrappedToken<'src>>
    requires none { kept.items ≡ [] }
    requires room { vec_len all ≤ vec_capacity kept }
    requires moved { map lines_of moved.items ≡ moved_lines None (map decorated all.items) }
    ensures plain { map decorated result.items ≡ plain_list (map decorated all.entry.items) }
    ensures kept { map bare result.items ≡ map bare (kept_tokens all.entry.items) }
{
    let mut rest = all.into_iter();
    let mut moved = moved.into_iter();
    let mut before: Option<WrappedToken<'src>> = None;
    let mut comma: Option<WrappedToken<'src>> = None;
    'tokens: while let Some(token) = rest.next() {
        match comma.take() {
            Some(dropped) if is_closing_bracket(&token) => {
                let (last, bracket) = settle(before, &dropped, token, &mut moved);
                keep(&mut kept, last);
                before = Some(bracket);
            }
            held => {
                before = pass(&mut kept, before, held);
                if is_comma(&token) {
                    comma = Some(token);
                } else {
                    keep(&mut kept, before);
                    before = Some(token);
                }
            }
        }
    }
    keep(&mut kept, before);
    keep(&mut kept, comma);
    kept
}
