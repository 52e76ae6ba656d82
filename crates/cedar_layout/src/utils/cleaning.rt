//! Removing blank lines from a text, but not from its strings and comments.
ghost use Rattle.std.specs.Prelude.{◌≡◌, ◌+◌, ◌<◌, ◌≤◌, ◌==◌, ◌++◌, List, ℕ, drop, take, length, string_bytes, IfOk, OnOk, OnErr, IfSome};
ghost use Rattle.std.specs.Char.{is_whitespace};
ghost use Rattle.std.specs.List.{list_all, position};
ghost use Rattle.std.specs.Str.{chars, IsCharBoundary, trim};
ghost use Rattle.cedar_tokens.specs.Bytes.{line_feed, space_character};
ghost use Rattle.cedar_tokens.specs.Units.{FindsLongest, IsComment};
ghost use Rattle.cedar_layout.specs.Cleaning.{Cut, FindsFirst, IsCleaned, IsKept, IsString, clean_piece, is_blank_line, last_byte_or};
ghost use Rattle.cedar_layout.specs.Inside.Seeking.{IsFirstLine, IsSought};

use crate::trim::trim_from;
use cedar_tokens::lexer::{UnitKind, first_unit};
use cedar_tokens::token::Span;
use std::alloc::{AllocError, Global};

/// The leftmost comment of `text` that starts at or after `from`. Ignores strings. Allocates nothing.
pub fn find_comment_at(text: &str, from: usize) -> Option<Span>
    ensures place { FindsFirst IsComment text.now from result }
    ensures boundary { IfSome result (λ s. IsCharBoundary text.now s.start × IsCharBoundary text.now s.end) }
{
    find(Sought::Comment, text, from)
}

/// The leftmost string of `text` that starts at or after `from`. Ignores comments. Allocates nothing.
pub fn find_string_at(text: &str, from: usize) -> Option<Span>
    ensures place { FindsFirst IsString text.now from result }
    ensures boundary { IfSome result (λ s. IsCharBoundary text.now s.start × IsCharBoundary text.now s.end) }
{
    find(Sought::String, text, from)
}

/// The text without blank lines and without blanks at its ends.
///
/// The text is cut at its strings and comments, from the left, and these stay as they are. From each piece between them the
/// lines that end in a line feed and are otherwise blank are removed, except the piece's first line.
pub fn remove_empty_lines(alloc: Global, text: &str) -> Result<String, AllocError>
    ensures { IfOk result (λ s. IsCleaned text.now (string_bytes s)) }
{
    let mut out = String::new(alloc);
    append_without_empty_lines(text, &mut out)?;
    Ok(out)
}

/// Appends what `remove_empty_lines` gives. After a failure `out` is cut back to what it was; it keeps its capacity.
pub fn append_without_empty_lines(text: &str, out: &mut String) -> Result<(), AllocError>
    ensures ok { OnOk result ((t : List ℕ) × IsCleaned text.now t × (string_bytes out.new ≡ string_bytes out.old ++ t)) }
    ensures err { OnErr result (string_bytes out.new ≡ string_bytes out.old) }
{
    let start = out.len();
    if let Err(e) = push_cleaned(out, text) {
        out.truncate(start);
        return Err(e);
    }
    Ok(())
}

/// Appends the cleaned text. Where memory is refused, something else may have been appended.
fn push_cleaned(out: &mut String, text: &str) -> Result<(), AllocError>
    ensures ok { OnOk result ((t : List ℕ) × IsCleaned text.now t × (string_bytes out.new ≡ string_bytes out.old ++ t)) }
    ensures kept { take (length (string_bytes out.old)) (string_bytes out.new) ≡ string_bytes out.old }
{
    let start = out.len();
    push_pieces(out, text)?;
    trim_from(out, start)
}

/// Appends the text without blank lines. Where memory is refused, a part of it may have been appended.
fn push_pieces(out: &mut String, text: &str) -> Result<(), AllocError>
    ensures ok { OnOk result ((t : List ℕ) × Cut text.now t × (string_bytes out.new ≡ string_bytes out.old ++ t)) }
    ensures kept { take (length (string_bytes out.old)) (string_bytes out.new) ≡ string_bytes out.old }
{
    let mut at = 0;
    while let Some(kept) = find(Sought::Either, text, at) {
        push_piece(out, &text[at..kept.start])?;
        out.push_str(&text[kept.start..kept.end])?;
        at = kept.end;
    }
    push_piece(out, &text[at..])
}

/// What is looked for in a text.
#[derive(Clone, Copy)]
enum Sought {
    Comment,
    String,
    Either,
}

/// The leftmost one that starts at or after `from`.
fn find(sought: Sought, text: &str, from: usize) -> Option<Span>
    ensures place { FindsFirst (IsSought sought) text.now from result }
    ensures boundary { IfSome result (λ s. IsCharBoundary text.now s.start × IsCharBoundary text.now s.end) }
{
    let mut start = from;
    while start < text.len() {
        if let Some(len) = len_at(sought, text, start) {
            let end = start + len;
            return Some(Span { start, end });
        }
        start += 1;
    }
    None
}

/// The length of the longest one that begins at `at`.
fn len_at(sought: Sought, text: &str, at: usize) -> Option<usize>
    requires { at < length text.now }
    ensures len { FindsLongest (IsSought sought) (drop at text.now) result }
    ensures boundary { IfSome result (λ n. IsCharBoundary text.now at × IsCharBoundary text.now (at + n)) }
    ensures nonempty { IfSome result (λ n. 0 < n) }
{
    match sought {
        Sought::Comment => comment_len_at(text, at),
        Sought::String => string_len_at(text, at),
        Sought::Either => kept_len_at(text, at),
    }
}

fn kept_len_at(text: &str, at: usize) -> Option<usize>
    requires { at < length text.now }
    ensures len { FindsLongest IsKept (drop at text.now) result }
    ensures boundary { IfSome result (λ n. IsCharBoundary text.now at × IsCharBoundary text.now (at + n)) }
    ensures nonempty { IfSome result (λ n. 0 < n) }
{
    match string_len_at(text, at) {
        Some(len) => Some(len),
        None => comment_len_at(text, at),
    }
}

fn comment_len_at(text: &str, at: usize) -> Option<usize>
    requires { at < length text.now }
    ensures len { FindsLongest IsComment (drop at text.now) result }
    ensures boundary { IfSome result (λ n. IsCharBoundary text.now at × IsCharBoundary text.now (at + n)) }
    ensures nonempty { IfSome result (λ n. 0 < n) }
{
    if text.as_bytes()[at] != b'/' {
        return None;
    }
    let (kind, len) = first_unit(&text[at..])?;
    if kind == UnitKind::Comment {
        Some(len)
    } else {
        None
    }
}

fn string_len_at(text: &str, at: usize) -> Option<usize>
    requires { at < length text.now }
    ensures len { FindsLongest IsString (drop at text.now) result }
    ensures boundary { IfSome result (λ n. IsCharBoundary text.now at × IsCharBoundary text.now (at + n)) }
    ensures nonempty { IfSome result (λ n. 0 < n) }
{
    if text.as_bytes()[at] != b'"' {
        return None;
    }
    // No other unit begins with a quote.
    let (_, len) = first_unit(&text[at..])?;
    Some(len)
}

/// Appends the piece without its blank lines. Its first line stays. Where memory is refused, a part of it may have been
/// appended.
fn push_piece(out: &mut String, piece: &str) -> Result<(), AllocError>
    ensures ok { OnOk result (string_bytes out.new ≡ string_bytes out.old ++ clean_piece piece.now) }
    ensures kept { take (length (string_bytes out.old)) (string_bytes out.new) ≡ string_bytes out.old }
{
    let (first, mut rest) = split_line(piece);
    out.push_str(first)?;
    while !rest.is_empty() {
        let (line, after) = split_line(rest);
        if !is_blank_line(line) {
            out.push_str(line)?;
        }
        rest = after;
    }
    Ok(())
}

/// The first line, with its line feed, and what follows it.
fn split_line(text: &str) -> (&str, &str)
    ensures line { IsFirstLine text.now result.0.now result.1.now }
    ensures shorter { 0 < length text.now → length result.1.now < length text.now }
{
    match line_feed_at(text.as_bytes()) {
        Some(at) => text.split_at(at + 1),
        None => (text, ""),
    }
}

fn line_feed_at(bytes: &[u8]) -> Option<usize>
    ensures { result ≡ position (λ b. b == line_feed) bytes.now }
{
    bytes.iter().position(|byte| *byte == b'\n')
}

/// Whether the line ends in a line feed and is otherwise only blanks.
fn is_blank_line(line: &str) -> bool
    ensures { result ≡ is_blank_line line.now }
{
    ends_in_line_feed(line.as_bytes()) && has_blanks_alone(line)
}

fn has_blanks_alone(line: &str) -> bool
    ensures { result ≡ list_all is_whitespace (chars line.now) }
{
    line.chars().all(|c| c.is_whitespace())
}

fn ends_in_line_feed(line: &[u8]) -> bool
    ensures { result ≡ (last_byte_or space_character line.now == line_feed) }
{
    match line.last() {
        Some(byte) => *byte == b'\n',
        None => false,
    }
}
