//! What could come at the cursor.
ghost use Rattle.std.specs.Prelude.{◌≡◌, ◌≤◌, IfOk, length};
ghost use Rattle.std.specs.List.{filter};
ghost use Rattle.std.specs.Str.{IsCharBoundary};
ghost use Rattle.cedar_server.specs.Completions.{AreCompletions, BeginsWord, CouldCome, has_one_text, is_open, is_word_byte};

use crate::diagnoses::MOST;
use crate::ranges::range_of;
use cedar_edits::{Encoding, Position, Range, offset_at};
use cedar_faults::listing::first_faults;
use cedar_grammar::error::FormatError;
use cedar_tokens::kind::Kind;
use cedar_tokens::token::Span;
use std::alloc::{AllocError, Global};

/// What could come at the cursor.
#[derive(Drop)]
pub struct Completions {
    /// The word before the cursor, in whose place it could come.
    pub range: Range,
    /// The kinds of tokens, each with a fixed text, in the order of `Kind`.
    pub kinds: Vec<Kind>,
}

/// What could come at a position, in place of the word before it: exactly the kinds of tokens with a fixed text with which some
/// accepted text continues there. In a string, in a comment, after a fault of the same
/// policy and after a hundred faults there are none.
pub fn complete(
    alloc: Global,
    text: &str,
    position: Position,
    encoding: Encoding,
) -> Result<Completions, AllocError>
    ensures { IfOk result (AreCompletions encoding text.now position) }
{
    let end = offset_at(text, position, encoding);
    let start = word_start(text, end);
    let kinds = kinds_after(alloc, &text[..start])?;
    Ok(Completions {
        range: range_of(text, Span { start, end }, encoding),
        kinds,
    })
}

// Where the word before the byte `at` begins.
fn word_start(text: &str, at: usize) -> usize
    requires { IsCharBoundary text.now at }
    ensures word { BeginsWord text.now at result }
    ensures boundary { IsCharBoundary text.now result }
{
    let bytes = text.as_bytes();
    let mut start = at;
    while start > 0 && is_word_byte(bytes[start - 1]) {
        start -= 1;
    }
    start
}

// Whether it is a letter, a digit, `_`, or the `?` of a slot.
fn is_word_byte(byte: u8) -> bool
    ensures { result ≡ is_word_byte byte }
{
    matches!(byte, b'a'..=b'z' | b'A'..=b'Z' | b'0'..=b'9' | b'_' | b'?')
}

// The kinds of tokens with a fixed text that could come after a text. A character that begins no token is put there, and they
// are expected in its place.
fn kinds_after(alloc: Global, before: &str) -> Result<Vec<Kind>, AllocError>
    ensures { IfOk result (λ kinds. CouldCome before.now kinds.items) }
{
    let text = format!(in alloc; "{before}#")?;
    let faults = first_faults(alloc, text.as_str(), MOST)?;
    for fault in &faults {
        if is_open(fault.error) {
            return Ok(Vec::new(alloc));
        }
        if fault.expected.at == before.len() {
            return with_one_text(alloc, &fault.expected.kinds.items);
        }
    }
    Ok(Vec::new(alloc))
}

// Whether a string isn't finished.
fn is_open(error: FormatError) -> bool
    ensures { result ≡ is_open error }
{
    matches!(error, FormatError::UnfinishedString { .. })
}

// Those of the kinds whose tokens have one text.
fn with_one_text(alloc: Global, kinds: &[Kind]) -> Result<Vec<Kind>, AllocError>
    ensures { IfOk result (λ fixed. fixed.items ≡ filter has_one_text kinds.now) }
{
    kinds
        .iter()
        .copied()
        .filter(|kind| has_one_text(*kind))
        .collect(alloc)
}

// Whether all tokens of this kind have the same text.
fn has_one_text(kind: Kind) -> bool
    ensures { result ≡ has_one_text kind }
{
    !matches!(kind, Kind::Identifier | Kind::Number | Kind::Str)
}
