//! Which part of a text a fault is about.
ghost use Rattle.std.specs.Prelude.{◌≡◌, ◌≤◌, length};
ghost use Rattle.cedar_tokens.specs.Split.{Splits};
ghost use Rattle.cedar_faults.specs.FirstFaults.{IsFirstOf};
ghost use Rattle.cedar_faults.specs.Marks.{EndsLine, Marks, MarksLast, MarksUnit};
ghost use Rattle.cedar_faults.specs.Inside.Ends.{EndsLastOf, HasUnitAt};

use cedar_grammar::error::FormatError;
use cedar_tokens::laws::fault_prevents_split;
use cedar_tokens::lexer::{UnitKind, first_unit};
use cedar_tokens::token::Span;
use cedar_tokens::units::Units;

/// The bytes of the text that its first fault is about: a character that begins no token, an unfinished string up to the end
/// of its line, a number that is too large, or the token that can't stand there. Where the text ends too early, it is the
/// last character of the last token.
pub(crate) fn marked(text: &str, error: FormatError) -> Span
    requires { IsFirstOf text.now error }
    ensures { Marks text.now error result }
{
    match error {
        FormatError::UnknownCharacter { at } => Span {
            start: at,
            end: text.ceil_char_boundary(at + 1),
        },
        FormatError::UnfinishedString { at } => Span {
            start: at,
            end: line_end(text, at),
        },
        FormatError::NumberTooLarge { at } | FormatError::TooDeep { at } => unit_at(text, at),
        FormatError::Grammar { at } => {
            if at < text.len() {
                unit_at(text, at)
            } else {
                last_character(text)
            }
        }
        FormatError::NoDocument | FormatError::Unsound | FormatError::OutOfMemory => Span {
            start: 0,
            end: 0,
        },
    }
}

// The end of the line that the byte `at` is on, before what ends it.
fn line_end(text: &str, at: usize) -> usize
    requires { at ≤ length text.now }
    ensures { EndsLine text.now at result }
{
    let bytes = text.as_bytes();
    for end in at..bytes.len() {
        if bytes[end] == b'\n' || bytes[end] == b'\r' {
            return end;
        }
    }
    bytes.len()
}

// The unit that begins at the byte `at`.
fn unit_at(text: &str, at: usize) -> Span
    requires { HasUnitAt text.now at }
    ensures { MarksUnit text.now at result }
{
    let end = match first_unit(&text[at..]) {
        Some((_, len)) => at + len,
        None => at,
    };
    Span { start: at, end }
}

// The last character of the last token, which is one byte.
fn last_character(text: &str) -> Span
    requires { Splits text.now }
    ensures { MarksLast text.now result }
{
    match last_token_end(text) {
        Some(end) => Span {
            start: end - 1,
            end,
        },
        None => Span {
            start: text.len(),
            end: text.len(),
        },
    }
}

// Where the last token ends; `None` if there is no token.
fn last_token_end(text: &str) -> Option<usize>
    requires { Splits text.now }
    ensures { EndsLastOf text.now result }
{
    fault_prevents_split();
    let mut at = 0;
    let mut last = None;
    for unit in Units::new(text) {
        at += unit.text.len();
        if unit.kind == UnitKind::Token {
            last = Some(at);
        }
    }
    last
}
