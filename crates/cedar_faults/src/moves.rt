//! Faults of a part of a text as faults of the whole.
ghost use Rattle.std.specs.Prelude.{◌≡◌, ◌+◌, ◌<◌, ◌^◌, ◌≢◌, IfSome, MatchOption, None, Some, option_map, ⊤};
ghost use Rattle.cedar_faults.specs.Faults.{later, moved, moved_bracket, moved_part};
ghost use Rattle.cedar_grammar.specs.Refusals.{place_of};
ghost use Rattle.cedar_faults.specs.Inside.Searches.{HasRoom, HasRoomAt};

use crate::brackets::Bracket;
use crate::expectation::Expected;
use crate::fault::Fault;
use cedar_grammar::error::FormatError;
use cedar_tokens::token::Span;

/// The place of an error.
pub(crate) fn place(error: FormatError) -> usize
    requires { place_of error ≢ None }
    ensures { place_of error ≡ Some result }
{
    error.at().unwrap_or(0)
}

/// The fault so many bytes later.
pub(crate) fn moved<'src>(fault: Fault<'src>, by: usize) -> Fault<'src>
    requires { HasRoom by fault }
    ensures { result ≡ moved by fault.entry }
{
    Fault {
        error: later(fault.error, by),
        part: moved_part(fault.part, by),
        expected: Expected {
            at: by + fault.expected.at,
            ..fault.expected
        },
        unclosed: moved_bracket(fault.unclosed, by),
    }
}

// The part so many bytes later.
fn moved_part(part: Span, by: usize) -> Span
    requires start { by + part.start < 2 ^ 64 }
    requires end { by + part.end < 2 ^ 64 }
    ensures { result ≡ moved_part by part }
{
    Span {
        start: by + part.start,
        end: by + part.end,
    }
}

// The bracket so many bytes later.
fn moved_bracket(bracket: Option<Bracket>, by: usize) -> Option<Bracket>
    requires { IfSome bracket (HasRoomAt by) }
    ensures { result ≡ option_map (moved_bracket by) bracket }
{
    let Bracket { part, kind } = bracket?;
    let part = moved_part(part, by);
    Some(Bracket { part, kind })
}

// The error with its place so many bytes later.
fn later(error: FormatError, by: usize) -> FormatError
    requires { MatchOption (place_of error) ⊤ (λ at. by + at < 2 ^ 64) }
    ensures { result ≡ later by error }
{
    match error {
        FormatError::UnknownCharacter { at } => FormatError::UnknownCharacter { at: by + at },
        FormatError::UnfinishedString { at } => FormatError::UnfinishedString { at: by + at },
        FormatError::NumberTooLarge { at } => FormatError::NumberTooLarge { at: by + at },
        FormatError::Grammar { at } => FormatError::Grammar { at: by + at },
        FormatError::TooDeep { at } => FormatError::TooDeep { at: by + at },
        FormatError::NoDocument => FormatError::NoDocument,
        FormatError::Unsound => FormatError::Unsound,
        FormatError::OutOfMemory => FormatError::OutOfMemory,
    }
}
