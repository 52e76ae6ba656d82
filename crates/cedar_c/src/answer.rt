//! What a call answers to C.
ghost use Rattle.std.specs.Prelude.{◌≡◌};
ghost use Rattle.cedar_c.specs.Answers as said;
ghost use Rattle.cedar_c.specs.declared.answer.CallFault.TheVariants.{Format};

use cedar_policy_formatter::FormatError;

/// The kind of a result.
pub const RESULT: u32 = 0;
/// The kind of an answer without memory.
pub const OUT_OF_MEMORY: u32 = 8;
/// The kind of bytes that aren't UTF-8.
pub const NOT_UTF8: u32 = 9;
/// The kind of an answer for too small a room.
pub const NO_ROOM: u32 = 10;

/// What a call answers: a kind, and the number that belongs to it.
#[repr(C)]
#[derive(Clone, Copy)]
pub struct Answer {
    /// 0 for a result, 1 to 8 for a refused text, 9 for bytes that aren't UTF-8, 10 if the room is too small.
    pub kind: u32,
    /// With 0 it is the result: a length in bytes, or 1 for yes and 0 for no. With 1 to 5 it is the byte of the refusal,
    /// from 0. With 10 it is the length in bytes that is needed. Otherwise it is 0.
    pub number: usize,
}

/// Where a byte of a text is.
#[repr(C)]
#[derive(Clone, Copy)]
pub struct PlaceAnswer {
    /// 0 for a place, 9 for bytes that aren't UTF-8.
    pub kind: u32,
    /// The line, from 1; with 9 it is 0.
    pub line: usize,
    /// The column in characters, from 1; with 9 it is 0.
    pub column: usize,
}

/// A fault of a text, as C sees it.
#[repr(C)]
#[derive(Clone, Copy)]
pub struct FaultAnswer {
    /// 0 if there is no fault, 1 to 5 for a fault, 8 if memory was refused, 9 for bytes that aren't UTF-8. All else is 0 unless
    /// there is a fault.
    pub kind: u32,
    /// The byte of the fault.
    pub at: usize,
    /// The first of the bytes that it is about.
    pub start: usize,
    /// The byte after the last one of them.
    pub end: usize,
    /// The byte of the innermost bracket of the policy that the fault leaves open; 0 if there is none.
    pub unclosed_start: usize,
    /// The byte after that bracket; 0 if there is none.
    pub unclosed_end: usize,
    /// The byte from which to search for the next fault.
    pub next: usize,
    /// The length of its message in bytes, whether there was room for it or not.
    pub length: usize,
}

/// Why a call has no result.
#[derive(Clone, Copy)]
pub enum CallFault {
    /// The bytes aren't UTF-8.
    NotUtf8,
    /// The result has this many bytes, more than there is room for.
    NoRoom { length: usize },
    /// The text is refused.
    Format(FormatError),
}

impl From<FormatError> for CallFault {
    ghost from_gives = { λ error fault. fault ≡ Format error };

    fn from(error: FormatError) -> CallFault {
        CallFault::Format(error)
    }
}

/// The answer of this kind, without a fault.
pub fn no_fault(kind: u32) -> FaultAnswer
    ensures { result ≡ said.no_fault kind }
{
    FaultAnswer {
        kind,
        at: 0,
        start: 0,
        end: 0,
        unclosed_start: 0,
        unclosed_end: 0,
        next: 0,
        length: 0,
    }
}

/// The answer that says a call's result, or why it has none.
pub fn answer_of(outcome: Result<usize, CallFault>) -> Answer
    ensures { result ≡ said.answer_of outcome }
{
    match outcome {
        Ok(number) => Answer {
            kind: RESULT,
            number,
        },
        Err(CallFault::Format(error)) => refusal(error),
        Err(CallFault::NotUtf8) => Answer {
            kind: NOT_UTF8,
            number: 0,
        },
        Err(CallFault::NoRoom { length }) => Answer {
            kind: NO_ROOM,
            number: length,
        },
    }
}

/// The answer that says why a text is refused.
pub fn refusal(error: FormatError) -> Answer
    ensures { result ≡ said.answer_of_error error }
{
    let (kind, number) = match error {
        FormatError::UnknownCharacter { at } => (1, at),
        FormatError::UnfinishedString { at } => (2, at),
        FormatError::NumberTooLarge { at } => (3, at),
        FormatError::Grammar { at } => (4, at),
        FormatError::TooDeep { at } => (5, at),
        FormatError::NoDocument => (6, 0),
        FormatError::Unsound => (7, 0),
        FormatError::OutOfMemory => (8, 0),
    };
    Answer { kind, number }
}
