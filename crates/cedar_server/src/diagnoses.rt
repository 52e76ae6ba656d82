//! What is wrong with a text.
ghost use Rattle.std.specs.Prelude.{◌≡◌, IfOk};
ghost use Rattle.cedar_server.specs.Diagnoses.{Relates, Tells, TellsMore, code_of};

use crate::ranges::range_of;
use cedar_edits::{Encoding, Range};
use cedar_faults::brackets::Bracket;
use cedar_faults::fault::Fault;
use cedar_grammar::error::FormatError;
use std::alloc::{AllocError, Global};

/// The reason of a fault.
#[derive(Clone, Copy)]
pub enum Code {
    /// No token begins with this character.
    UnknownCharacter,
    /// A string isn't finished.
    UnfinishedString,
    /// A number is too large.
    NumberTooLarge,
    /// A token can't be there, or one is missing.
    Grammar,
    /// Brackets and `if`s are nested too deeply.
    TooDeep,
    /// There are more faults, which are left out.
    More,
}

/// Another part of the text that a diagnosis refers to.
#[derive(Drop)]
pub struct Related {
    /// The part: a bracket that isn't closed.
    pub range: Range,
    /// What is said of it.
    pub message: String,
}

/// A fault of a text, as an editor shows it.
#[derive(Drop)]
pub struct Diagnosis {
    /// The part that the fault is about: a character that begins no token, an unfinished string up to the end of its line, the
    /// number or token that can't be there, or the last character of the last token where the text ends too early.
    pub range: Range,
    /// The reason.
    pub code: Code,
    /// What is wrong, in words, with a tip if there is one.
    pub message: String,
    /// The bracket that the fault leaves open.
    pub related: Option<Related>,
}

/// How many faults of a text are reported at most, before it is said that there are more.
pub const MOST: usize = 100;

/// What is reported of a fault of the text.
pub fn tell(
    alloc: Global,
    text: &str,
    fault: &Fault<'_>,
    encoding: Encoding,
) -> Result<Diagnosis, AllocError>
    ensures { IfOk result (Tells encoding text.now fault.now) }
{
    let message = fault.message(alloc)?;
    let related = relate(alloc, text, fault.unclosed, encoding)?;
    Ok(Diagnosis {
        range: range_of(text, fault.part, encoding),
        code: code_of(fault.error),
        message,
        related,
    })
}

/// What is reported at the first fault of the text that is left out.
pub fn tell_more(
    alloc: Global,
    text: &str,
    fault: &Fault<'_>,
    encoding: Encoding,
) -> Result<Diagnosis, AllocError>
    ensures { IfOk result (TellsMore encoding text.now fault.now) }
{
    let message = String::from_str(alloc, "more faults, which are left out")?;
    Ok(Diagnosis {
        range: range_of(text, fault.part, encoding),
        code: Code::More,
        message,
        related: None,
    })
}

// What is reported of a bracket that isn't closed, if there is one.
fn relate(
    alloc: Global,
    text: &str,
    unclosed: Option<Bracket>,
    encoding: Encoding,
) -> Result<Option<Related>, AllocError>
    ensures { IfOk result (Relates encoding text.now unclosed) }
{
    let Some(bracket) = unclosed else {
        return Ok(None);
    };
    let message = format!(in alloc; "{bracket}")?;
    let range = range_of(text, bracket.part, encoding);
    Ok(Some(Related { range, message }))
}

// The reason without its place.
fn code_of(error: FormatError) -> Code
    ensures { result ≡ code_of error }
{
    match error {
        FormatError::UnknownCharacter { .. } => Code::UnknownCharacter,
        FormatError::UnfinishedString { .. } => Code::UnfinishedString,
        FormatError::NumberTooLarge { .. } => Code::NumberTooLarge,
        FormatError::TooDeep { .. } => Code::TooDeep,
        _ => Code::Grammar,
    }
}
