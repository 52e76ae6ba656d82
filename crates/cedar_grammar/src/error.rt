//! Why a text is refused.
ghost use Rattle.std.specs.Prelude.{◌≡◌};
ghost use Rattle.cedar_grammar.specs.Refusals.{place_of};
ghost use Rattle.cedar_grammar.specs.declared.error.FormatError.TheVariants.{OutOfMemory};

use std::alloc::{AllocError, AllocFailed};
use thiserror::Error;

/// Why a text is refused. Each place is a byte offset from 0.
#[derive(Clone, Copy, Debug, PartialEq, Eq, Error)]
pub enum FormatError {
    /// No blank, comment or token begins there.
    #[error("unknown character at byte {at}")]
    UnknownCharacter { at: usize },
    /// The string that begins there has no end.
    #[error("unfinished string at byte {at}")]
    UnfinishedString { at: usize },
    /// The number that begins there is above 18446744073709551615.
    #[error("number too large at byte {at}")]
    NumberTooLarge { at: usize },
    /// The token that begins there can't stand there; at the text's length, a token is missing.
    #[error("not in the grammar at byte {at}")]
    Grammar { at: usize },
    /// The token that begins there is nested more than 128 deep.
    #[error("nested too deeply at byte {at}")]
    TooDeep { at: usize },
    /// A policy yielded no document.
    #[error("failed to produce doc")]
    NoDocument,
    /// The formatted text isn't the same policies.
    #[error("formatter changed the policies")]
    Unsound,
    /// An allocation failed.
    #[error("out of memory")]
    OutOfMemory,
}

impl FormatError {
    /// The place that the text is refused at, as a byte offset from 0. None if the reason has none.
    pub fn at(self) -> Option<usize>
        ensures { result ≡ place_of self }
    {
        match self {
            FormatError::UnknownCharacter { at }
            | FormatError::UnfinishedString { at }
            | FormatError::NumberTooLarge { at }
            | FormatError::Grammar { at }
            | FormatError::TooDeep { at } => Some(at),
            FormatError::NoDocument | FormatError::Unsound | FormatError::OutOfMemory => None,
        }
    }
}

impl From<AllocError> for FormatError {
    ghost from_gives = { λ _ e. e ≡ OutOfMemory };

    fn from(_error: AllocError) -> FormatError {
        FormatError::OutOfMemory
    }
}

impl<T: Drop> From<AllocFailed<T>> for FormatError {
    ghost from_gives = { λ _ e. e ≡ OutOfMemory };

    fn from(_failed: AllocFailed<T>) -> FormatError {
        FormatError::OutOfMemory
    }
}
