//! Sentences about refusals.
ghost use Rattle.std.specs.Prelude.{◌≡◌, IfOk, string_bytes};
ghost use Rattle.cedar_faults.specs.Sentences.{sentence, IsSaid};

use crate::expected::expected;
use cedar_grammar::error::FormatError;
use std::alloc::{AllocError, Global};

/// A sentence for people about the refusal `error` of `text`, without the place. If the text leaves the grammar, it says
/// what was expected there.
pub fn explain(alloc: Global, text: &str, error: FormatError) -> Result<String, AllocError>
    ensures { IfOk result (λ said. IsSaid text.now error (string_bytes said)) }
{
    if let FormatError::Grammar { .. } = error {
        if let Some(expected) = expected(alloc, text)? {
            return format!(in alloc; "{expected}");
        }
    }
    String::from_str(alloc, sentence(error))
}

// What is said about a refusal without the text.
fn sentence(error: FormatError) -> &'static str
    ensures { result.now ≡ sentence error }
{
    match error {
        FormatError::UnknownCharacter { .. } => "no token begins with this character",
        FormatError::UnfinishedString { .. } => "this string is not finished",
        FormatError::NumberTooLarge { .. } => "this number is above 18446744073709551615",
        FormatError::Grammar { .. } => "this can't stand here",
        FormatError::TooDeep { .. } => "nested too deeply: more than 128 brackets and ifs",
        FormatError::NoDocument => "a policy has no document",
        FormatError::Unsound => "formatting changed the policies",
        FormatError::OutOfMemory => "out of memory",
    }
}
