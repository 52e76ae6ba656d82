//! Faults in words.
ghost use Rattle.std.specs.Prelude.{◌≡◌, Some, IfOk, string_bytes};
ghost use Rattle.std.specs.Fmt.{DisplaysOnOk};
ghost use Rattle.std.specs.Str.{chars};
ghost use Rattle.cedar_faults.specs.Words.{code_point, found_point, message, said};

use crate::fault::Fault;
use cedar_grammar::error::FormatError;
use std::alloc::{AllocError, Global};
use std::fmt;

impl fmt::Display for Fault<'_> {
    ghost output = { λ f. Some (said f) };

    fn fmt<W: fmt::Write>(&self, f: &mut fmt::Formatter<W>) -> fmt::Result {
        let expected = &self.expected;
        match self.error {
            FormatError::UnknownCharacter { .. } => {
                write!(f, "{expected}")?;
                write_found_point(f, expected.found)
            }
            FormatError::UnfinishedString { .. } => f.write_str("this string is not finished"),
            FormatError::NumberTooLarge { .. } => {
                f.write_str("this number is above 18446744073709551615")
            }
            FormatError::TooDeep { .. } => {
                f.write_str("nested too deeply: more than 128 brackets and ifs")
            }
            _ => write!(f, "{expected}"),
        }
    }
}

impl Fault<'_> {
    /// The fault in words, with its tip if there is one: `SENTENCE; TIP`.
    pub fn message(&self, alloc: Global) -> Result<String, AllocError>
        ensures { IfOk result (λ text. string_bytes text ≡ message self.now) }
    {
        match self.tip() {
            Some(tip) => format!(in alloc; "{self}; {tip}"),
            None => format!(in alloc; "{self}"),
        }
    }
}

// The code point of what is there, if it is one character beyond ASCII.
fn write_found_point<W: fmt::Write>(f: &mut fmt::Formatter<W>, found: Option<&str>) -> fmt::Result
    ensures { DisplaysOnOk W.write_str_gives f.old result (Some (found_point found.entry)) f.new }
{
    match found {
        Some(found) => write_code_point(f, found),
        None => Ok(()),
    }
}

// The same of a text.
fn write_code_point<W: fmt::Write>(f: &mut fmt::Formatter<W>, text: &str) -> fmt::Result
    ensures { DisplaysOnOk W.write_str_gives f.old result (Some (code_point (chars text.now))) f.new }
{
    let mut characters = text.chars();
    let Some(character) = characters.next() else {
        return Ok(());
    };
    if character.is_ascii() {
        return Ok(());
    }
    match characters.next() {
        Some(_) => Ok(()),
        None => write!(f, " (U+{:X})", character as u32),
    }
}
