//! How a fault of a text is shown.
ghost use Rattle.std.specs.Prelude.{◌≡◌, IfOk, string_bytes};
ghost use Rattle.cedar_files.specs.Faults.{IsCutAt, IsMarkedLine, IsPlaceAt, IsShownBracket, byte_of, end_shown, marked, on_one_line, start_shown};

use crate::places::{Place, first_line, last_line, place_after};
use cedar_faults::fault::Fault;
use std::alloc::{AllocError, Global};
use unicode_width::UnicodeWidthStr;

const BYTE_ORDER_MARK: char = '\u{feff}';

// The most characters shown before a place and after it.
const SHOWN: usize = 60;

/// A bracket that a fault leaves open, as it is shown.
#[derive(Drop)]
pub struct ShownBracket {
    /// Where it is.
    pub place: Place,
    /// What is said of it.
    pub message: String,
    /// The line of the place, and below it a mark under the place.
    pub marked_line: String,
}

/// A fault of a text, as it is shown.
#[derive(Clone, Copy)]
pub struct ShownFault<'a, 'src> {
    /// The text.
    pub text: &'a str,
    /// The fault.
    pub fault: &'a Fault<'src>,
}

impl ShownFault<'_, '_> {
    /// Where it is: at what can't be there, or after the last token of a text that ends too early.
    pub fn place(&self) -> Place
        ensures { IsPlaceAt self.now.text.now (byte_of self.now.fault.now) result }
    {
        let (before, _) = self.halves(self.byte());
        place_after(before.as_bytes())
    }

    /// What is wrong, and a tip if there is one.
    pub fn reason(&self, alloc: Global) -> Result<String, AllocError> {
        if self.byte() == 0 && self.text.starts_with(BYTE_ORDER_MARK) {
            return String::from_str(alloc, "a byte order mark at the start");
        }
        self.fault.message(alloc)
    }

    /// The line of the place, and below it a mark under the place.
    pub fn marked_line(&self, alloc: Global) -> Result<String, AllocError>
        ensures { IfOk result (λ shown. IsMarkedLine self.now.text.now (byte_of self.now.fault.now) (string_bytes shown)) }
    {
        let (before, after) = self.halves(self.byte());
        line_with_mark(alloc, last_line(before), first_line(after))
    }

    /// The bracket that it leaves open.
    pub fn bracket(&self, alloc: Global) -> Result<Option<ShownBracket>, AllocError>
        ensures { IfOk result (IsShownBracket self.now.text.now self.now.fault.now.unclosed) }
    {
        let Some(bracket) = self.fault.unclosed else {
            return Ok(None);
        };
        let (before, after) = self.halves(bracket.part.start);
        Ok(Some(ShownBracket {
            place: place_after(before.as_bytes()),
            message: format!(in alloc; "{bracket}")?,
            marked_line: line_with_mark(alloc, last_line(before), first_line(after))?,
        }))
    }

    // The byte of the place.
    fn byte(&self) -> usize
        ensures { result ≡ byte_of self.now.fault.now }
    {
        match self.fault.expected.found {
            Some(_) => self.fault.part.start,
            None => self.fault.part.end,
        }
    }

    // The text before a byte, and from it on.
    fn halves(&self, byte: usize) -> (&str, &str)
        ensures { IsCutAt self.now.text.now byte result.0.now result.1.now }
    {
        self.text.split_at(self.text.floor_char_boundary(byte))
    }
}

// A line that has `left` before a place and `right` from it on, and below it a mark under the place.
fn line_with_mark(alloc: Global, left: &str, right: &str) -> Result<String, AllocError>
    ensures { IfOk result (λ shown. string_bytes shown ≡ marked left.now right.now) }
{
    let left = end_shown(alloc, left)?;
    let right = start_shown(alloc, right)?;
    let blanks = " ".repeat(alloc, left.as_str().width())?;
    format!(in alloc; "{left}{right}\n{blanks}^")
}

// The last characters of a text, as they are shown.
fn end_shown(alloc: Global, text: &str) -> Result<String, AllocError>
    ensures { IfOk result (λ shown. string_bytes shown ≡ end_shown text.now) }
{
    let hidden = text.chars().count().saturating_sub(SHOWN);
    text.chars().skip(hidden).map(on_one_line).collect(alloc)
}

// The first characters of a text, as they are shown.
fn start_shown(alloc: Global, text: &str) -> Result<String, AllocError>
    ensures { IfOk result (λ shown. string_bytes shown ≡ start_shown text.now) }
{
    text.chars().take(SHOWN).map(on_one_line).collect(alloc)
}

// A character as it is shown: a space for one that would move the cursor.
fn on_one_line(character: char) -> char
    ensures { result ≡ on_one_line character }
{
    if character.is_control() {
        ' '
    } else {
        character
    }
}
