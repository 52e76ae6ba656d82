//! Changes of a text.
ghost use Rattle.std.specs.Prelude.{IfOk, string_bytes};
ghost use Rattle.cedar_edits.specs.Changes.{MakeInTurn, Makes, Puts};

use crate::positions::{Encoding, Position, offset_at};
use std::alloc::{AllocError, Global};

/// Two positions in a text. The second is that of the first byte after the range.
#[derive(Clone, Copy)]
pub struct Range {
    pub start: Position,
    pub end: Position,
}

/// A change of a text.
#[derive(Drop)]
pub enum Change {
    /// This is the whole text from now on.
    Whole(String),
    /// This text replaces a range. A range that ends before it begins is empty, and is where it begins.
    Part { range: Range, text: String },
}

/// A new text for a range of positions.
///
/// The ranges of several edits are positions in the same text, each after the one before it, and don't overlap.
#[derive(Drop)]
pub struct PlacedEdit {
    pub range: Range,
    pub text: String,
}

/// The text after these changes, each applied to the result of the one before it. The only error is out of memory.
pub fn changed_text(
    alloc: Global,
    text: &str,
    changes: Vec<Change>,
    encoding: Encoding,
) -> Result<String, AllocError>
    ensures { IfOk result (λ new. MakeInTurn encoding changes.items text.now (string_bytes new)) }
{
    let mut changed = String::from_str(alloc, text)?;
    for change in changes {
        changed = make(alloc, changed, change, encoding)?;
    }
    Ok(changed)
}

// The text after a change.
fn make(
    alloc: Global,
    text: String,
    change: Change,
    encoding: Encoding,
) -> Result<String, AllocError>
    ensures { IfOk result (λ new. Makes encoding change (string_bytes text) (string_bytes new)) }
{
    match change {
        Change::Whole(whole) => Ok(whole),
        Change::Part { range, text: put } => {
            replace(alloc, text.as_str(), range, put.as_str(), encoding)
        }
    }
}

// The text with a range replaced by another text.
fn replace(
    alloc: Global,
    text: &str,
    range: Range,
    put: &str,
    encoding: Encoding,
) -> Result<String, AllocError>
    ensures { IfOk result (λ new. Puts encoding range put.now text.now (string_bytes new)) }
{
    let start = offset_at(text, range.start, encoding);
    let end = start.max(offset_at(text, range.end, encoding));
    let mut new = String::new(alloc);
    new.push_str(&text[..start])?;
    new.push_str(put)?;
    new.push_str(&text[end..])?;
    Ok(new)
}
