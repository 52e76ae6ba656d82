//! Edits by the positions that an editor counts in.
ghost use Rattle.std.specs.Prelude.{◌≡◌, ◌≤◌, length, IfOk};
ghost use Rattle.cedar_edits.specs.Changes.{PutsAll};
ghost use Rattle.cedar_edits.specs.Laws.{CanBeNamed};
ghost use Rattle.cedar_edits.specs.Positions.{IsLineAt, IsOffsetOf};
ghost use Rattle.cedar_edits.specs.Edits.{AreInOrder, edited_by};

use crate::changes::{PlacedEdit, Range};
use crate::edits::Edit;
use crate::positions::{Encoding, Line, Position, line_from, position_on};
use std::alloc::{AllocError, Global};

/// The edits by positions in the text, in the same order. The only error is out of memory.
///
/// An edit that ends where the text ends, on a line without a line end, ends at the line after that one: so an editor
/// that adds a line end to the last line of a file sees that the edit brings its own.
pub fn place_edits(
    alloc: Global,
    text: &str,
    edits: Vec<Edit>,
    encoding: Encoding,
) -> Result<Vec<PlacedEdit>, AllocError>
    requires { AreInOrder text.now 0 edits.items }
    ensures puts { IfOk result (λ placed. PutsAll encoding placed.items text.now (edited_by text.now edits.items)) }
    ensures count { IfOk result (λ placed. length placed.items ≡ length edits.items) }
{
    let mut placed = Vec::new(alloc);
    let mut line = Line::FIRST;
    for edit in edits {
        let first = line_from(text, line, edit.span.start);
        line = line_from(text, first, edit.span.end);
        let range = Range {
            start: position_on(text, first, edit.span.start, encoding),
            end: end_on(text, line, edit.span.end, encoding),
        };
        placed.push(PlacedEdit {
            range,
            text: edit.text,
        })?;
    }
    Ok(placed)
}

// The position of the end of an edit.
fn end_on(text: &str, line: Line, at: usize, encoding: Encoding) -> Position
    requires line { IsLineAt text.now at line }
    requires inside { at ≤ length text.now }
    requires named { CanBeNamed text.now at }
    ensures { IsOffsetOf encoding text.now result at }
{
    if at == text.len() && line.start < at {
        Position {
            line: line.number + 1,
            character: 0,
        }
    } else {
        position_on(text, line, at, encoding)
    }
}
