//! Looking a place up.
ghost use Rattle.std.specs.Prelude.{◌≡◌};
ghost use Rattle.cedar_policy_formatter.specs.Places.{line_at, column_at};

use crate::places::Place;

/// The line and the column of the byte `at` of the text, counted from 0.
///
/// Only a line feed ends a line, and it belongs to the line that it ends; a carriage return is a character like any other.
/// A byte inside a character has the place where that character begins, and one past the end that where the text ends.
pub fn place(text: &str, at: usize) -> Place
    ensures line { result.line ≡ line_at text.now at }
    ensures column { result.column ≡ column_at text.now at }
{
    let before = &text[..text.floor_char_boundary(at)];
    let line_start = match before.rfind('\n') {
        Some(feed) => feed + 1,
        None => 0,
    };
    Place {
        line: 1 + before.bytes().filter(|b| *b == b'\n').count(),
        column: 1 + before[line_start..].chars().count(),
    }
}
