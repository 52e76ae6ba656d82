//! Positions in a text.
ghost use Rattle.std.specs.Prelude.{◌≡◌, ◌<◌, ◌≤◌, length, IfSome, IfNone, MatchOption};
ghost use Rattle.std.specs.Str.{IsCharBoundary};
ghost use Rattle.cedar_edits.specs.Positions.{BeginsLine, IsLineAt, IsOffsetOf, IsPlaceOnLine, IsPositionAt, IsPositionOf, ends_line, lines_before, unit_count, units};
ghost use Rattle.cedar_edits.specs.Inside.Ends.{IsNextEnd};

use memchr::memchr2;

/// The unit in which the characters of a line are counted.
#[derive(Clone, Copy)]
pub enum Encoding {
    /// UTF-16 units: two for a character above U+FFFF, and one for any other.
    Utf16,
    /// The bytes of UTF-8.
    Utf8,
    /// Characters.
    Utf32,
}

/// A place in a text: its line and the units before it on that line, both from 0.
///
/// A line ends with a line feed, a carriage return, or both in this order.
#[derive(Clone, Copy)]
pub struct Position {
    pub line: usize,
    pub character: usize,
}

/// A line of a text: its number, and the byte where it begins, both from 0.
#[derive(Clone, Copy)]
pub struct Line {
    pub number: usize,
    pub start: usize,
}

impl Line {
    /// The first line.
    pub const FIRST: Line = Line {
        number: 0,
        start: 0,
    };
}

/// The position of the byte `at` of the text, counted from 0.
///
/// A byte inside a character has the position where that character begins, and one past the end that where the text ends. A
/// line feed that follows a carriage return is on the line that both end.
pub fn position_at(text: &str, at: usize, encoding: Encoding) -> Position
    ensures { IsPositionAt encoding text.now at result }
{
    let kept = text.floor_char_boundary(at);
    let line = line_from(text, Line::FIRST, kept);
    position_on(text, line, kept, encoding)
}

/// The line of the byte `at`, counted from 0, found by walking on from where `from` begins, or from the start if that
/// is past it.
///
/// So the lines of many bytes in ascending order are found in one walk along the text.
pub fn line_from(text: &str, from: Line, at: usize) -> Line
    requires begins { BeginsLine text.now from.number from.start }
    requires inside { at ≤ length text.now }
    ensures { IsLineAt text.now at result }
{
    let from = if from.start <= at { from } else { Line::FIRST };
    walk(text.as_bytes(), from, at)
}

/// The position of the byte `at`, counted from 0, which is on this line.
pub fn position_on(text: &str, line: Line, at: usize, encoding: Encoding) -> Position
    requires line { IsLineAt text.now at line }
    requires inside { at ≤ length text.now }
    ensures { IsPositionOf encoding text.now at result }
{
    let bytes = text.as_bytes();
    Position {
        line: line.number,
        character: units(&bytes[line.start..at], encoding),
    }
}

/// The byte of a position, counted from 0.
///
/// A line past the last one means the end of the text. A character past the end of the line means that end, before what ends
/// the line, and one inside a character of several units means where that character begins.
pub fn offset_at(text: &str, position: Position, encoding: Encoding) -> usize
    ensures offset { IsOffsetOf encoding text.now position result }
    ensures boundary { IsCharBoundary text.now result }
{
    match line_start(text, position.line) {
        Some(start) => place_on_line(text, start, position.character, encoding),
        None => text.len(),
    }
}

// Whether the byte at `i` is the last one of a line.
fn ends_line(bytes: &[u8], i: usize) -> bool
    requires { i < length bytes.now }
    ensures { result ≡ ends_line bytes.now i }
{
    match bytes[i] {
        b'\n' => true,
        b'\r' => bytes.get(i + 1) != Some(&b'\n'),
        _ => false,
    }
}

// The units that a byte adds.
fn unit_count(byte: u8, encoding: Encoding) -> usize
    ensures count { result ≡ unit_count encoding byte }
    ensures bound { result ≤ 2 }
{
    match encoding {
        Encoding::Utf8 => 1,
        Encoding::Utf32 => { if byte < 0x80 || byte >= 0xc0 { 1 } else { 0 } }
        Encoding::Utf16 => {
            if byte < 0x80 {
                1
            } else if byte < 0xc0 {
                0
            } else if byte < 0xf0 {
                1
            } else {
                2
            }
        }
    }
}

// The units of these bytes.
fn units(bytes: &[u8], encoding: Encoding) -> usize
    ensures { result ≡ units encoding bytes.now }
{
    let mut count = 0;
    for byte in bytes {
        count += unit_count(*byte, encoding);
    }
    count
}

// The line of the byte `at`, found by walking on from where `from` begins.
fn walk(bytes: &[u8], from: Line, at: usize) -> Line
    requires begins { BeginsLine bytes.now from.number from.start }
    requires order { from.start ≤ at }
    requires inside { at ≤ length bytes.now }
    ensures { IsLineAt bytes.now at result }
{
    let mut line = from;
    'lines: while let Some(end) = next_end(bytes, line.start, at) {
        line = Line {
            number: line.number + 1,
            start: end + 1,
        };
    }
    line
}

// The first of the bytes from `from` up to `to` that ends a line.
fn next_end(bytes: &[u8], from: usize, to: usize) -> Option<usize>
    requires order { from ≤ to }
    requires inside { to ≤ length bytes.now }
    ensures { MatchOption result (lines_before bytes.now to ≡ lines_before bytes.now from) (IsNextEnd bytes.now from to) }
{
    let mut at = from;
    'candidates: while let Some(skipped) = memchr2(b'\n', b'\r', &bytes[at..to]) {
        let i = at + skipped;
        if ends_line(bytes, i) {
            return Some(i);
        }
        at = i + 1;
    }
    None
}

// Where a line begins; `None` for one past the last.
fn line_start(text: &str, line: usize) -> Option<usize>
    ensures start { MatchOption result (lines_before text.now (length text.now) < line) (BeginsLine text.now line) }
    ensures boundary { IfSome result (IsCharBoundary text.now) }
{
    let bytes = text.as_bytes();
    let mut start = 0;
    for _ in 0..line {
        start = next_end(bytes, start, bytes.len())? + 1;
    }
    Some(start)
}

// The last place on the line from `start` on with at most so many units before it.
fn place_on_line(text: &str, start: usize, character: usize, encoding: Encoding) -> usize
    requires { IsCharBoundary text.now start }
    ensures { IsPlaceOnLine encoding text.now start character result }
{
    let bytes = text.as_bytes();
    let mut last = start;
    let mut used = 0;
    for i in start..bytes.len() {
        if text.is_char_boundary(i) && used <= character {
            last = i;
        }
        let byte = bytes[i];
        if byte == b'\n' || byte == b'\r' {
            return last;
        }
        used += unit_count(byte, encoding);
    }
    if used <= character { bytes.len() } else { last }
}
