//! Laws of positions. The functions do nothing: their contracts are the laws.
ghost use Rattle.cedar_edits.specs.Laws.{OffsetsAreDetermined, PositionsAreFound};

/// The byte of the position of a byte is that byte, if a character begins or the text ends there, and it isn't between a
/// carriage return and its line feed.
pub fn positions_are_found()
    ensures { PositionsAreFound }
{}

/// A position has one byte.
pub fn offsets_are_determined()
    ensures { OffsetsAreDetermined }
{}
