//! Parts of a text at positions.
ghost use Rattle.cedar_server.specs.Diagnoses.{IsRangeOf};

use cedar_edits::{Encoding, Range, position_at};
use cedar_tokens::token::Span;

/// The part of the text at the positions of its bytes.
pub(crate) fn range_of(text: &str, part: Span, encoding: Encoding) -> Range
    ensures { IsRangeOf encoding text.now part result }
{
    Range {
        start: position_at(text, part.start, encoding),
        end: position_at(text, part.end, encoding),
    }
}
