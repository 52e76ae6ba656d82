//! The part of a text that a range touches.
ghost use Rattle.cedar_edits.specs.Edits.{IsNamedPart};
ghost use Rattle.cedar_policy_formatter.specs.Pieces.{IsTouchedSpan};
ghost use Rattle.cedar_policy_formatter.specs.Inside.Growing.{Grows};

use crate::ranges::cuts::first_piece;
use crate::token::Span;
// The span of the pieces touched by the range.
pub(crate) fn touched_span(text: &str, range: Span) -> Span
    ensures span { IsTouchedSpan text.now range result }
    ensures part { IsNamedPart text.now result }
{
    let mut at = 0;
    let mut span = Span { start: 0, end: 0 };
    'pieces: while let Some(len) = first_piece(&text[at..]) {
        let end = at + len;
        span = with_piece(span, Span { start: at, end }, range);
        at = end;
    }
    span
}

// The span of the pieces touched so far, with one more piece after them.
fn with_piece(span: Span, piece: Span, range: Span) -> Span
    ensures { Grows range span piece result }
{
    if piece.end <= range.start {
        Span {
            start: piece.end,
            end: piece.end,
        }
    } else if piece.start < range.end || piece.start <= range.start {
        span.to(piece.end)
    } else {
        span
    }
}
