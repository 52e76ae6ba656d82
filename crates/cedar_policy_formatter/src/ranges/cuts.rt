//! Where the first piece of a text ends, by its units alone.
ghost use Rattle.std.specs.Prelude.{◌≡◌, ◌≤◌, ◌<◌, length, IfSome, MatchOption};
ghost use Rattle.std.specs.Str.{IsCharBoundary};
ghost use Rattle.cedar_reading.specs.Pieces.{HasNoPiece, IsFirstPiece};
ghost use Rattle.cedar_reading.specs.Inside.Steps.{EndsInSemicolon};

use cedar_reading::pieces::rest_of_line;
use cedar_tokens::units::Units;

// The bytes of the first piece of the text; `None` if no `;` is left before the text ends or no unit begins.
pub(crate) fn first_piece(text: &str) -> Option<usize>
    ensures piece { MatchOption result (HasNoPiece text.now) (IsFirstPiece text.now) }
    ensures boundary { IfSome result (IsCharBoundary text.now) }
    ensures nonempty { IfSome result (λ n. 0 < n) }
    ensures within { IfSome result (λ n. n ≤ length text.now) }
{
    let end = through_semicolon(text)?;
    Some(end + rest_of_line(&text[end..]))
}

// The bytes through the first `;`.
fn through_semicolon(text: &str) -> Option<usize>
    ensures end { MatchOption result (HasNoPiece text.now) (EndsInSemicolon text.now) }
    ensures boundary { IfSome result (IsCharBoundary text.now) }
    ensures nonempty { IfSome result (λ n. 0 < n) }
    ensures within { IfSome result (λ n. n ≤ length text.now) }
{
    let mut end = 0;
    for unit in Units::new(text) {
        end += unit.text.len();
        if unit.text == ";" {
            return Some(end);
        }
    }
    None
}
