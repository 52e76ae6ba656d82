//! The first piece of a text and its lexemes, in one reading.
ghost use Rattle.std.specs.Prelude.{◌≡◌, ◌≤◌, ◌<◌, length, take, MatchOption, IfSome, IfOk};
ghost use Rattle.std.specs.Str.{IsCharBoundary};
ghost use Rattle.cedar_reading.specs.Tokens.{HasTokens};
ghost use Rattle.cedar_reading.specs.Lexemes.{AreLexemes};
ghost use Rattle.cedar_reading.specs.Pieces.{EndsLine, IsFirstPiece, HasNoPiece};
ghost use Rattle.cedar_reading.specs.Inside.Steps.{LexesToSemicolon};

use crate::lexeme::{Lexeme, is_too_large};
use cedar_tokens::kind::kind_of;
use cedar_tokens::lexer::UnitKind;
use cedar_tokens::token::Span;
use cedar_tokens::units::Units;
use std::alloc::AllocError;

/// The bytes of the first piece of `text`; its lexemes are stored in `lexemes`. A piece extends through its first `;` and
/// the rest of that line, including the line feed, up to the next token. The answer is `None` if there is no `;`, and the
/// lexemes are then those of the whole text; or if the tokens of the text can't be parsed. The former contents of `lexemes`
/// are dropped, and its memory is reused.
pub fn read_piece<'src>(
    text: &'src str,
    lexemes: &mut Vec<Lexeme<'src>>,
) -> Result<Option<usize>, AllocError>
    ensures piece { IfOk result (λ len. MatchOption len (HasTokens text.now → HasNoPiece text.now) (IsFirstPiece text.now)) }
    ensures lexemes { IfOk result (λ len. MatchOption len (HasTokens text.now → AreLexemes text.now lexemes.new.items) (λ n. AreLexemes (take n text.now) lexemes.new.items)) }
    ensures boundary { IfOk result (λ len. IfSome len (λ n. IsCharBoundary text.now n)) }
    ensures nonempty { IfOk result (λ len. IfSome len (λ n. 0 < n)) }
    ensures within { IfOk result (λ len. IfSome len (λ n. n ≤ length text.now)) }
{
    let Some(end) = lex_to_semicolon(text, lexemes)? else {
        return Ok(None);
    };
    Ok(Some(end + rest_of_line(&text[end..])))
}

// The bytes through the first `;`, and the lexemes up to there; without a `;`, all lexemes. `None` also at a number that is
// too large, or where no unit begins.
fn lex_to_semicolon<'src>(
    text: &'src str,
    lexemes: &mut Vec<Lexeme<'src>>,
) -> Result<Option<usize>, AllocError>
    ensures none { IfOk result (λ end. MatchOption end (HasTokens text.now → HasNoPiece text.now) (λ n. 0 < n)) }
    ensures lexemes { IfOk result (λ end. MatchOption end (HasTokens text.now → AreLexemes text.now lexemes.new.items) (λ n. LexesToSemicolon text.now n lexemes.new.items)) }
    ensures boundary { IfOk result (λ end. IfSome end (λ n. IsCharBoundary text.now n)) }
    ensures within { IfOk result (λ end. IfSome end (λ n. n ≤ length text.now)) }
{
    lexemes.clear();
    let mut end = 0;
    for unit in Units::new(text) {
        let start = end;
        end += unit.text.len();
        if unit.kind == UnitKind::Token {
            if is_too_large(unit.text) {
                return Ok(None);
            }
            lexemes.push(Lexeme {
                kind: kind_of(unit.text),
                text: unit.text,
                span: Span { start, end },
            })?;
            if unit.text == ";" {
                return Ok(Some(end));
            }
        }
    }
    Ok(None)
}

/// The bytes of blanks and comments at the start of `text`, through the first line feed.
pub fn rest_of_line(text: &str) -> usize
    ensures line { EndsLine text.now result }
    ensures boundary { IsCharBoundary text.now result }
    ensures within { result ≤ length text.now }
{
    let mut end = 0;
    for unit in Units::new(text) {
        if unit.kind == UnitKind::Token {
            return end;
        }
        end += unit.text.len();
        if unit.text == "\n" {
            return end;
        }
    }
    end
}
