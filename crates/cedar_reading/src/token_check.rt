//! Whether a text has given tokens, numbers by value.
ghost use Rattle.std.specs.Prelude.{◌≡◌, ◌↔◌, IsTrue};
ghost use Rattle.cedar_tokens.specs.Listing.{token_value};
ghost use Rattle.cedar_reading.specs.SameTokens.{HasTheTokens};

use crate::token::{Token, value};
use cedar_tokens::lexer::UnitKind;
use cedar_tokens::units::Units;

/// Whether `text` splits and its tokens are `tokens`, numbers by value. Ignores comments, and allocates nothing.
pub fn has_tokens(text: &str, tokens: &[Token<'_, '_>]) -> bool
    ensures { IsTrue result ↔ HasTheTokens text.now tokens.now }
{
    let mut found = 0;
    let mut at = 0;
    for unit in Units::new(text) {
        at += unit.text.len();
        if unit.kind == UnitKind::Token {
            let Some(token) = tokens.get(found) else {
                return false;
            };
            if !same_value(unit.text, token.text()) {
                return false;
            }
            found += 1;
        }
    }
    at == text.len() && found == tokens.len()
}

// Whether the tokens are equal by value.
fn same_value(a: &str, b: &str) -> bool
    ensures { IsTrue result ↔ (token_value a.now ≡ token_value b.now) }
{
    a == b || value(a) == value(b)
}
