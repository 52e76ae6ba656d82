//! Whether tokens and comments are the same, numbers by value.
ghost use Rattle.std.specs.Prelude.{◌≡◌, ◌↔◌, IsTrue, map};
ghost use Rattle.cedar_tokens.specs.Listing.{comments, token_value};
ghost use Rattle.cedar_tokens.specs.Tokens.{decorated};
ghost use Rattle.cedar_laws.specs.Output.{with_value};

use crate::lexeme::is_number;
use crate::literals::without_zeros;
use cedar_tokens::token::{WrappedToken, get_comment};

// Whether the tokens are equal by value.
fn same_value(a: &str, b: &str) -> bool
    ensures { IsTrue result ↔ (token_value a.now ≡ token_value b.now) }
{
    a == b || value(a) == value(b)
}

// A token by value: a number without its leading zeros, any other unchanged.
fn value(text: &str) -> &str
    ensures { result.now ≡ token_value text.now }
{
    if is_number(text) {
        without_zeros(text)
    } else {
        text
    }
}

/// Whether the tokens and their comments are the same, numbers by value.
pub fn same_values(a: &[WrappedToken<'_>], b: &[WrappedToken<'_>]) -> bool
    ensures { IsTrue result ↔ (map with_value (map decorated a.now) ≡ map with_value (map decorated b.now)) }
{
    if a.len() != b.len() {
        return false;
    }
    for (at, token) in a.iter().enumerate() {
        if !same_token(token, &b[at]) {
            return false;
        }
    }
    true
}

// Whether a token and its comments are the same as another's, a number by value.
fn same_token(a: &WrappedToken<'_>, b: &WrappedToken<'_>) -> bool
    ensures { IsTrue result ↔ (with_value (decorated a.now) ≡ with_value (decorated b.now)) }
{
    a.comment == b.comment && same_value(a.token.text(), b.token.text())
}

/// Whether the comments of the texts are the same. Allocates nothing.
pub fn same_comments(a: &str, b: &str) -> bool
    ensures { IsTrue result ↔ (comments a.now ≡ comments b.now) }
{
    let mut others = get_comment(b);
    for comment in get_comment(a) {
        match others.next() {
            Some(other) if other == comment => {}
            _ => return false,
        }
    }
    others.next().is_none()
}
