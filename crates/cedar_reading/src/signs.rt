//! Signs: comparisons, `+` and `-`, and those before a member.
ghost use Rattle.std.specs.Prelude.{◌≡◌, ◌<◌, ◌≤◌, length, is_some, IfOk, IfSome};
ghost use Rattle.cedar_tokens.specs.Kinds.{is_comparison, begins};
ghost use Rattle.cedar_grammar.specs.Reader.Reading.{token};
ghost use Rattle.cedar_reading.specs.Reading.{kind, relop_kind, GoesPastSign, GivesSign};
ghost use Rattle.cedar_reading.specs.ReadingSigns.{GoesPastSigns, GivesSigns, signs_start};

use crate::lexeme::Lexeme;
use crate::reading::{Parsed, first_kind, refuse, skip, start_of};
use cedar_grammar::tree::{AddOp, NegOp, RelOp};
use cedar_tokens::kind::Kind;
use cedar_tokens::token::Span;

// The comparison that a kind stands for.
fn comparison_of(kind: Kind) -> Option<RelOp>
    ensures tells { is_some result ≡ is_comparison kind }
    ensures which { IfSome result (λ op. relop_kind op ≡ kind) }
{
    match kind {
        Kind::Lt => Some(RelOp::Less),
        Kind::Le => Some(RelOp::LessEq),
        Kind::Gt => Some(RelOp::Greater),
        Kind::Ge => Some(RelOp::GreaterEq),
        Kind::NotEqual => Some(RelOp::NotEq),
        Kind::Equal => Some(RelOp::Eq),
        Kind::In => Some(RelOp::In),
        _ => None,
    }
}

/// Whether a comparison's sign comes first.
pub fn begins_comparison(tokens: &[Lexeme]) -> bool
    ensures { result ≡ begins kind is_comparison tokens.now }
{
    first_kind(tokens).and_then(comparison_of).is_some()
}

/// A comparison's sign.
pub fn parse_comparison_sign<'t, 'src>(tokens: &'t [Lexeme<'src>]) -> Parsed<'t, 'src, RelOp>
    ensures shorter { IfOk result (λ x. length x.1.now < length tokens.now) }
    ensures reads { GivesSign result (token kind is_comparison tokens.now) }
{
    match tokens.split_first() {
        Some((first, rest)) => match comparison_of(first.kind) {
            Some(op) => Ok((op, rest)),
            None => Err(refuse(tokens)),
        },
        None => Err(refuse(tokens)),
    }
}

/// The `+` or `-` that comes first, and the tokens after it.
pub fn past_sum_sign<'t, 'src>(tokens: &'t [Lexeme<'src>]) -> Option<(AddOp, &'t [Lexeme<'src>])>
    ensures shorter { IfSome result (λ x. length x.1.now < length tokens.now) }
    ensures reads { GoesPastSign tokens.now result }
{
    let (first, rest) = tokens.split_first()?;
    match first.kind {
        Kind::Add => Some((AddOp::Plus, rest)),
        Kind::Dash => Some((AddOp::Minus, rest)),
        _ => None,
    }
}

// How many tokens of this kind come first, at most four, and the tokens after them.
fn past_signs<'t, 'src>(tokens: &'t [Lexeme<'src>], sign: Kind) -> (u8, &'t [Lexeme<'src>])
    ensures shorter { length result.1.now ≤ length tokens.now }
    ensures signs { GoesPastSigns sign tokens.now result }
{
    let mut rest = tokens;
    let mut count = 0;
    'signs: while count < 4 {
        if !skip(&mut rest, sign) {
            break;
        }
        count += 1;
    }
    (count, rest)
}

/// The signs that come first, at most four, and the tokens after them.
pub fn read_signs<'t, 'src>(tokens: &'t [Lexeme<'src>]) -> (Option<NegOp>, &'t [Lexeme<'src>])
    ensures shorter { length result.1.now ≤ length tokens.now }
    ensures reads { GivesSigns tokens.now result }
{
    let (bangs, rest) = past_signs(tokens, Kind::Neg);
    if bangs > 0 {
        return (Some(NegOp::Bang(bangs)), rest);
    }
    let (dashes, rest) = past_signs(tokens, Kind::Dash);
    if dashes > 0 {
        return (Some(NegOp::Dash(dashes)), rest);
    }
    (None, tokens)
}

/// Where a member and the signs before it start; the signs come first in the tokens.
pub fn signed_start(tokens: &[Lexeme], op: Option<NegOp>, member: Span) -> usize
    ensures { result ≡ signs_start op tokens.now member.start }
{
    match op {
        Some(_) => start_of(tokens),
        None => member.start,
    }
}
