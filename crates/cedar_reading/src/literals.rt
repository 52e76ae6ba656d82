//! Primaries of one token: strings, numbers, truth values and slots.
#![tactic(auto, using(crate::proofs::Refusals::firsts))]

ghost use Rattle.std.specs.Prelude.{◌≡◌, ◌<◌, length, IfOk};
ghost use Rattle.cedar_tokens.specs.Listing.{without_zeros};
ghost use Rattle.cedar_grammar.specs.Trees.{Label};
ghost use Rattle.cedar_grammar.specs.Reader.Rules.{text_rule};
ghost use Rattle.cedar_grammar.specs.Erased.{primary_parts};
ghost use Rattle.cedar_reading.specs.Reading.{flat, GivesNode, str_parts, IsStrOf, IsLiteralOf};
ghost use Rattle.cedar_reading.specs.ReadingParts.{literal_rule, text_primary, HasLiteral, slot_kind, IsSlotOf};

use crate::lexeme::Lexeme;
use crate::reading::{Parsed, expect, refuse};
use cedar_grammar::tree::{Literal, Node, Primary, Slot, Str};
use cedar_tokens::kind::Kind;
use cedar_tokens::token::Span;

/// The token as a string.
pub fn str_node<'src>(string: Lexeme<'src>) -> Node<Str<'src>>
    ensures { IsStrOf string.entry result }
{
    Node {
        inner: Str(string.text),
        span: string.span,
    }
}

/// A string.
pub fn parse_str<'t, 'src>(tokens: &'t [Lexeme<'src>]) -> Parsed<'t, 'src, Node<Str<'src>>>
    ensures shorter { IfOk result (λ x. length x.1.now < length tokens.now) }
    ensures reads { GivesNode Label.str str_parts result (flat text_rule tokens.now) }
{
    let (string, rest) = expect(tokens, Kind::Str)?;
    Ok((str_node(string), rest))
}

/// A literal as a primary.
pub fn literal_primary<'src>(literal: Literal<'src>, span: Span) -> Node<Primary<'src>>
    ensures { IsLiteralOf literal.entry span result }
{
    let literal = Node {
        inner: literal,
        span,
    };
    Node {
        inner: Primary::Literal(literal),
        span,
    }
}

/// The digits without leading zeros, and `0` for zero.
pub fn without_zeros(digits: &str) -> &str
    ensures { result.now ≡ without_zeros digits.now }
{
    let mut rest = digits;
    'zeros: while let Some(after) = rest.strip_prefix('0') {
        if after.is_empty() {
            break;
        }
        rest = after;
    }
    rest
}

// The literal that a token is.
fn literal_of<'src>(token: Lexeme<'src>) -> Option<Literal<'src>>
    ensures { HasLiteral token.entry result }
{
    match token.kind {
        Kind::True => Some(Literal::True),
        Kind::False => Some(Literal::False),
        Kind::Number => Some(Literal::Num(without_zeros(token.text))),
        Kind::Str => Some(Literal::Str(token.text)),
        _ => None,
    }
}

/// A literal as a primary.
pub fn parse_literal<'t, 'src>(tokens: &'t [Lexeme<'src>]) -> Parsed<'t, 'src, Node<Primary<'src>>>
    ensures shorter { IfOk result (λ x. length x.1.now < length tokens.now) }
    ensures reads { GivesNode Label.primary primary_parts result (flat literal_rule tokens.now) }
{
    match tokens.split_first() {
        Some((first, rest)) => match literal_of(*first) {
            Some(literal) => Ok((literal_primary(literal, first.span), rest)),
            None => Err(refuse(tokens)),
        },
        None => Err(refuse(tokens)),
    }
}

/// A string as a primary.
pub fn parse_text<'t, 'src>(tokens: &'t [Lexeme<'src>]) -> Parsed<'t, 'src, Node<Primary<'src>>>
    ensures shorter { IfOk result (λ x. length x.1.now < length tokens.now) }
    ensures reads { GivesNode Label.primary primary_parts result (flat text_primary tokens.now) }
{
    let (string, rest) = expect(tokens, Kind::Str)?;
    Ok((
        literal_primary(Literal::Str(string.text), string.span),
        rest,
    ))
}

/// The kind of a slot's token.
pub fn slot_kind(slot: Slot) -> Kind
    ensures { result ≡ slot_kind slot }
{
    match slot {
        Slot::Principal => Kind::PrincipalSlot,
        Slot::Resource => Kind::ResourceSlot,
    }
}

/// A slot as a primary.
pub fn slot_primary<'src>(slot: Slot, span: Span) -> Node<Primary<'src>>
    ensures { IsSlotOf slot span result }
{
    let slot = Node { inner: slot, span };
    Node {
        inner: Primary::Slot(slot),
        span,
    }
}
