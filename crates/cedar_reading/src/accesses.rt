//! Accesses in a primary, and the operands of `has` and `like`, which are read without nesting.
#![tactic(auto, using(crate::proofs::Refusals::firsts))]

ghost use Rattle.std.specs.Prelude.{◌≡◌, [], ◌<◌, ◌||◌, ◌&&◌, length, IfOk};
ghost use Rattle.cedar_tokens.specs.Kinds.{is, begins};
ghost use Rattle.cedar_grammar.specs.Trees.{Label};
ghost use Rattle.cedar_tokens.specs.declared.kind.Kind.TheVariants as K;
ghost use Rattle.cedar_grammar.specs.Reader.Lines.{◌▸◌, ◌∥◌, one_of, field, index, text_operand, has_field};
ghost use Rattle.cedar_grammar.specs.Erased.{access_parts, add_parts};
ghost use Rattle.cedar_reading.specs.Reading.{kind, flat, GivesNode, IsOperandOf, GivesAfter, last_end};

use crate::lexeme::Lexeme;
use crate::literals::{parse_str, parse_text};
use crate::names::{name_node, name_primary, parse_word};
use crate::reading::{Parsed, begins, expect, keep};
use cedar_grammar::tree::{Add, MemAccess, Member, Mult, Node, Primary, Unary};
use cedar_tokens::kind::{Kind, Words};
use cedar_tokens::token::Span;
use std::alloc::Global;

/// Whether a field or an index begins with the first token.
pub fn begins_access(tokens: &[Lexeme]) -> bool
    ensures { result ≡ begins kind (λ x. is K.Dot x || is K.LBracket x) tokens.now }
{
    begins(tokens, Kind::Dot) || begins(tokens, Kind::LBracket)
}

/// Whether a call begins with the first token, where what comes before it is `callable`.
pub fn begins_call(tokens: &[Lexeme], callable: bool) -> bool
    ensures { result ≡ (callable && begins kind (is K.LParen) tokens.now) }
{
    callable && begins(tokens, Kind::LParen)
}

/// A primary with its accesses, as an operand of comparisons.
pub fn operand<'src>(
    alloc: Global,
    item: Node<Primary<'src>>,
    access: Vec<Node<MemAccess<'src>>>,
    span: Span,
) -> Node<Add<'src>>
    ensures { IsOperandOf item.entry access.entry.items span result }
{
    let member = Node {
        inner: Member { item, access },
        span,
    };
    let unary = Node {
        inner: Unary {
            op: None,
            item: member,
        },
        span,
    };
    let mult = Node {
        inner: Mult {
            initial: unary,
            extended: Vec::new(alloc),
        },
        span,
    };
    Node {
        inner: Add {
            initial: mult,
            extended: Vec::new(alloc),
        },
        span,
    }
}

/// A primary alone as an operand.
pub fn lone_operand<'src>(alloc: Global, item: Node<Primary<'src>>) -> Node<Add<'src>>
    ensures { IsOperandOf item.entry [] item.entry.span result }
{
    let span = item.span;
    operand(alloc, item, Vec::new(alloc), span)
}

/// A string as an operand.
pub fn parse_text_operand<'t, 'src>(
    alloc: Global,
    tokens: &'t [Lexeme<'src>],
) -> Parsed<'t, 'src, Node<Add<'src>>>
    ensures shorter { IfOk result (λ x. length x.1.now < length tokens.now) }
    ensures reads { GivesNode Label.add add_parts result (flat text_operand tokens.now) }
{
    let (primary, rest) = parse_text(tokens)?;
    Ok((lone_operand(alloc, primary), rest))
}

/// `like`, and a string as an operand.
pub fn parse_pattern<'t, 'src>(
    alloc: Global,
    tokens: &'t [Lexeme<'src>],
) -> Parsed<'t, 'src, Node<Add<'src>>>
    ensures shorter { IfOk result (λ x. length x.1.now < length tokens.now) }
    ensures reads { GivesAfter K.Like Label.add add_parts result (flat (one_of K.Like ▸ text_operand) tokens.now) }
{
    let (_, rest) = expect(tokens, Kind::Like)?;
    parse_text_operand(alloc, rest)
}

// `.` and a word.
fn parse_field<'t, 'src>(tokens: &'t [Lexeme<'src>]) -> Parsed<'t, 'src, Node<MemAccess<'src>>>
    ensures shorter { IfOk result (λ x. length x.1.now < length tokens.now) }
    ensures reads { GivesNode Label.access access_parts result (flat field tokens.now) }
{
    let (dot, rest) = expect(tokens, Kind::Dot)?;
    let (field, rest) = parse_word(rest, Words::Identifier)?;
    let span = Span {
        start: dot.span.start,
        end: field.span.end,
    };
    let access = Node {
        inner: MemAccess::Field(field),
        span,
    };
    Ok((access, rest))
}

// A string in square brackets.
fn parse_index<'t, 'src>(tokens: &'t [Lexeme<'src>]) -> Parsed<'t, 'src, Node<MemAccess<'src>>>
    ensures shorter { IfOk result (λ x. length x.1.now < length tokens.now) }
    ensures reads { GivesNode Label.access access_parts result (flat index tokens.now) }
{
    let (open, rest) = expect(tokens, Kind::LBracket)?;
    let (string, rest) = parse_str(rest)?;
    let (close, rest) = expect(rest, Kind::RBracket)?;
    let span = Span {
        start: open.span.start,
        end: close.span.end,
    };
    let access = Node {
        inner: MemAccess::Index(string),
        span,
    };
    Ok((access, rest))
}

/// A field or an index.
pub fn parse_access<'t, 'src>(tokens: &'t [Lexeme<'src>]) -> Parsed<'t, 'src, Node<MemAccess<'src>>>
    ensures shorter { IfOk result (λ x. length x.1.now < length tokens.now) }
    ensures reads { GivesNode Label.access access_parts result (flat (field ∥ index) tokens.now) }
{
    if begins(tokens, Kind::Dot) {
        return parse_field(tokens);
    }
    parse_index(tokens)
}

/// Where the last of these accesses ends; `end` if there is none.
pub fn accesses_end(end: usize, access: &[Node<MemAccess<'_>>]) -> usize
    ensures { result ≡ last_end end access.now }
{
    match access.last() {
        Some(last) => last.span.end,
        None => end,
    }
}

// Words joined by `.`, as an operand.
fn parse_fields<'t, 'src>(
    alloc: Global,
    tokens: &'t [Lexeme<'src>],
) -> Parsed<'t, 'src, Node<Add<'src>>>
    ensures shorter { IfOk result (λ x. length x.1.now < length tokens.now) }
    ensures reads { GivesNode Label.add add_parts result (flat has_field tokens.now) }
{
    let (word, mut rest) = parse_word(tokens, Words::Identifier)?;
    let item = name_primary(name_node(Vec::new(alloc), word));
    let mut access = Vec::new(alloc);
    'fields: while begins(rest, Kind::Dot) {
        keep(parse_field(rest), &mut access, &mut rest)?;
    }
    let end = accesses_end(item.span.end, &access);
    let span = Span {
        start: item.span.start,
        end,
    };
    Ok((operand(alloc, item, access, span), rest))
}

/// `has`, and a string or words joined by `.`.
pub fn parse_has_field<'t, 'src>(
    alloc: Global,
    tokens: &'t [Lexeme<'src>],
) -> Parsed<'t, 'src, Node<Add<'src>>>
    ensures shorter { IfOk result (λ x. length x.1.now < length tokens.now) }
    ensures reads { GivesAfter K.Has Label.add add_parts result (flat (one_of K.Has ▸ (text_operand ∥ has_field)) tokens.now) }
{
    let (_, rest) = expect(tokens, Kind::Has)?;
    if begins(rest, Kind::Str) {
        return parse_text_operand(alloc, rest);
    }
    parse_fields(alloc, rest)
}
