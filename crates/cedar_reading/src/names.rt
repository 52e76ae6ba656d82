//! Words, and what is made of them: names, record keys, entities.
ghost use Rattle.std.specs.Prelude.{◌≡◌, ◌<◌, ◌||◌, length, IfOk};
ghost use Rattle.cedar_tokens.specs.Kinds.{is, is_ident, is_variable, set_of, begins};
ghost use Rattle.cedar_grammar.specs.Trees.{Label};
ghost use Rattle.cedar_tokens.specs.declared.kind.Kind.TheVariants as K;
ghost use Rattle.cedar_grammar.specs.Reader.Rules.{word_of, entity};
ghost use Rattle.cedar_grammar.specs.Reader.Lines.{path};
ghost use Rattle.cedar_grammar.specs.Erased.{primary_parts};
ghost use Rattle.cedar_reading.specs.Reading.{kind, flat, GivesNode, ident_parts, IsIdentOf, first_start, name_parts, IsNameOf, IsNamePrimaryOf};
ghost use Rattle.cedar_reading.specs.ReadingParts.{key_rule, GivesWords, IsEntityOf, slot_kind, slot_or_entity, TellsVariable};

use crate::lexeme::Lexeme;
use crate::literals::{parse_str, parse_text, slot_kind, slot_primary};
use crate::reading::{Parsed, begins, expect, first_kind, past, refuse};
use cedar_grammar::tree::{Ident, Name, Node, Primary, Ref, Slot, Str};
use cedar_tokens::kind::{Kind, Words};
use cedar_tokens::token::Span;
use std::alloc::Global;

/// Whether the first token can be a name.
pub fn begins_identifier(tokens: &[Lexeme]) -> bool
    ensures { result ≡ begins kind is_ident tokens.now }
{
    first_kind(tokens).is_some_and(Kind::is_identifier)
}

// Whether a variable comes first.
fn begins_variable(tokens: &[Lexeme]) -> bool
    ensures { result ≡ begins kind is_variable tokens.now }
{
    first_kind(tokens).is_some_and(Kind::is_variable)
}

/// Whether the name at the start of the tokens is a variable alone.
pub fn is_lone_variable(tokens: &[Lexeme], name: &Node<Name<'_>>) -> bool
    ensures { TellsVariable tokens.now name.now result }
{
    begins_variable(tokens) && name.inner.path.is_empty()
}

/// The token as a word.
pub fn ident_node<'src>(word: Lexeme<'src>) -> Node<Ident<'src>>
    ensures { IsIdentOf word.entry result }
{
    Node {
        inner: Ident(word.text),
        span: word.span,
    }
}

/// One of these words.
pub fn parse_word<'t, 'src>(
    tokens: &'t [Lexeme<'src>],
    words: Words,
) -> Parsed<'t, 'src, Node<Ident<'src>>>
    ensures shorter { IfOk result (λ x. length x.1.now < length tokens.now) }
    ensures reads { GivesNode Label.ident ident_parts result (flat (word_of (set_of words)) tokens.now) }
{
    match tokens.split_first() {
        Some((first, rest)) => {
            if first.kind.is_one_of(words) {
                Ok((ident_node(*first), rest))
            } else {
                Err(refuse(tokens))
            }
        }
        None => Err(refuse(tokens)),
    }
}

/// Where a name's first word starts.
pub fn name_start(path: &[Node<Ident<'_>>], name: &Node<Ident<'_>>) -> usize
    ensures { result ≡ first_start path.now name.now }
{
    match path.first() {
        Some(first) => first.span.start,
        None => name.span.start,
    }
}

/// The words of a path and its last word as a name.
pub fn name_node<'src>(path: Vec<Node<Ident<'src>>>, name: Node<Ident<'src>>) -> Node<Name<'src>>
    ensures { IsNameOf path.entry.items name.entry result }
{
    let span = Span {
        start: name_start(&path, &name),
        end: name.span.end,
    };
    Node {
        inner: Name { path, name },
        span,
    }
}

/// A name as a primary.
pub fn name_primary<'src>(name: Node<Name<'src>>) -> Node<Primary<'src>>
    ensures { IsNamePrimaryOf name.entry result }
{
    let span = name.span;
    Node {
        inner: Primary::Name(name),
        span,
    }
}

/// Words joined by `::`.
#[tactic(auto, using(crate::proofs::Refusals::firsts))]
pub fn parse_path<'t, 'src>(
    alloc: Global,
    tokens: &'t [Lexeme<'src>],
) -> Parsed<'t, 'src, Node<Name<'src>>>
    ensures shorter { IfOk result (λ x. length x.1.now < length tokens.now) }
    ensures reads { GivesNode Label.name name_parts result (flat path tokens.now) }
{
    let (mut name, mut rest) = parse_word(tokens, Words::Identifier)?;
    let mut path = Vec::new(alloc);
    'words: while let Some(after) = past(rest, Kind::DoubleColon) {
        let (next, after) = parse_word(after, Words::Identifier)?;
        path.push(name)?;
        name = next;
        rest = after;
    }
    Ok((name_node(path, name), rest))
}

/// Whether a key of a record begins with the first token.
pub fn begins_key(tokens: &[Lexeme]) -> bool
    ensures { result ≡ begins kind (λ x. is_ident x || is K.Str x) tokens.now }
{
    begins_identifier(tokens) || begins(tokens, Kind::Str)
}

/// A key of a record.
pub fn parse_key<'t, 'src>(
    alloc: Global,
    tokens: &'t [Lexeme<'src>],
) -> Parsed<'t, 'src, Node<Primary<'src>>>
    ensures shorter { IfOk result (λ x. length x.1.now < length tokens.now) }
    ensures reads { GivesNode Label.primary primary_parts result (flat key_rule tokens.now) }
{
    if begins_identifier(tokens) {
        let (word, rest) = parse_word(tokens, Words::Identifier)?;
        return Ok((name_primary(name_node(Vec::new(alloc), word)), rest));
    }
    parse_text(tokens)
}

/// Words joined by `::`, and a string after a last `::`, which makes them an entity. The token after a `::` decides.
pub fn parse_words<'t, 'src>(
    alloc: Global,
    tokens: &'t [Lexeme<'src>],
) -> Parsed<'t, 'src, (Node<Name<'src>>, Option<Node<Str<'src>>>)>
    ensures shorter { IfOk result (λ x. length x.1.now < length tokens.now) }
    ensures reads { GivesWords result tokens.now }
{
    let (mut name, mut rest) = parse_word(tokens, Words::Identifier)?;
    let mut path = Vec::new(alloc);
    'words: while let Some(after) = past(rest, Kind::DoubleColon) {
        if begins(after, Kind::Str) {
            let (eid, after) = parse_str(after)?;
            return Ok(((name_node(path, name), Some(eid)), after));
        }
        let (next, after) = parse_word(after, Words::Identifier)?;
        path.push(name)?;
        name = next;
        rest = after;
    }
    Ok(((name_node(path, name), None), rest))
}

/// An entity as a primary.
pub fn entity_node<'src>(path: Node<Name<'src>>, eid: Node<Str<'src>>) -> Node<Primary<'src>>
    ensures { IsEntityOf path.entry eid.entry result }
{
    let span = Span {
        start: path.span.start,
        end: eid.span.end,
    };
    let entity = Node {
        inner: Ref { path, eid },
        span,
    };
    Node {
        inner: Primary::Ref(entity),
        span,
    }
}

/// An entity.
pub fn parse_entity<'t, 'src>(
    alloc: Global,
    tokens: &'t [Lexeme<'src>],
) -> Parsed<'t, 'src, Node<Primary<'src>>>
    ensures shorter { IfOk result (λ x. length x.1.now < length tokens.now) }
    ensures reads { GivesNode Label.primary primary_parts result (flat entity tokens.now) }
{
    let ((path, eid), rest) = parse_words(alloc, tokens)?;
    match eid {
        Some(eid) => Ok((entity_node(path, eid), rest)),
        None => Err(refuse(rest)),
    }
}

/// A slot, or an entity.
pub fn parse_slot_or_entity<'t, 'src>(
    alloc: Global,
    tokens: &'t [Lexeme<'src>],
    slot: Slot,
) -> Parsed<'t, 'src, Node<Primary<'src>>>
    ensures shorter { IfOk result (λ x. length x.1.now < length tokens.now) }
    ensures reads { GivesNode Label.primary primary_parts result (flat (slot_or_entity (slot_kind slot)) tokens.now) }
{
    let kind = slot_kind(slot);
    if begins(tokens, kind) {
        let (token, rest) = expect(tokens, kind)?;
        return Ok((slot_primary(slot, token.span), rest));
    }
    parse_entity(alloc, tokens)
}
