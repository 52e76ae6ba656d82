//! The scope of a policy: its three variables, and what follows them.
#![tactic(auto, using(cedar_reading::proofs::Refusals::firsts))]

ghost use Rattle.std.specs.Prelude.{◌≡◌, ◌<◌, ◌≤◌, length, IfOk, MatchResult, box_value};
ghost use Rattle.cedar_grammar.specs.Trees.{Label};
ghost use Rattle.cedar_tokens.specs.Kinds.{is};
ghost use Rattle.cedar_tokens.specs.declared.kind.Kind.TheVariants as K;
ghost use Rattle.cedar_grammar.specs.Reader.Rules.{entity, items, word_of};
ghost use Rattle.cedar_grammar.specs.Reader.Lines.{◌∥◌, operand, entity_or, scoped, maybe, entity_item, action};
ghost use Rattle.cedar_grammar.specs.Erased.{add_parts, expr_parts, primary_parts, variable_parts};
ghost use Rattle.cedar_reading.specs.ReadingParts.{slot_kind, variable_kind, IsVariableOf, IsLoneOrOf, entity_list, scope_rule};
ghost use Rattle.cedar_reading.specs.declared.reading.Refusal.TheVariants.{OutOfMemory};
ghost use Rattle.cedar_cst.specs.Boxed.{unboxed};
ghost use Rattle.cedar_cst.specs.ReadingItems.{GivesItems, GivesScope};
ghost use Rattle.cedar_reading.specs.Reading.{flat, GivesNode, ident_parts};

use crate::nodes::{and_node, list_node, lone_relation, or_expr, or_node};
use cedar_grammar::tree::{Add, Expr, Ident, Name, Node, Or, Primary, RelOp, Slot, VariableDef};
use cedar_reading::accesses::lone_operand;
use cedar_reading::lexeme::Lexeme;
use cedar_reading::names::{
    begins_identifier, ident_node, parse_entity, parse_path, parse_slot_or_entity,
};
use cedar_reading::reading::{Parsed, Refusal, begins, expect, followed_by, keep, past, skip};
use cedar_tokens::kind::Kind;
use std::alloc::Global;

// The word of a variable.
fn variable_kind(slot: Slot) -> Kind
    ensures { result ≡ variable_kind slot }
{
    match slot {
        Slot::Principal => Kind::Principal,
        Slot::Resource => Kind::Resource,
    }
}

// `principal` or `resource`.
fn parse_variable_word<'t, 'src>(
    tokens: &'t [Lexeme<'src>],
    slot: Slot,
) -> Parsed<'t, 'src, Node<Ident<'src>>>
    ensures shorter { IfOk result (λ x. length x.1.now < length tokens.now) }
    ensures reads { GivesNode Label.ident ident_parts result (flat (word_of (is (variable_kind slot))) tokens.now) }
{
    let (word, rest) = expect(tokens, variable_kind(slot))?;
    Ok((ident_node(word), rest))
}

// `action`.
fn parse_action_word<'t, 'src>(tokens: &'t [Lexeme<'src>]) -> Parsed<'t, 'src, Node<Ident<'src>>>
    ensures shorter { IfOk result (λ x. length x.1.now < length tokens.now) }
    ensures reads { GivesNode Label.ident ident_parts result (flat (word_of (is K.Action)) tokens.now) }
{
    let (word, rest) = expect(tokens, Kind::Action)?;
    Ok((ident_node(word), rest))
}

// A slot or an entity as an operand.
fn parse_slot_operand<'t, 'src>(
    alloc: Global,
    tokens: &'t [Lexeme<'src>],
    slot: Slot,
) -> Parsed<'t, 'src, Node<Add<'src>>>
    ensures shorter { IfOk result (λ x. length x.1.now < length tokens.now) }
    ensures reads { GivesNode Label.add add_parts result (flat (entity_or (slot_kind slot)) tokens.now) }
{
    let (entity, rest) = parse_slot_or_entity(alloc, tokens, slot)?;
    Ok((lone_operand(alloc, entity), rest))
}

// An entity as an operand.
fn parse_entity_operand<'t, 'src>(
    alloc: Global,
    tokens: &'t [Lexeme<'src>],
) -> Parsed<'t, 'src, Node<Add<'src>>>
    ensures shorter { IfOk result (λ x. length x.1.now < length tokens.now) }
    ensures reads { GivesNode Label.add add_parts result (flat (operand entity) tokens.now) }
{
    let (entity, rest) = parse_entity(alloc, tokens)?;
    Ok((lone_operand(alloc, entity), rest))
}

// A variable with its type, and its operator with what follows that.
fn variable_node<'src>(
    variable: Node<Ident<'src>>,
    entity_type: Option<Node<Name<'src>>>,
    ineq: Option<(RelOp, Node<Add<'src>>)>,
) -> Node<VariableDef<'src>>
    ensures { IsVariableOf variable.entry entity_type.entry ineq.entry result }
{
    let end = match (&ineq, &entity_type) {
        (Some((_, operand)), _) => operand.span.end,
        (None, Some(name)) => name.span.end,
        (None, None) => variable.span.end,
    };
    let span = variable.span.to(end);
    let inner = VariableDef {
        variable,
        entity_type,
        ineq,
    };
    Node { inner, span }
}

// `principal` or `resource`, and perhaps a type, an entity or the slot.
fn parse_variable<'t, 'src>(
    alloc: Global,
    tokens: &'t [Lexeme<'src>],
    slot: Slot,
) -> Parsed<'t, 'src, Node<VariableDef<'src>>>
    ensures shorter { IfOk result (λ x. length x.1.now < length tokens.now) }
    ensures reads { GivesNode Label.variable variable_parts result (flat (scoped (variable_kind slot) (slot_kind slot)) tokens.now) }
{
    let (variable, rest) = parse_variable_word(tokens, slot)?;
    if let Some(after) = past(rest, Kind::Equal) {
        let (entity, rest) = parse_slot_operand(alloc, after, slot)?;
        let entity = Some((RelOp::Eq, entity));
        return Ok((variable_node(variable, None, entity), rest));
    }
    if let Some(after) = past(rest, Kind::Is) {
        let (entity_type, rest) = parse_path(alloc, after)?;
        if let Some(after) = past(rest, Kind::In) {
            let (entity, rest) = parse_slot_operand(alloc, after, slot)?;
            let entity = Some((RelOp::In, entity));
            return Ok((variable_node(variable, Some(entity_type), entity), rest));
        }
        return Ok((variable_node(variable, Some(entity_type), None), rest));
    }
    if let Some(after) = past(rest, Kind::In) {
        let (entity, rest) = parse_slot_operand(alloc, after, slot)?;
        let entity = Some((RelOp::In, entity));
        return Ok((variable_node(variable, None, entity), rest));
    }
    Ok((variable_node(variable, None, None), rest))
}

// An operand without operators.
fn lone_or<'src>(alloc: Global, operand: Node<Add<'src>>) -> Result<Box<Node<Or<'src>>>, Refusal>
    ensures { MatchResult result (λ b. IsLoneOrOf operand.entry (box_value b)) (λ e. e ≡ OutOfMemory) }
{
    let relation = lone_relation(alloc, Box::new(alloc, operand)?)?;
    let and = and_node(alloc, relation, Vec::new(alloc))?;
    or_node(alloc, and, Vec::new(alloc))
}

// An entity as an expression.
fn parse_entity_expr<'t, 'src>(
    alloc: Global,
    tokens: &'t [Lexeme<'src>],
) -> Parsed<'t, 'src, Node<Expr<'src>>>
    ensures shorter { IfOk result (λ x. length x.1.now < length tokens.now) }
    ensures reads { GivesNode Label.expr expr_parts result (flat entity_item tokens.now) }
{
    let (entity, rest) = parse_entity_operand(alloc, tokens)?;
    Ok((or_expr(lone_or(alloc, entity)?), rest))
}

// Entities with commas between them, and perhaps one after the last; or none.
fn parse_entities<'t, 'src>(
    alloc: Global,
    tokens: &'t [Lexeme<'src>],
) -> Parsed<'t, 'src, Vec<Node<Expr<'src>>>>
    ensures shorter { IfOk result (λ x. length x.1.now ≤ length tokens.now) }
    ensures reads { GivesItems Label.expr expr_parts result (flat (maybe (items entity_item)) tokens.now) }
{
    let mut items = Vec::new(alloc);
    let mut rest = tokens;
    'items: while begins_identifier(rest) {
        keep(parse_entity_expr(alloc, rest), &mut items, &mut rest)?;
        if !skip(&mut rest, Kind::Comma) {
            return Ok((items, rest));
        }
    }
    Ok((items, rest))
}

// Entities in square brackets.
fn parse_entity_list<'t, 'src>(
    alloc: Global,
    tokens: &'t [Lexeme<'src>],
) -> Parsed<'t, 'src, Box<Node<Primary<'src>>>>
    ensures shorter { IfOk result (λ x. length x.1.now < length tokens.now) }
    ensures reads { GivesNode Label.primary primary_parts (unboxed result) (flat entity_list tokens.now) }
{
    let (open, rest) = expect(tokens, Kind::LBracket)?;
    list_node(alloc, open.span.start, parse_entities(alloc, rest))
}

// An entity, or entities in square brackets, as an operand.
fn parse_entities_operand<'t, 'src>(
    alloc: Global,
    tokens: &'t [Lexeme<'src>],
) -> Parsed<'t, 'src, Node<Add<'src>>>
    ensures shorter { IfOk result (λ x. length x.1.now < length tokens.now) }
    ensures reads { GivesNode Label.add add_parts result (flat (operand entity_list ∥ operand entity) tokens.now) }
{
    if begins(tokens, Kind::LBracket) {
        let (entities, rest) = parse_entity_list(alloc, tokens)?;
        return Ok((lone_operand(alloc, Box::into_inner(entities)), rest));
    }
    parse_entity_operand(alloc, tokens)
}

// `action`, and perhaps an entity or a list of entities.
fn parse_action<'t, 'src>(
    alloc: Global,
    tokens: &'t [Lexeme<'src>],
) -> Parsed<'t, 'src, Node<VariableDef<'src>>>
    ensures shorter { IfOk result (λ x. length x.1.now < length tokens.now) }
    ensures reads { GivesNode Label.variable variable_parts result (flat action tokens.now) }
{
    let (variable, rest) = parse_action_word(tokens)?;
    if let Some(after) = past(rest, Kind::Equal) {
        let (entity, rest) = parse_entity_operand(alloc, after)?;
        let entity = Some((RelOp::Eq, entity));
        return Ok((variable_node(variable, None, entity), rest));
    }
    if let Some(after) = past(rest, Kind::In) {
        let (entities, rest) = parse_entities_operand(alloc, after)?;
        let entities = Some((RelOp::In, entities));
        return Ok((variable_node(variable, None, entities), rest));
    }
    Ok((variable_node(variable, None, None), rest))
}

/// The three variables in brackets, and perhaps a comma after the last.
pub fn parse_scope<'t, 'src>(
    alloc: Global,
    tokens: &'t [Lexeme<'src>],
) -> Parsed<
    't,
    'src,
    (
        Node<VariableDef<'src>>,
        Node<VariableDef<'src>>,
        Node<VariableDef<'src>>,
    ),
>
    ensures shorter { IfOk result (λ x. length x.1.now < length tokens.now) }
    ensures reads { GivesScope result (flat scope_rule tokens.now) }
{
    let (_, rest) = expect(tokens, Kind::LParen)?;
    let principal = parse_variable(alloc, rest, Slot::Principal);
    let ((principal, _), rest) = followed_by(principal, Kind::Comma)?;
    let ((action, _), rest) = followed_by(parse_action(alloc, rest), Kind::Comma)?;
    let (resource, mut rest) = parse_variable(alloc, rest, Slot::Resource)?;
    skip(&mut rest, Kind::Comma);
    let (_, rest) = expect(rest, Kind::RParen)?;
    Ok(((principal, action, resource), rest))
}
