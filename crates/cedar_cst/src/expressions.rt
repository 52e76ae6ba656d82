//! Expressions. Recursion follows the nesting alone; `depth` says how many brackets and `if`s may still be nested.
#![tactic(auto, using(cedar_reading::proofs::Refusals::firsts))]

ghost use Rattle.std.specs.Prelude.{suc, ◌<◌, ◌≤◌, length, IfOk};
ghost use Rattle.cedar_tokens.specs.Kinds.{is_comparison};
ghost use Rattle.cedar_grammar.specs.Trees.{Label};
ghost use Rattle.cedar_tokens.specs.declared.kind.Kind.TheVariants as K;
ghost use Rattle.cedar_grammar.specs.Reader.Rules.{inner, leaf_of, items, reference};
ghost use Rattle.cedar_grammar.specs.Reader.Lines.{◌▸◌, one_of, maybe, path, call_parts, call, init, item, member_rule, unary_rule, mult_rule, add_rule, relation_rule, and_rule, or_rule, expr_rule};
ghost use Rattle.cedar_grammar.specs.Erased.{expr_parts, or_parts, relation_parts, add_parts, mult_parts, unary_parts, access_parts, primary_parts};
ghost use Rattle.cedar_reading.specs.ReadingParts.{literal_rule};
ghost use Rattle.cedar_cst.specs.Boxed.{unboxed};
ghost use Rattle.cedar_reading.specs.Reading.{flat, GivesNode, GivesAfter, relop_kind};
ghost use Rattle.cedar_cst.specs.ReadingItems.{GivesItems};
ghost use Rattle.cedar_cst.specs.ReadingExprs.{at_depth, if_rule, bracket_rule, GivesSigned, GivesTypeTest, GivesItem};
ghost use Rattle.cedar_grammar.specs.NodeLists.{and_parts, init_parts, member_parts};

use crate::nodes::{
    Item, add_node, and_node, beside, call_node, called, compared_node, drop_apart, has_node,
    if_node, init_node, is_node, keep_boxed, keep_signed, like_node, list_node, lone_item,
    lone_relation, member_node, mult_node, or_expr, or_node, parens_node, record_key, record_node,
    type_and_operand, unary_node, uncalled,
};
use cedar_grammar::tree::{
    Add, And, Expr, MemAccess, Member, Mult, MultOp, Name, Node, Or, Primary, RecInit, RelOp,
    Relation, Unary,
};
use cedar_reading::accesses::{begins_access, begins_call, parse_access};
use cedar_reading::lexeme::Lexeme;
use cedar_reading::literals::parse_literal;
use cedar_reading::names::{
    begins_identifier, begins_key, entity_node, is_lone_variable, name_primary, parse_path,
    parse_words,
};
use cedar_reading::reading::{
    Parsed, begins, begins_bracket, begins_expression, expect, followed_by, keep, past, refuse,
    skip, start_of, too_deep,
};
use cedar_reading::signs::{begins_comparison, parse_comparison_sign, past_sum_sign, read_signs};
use cedar_tokens::kind::Kind;
use std::alloc::Global;

/// An expression.
#[cycle(parser)]
#[inline(never)]
pub fn parse_expr<'t, 'src>(
    alloc: Global,
    tokens: &'t [Lexeme<'src>],
    depth: usize,
) -> Parsed<'t, 'src, Node<Expr<'src>>>
    ensures shorter { IfOk result (λ x. length x.1.now < length tokens.now) }
    ensures reads { GivesNode Label.expr expr_parts result (at_depth depth expr_rule tokens.now) }
{
    if begins(tokens, Kind::If) {
        if depth == 0 {
            return Err(too_deep(tokens));
        }
        return parse_if(alloc, tokens, depth - 1);
    }
    let (or, rest) = parse_or(alloc, tokens, depth)?;
    Ok((or_expr(or), rest))
}

// `if`, `then` and `else`.
#[cycle(parser)]
#[inline(never)]
fn parse_if<'t, 'src>(
    alloc: Global,
    tokens: &'t [Lexeme<'src>],
    depth: usize,
) -> Parsed<'t, 'src, Node<Expr<'src>>>
    ensures shorter { IfOk result (λ x. length x.1.now < length tokens.now) }
    ensures reads { GivesNode Label.expr expr_parts result (at_depth (suc depth) if_rule tokens.now) }
{
    let (test, rest) = parse_branch(alloc, tokens, Kind::If, depth)?;
    let (yes, rest) = parse_branch(alloc, rest, Kind::Then, depth)?;
    let (no, rest) = parse_branch(alloc, rest, Kind::Else, depth)?;
    Ok((if_node(alloc, start_of(tokens), test, yes, no)?, rest))
}

// A keyword, and the expression after it.
#[cycle(parser)]
#[inline(never)]
fn parse_branch<'t, 'src>(
    alloc: Global,
    tokens: &'t [Lexeme<'src>],
    keyword: Kind,
    depth: usize,
) -> Parsed<'t, 'src, Node<Expr<'src>>>
    ensures shorter { IfOk result (λ x. length x.1.now < length tokens.now) }
    ensures reads { GivesAfter keyword Label.expr expr_parts result (at_depth (suc depth) (one_of keyword ▸ inner) tokens.now) }
{
    match past(tokens, keyword) {
        Some(after) => parse_expr(alloc, after, depth),
        None => Err(refuse(tokens)),
    }
}

// Operands of `||`.
#[cycle(parser)]
#[inline(never)]
fn parse_or<'t, 'src>(
    alloc: Global,
    tokens: &'t [Lexeme<'src>],
    depth: usize,
) -> Parsed<'t, 'src, Box<Node<Or<'src>>>>
    ensures shorter { IfOk result (λ x. length x.1.now < length tokens.now) }
    ensures reads { GivesNode Label.or or_parts (unboxed result) (at_depth depth or_rule tokens.now) }
{
    let (first, mut rest) = parse_and(alloc, tokens, depth)?;
    let mut extended = Vec::new(alloc);
    'operands: while let Some(after) = past(rest, Kind::Or) {
        match keep_boxed(parse_and(alloc, after, depth), &mut extended, &mut rest) {
            Ok(()) => {}
            Err(refusal) => {
                drop_apart(first);
                drop_apart(extended);
                return Err(refusal);
            }
        }
    }
    Ok((or_node(alloc, first, extended)?, rest))
}

// Operands of `&&`.
#[cycle(parser)]
#[inline(never)]
fn parse_and<'t, 'src>(
    alloc: Global,
    tokens: &'t [Lexeme<'src>],
    depth: usize,
) -> Parsed<'t, 'src, Box<Node<And<'src>>>>
    ensures shorter { IfOk result (λ x. length x.1.now < length tokens.now) }
    ensures reads { GivesNode Label.and and_parts (unboxed result) (at_depth depth and_rule tokens.now) }
{
    let (first, mut rest) = parse_relation(alloc, tokens, depth)?;
    let mut extended = Vec::new(alloc);
    'operands: while let Some(after) = past(rest, Kind::And) {
        match keep_boxed(
            parse_relation(alloc, after, depth),
            &mut extended,
            &mut rest,
        ) {
            Ok(()) => {}
            Err(refusal) => {
                drop_apart(first);
                drop_apart(extended);
                return Err(refusal);
            }
        }
    }
    Ok((and_node(alloc, first, extended)?, rest))
}

// One operand, or two with a comparison, `has`, `like` or `is` between them.
#[cycle(parser)]
#[inline(never)]
fn parse_relation<'t, 'src>(
    alloc: Global,
    tokens: &'t [Lexeme<'src>],
    depth: usize,
) -> Parsed<'t, 'src, Box<Node<Relation<'src>>>>
    ensures shorter { IfOk result (λ x. length x.1.now < length tokens.now) }
    ensures reads { GivesNode Label.relation relation_parts (unboxed result) (at_depth depth relation_rule tokens.now) }
{
    let (target, rest) = parse_add(alloc, tokens, depth)?;
    if begins_comparison(rest) {
        return compared_node(alloc, target, parse_compared(alloc, rest, depth));
    }
    if begins(rest, Kind::Has) {
        return has_node(alloc, target, rest);
    }
    if begins(rest, Kind::Like) {
        return like_node(alloc, target, rest);
    }
    if begins(rest, Kind::Is) {
        return is_node(alloc, target, parse_type_test(alloc, rest, depth));
    }
    Ok((lone_relation(alloc, target)?, rest))
}

// A comparison's sign, and its second operand.
#[cycle(parser)]
#[inline(never)]
fn parse_compared<'t, 'src>(
    alloc: Global,
    tokens: &'t [Lexeme<'src>],
    depth: usize,
) -> Parsed<'t, 'src, (RelOp, Box<Node<Add<'src>>>)>
    ensures shorter { IfOk result (λ x. length x.1.now < length tokens.now) }
    ensures reads { GivesSigned relop_kind Label.add add_parts result (at_depth depth (leaf_of is_comparison ▸ add_rule) tokens.now) }
{
    let (op, rest) = parse_comparison_sign(tokens)?;
    beside(op, parse_add(alloc, rest, depth))
}

// `is`, a type, and perhaps `in` and an operand.
#[cycle(parser)]
#[inline(never)]
fn parse_type_test<'t, 'src>(
    alloc: Global,
    tokens: &'t [Lexeme<'src>],
    depth: usize,
) -> Parsed<'t, 'src, (Node<Name<'src>>, Option<Box<Node<Add<'src>>>>)>
    ensures shorter { IfOk result (λ x. length x.1.now < length tokens.now) }
    ensures reads { GivesTypeTest result (at_depth depth (one_of K.Is ▸ path ▸ maybe (one_of K.In ▸ add_rule)) tokens.now) }
{
    let (_, rest) = expect(tokens, Kind::Is)?;
    let (entity_type, rest) = parse_path(alloc, rest)?;
    match past(rest, Kind::In) {
        Some(after) => type_and_operand(entity_type, parse_add(alloc, after, depth)),
        None => Ok(((entity_type, None), rest)),
    }
}

// Operands of `+` and `-`.
#[cycle(parser)]
#[inline(never)]
fn parse_add<'t, 'src>(
    alloc: Global,
    tokens: &'t [Lexeme<'src>],
    depth: usize,
) -> Parsed<'t, 'src, Box<Node<Add<'src>>>>
    ensures shorter { IfOk result (λ x. length x.1.now < length tokens.now) }
    ensures reads { GivesNode Label.add add_parts (unboxed result) (at_depth depth add_rule tokens.now) }
{
    let (first, mut rest) = parse_mult(alloc, tokens, depth)?;
    let mut extended = Vec::new(alloc);
    'operands: while let Some((op, after)) = past_sum_sign(rest) {
        let read = parse_mult(alloc, after, depth);
        match keep_signed(op, read, &mut extended, &mut rest) {
            Ok(()) => {}
            Err(refusal) => {
                drop_apart(first);
                drop_apart(extended);
                return Err(refusal);
            }
        }
    }
    Ok((add_node(alloc, first, extended)?, rest))
}

// Operands of `*`.
#[cycle(parser)]
#[inline(never)]
fn parse_mult<'t, 'src>(
    alloc: Global,
    tokens: &'t [Lexeme<'src>],
    depth: usize,
) -> Parsed<'t, 'src, Box<Node<Mult<'src>>>>
    ensures shorter { IfOk result (λ x. length x.1.now < length tokens.now) }
    ensures reads { GivesNode Label.mult mult_parts (unboxed result) (at_depth depth mult_rule tokens.now) }
{
    let (first, mut rest) = parse_unary(alloc, tokens, depth)?;
    let mut extended = Vec::new(alloc);
    'operands: while let Some(after) = past(rest, Kind::Mul) {
        let read = parse_unary(alloc, after, depth);
        match keep_signed(MultOp::Times, read, &mut extended, &mut rest) {
            Ok(()) => {}
            Err(refusal) => {
                drop_apart(first);
                drop_apart(extended);
                return Err(refusal);
            }
        }
    }
    Ok((mult_node(alloc, first, extended)?, rest))
}

// A member after at most four `!` or at most four `-`.
#[cycle(parser)]
#[inline(never)]
fn parse_unary<'t, 'src>(
    alloc: Global,
    tokens: &'t [Lexeme<'src>],
    depth: usize,
) -> Parsed<'t, 'src, Box<Node<Unary<'src>>>>
    ensures shorter { IfOk result (λ x. length x.1.now < length tokens.now) }
    ensures reads { GivesNode Label.unary unary_parts (unboxed result) (at_depth depth unary_rule tokens.now) }
{
    let (op, rest) = read_signs(tokens);
    unary_node(alloc, tokens, op, parse_member(alloc, rest, depth))
}

// A primary and its accesses.
#[cycle(parser)]
#[inline(never)]
fn parse_member<'t, 'src>(
    alloc: Global,
    tokens: &'t [Lexeme<'src>],
    depth: usize,
) -> Parsed<'t, 'src, Box<Node<Member<'src>>>>
    ensures shorter { IfOk result (λ x. length x.1.now < length tokens.now) }
    ensures reads { GivesNode Label.member member_parts (unboxed result) (at_depth depth member_rule tokens.now) }
{
    let ((item, mut access), mut rest) = parse_item(alloc, tokens, depth)?;
    'accesses: while begins_access(rest) {
        let callable = begins(rest, Kind::Dot);
        keep(parse_access(rest), &mut access, &mut rest)?;
        if begins_call(rest, callable) {
            keep(parse_call(alloc, rest, depth), &mut access, &mut rest)?;
        }
    }
    Ok((member_node(alloc, item, access)?, rest))
}

// A primary; if it is a path that is called, also the call.
#[cycle(parser)]
#[inline(never)]
fn parse_item<'t, 'src>(
    alloc: Global,
    tokens: &'t [Lexeme<'src>],
    depth: usize,
) -> Parsed<'t, 'src, Item<'src>>
    ensures shorter { IfOk result (λ x. length x.1.now < length tokens.now) }
    ensures reads { GivesItem result (at_depth depth item tokens.now) }
{
    if begins_identifier(tokens) {
        return parse_reference(alloc, tokens, depth);
    }
    if !begins_bracket(tokens) {
        return literal_item(alloc, tokens);
    }
    if depth == 0 {
        return Err(too_deep(tokens));
    }
    uncalled(alloc, parse_bracket(alloc, tokens, depth - 1))
}

// A literal.
#[inline(never)]
fn literal_item<'t, 'src>(alloc: Global, tokens: &'t [Lexeme<'src>]) -> Parsed<'t, 'src, Item<'src>>
    ensures shorter { IfOk result (λ x. length x.1.now < length tokens.now) }
    ensures reads { GivesItem result (flat literal_rule tokens.now) }
{
    let (primary, rest) = parse_literal(tokens)?;
    lone_item(alloc, primary, rest)
}

// A variable, an entity, or a path and its call. A path alone that is no variable is refused at the token after it.
#[cycle(parser)]
#[inline(never)]
fn parse_reference<'t, 'src>(
    alloc: Global,
    tokens: &'t [Lexeme<'src>],
    depth: usize,
) -> Parsed<'t, 'src, Item<'src>>
    ensures shorter { IfOk result (λ x. length x.1.now < length tokens.now) }
    ensures reads { GivesItem result (at_depth depth (reference call_parts) tokens.now) }
{
    let ((name, eid), rest) = parse_words(alloc, tokens)?;
    if let Some(eid) = eid {
        return lone_item(alloc, entity_node(name, eid), rest);
    }
    if begins(rest, Kind::LParen) {
        return called(alloc, name, parse_call(alloc, rest, depth));
    }
    if is_lone_variable(tokens, &name) {
        return lone_item(alloc, name_primary(name), rest);
    }
    Err(refuse(rest))
}

// The arguments of a call, in brackets.
#[cycle(parser)]
#[inline(never)]
fn parse_call<'t, 'src>(
    alloc: Global,
    tokens: &'t [Lexeme<'src>],
    depth: usize,
) -> Parsed<'t, 'src, Node<MemAccess<'src>>>
    ensures shorter { IfOk result (λ x. length x.1.now < length tokens.now) }
    ensures reads { GivesNode Label.access access_parts result (at_depth depth call tokens.now) }
{
    let (open, rest) = expect(tokens, Kind::LParen)?;
    if depth == 0 {
        return Err(too_deep(tokens));
    }
    let read = parse_exprs(alloc, rest, depth - 1);
    call_node(open.span.start, followed_by(read, Kind::RParen))
}

// Expressions with commas between them, and perhaps one after the last; or none.
#[cycle(parser)]
#[inline(never)]
fn parse_exprs<'t, 'src>(
    alloc: Global,
    tokens: &'t [Lexeme<'src>],
    depth: usize,
) -> Parsed<'t, 'src, Vec<Node<Expr<'src>>>>
    ensures shorter { IfOk result (λ x. length x.1.now ≤ length tokens.now) }
    ensures reads { GivesItems Label.expr expr_parts result (at_depth (suc depth) (maybe (items inner)) tokens.now) }
{
    let mut items = Vec::new(alloc);
    let mut rest = tokens;
    'items: while begins_expression(rest) {
        keep(parse_expr(alloc, rest, depth), &mut items, &mut rest)?;
        if !skip(&mut rest, Kind::Comma) {
            return Ok((items, rest));
        }
    }
    Ok((items, rest))
}

// A parenthesis, a list or a record.
#[cycle(parser)]
#[inline(never)]
fn parse_bracket<'t, 'src>(
    alloc: Global,
    tokens: &'t [Lexeme<'src>],
    depth: usize,
) -> Parsed<'t, 'src, Box<Node<Primary<'src>>>>
    ensures shorter { IfOk result (λ x. length x.1.now < length tokens.now) }
    ensures reads { GivesNode Label.primary primary_parts (unboxed result) (at_depth (suc depth) bracket_rule tokens.now) }
{
    let start = start_of(tokens);
    if let Some(after) = past(tokens, Kind::LParen) {
        return parens_node(alloc, start, parse_expr(alloc, after, depth));
    }
    if let Some(after) = past(tokens, Kind::LBracket) {
        return list_node(alloc, start, parse_exprs(alloc, after, depth));
    }
    let (_, rest) = expect(tokens, Kind::LBrace)?;
    record_node(alloc, start, parse_inits(alloc, rest, depth))
}

// Entries of a record with commas between them, and perhaps one after the last; or none.
#[cycle(parser)]
#[inline(never)]
fn parse_inits<'t, 'src>(
    alloc: Global,
    tokens: &'t [Lexeme<'src>],
    depth: usize,
) -> Parsed<'t, 'src, Vec<Node<RecInit<'src>>>>
    ensures shorter { IfOk result (λ x. length x.1.now ≤ length tokens.now) }
    ensures reads { GivesItems Label.rec_init init_parts result (at_depth (suc depth) (maybe (items init)) tokens.now) }
{
    let mut inits = Vec::new(alloc);
    let mut rest = tokens;
    'inits: while begins_key(rest) {
        keep_boxed(parse_init(alloc, rest, depth), &mut inits, &mut rest)?;
        if !skip(&mut rest, Kind::Comma) {
            return Ok((inits, rest));
        }
    }
    Ok((inits, rest))
}

// A key, `:`, and its value.
#[cycle(parser)]
#[inline(never)]
fn parse_init<'t, 'src>(
    alloc: Global,
    tokens: &'t [Lexeme<'src>],
    depth: usize,
) -> Parsed<'t, 'src, Box<Node<RecInit<'src>>>>
    ensures shorter { IfOk result (λ x. length x.1.now < length tokens.now) }
    ensures reads { GivesNode Label.rec_init init_parts (unboxed result) (at_depth (suc depth) init tokens.now) }
{
    let (key, rest) = record_key(alloc, tokens)?;
    init_node(alloc, key, parse_expr(alloc, rest, depth))
}
