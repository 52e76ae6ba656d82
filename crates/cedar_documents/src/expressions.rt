//! Expressions.
ghost use Rattle.std.specs.Prelude.{◌≡◌, ◌++◌, OnOk};
ghost use Rattle.cedar_grammar.specs.Trees.{Label, none};
ghost use Rattle.cedar_grammar.specs.Erased.{access_parts, add_parts, expr_parts, mult_parts, node, or_parts, primary_parts, relation_parts, unary_parts};
ghost use Rattle.cedar_grammar.specs.NodeLists.{and_parts, init_parts, member_parts};
ghost use Rattle.cedar_documents.specs.Items.{items_of, listed};

use crate::items::{Item, list_signs, put, put_comma, sign_count};
use crate::names::{list_ident, list_literal, list_name, list_ref, list_slot, list_str};
use crate::words::{add_op_text, rel_op_text};
use cedar_grammar::tree::{
    Add, And, Expr, MemAccess, Member, Mult, Node, Or, Primary, RecInit, Relation, Unary,
};
use std::alloc::AllocError;

/// Lists an expression.
#[cycle(items)]
pub fn list_expr<'src>(expr: &Node<Expr<'src>>, out: &mut Vec<Item<'src>>) -> Result<(), AllocError>
    ensures { OnOk result (items_of out.new.items ≡ items_of out.old.items ++ listed (node Label.expr expr.now.span (expr_parts expr.now.inner) none)) }
{
    put(out, Item::At(expr.span.start))?;
    match &expr.inner {
        Expr::If(test, yes, no) => {
            put(out, Item::Token("if"))?;
            list_expr(test, out)?;
            put(out, Item::Token("then"))?;
            list_expr(yes, out)?;
            put(out, Item::Token("else"))?;
            list_expr(no, out)
        }
        Expr::Or(or) => list_or(or, out),
    }
}

/// Lists operands of `||`.
#[cycle(items)]
pub fn list_or<'src>(or: &Node<Or<'src>>, out: &mut Vec<Item<'src>>) -> Result<(), AllocError>
    ensures { OnOk result (items_of out.new.items ≡ items_of out.old.items ++ listed (node Label.or or.now.span (or_parts or.now.inner) none)) }
{
    put(out, Item::At(or.span.start))?;
    list_and(&or.inner.initial, out)?;
    for operand in &or.inner.extended {
        put(out, Item::Token("||"))?;
        list_and(operand, out)?;
    }
    Ok(())
}

/// Lists operands of `&&`.
#[cycle(items)]
pub fn list_and<'src>(and: &Node<And<'src>>, out: &mut Vec<Item<'src>>) -> Result<(), AllocError>
    ensures { OnOk result (items_of out.new.items ≡ items_of out.old.items ++ listed (node Label.and and.now.span (and_parts and.now.inner) none)) }
{
    put(out, Item::At(and.span.start))?;
    list_relation(&and.inner.initial, out)?;
    for operand in &and.inner.extended {
        put(out, Item::Token("&&"))?;
        list_relation(operand, out)?;
    }
    Ok(())
}

/// Lists a relation.
#[cycle(items)]
pub fn list_relation<'src>(
    relation: &Node<Relation<'src>>,
    out: &mut Vec<Item<'src>>,
) -> Result<(), AllocError>
    ensures { OnOk result (items_of out.new.items ≡ items_of out.old.items ++ listed (node Label.relation relation.now.span (relation_parts relation.now.inner) none)) }
{
    put(out, Item::At(relation.span.start))?;
    match &relation.inner {
        Relation::Common { initial, extended } => {
            list_add(initial, out)?;
            if let Some((op, operand)) = extended {
                put(out, Item::Token(rel_op_text(*op)))?;
                list_add(operand, out)?;
            }
            Ok(())
        }
        Relation::Has { target, field } => {
            list_add(target, out)?;
            put(out, Item::Token("has"))?;
            list_add(field, out)
        }
        Relation::Like { target, pattern } => {
            list_add(target, out)?;
            put(out, Item::Token("like"))?;
            list_add(pattern, out)
        }
        Relation::IsIn {
            target,
            entity_type,
            in_entity,
        } => {
            list_add(target, out)?;
            put(out, Item::Token("is"))?;
            list_name(entity_type, out)?;
            if let Some(operand) = in_entity {
                put(out, Item::Token("in"))?;
                list_add(operand, out)?;
            }
            Ok(())
        }
    }
}

/// Lists a sum.
#[cycle(items)]
pub fn list_add<'src>(add: &Node<Add<'src>>, out: &mut Vec<Item<'src>>) -> Result<(), AllocError>
    ensures { OnOk result (items_of out.new.items ≡ items_of out.old.items ++ listed (node Label.add add.now.span (add_parts add.now.inner) none)) }
{
    put(out, Item::At(add.span.start))?;
    list_mult(&add.inner.initial, out)?;
    for (op, operand) in &add.inner.extended {
        put(out, Item::Token(add_op_text(*op)))?;
        list_mult(operand, out)?;
    }
    Ok(())
}

/// Lists a product.
#[cycle(items)]
pub fn list_mult<'src>(mult: &Node<Mult<'src>>, out: &mut Vec<Item<'src>>) -> Result<(), AllocError>
    ensures { OnOk result (items_of out.new.items ≡ items_of out.old.items ++ listed (node Label.mult mult.now.span (mult_parts mult.now.inner) none)) }
{
    put(out, Item::At(mult.span.start))?;
    list_unary(&mult.inner.initial, out)?;
    for (_, operand) in &mult.inner.extended {
        put(out, Item::Token("*"))?;
        list_unary(operand, out)?;
    }
    Ok(())
}

/// Lists signs and their member.
#[cycle(items)]
pub fn list_unary<'src>(
    unary: &Node<Unary<'src>>,
    out: &mut Vec<Item<'src>>,
) -> Result<(), AllocError>
    ensures { OnOk result (items_of out.new.items ≡ items_of out.old.items ++ listed (node Label.unary unary.now.span (unary_parts unary.now.inner) none)) }
{
    put(out, Item::At(unary.span.start))?;
    let signs = Item::Signs {
        count: sign_count(unary.inner.op),
        start: unary.span.start,
        end: unary.inner.item.span.start,
    };
    put(out, signs)?;
    list_signs(unary.inner.op, out)?;
    list_member(&unary.inner.item, out)
}

/// Lists a primary and what is accessed in it.
#[cycle(items)]
pub fn list_member<'src>(
    member: &Node<Member<'src>>,
    out: &mut Vec<Item<'src>>,
) -> Result<(), AllocError>
    ensures { OnOk result (items_of out.new.items ≡ items_of out.old.items ++ listed (node Label.member member.now.span (member_parts member.now.inner) none)) }
{
    put(out, Item::At(member.span.start))?;
    list_parts(&member.inner, out)
}

/// Lists the parts of a member: a primary and what is accessed in it.
#[cycle(items)]
pub fn list_parts<'src>(member: &Member<'src>, out: &mut Vec<Item<'src>>) -> Result<(), AllocError>
    ensures { OnOk result (items_of out.new.items ≡ items_of out.old.items ++ listed (member_parts member.now)) }
{
    list_primary(&member.item, out)?;
    for access in &member.access {
        list_access(access, out)?;
    }
    Ok(())
}

/// Lists a field, a call or an index.
#[cycle(items)]
pub fn list_access<'src>(
    access: &Node<MemAccess<'src>>,
    out: &mut Vec<Item<'src>>,
) -> Result<(), AllocError>
    ensures { OnOk result (items_of out.new.items ≡ items_of out.old.items ++ listed (node Label.access access.now.span (access_parts access.now.inner) none)) }
{
    put(out, Item::At(access.span.start))?;
    match &access.inner {
        MemAccess::Field(name) => {
            put(out, Item::Token("."))?;
            list_ident(name, out)
        }
        MemAccess::Call(arguments) => {
            put(out, Item::Token("("))?;
            let mut is_first = true;
            for argument in arguments {
                put_comma(is_first, out)?;
                list_expr(argument, out)?;
                is_first = false;
            }
            put(out, Item::Token(")"))
        }
        MemAccess::Index(key) => {
            put(out, Item::Token("["))?;
            list_str(key, out)?;
            put(out, Item::Token("]"))
        }
    }
}

/// Lists a primary.
#[cycle(items)]
pub fn list_primary<'src>(
    primary: &Node<Primary<'src>>,
    out: &mut Vec<Item<'src>>,
) -> Result<(), AllocError>
    ensures { OnOk result (items_of out.new.items ≡ items_of out.old.items ++ listed (node Label.primary primary.now.span (primary_parts primary.now.inner) none)) }
{
    put(out, Item::At(primary.span.start))?;
    match &primary.inner {
        Primary::Literal(literal) => list_literal(literal, out),
        Primary::Ref(entity) => list_ref(entity, out),
        Primary::Name(name) => list_name(name, out),
        Primary::Slot(slot) => list_slot(slot, out),
        Primary::Expr(inner) => {
            put(out, Item::Token("("))?;
            list_expr(inner, out)?;
            put(out, Item::Token(")"))
        }
        Primary::EList(items) => {
            put(out, Item::Token("["))?;
            let mut is_first = true;
            for item in items {
                put_comma(is_first, out)?;
                list_expr(item, out)?;
                is_first = false;
            }
            put(out, Item::Token("]"))
        }
        Primary::RInits(inits) => {
            put(out, Item::Token("{"))?;
            let mut is_first = true;
            for init in inits {
                put_comma(is_first, out)?;
                list_init(init, out)?;
                is_first = false;
            }
            put(out, Item::Token("}"))
        }
    }
}

/// Lists a key and its value.
#[cycle(items)]
pub fn list_init<'src>(
    init: &Node<RecInit<'src>>,
    out: &mut Vec<Item<'src>>,
) -> Result<(), AllocError>
    ensures { OnOk result (items_of out.new.items ≡ items_of out.old.items ++ listed (node Label.rec_init init.now.span (init_parts init.now.inner) none)) }
{
    put(out, Item::At(init.span.start))?;
    list_primary(&init.inner.key, out)?;
    put(out, Item::Token(":"))?;
    list_expr(&init.inner.value, out)
}
