//! Policies and their parts.
ghost use Rattle.std.specs.Prelude.{◌≡◌, ◌++◌, OnOk};
ghost use Rattle.cedar_grammar.specs.Trees.{Label, none};
ghost use Rattle.cedar_grammar.specs.Erased.{annotation_parts, cond_parts, node, policy_parts, value_parts, variable_parts};
ghost use Rattle.cedar_documents.specs.Items.{items_of, listed};

use crate::expressions::{list_add, list_expr};
use crate::items::{Item, put};
use crate::names::{list_ident, list_name, list_str};
use crate::words::rel_op_text;
use cedar_grammar::tree::{Annotation, Cond, Node, Policy, VariableDef};
use std::alloc::AllocError;

/// Lists an annotation.
pub fn list_annotation<'src>(
    annotation: &Node<Annotation<'src>>,
    out: &mut Vec<Item<'src>>,
) -> Result<(), AllocError>
    ensures { OnOk result (items_of out.new.items ≡ items_of out.old.items ++ listed (node Label.annotation annotation.now.span (annotation_parts annotation.now.inner) none)) }
{
    put(out, Item::At(annotation.span.start))?;
    put(out, Item::Token("@"))?;
    list_ident(&annotation.inner.key, out)?;
    if let Some(value) = &annotation.inner.value {
        put(out, Item::Token("("))?;
        list_str(value, out)?;
        put(out, Item::Token(")"))?;
    }
    Ok(())
}

/// Lists a variable of a scope.
pub fn list_variable<'src>(
    variable: &Node<VariableDef<'src>>,
    out: &mut Vec<Item<'src>>,
) -> Result<(), AllocError>
    ensures { OnOk result (items_of out.new.items ≡ items_of out.old.items ++ listed (node Label.variable variable.now.span (variable_parts variable.now.inner) none)) }
{
    put(out, Item::At(variable.span.start))?;
    list_ident(&variable.inner.variable, out)?;
    if let Some(name) = &variable.inner.entity_type {
        put(out, Item::Token("is"))?;
        list_name(name, out)?;
    }
    if let Some((op, operand)) = &variable.inner.ineq {
        put(out, Item::Token(rel_op_text(*op)))?;
        list_add(operand, out)?;
    }
    Ok(())
}

/// Lists a condition.
pub fn list_cond<'src>(cond: &Node<Cond<'src>>, out: &mut Vec<Item<'src>>) -> Result<(), AllocError>
    ensures { OnOk result (items_of out.new.items ≡ items_of out.old.items ++ listed (node Label.condition cond.now.span (cond_parts cond.now.inner) none)) }
{
    put(out, Item::At(cond.span.start))?;
    list_ident(&cond.inner.cond, out)?;
    put(out, Item::Token("{"))?;
    list_expr(&cond.inner.expr, out)?;
    put(out, Item::Token("}"))
}

/// Lists a policy.
pub fn list_policy<'src>(
    policy: &Node<Policy<'src>>,
    out: &mut Vec<Item<'src>>,
) -> Result<(), AllocError>
    ensures { OnOk result (items_of out.new.items ≡ items_of out.old.items ++ listed (node Label.policy policy.now.span (policy_parts policy.now.inner) none)) }
{
    put(out, Item::At(policy.span.start))?;
    for annotation in &policy.inner.annotations {
        list_annotation(annotation, out)?;
    }
    list_ident(&policy.inner.effect, out)?;
    put(out, Item::Token("("))?;
    list_variable(&policy.inner.variables.0, out)?;
    put(out, Item::Token(","))?;
    list_variable(&policy.inner.variables.1, out)?;
    put(out, Item::Token(","))?;
    list_variable(&policy.inner.variables.2, out)?;
    put(out, Item::Token(")"))?;
    for cond in &policy.inner.conds {
        list_cond(cond, out)?;
    }
    put(out, Item::Token(";"))
}
