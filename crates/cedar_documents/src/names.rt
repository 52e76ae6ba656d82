//! Words, strings, literals, slots, paths and entities.
ghost use Rattle.std.specs.Prelude.{◌≡◌, ◌++◌, OnOk};
ghost use Rattle.cedar_grammar.specs.Trees.{leaf, none};
ghost use Rattle.cedar_grammar.specs.Erased.{ident_tree, literal_text, name_tree, node, ref_tree, slot_text, str_tree, variant_label};
ghost use Rattle.cedar_grammar.specs.Trees.{Label};
ghost use Rattle.cedar_documents.specs.Items.{items_of, listed};

use crate::items::{Item, put};
use cedar_grammar::tree::{Ident, Literal, Name, Node, Ref, Slot, Str};
use cedar_tokens::token::Span;
use std::alloc::AllocError;

// A node of one token.
fn list_one<'src>(text: &'src str, span: Span, out: &mut Vec<Item<'src>>) -> Result<(), AllocError>
    ensures { OnOk result (items_of out.new.items ≡ items_of out.old.items ++ listed (node Label.ident span (leaf text.now none) none)) }
{
    put(out, Item::Needed(span.start))?;
    put(out, Item::Token(text))
}

/// Lists an identifier.
pub fn list_ident<'src>(
    ident: &Node<Ident<'src>>,
    out: &mut Vec<Item<'src>>,
) -> Result<(), AllocError>
    ensures { OnOk result (items_of out.new.items ≡ items_of out.old.items ++ listed (ident_tree ident.now none)) }
{
    list_one(ident.inner.0, ident.span, out)
}

/// Lists a string.
pub fn list_str<'src>(string: &Node<Str<'src>>, out: &mut Vec<Item<'src>>) -> Result<(), AllocError>
    ensures { OnOk result (items_of out.new.items ≡ items_of out.old.items ++ listed (str_tree string.now none)) }
{
    list_one(string.inner.0, string.span, out)
}

/// Lists a literal.
pub fn list_literal<'src>(
    literal: &Node<Literal<'src>>,
    out: &mut Vec<Item<'src>>,
) -> Result<(), AllocError>
    ensures { OnOk result (items_of out.new.items ≡ items_of out.old.items ++ listed (node (variant_label literal.now.inner) literal.now.span (leaf (literal_text literal.now.inner) none) none)) }
{
    let text = match &literal.inner {
        Literal::True => "true",
        Literal::False => "false",
        Literal::Num(digits) => digits,
        Literal::Str(text) => text,
    };
    list_one(text, literal.span, out)
}

/// Lists a slot.
pub fn list_slot<'src>(slot: &Node<Slot>, out: &mut Vec<Item<'src>>) -> Result<(), AllocError>
    ensures { OnOk result (items_of out.new.items ≡ items_of out.old.items ++ listed (node Label.slot slot.now.span (leaf (slot_text slot.now.inner) none) none)) }
{
    let text = match slot.inner {
        Slot::Principal => "?principal",
        Slot::Resource => "?resource",
    };
    list_one(text, slot.span, out)
}

/// Lists a path.
pub fn list_name<'src>(name: &Node<Name<'src>>, out: &mut Vec<Item<'src>>) -> Result<(), AllocError>
    ensures { OnOk result (items_of out.new.items ≡ items_of out.old.items ++ listed (name_tree name.now none)) }
{
    put(out, Item::At(name.span.start))?;
    for word in &name.inner.path {
        list_ident(word, out)?;
        put(out, Item::Token("::"))?;
    }
    list_ident(&name.inner.name, out)
}

/// Lists an entity.
pub fn list_ref<'src>(entity: &Node<Ref<'src>>, out: &mut Vec<Item<'src>>) -> Result<(), AllocError>
    ensures { OnOk result (items_of out.new.items ≡ items_of out.old.items ++ listed (ref_tree entity.now none)) }
{
    put(out, Item::At(entity.span.start))?;
    list_name(&entity.inner.path, out)?;
    put(out, Item::Token("::"))?;
    list_str(&entity.inner.eid, out)
}
