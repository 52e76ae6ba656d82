//! What a node says of its tokens.
ghost use Rattle.std.specs.Prelude.{◌≡◌, ◌++◌, ◌∷◌, [], OnOk};
ghost use Rattle.cedar_grammar.specs.Erased.{sign_leaves};
ghost use Rattle.cedar_documents.specs.Items.{comma, item_of, items_of, listed, sign_count};
ghost use Rattle.cedar_grammar.specs.Trees.{none};

use cedar_grammar::tree::NegOp;
use std::alloc::AllocError;

/// A token of a node, or what is known of where its tokens are.
#[derive(Clone, Copy)]
pub enum Item<'src> {
    /// The next token.
    Token(&'src str),
    /// A node begins at this byte.
    At(usize),
    /// A node of one token begins at this byte, where a token has to begin.
    Needed(usize),
    /// So many signs follow, and as many tokens have to be between these two bytes.
    Signs { count: u8, start: usize, end: usize },
}

/// Adds an item.
pub(crate) fn put<'src>(out: &mut Vec<Item<'src>>, item: Item<'src>) -> Result<(), AllocError>
    ensures { OnOk result (items_of out.new.items ≡ items_of out.old.items ++ item_of item.entry ∷ []) }
{
    out.push(item)?;
    Ok(())
}

/// Adds a comma, but not before the first.
pub(crate) fn put_comma<'src>(is_first: bool, out: &mut Vec<Item<'src>>) -> Result<(), AllocError>
    ensures { OnOk result (items_of out.new.items ≡ items_of out.old.items ++ comma is_first) }
{
    if is_first {
        return Ok(());
    }
    put(out, Item::Token(","))
}

/// Adds the tokens of signs.
pub(crate) fn list_signs<'src>(
    op: Option<NegOp>,
    out: &mut Vec<Item<'src>>,
) -> Result<(), AllocError>
    ensures { OnOk result (items_of out.new.items ≡ items_of out.old.items ++ listed (sign_leaves op none)) }
{
    let (count, sign) = match op {
        None => return Ok(()),
        Some(NegOp::Bang(count)) => (count, "!"),
        Some(NegOp::Dash(count)) => (count, "-"),
    };
    for _i in 0..count {
        put(out, Item::Token(sign))?;
    }
    Ok(())
}

/// How many signs there are.
pub(crate) fn sign_count(op: Option<NegOp>) -> u8
    ensures { result ≡ sign_count op }
{
    match op {
        None => 0,
        Some(NegOp::Bang(count)) => count,
        Some(NegOp::Dash(count)) => count,
    }
}
