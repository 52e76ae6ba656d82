//! Trees of policies, and the parser.
ghost use Rattle.std.specs.Prelude.{◌≡◌, IfOk, IfErr};
ghost use Rattle.cedar_grammar.specs.NodeTrees.{IsTreeOf};
ghost use Rattle.cedar_grammar.specs.Refusals.{OutOfMemoryOr, Refuses};

mod policies;
mod reader;
mod scopes;

pub use crate::cst::reader::{Piece, PolicyReader};
pub use crate::laws;
use crate::laws::tree_has_the_policies;
pub use cedar_grammar::error::FormatError;
pub use cedar_grammar::tree::{
    Add, AddOp, And, Annotation, Cond, Expr, Ident, Literal, MemAccess, Member, Mult, MultOp, Name,
    NegOp, Node, Or, Policies, Policy, Primary, RecInit, Ref, RelOp, Relation, Slot, Str, Unary,
    VariableDef, same_tree,
};
use std::alloc::Global;

/// The policies of a text, node by node: the tree that the grammar gives the text's tokens, without trailing commas, with
/// the place of each node. A text is refused only if it is not in the grammar with at most 128 nested brackets and `if`s,
/// or if out of memory. The refusal says why and where, by the first of these that applies:
/// the text does not split into blanks, comments and tokens: the first place where none begins;
/// a number is above 18446744073709551615: the first such number;
/// no policies begin with the tokens through some token: the first such token, as too deep if only the nesting is at fault;
/// a token is missing: the length of the text.
pub fn parse_policies<'src>(alloc: Global, text: &'src str) -> Result<Policies<'src>, FormatError>
    ensures tree { IfOk result (λ p. IsTreeOf text.now p) }
    ensures refusal { IfErr result (OutOfMemoryOr (Refuses text.now)) }
{
    tree_has_the_policies();
    let mut reader = PolicyReader::new(text);
    let mut policies = Vec::new(alloc);
    'policies: while let Some(policy) = reader.next(alloc)? {
        policies.push(policy)?;
    }
    Ok(Policies { policies })
}
