//! Laws of accepted and refused texts, and of trees of nodes. They only state facts, so their bodies are empty.
ghost use Rattle.std.specs.Prelude.{◌↔◌, IsTrue};
ghost use Rattle.cedar_grammar.specs.declared.tree.Policies.{Policies};
ghost use Rattle.cedar_grammar.specs.Erased.{SameTree};
ghost use Rattle.cedar_grammar.specs.TreeLaws.{TextIsJudged, AcceptedIsNotRefused, RefusalIsUnique, TreeIsOfAccepted, TreeOfNodesIsUnique, NodesHaveThePlainTexts};

use crate::tree::Policies;
use cedar_tokens::lexer::{fault_is_unique, fault_prevents_split, split_is_unique};

/// A text that splits is accepted or refused.
pub fn text_is_judged()
    ensures { TextIsJudged }
{}

/// An accepted text is not refused.
pub fn accepted_is_not_refused()
    ensures { AcceptedIsNotRefused }
{
    split_is_unique();
    fault_is_unique();
    fault_prevents_split();
}

/// A text has at most one refusal: one place and one kind.
pub fn refusal_is_unique()
    ensures { RefusalIsUnique }
{
    split_is_unique();
    fault_is_unique();
    fault_prevents_split();
}

/// A text with a tree of nodes is accepted.
pub fn tree_is_of_accepted()
    ensures { TreeIsOfAccepted }
{}

/// A text has at most one tree of nodes, spans included.
pub fn tree_of_nodes_is_unique()
    ensures { TreeOfNodesIsUnique }
{
    split_is_unique();
}

/// The leaves of the tree of nodes are the texts of the plain list, numbers without leading zeros.
pub fn nodes_have_the_plain_texts()
    ensures { NodesHaveThePlainTexts }
{
    split_is_unique();
}

/// Policies have equal trees without spans if and only if they are equal by `==`, which compares all fields except spans.
pub fn same_tree_is_by_fields()
    ensures { (a b : Policies) → SameTree a b ↔ IsTrue (⟦<Policies<'static> as PartialEq>⟧.eq a b) }
{}
