//! The laws of trees, of refusals and of the readers of policies.
ghost use Rattle.cedar_cst.specs.PolicyReaders.{AnsweredComeFirst, TreeHasThePolicies};

pub use cedar_grammar::tree_laws::{
    accepted_is_not_refused, nodes_have_the_plain_texts, refusal_is_unique, same_tree_is_by_fields,
    text_is_judged, tree_is_of_accepted, tree_of_nodes_is_unique,
};

/// What a reader has answered are the first policies of its text's tree. A law: its body does nothing.
pub fn answered_come_first()
    ensures { AnsweredComeFirst }
{}

/// A text has the policies of its tree of nodes. A law: its body does nothing.
pub fn tree_has_the_policies()
    ensures { TreeHasThePolicies }
{}
