//! The grammar of Cedar policies as a definition, its trees, why a text has none, and laws.
#![tactic(auto)]

pub mod error;
pub mod kind;
pub mod laws;
pub mod tree;
pub mod tree_laws;

/// How many brackets and `if`s may be nested in a condition.
pub const MAX_NESTING: usize = 128;
