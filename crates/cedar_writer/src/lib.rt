//! Policies, read and written in one step: a function for each line of the grammar, whose contract is that line's rule. Its
//! tokens are slices of the text, and what is written are the marks of its document.
#![tactic(auto)]

mod expressions;
pub mod laws;
mod names;
pub mod node;
mod operands;
mod policies;
pub mod policy;
pub mod printer;
mod scopes;
mod sets;
mod writer;
