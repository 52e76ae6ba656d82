//! The parser of policies, and the reader that gives them one by one.
#![tactic(auto)]

pub mod cst;
pub mod expressions;
pub mod laws;
pub mod nodes;
