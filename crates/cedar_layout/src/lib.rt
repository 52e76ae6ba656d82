//! Documents and their layout, the documents of comments, and the cleaning of a layout.
#![tactic(auto)]

pub mod laws;
pub mod layout;
pub mod trim;
pub mod utils;
