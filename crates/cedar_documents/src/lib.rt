//! The document of every node of a policy, and the laws of outputs.
#![tactic(auto)]

pub mod config;
pub mod doc;
pub mod document;
pub mod expressions;
pub mod items;
pub mod laws;
pub mod names;
pub mod policies;
pub mod take;
mod words;
