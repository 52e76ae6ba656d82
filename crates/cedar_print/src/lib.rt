//! Marks, and the layout of their document at a width.
#![tactic(auto)]

pub mod laws;
pub mod mark;
mod measure;
mod place;
pub mod printer;
pub mod render;
mod walk;
mod write;
