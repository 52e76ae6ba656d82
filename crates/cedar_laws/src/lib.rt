//! The written layout of policies and the laws of texts and outputs: definitions and proofs, no code.
#![tactic(auto)]

pub mod laws;
pub mod text_laws;
