//! The written grammar with its documents: which lists of tokens it has, and how each is laid out. Definitions, and the laws
//! that join them with the grammar of trees and the table; no code.
#![tactic(auto)]

pub mod laws;
