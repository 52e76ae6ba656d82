//! What is read of a text without nesting: its pieces, one for each policy; its tokens with their comments, as slices of the text; and
//! the single steps of the parser.
#![tactic(auto)]

pub mod accesses;
pub mod check;
pub mod commented;
mod gaps;
pub mod lexeme;
pub mod lines;
pub mod listing;
pub mod literals;
pub mod names;
pub mod pieces;
pub mod reading;
pub mod signs;
pub mod token;
pub mod token_check;
