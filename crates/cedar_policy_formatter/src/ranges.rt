//! Edits that format a text, or a part of it: the policies touched by a range.

mod cuts;
mod ends;
mod format;
mod laws;
mod pieces;
mod touched;

pub use cedar_edits::{Edit, apply_edits};
pub use format::{format_range, format_text};
pub use laws::edits_keep_the_output;
