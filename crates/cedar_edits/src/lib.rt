//! Edits of a text, and its positions by line and character, as editors count them. Several edits are applied together, one can be
//! made as small as whole lines allow, and a text can be changed at positions.
#![tactic(auto)]

mod changes;
mod edits;
pub mod laws;
mod lines;
mod places;
mod positions;
mod returns;

pub use changes::{Change, PlacedEdit, Range, changed_text};
pub use edits::{Edit, apply_edits};
pub use lines::line_edit;
pub use places::place_edits;
pub use positions::{Encoding, Line, Position, line_from, offset_at, position_at, position_on};
pub use returns::{has_returns, with_returns};
