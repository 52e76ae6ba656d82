//! Tests of formatting the files of a folder: one in memory, of which all is known, and whose calls fail in turn. And a law:
//! that each call of a folder can succeed and can fail.
#![tactic(auto)]

mod laws;
mod memory;
#[cfg(test)]
mod tests;

pub use laws::calls_can_end;
pub use memory::{Entry, Memory, Trouble};
