//! Whole texts from readers and to writers, stopping at the first failure.
//!
//! `Watched` remembers whether its reader or writer failed. `read_text` reads a text to its end, and
//! `write_until_failure` writes bytes to their end. Neither retries, not even an interrupted call.
#![tactic(auto)]

mod reading;
mod watched;
mod writing;

pub use reading::{ReadFault, read_text};
pub use watched::Watched;
pub use writing::write_until_failure;
