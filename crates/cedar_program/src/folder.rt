//! Formats or checks the files of a folder, one after the other.
//!
//! A folder is anything that implements the trait `Folder`: a real one, or one in memory. For every folder whose contents
//! are known, `format_files` says what each name holds afterwards and at every moment of the run, and what was reported.

mod access;
mod files;
mod folder;

pub use access::narrowed_mode;
pub use files::{Task, format_files};
pub use folder::{Access, File, Folder, NotCreated, Outcome, Version};
