//! The layout that a project's files `.editorconfig` ask for.
//!
//! They are read as editors read them (<https://spec.editorconfig.org>): sections by glob, and the nearest file before those of
//! the folders above it, up to one that says `root = true`. Of their settings `indent_size`, `tab_width` and `max_line_length`
//! are read.
#![tactic(auto)]

mod decisions;
mod files;
mod globs;
mod lines;
mod project;
mod translation;

pub use decisions::{Applied, Decision, Problem, Setting, decide};
pub use files::{ConfigFile, Section};
pub use globs::{Glob, GlobError};
pub use lines::{Entry, Fault, Key, Value};
pub use project::{Project, ProjectProblem, ProjectSetting, ProjectSettings, project_settings};
