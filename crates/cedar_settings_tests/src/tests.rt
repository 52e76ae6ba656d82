//! What no clause says: that globs, lines and values mean what the specification of EditorConfig says, and that calls succeed
//! with ample memory. Expected values are from <https://spec.editorconfig.org> and the tests of its cores.
mod decisions;
mod globs;
mod memory;
