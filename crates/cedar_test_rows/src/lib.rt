//! What the rows of tests are made of: texts with their layouts, and long texts in parts.
//! Only a test may abort, so the assertions are in the crates of tests.
#![tactic(auto)]

ghost use Rattle.std.specs.Prelude.{◌≡◌, IfOk, string_bytes};
ghost use Rattle.std.specs.List.{flat_map};
ghost use Rattle.cedar_test_rows.specs.Parts.{part_text};

use std::alloc::{AllocError, Global};

/// A text and its layout at a width and an indentation.
#[derive(Clone, Copy)]
pub struct Row {
    /// What the row shows.
    pub name: &'static str,
    pub text: &'static str,
    pub layout: &'static str,
    pub width: usize,
    pub indent: isize,
}

/// What a row has that says nothing else: the default width and indentation.
pub const ROW: Row = Row {
    name: "",
    text: "",
    layout: "",
    width: 80,
    indent: 2,
};

/// A part of a long text.
#[derive(Clone, Copy)]
pub enum Part {
    Once(&'static str),
    /// The text so many times.
    Times(usize, &'static str),
}

/// The parts, one after the other.
pub fn joined(alloc: Global, parts: &[Part]) -> Result<String, AllocError>
    ensures { IfOk result (λ s. string_bytes s ≡ flat_map part_text parts.now) }
{
    let mut out = String::new(alloc);
    for part in parts {
        match part {
            Part::Once(text) => out.push_str(text)?,
            Part::Times(times, text) => out.push_str(text.repeat(alloc, *times)?.as_str())?,
        }
    }
    Ok(out)
}
