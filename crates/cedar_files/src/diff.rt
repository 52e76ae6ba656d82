//! The difference between a file and its output, as a unified diff.
use crate::changes::{Change, changes};
use crate::hunks::{Lines, Passed, hunks_of};
use crate::names::{Escaped, is_quoted};
use crate::numbers::Numbers;
use std::alloc::{AllocError, Global};
use std::io::Write;
use std::{fmt, io};

/// Writes the difference between a file of this name and its output, so that `git apply` or `patch -p1` makes it where the
/// run was started.
pub fn write_diff<W: Write>(
    alloc: Global,
    out: &mut W,
    name: &str,
    before: &str,
    after: &str,
) -> io::Result<()> {
    let old = lines_of(alloc, before)?;
    let new = lines_of(alloc, after)?;
    // (what takes memory is done before anything is written)
    let changes = changes_of(alloc, &old, &new)?;
    let hunks = hunks_of(alloc, &changes)?;
    write!(out, "--- {}\n", Label("a", name))?;
    write!(out, "+++ {}\n", Label("b", name))?;
    let mut passed = Passed::new();
    for hunk in &hunks {
        passed = passed.up_to(&changes, hunk.start);
        let changes = changes.get(..hunk.end).unwrap_or(&changes);
        passed = write_hunk(out, passed, changes, &old, &new)?;
    }
    Ok(())
}

// What makes the new lines of the old ones.
fn changes_of(alloc: Global, old: &[&str], new: &[&str]) -> io::Result<Vec<Change>> {
    let mut numbers = Numbers::new(alloc);
    let old = numbers.all(alloc, old)?;
    let new = numbers.all(alloc, new)?;
    Ok(changes(alloc, &old, &new)?)
}

// Writes the changes of a hunk, before which this is passed and which is the last one, and returns what is passed after it.
fn write_hunk<W: Write>(
    out: &mut W,
    start: Passed,
    changes: &[Change],
    old: &[&str],
    new: &[&str],
) -> io::Result<Passed> {
    write_header(out, start, start.up_to(changes, changes.len()))?;
    let mut passed = start;
    for change in changes.get(start.changes..).unwrap_or(&[]) {
        write_line(out, passed, *change, old, new)?;
        passed.pass(*change);
    }
    Ok(passed)
}

// The lines of a text, each with its line feed.
fn lines_of(alloc: Global, text: &str) -> Result<Vec<&str>, AllocError> {
    text.split_inclusive('\n').collect(alloc)
}

// Writes which lines a hunk is about, by what is passed before and after it.
fn write_header<W: Write>(out: &mut W, start: Passed, end: Passed) -> io::Result<()> {
    let old = Lines::between(start.old_lines, end.old_lines);
    let new = Lines::between(start.new_lines, end.new_lines);
    write!(
        out,
        "@@ -{},{} +{},{} @@\n",
        old.first, old.count, new.first, new.count
    )
}

// Writes the line of a change, before which this is passed.
fn write_line<W: Write>(
    out: &mut W,
    passed: Passed,
    change: Change,
    old: &[&str],
    new: &[&str],
) -> io::Result<()> {
    let (sign, line) = match change {
        Change::Keep => (' ', old.get(passed.old_lines)),
        Change::Remove => ('-', old.get(passed.old_lines)),
        Change::Add => ('+', new.get(passed.new_lines)),
    };
    let Some(line) = line else {
        return Ok(());
    };
    write!(out, "{sign}{line}")?;
    if !line.ends_with('\n') {
        out.write_all(b"\n\\ No newline at end of file\n")?;
    }
    Ok(())
}

// A name in a diff, as `git apply` reads it: below a folder, in quotes if need be, and before a tab if it has a space.
#[derive(Clone, Copy)]
struct Label<'a>(&'a str, &'a str);

impl fmt::Display for Label<'_> {
    fn fmt<W: fmt::Write>(&self, f: &mut fmt::Formatter<W>) -> fmt::Result {
        let Label(folder, name) = self;
        let name = name.trim_start_matches("./").trim_start_matches('/');
        if is_quoted(name) {
            return write!(f, "\"{folder}/{}\"", Escaped(name));
        }
        write!(f, "{folder}/{name}")?;
        if name.contains(' ') {
            f.write_str("\t")
        } else {
            Ok(())
        }
    }
}
