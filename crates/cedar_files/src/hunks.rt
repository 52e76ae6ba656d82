//! Which parts of the changes a diff shows.
ghost use Rattle.std.specs.Prelude.{◌≡◌, ◌↔◌, ◌⊎◌, ◌+◌, ◌<◌, ◌≤◌, ◌^◌, ℕ, IfOk, List, OnOk, Some, length, slice_get};
ghost use Rattle.cedar_files.specs.declared.changes.Change.{Change};
ghost use Rattle.cedar_files.specs.Hunks.{AreBefore, AreHunksOf, AreInOrder, IsIn, IsNumberedBy, IsShown, Passes};

use crate::changes::Change;
use std::alloc::{AllocError, Global};

// How many lines are shown before and after a change.
const CONTEXT: usize = 3;

/// A part of the changes, from one of them up to another one.
#[derive(Clone, Copy)]
pub struct Hunk {
    pub start: usize,
    pub end: usize,
}

/// The parts that are shown: changes with some lines before and after them.
pub fn hunks_of(alloc: Global, changes: &[Change]) -> Result<Vec<Hunk>, AllocError>
    ensures { IfOk result (λ hunks. AreHunksOf changes.now hunks.items) }
{
    let mut hunks = Vec::new(alloc);
    for (n, change) in changes.iter().enumerate() {
        if *change == Change::Keep {
            continue;
        }
        let start = n.saturating_sub(CONTEXT);
        let end = n.saturating_add(CONTEXT + 1).min(changes.len());
        add_hunk(&mut hunks, Hunk { start, end })?;
    }
    Ok(hunks)
}

// Adds a hunk that begins and ends no earlier than the others. One that reaches it grows.
fn add_hunk(hunks: &mut Vec<Hunk>, more: Hunk) -> Result<(), AllocError>
    requires { AreBefore hunks.old.items more }
    ensures shown { OnOk result ((n : ℕ) → IsShown hunks.new.items n ↔ (IsShown hunks.old.items n ⊎ IsIn n more)) }
    ensures order { OnOk result (AreInOrder hunks.old.items → more.start < more.end → AreInOrder hunks.new.items) }
    ensures before { OnOk result (AreBefore hunks.new.items more) }
{
    let Some(last) = hunks.pop() else {
        hunks.push(more)?;
        return Ok(());
    };
    if more.start <= last.end {
        hunks.push(Hunk {
            start: last.start,
            end: more.end,
        })?;
    } else {
        hunks.push(last)?;
        hunks.push(more)?;
    }
    Ok(())
}

/// How many changes are passed, and how many lines of both texts.
#[derive(Clone, Copy)]
pub struct Passed {
    pub changes: usize,
    pub old_lines: usize,
    pub new_lines: usize,
}

impl Passed {
    /// None is passed yet.
    pub fn new() -> Passed
        ensures { (changes : List Change) → Passes changes result }
    {
        Passed {
            changes: 0,
            old_lines: 0,
            new_lines: 0,
        }
    }

    /// Passes the next change.
    pub fn pass(&mut self, change: Change)
        ensures { (changes : List Change) → length changes < 2 ^ 64 → Passes changes self.old
            → slice_get changes self.old.changes ≡ Some change → Passes changes self.new × (self.new.changes ≡ self.old.changes + 1) }
    {
        self.changes = self.changes.saturating_add(1);
        match change {
            Change::Keep => {
                self.old_lines = self.old_lines.saturating_add(1);
                self.new_lines = self.new_lines.saturating_add(1);
            }
            Change::Remove => self.old_lines = self.old_lines.saturating_add(1),
            Change::Add => self.new_lines = self.new_lines.saturating_add(1),
        }
    }

    /// What is passed once the changes before this one are.
    pub fn up_to(self, changes: &[Change], end: usize) -> Passed
        ensures { Passes changes.now self → self.changes ≤ end → end ≤ length changes.now
            → Passes changes.now result × (result.changes ≡ end) }
    {
        let mut passed = self;
        for i in self.changes..end.min(changes.len()) {
            passed.pass(changes[i]);
        }
        passed
    }
}

/// Which lines of a text a hunk is about: the number of the first one, or, where there is none, of the line before; and how many
/// there are.
#[derive(Clone, Copy)]
pub struct Lines {
    pub first: usize,
    pub count: usize,
}

impl Lines {
    /// The lines between two places, each given by how many lines come before it.
    pub fn between(start: usize, end: usize) -> Lines
        ensures { IsNumberedBy start end result }
    {
        let count = end.saturating_sub(start);
        let first = if count == 0 {
            start
        } else {
            start.saturating_add(1)
        };
        Lines { first, count }
    }
}
