//! Formatting or checking the files of a folder.
ghost use Rattle.std.specs.Prelude.{◌≡◌, map};
ghost use Rattle.cedar_program.specs.Folders.{Follows, stored};
ghost use Rattle.cedar_program.specs.FolderRuns.{GivesLayout, Handles, HandlesAll, Replaces, task_of};

use crate::folder::folder::{File, Folder, NotCreated, Outcome};
use cedar_policy_formatter::fmt::outputs_are_canonical;
use cedar_policy_formatter::lexer::listing_is_unique;
use cedar_policy_formatter::{Config, FormatError, policies_str_to_pretty};
use std::alloc::Global;
use std::io;

/// A file that is to be formatted.
#[derive(Drop)]
pub struct Task {
    /// Its name.
    pub name: String,
    /// How it is laid out.
    pub config: Config,
}

/// Formats the files of these tasks in order, each as its task says, or with `only_checks` says which aren't formatted, and
/// reports on each.
///
/// Afterwards each of these files that is accepted holds its output, with the access that it had; a refused one, one that
/// couldn't be read or replaced, and every other file hold what they held. At every moment each file holds what it
/// held or its output. With `only_checks` nothing changes. The run ends early if `report` says so, or can't be made.
pub fn format_files<F: Folder>(alloc: Global, folder: &mut F, tasks: &[Task], only_checks: bool)
    ensures { Follows (HandlesAll only_checks (map task_of tasks.now)) (F.picture folder.old) (F.picture folder.new) }
{
    outputs_are_canonical();
    listing_is_unique();
    for task in tasks {
        let name = task.name.as_str();
        let outcome = format_file(alloc, folder, name, &task.config, only_checks);
        if !folder.report(name, outcome) {
            return;
        }
    }
}

// Formats a file, or only says whether it is formatted.
fn format_file<F: Folder>(
    alloc: Global,
    folder: &mut F,
    name: &str,
    config: &Config,
    only_checks: bool,
) -> Outcome
    ensures { Follows (Handles config.now only_checks name.now result) (F.picture folder.old) (F.picture folder.new) }
{
    let file = match folder.read(alloc, name) {
        Ok(file) => file,
        Err(error) => return Outcome::Unread(error),
    };
    match layout_of(alloc, &file.bytes, config) {
        Layout::Nothing => Outcome::Empty,
        Layout::Own => Outcome::Formatted,
        Layout::Other(output) if only_checks => Outcome::Unformatted {
            bytes: file.bytes,
            output,
        },
        Layout::Other(output) => replace_file(alloc, folder, name, output.as_bytes(), &file),
        Layout::NotUtf8 => Outcome::NotUtf8,
        Layout::Refused(error) => Outcome::Refused {
            error,
            bytes: file.bytes,
        },
    }
}

// The result of laying out the bytes of a file.
#[derive(Drop)]
enum Layout {
    // There are none.
    Nothing,
    // They are their own output.
    Own,
    // They aren't; this is their output.
    Other(String),
    NotUtf8,
    Refused(FormatError),
}

// The layout of these bytes.
fn layout_of(alloc: Global, bytes: &[u8], config: &Config) -> Layout
    ensures { GivesLayout config.now bytes.now result }
{
    outputs_are_canonical();
    listing_is_unique();
    if bytes.is_empty() {
        return Layout::Nothing;
    }
    let Ok(text) = str::from_utf8(bytes) else {
        return Layout::NotUtf8;
    };
    match policies_str_to_pretty(alloc, text, config) {
        Ok(output) => {
            if output.as_str() == text {
                Layout::Own
            } else {
                Layout::Other(output)
            }
        }
        Err(error) => Layout::Refused(error),
    }
}

// Replaces an existing file by one with these bytes, in one step.
fn replace_file<F: Folder>(
    alloc: Global,
    folder: &mut F,
    name: &str,
    bytes: &[u8],
    old: &File,
) -> Outcome
    ensures { Follows (Replaces name.now bytes.now (stored old.now) result) (F.picture folder.old) (F.picture folder.new) }
{
    let beside = match folder.unused_name(alloc, name) {
        Ok(beside) => beside,
        Err(error) => return Outcome::Unwritten(error),
    };
    if let Err(NotCreated { error, is_left }) = folder.create(beside.as_str(), bytes, old.access) {
        if is_left {
            return Outcome::LeftBeside { error, beside };
        }
        return Outcome::Unwritten(error);
    }
    let Err(error) = folder.replace(beside.as_str(), name, old.version) else {
        return Outcome::Replaced;
    };
    match folder.remove(beside.as_str()) {
        Ok(()) => Outcome::Unwritten(error),
        Err(_) => Outcome::LeftBeside { error, beside },
    }
}
