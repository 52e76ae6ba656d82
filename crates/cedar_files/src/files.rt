//! Files and folders.
use crate::MISUSED;
use crate::counts::{Counts, FAILED};
use crate::disk::Disk;
use crate::excludes::Excludes;
use crate::layouts::Layouts;
use crate::names::Shown;
use crate::options::{Mode, Options};
use crate::paths::working_folder;
use crate::reports::Reports;
use crate::walk::{Found, find_files};
use cedar_program::folder::{Task, format_files};
use cedar_settings::GlobError;
use std::alloc::AllocError;
use std::io;
use std::io::ErrorKind;

/// Formats the files that the words name, or only checks them, and returns the status.
pub fn run_files(rt: &HostRuntime, options: &Options<'_>) -> io::Result<u8> {
    let folder = working_folder(rt)?;
    let mut reports = Reports::new(rt, options)?;
    let found = match find(rt, options, folder.as_str(), &mut reports)? {
        Some(found) => found,
        None => return Ok(MISUSED),
    };
    let faults = found.faults;
    let tasks = tasks_of(rt, options, folder.as_str(), found.files)?;
    let counts = format_all(rt, options, &mut reports, &tasks)?;
    if !options.quiet {
        let line = summary(rt, options, &counts, tasks.len(), faults)?;
        reports.say(line.as_str());
    }
    Ok(if reports.end() {
        counts.status(options.mode.only_checks(), tasks.len(), faults)
    } else {
        FAILED
    })
}

// The files that the words name. There are none if what is excluded can't be read, which is reported.
fn find(
    rt: &HostRuntime,
    options: &Options<'_>,
    folder: &str,
    reports: &mut Reports<'_>,
) -> io::Result<Option<Found>> {
    let alloc = rt.alloc();
    let mut excludes = match Excludes::new(alloc, &options.excluded, folder) {
        Ok(excludes) => excludes,
        Err(GlobError::OutOfMemory) => return Err(io::Error::from(ErrorKind::OutOfMemory)),
        Err(GlobError::TooLarge) => {
            reports.say("cedar-files: a glob is too large");
            return Ok(None);
        }
    };
    let found = find_files(rt, options, folder, &mut excludes, reports)?;
    if !options.excludes_named {
        let unmet = excludes.unmet(alloc)?;
        for word in &unmet {
            let line = format!(in alloc; "cedar-files: nothing is excluded by {}", Shown(word))?;
            reports.say(line.as_str());
        }
    }
    Ok(Some(found))
}

// Formats or checks the files, and returns what became of them.
fn format_all<'a>(
    rt: &'a HostRuntime,
    options: &Options<'_>,
    reports: &mut Reports<'a>,
    tasks: &[Task],
) -> io::Result<Counts> {
    let mut disk = Disk::new(rt, options, reports, tasks.len())?;
    let only_checks = options.mode.only_checks();
    format_files(rt.alloc(), &mut disk, tasks, only_checks);
    Ok(disk.counts())
}

// The files with their layouts. All are found before the first file is changed, so all go by the same settings.
fn tasks_of(
    rt: &HostRuntime,
    options: &Options<'_>,
    folder: &str,
    files: Vec<String>,
) -> io::Result<Vec<Task>> {
    let mut layouts = Layouts::new(rt, options, folder);
    let mut tasks = Vec::new(rt.alloc());
    for name in files {
        let config = layouts.layout_of(name.as_str())?;
        tasks.push(Task { name, config })?;
    }
    Ok(tasks)
}

// How many files there were of each kind, in words.
fn summary(
    rt: &HostRuntime,
    options: &Options<'_>,
    counts: &Counts,
    all: usize,
    faults: usize,
) -> Result<String, AllocError> {
    let files = if counts.changed == 1 { "file" } else { "files" };
    let (changed, same) = match options.mode {
        Mode::Write => ("replaced", "unchanged"),
        Mode::Check | Mode::Diff => ("not formatted", "formatted"),
    };
    let alloc = rt.alloc();
    let mut line = format!(in alloc;
        "{} {files} {changed}, {} {same}",
        counts.changed, counts.same
    )?;
    let rest = [
        (counts.refused, "refused"),
        (counts.failed.saturating_add(faults), "failed"),
        (all.saturating_sub(counts.done()), "not done"),
    ];
    for (count, what) in rest {
        if count > 0 {
            let part = format!(in alloc; ", {count} {what}")?;
            line.push_str(part.as_str())?;
        }
    }
    Ok(line)
}
