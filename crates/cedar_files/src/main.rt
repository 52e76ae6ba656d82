//! Formats files of policies in place, or checks them. The script `cedar-files` runs it.
//!
//! The script names a folder by the variable `NOBLESILK_ROOM`, and tells in it what this program can't find out by itself:
//! whether a signal has come, for which files a new one would have another access control list, and which have extended
//! attributes (`room.rt`). Without the variable a signal ends the program at once, and it doesn't know of any list or attribute.
#![tactic(auto)]

mod beside;
mod changes;
mod counts;
mod diff;
mod disk;
mod entries;
mod excludes;
mod fault;
mod files;
mod hunks;
mod layouts;
mod names;
mod numbers;
mod options;
mod paths;
mod places;
mod reports;
mod room;
mod task;
mod text;
mod walk;
mod words;

use clap::Error;
use clap::error::ErrorKind;
use counts::FAILED;
use options::read_options;
use reports::{Why, status_of};
use std::io;
use std::io::Write;
use std::process::ExitCode;
use task::{Task, task_of};
use words::Words;

// A usage error.
const MISUSED: u8 = 2;

fn main(rt: HostRuntime) -> ExitCode {
    let status = match run(&rt) {
        Ok(status) => status,
        Err(error) => {
            let _ = write!(rt.stderr(), "cedar-files: {}\n", Why(&error));
            FAILED
        }
    };
    ExitCode::from(status)
}

// Does what the words of the command line ask for, and returns the status.
fn run(rt: &HostRuntime) -> io::Result<u8> {
    let words = Words::read(rt)?;
    let mut line = Vec::new(rt.alloc());
    line.push("cedar-files")?;
    for text in words.texts() {
        line.push(text.as_str())?;
    }
    let options = match read_options(rt.alloc(), &line, &words) {
        Ok(options) => options,
        Err(error) => return Ok(answer(rt, &error)),
    };
    match task_of(&words, &options) {
        Ok(Task::Input) => text::format_text(rt, &options),
        Ok(Task::Files) => files::run_files(rt, &options),
        Err(misuse) => {
            let _ = write!(rt.stderr(), "cedar-files: {misuse}\n");
            Ok(MISUSED)
        }
    }
}

// Writes help or the version, or what is wrong with the words, and returns the status.
fn answer(rt: &HostRuntime, error: &Error) -> u8 {
    if !error.use_stderr() {
        return status_of(rt, &write!(rt.stdout(), "{error}"));
    }
    tell_misuse(rt, error);
    if error.kind() == ErrorKind::OutOfMemory {
        FAILED
    } else {
        MISUSED
    }
}

// Writes what is wrong with the words.
fn tell_misuse(rt: &HostRuntime, error: &Error) {
    let Ok(text) = format!(in rt.alloc(); "{error}") else {
        let _ = write!(rt.stderr(), "{error}");
        return;
    };
    // (the stand-in of a word that isn't UTF-8 begins with a zero byte)
    for part in text.as_str().split('\0') {
        let _ = write!(rt.stderr(), "{part}");
    }
}
