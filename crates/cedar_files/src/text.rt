//! Standard input.
use crate::counts::{FAILED, UNFORMATTED};
use crate::layouts::Layouts;
use crate::options::{Mode, Options};
use crate::paths::working_folder;
use crate::reports::{Kind, Reports, status_of};
use cedar_policy_formatter::{ReadFault, Watched, policies_str_to_pretty, read_text};
use std::io;
use std::io::Write;

/// Formats standard input to standard output, or only checks it, and returns the status.
pub fn format_text(rt: &HostRuntime, options: &Options<'_>) -> io::Result<u8> {
    let folder = working_folder(rt)?;
    let mut layouts = Layouts::new(rt, options, folder.as_str());
    let mut reports = Reports::new(rt, options)?;
    let (name, config) = match options.input_name {
        Some(name) => (name, layouts.layout_of(name)?),
        None => ("standard input", layouts.layout_of_text("standard input")?),
    };
    let Some(text) = read_input(rt, name, &mut reports) else {
        return Ok(FAILED);
    };
    if text.as_str().is_empty() {
        return Ok(0);
    }
    match policies_str_to_pretty(rt.alloc(), text.as_str(), &config) {
        Ok(output) if options.mode == Mode::Check => {
            Ok(if output.as_str() == text.as_str() {
                0
            } else {
                UNFORMATTED
            })
        }
        Ok(output) => {
            let mut out = rt.stdout();
            let written = out.write_all(output.as_bytes()).and_then(|_| out.flush());
            Ok(status_of(rt, &written))
        }
        Err(error) => {
            reports.refuse(name, text.as_str(), error);
            let _ = reports.end();
            Ok(FAILED)
        }
    }
}

// The text of standard input. If it can't be read, that is reported.
fn read_input(rt: &HostRuntime, name: &str, reports: &mut Reports<'_>) -> Option<String> {
    let mut input = Watched::new(rt.stdin());
    let message = match read_text(rt.alloc(), &mut input) {
        Ok(text) => return Some(text),
        Err(ReadFault::Read) => "cannot be read",
        Err(ReadFault::NotUtf8) => "input is not UTF-8",
        Err(ReadFault::OutOfMemory) => "out of memory",
    };
    reports.tell(Kind::Failed, name, message);
    let _ = reports.end();
    None
}
