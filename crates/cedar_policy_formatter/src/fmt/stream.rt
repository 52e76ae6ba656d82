//! Formatting from a reader to a writer, and checking what a reader gives.
ghost use Rattle.std.specs.Prelude.{◌≡◌};
ghost use Rattle.cedar_streams.specs.Devices.{device_of, has_failed};
ghost use Rattle.cedar_policy_formatter.specs.Devices.{TellsRead, TellsWrite};
ghost use Rattle.cedar_policy_formatter.specs.Streams.{TellsRun, TellsCheck, run_fault};

use crate::config::Config;
use crate::fmt::{is_formatted, policies_str_to_pretty};
use cedar_cst::cst::FormatError;
use cedar_streams::{ReadFault, Watched, read_text, write_until_failure};
use std::alloc::Global;
use std::io::{Read, Write};

/// Why a run ends without success.
#[derive(Clone, Copy, Debug, PartialEq, Eq)]
pub enum RunFault {
    /// A read failed.
    Read,
    /// What was read isn't UTF-8.
    NotUtf8,
    /// The text was refused.
    Format(FormatError),
    /// A write failed.
    Write,
}

impl From<ReadFault> for RunFault {
    ghost from_gives = { λ fault e. e ≡ run_fault fault };

    fn from(fault: ReadFault) -> RunFault {
        match fault {
            ReadFault::Read => RunFault::Read,
            ReadFault::NotUtf8 => RunFault::NotUtf8,
            ReadFault::OutOfMemory => RunFault::Format(FormatError::OutOfMemory),
        }
    }
}

/// Reads a text to its end, formats it, and then writes the result as a whole.
///
/// The first failed read or write ends the run, even an interrupted one. `NotUtf8` is returned if the bytes that were
/// read aren't UTF-8, and `Format` if they are a text that `policies_str_to_pretty` refuses, with its reason, or if out of
/// memory. With `Read`, `NotUtf8` and `Format` nothing is written, with `Write` a prefix of the result.
pub fn format_stream<R: Read, W: Write>(
    alloc: Global,
    input: &mut Watched<R>,
    output: &mut Watched<W>,
    config: &Config,
) -> Result<(), RunFault>
    ensures read { TellsRead (has_failed input.old) (has_failed input.new) result }
    ensures write { TellsWrite (has_failed output.old) (has_failed output.new) result }
    ensures run { TellsRun config.now.line_width config.now.indent_width (R.remaining (device_of input.old)) (R.remaining (device_of input.new)) (W.contents (device_of output.old)) (W.contents (device_of output.new)) result }
{
    let text = read_text(alloc, input)?;
    let formatted = match policies_str_to_pretty(alloc, text.as_str(), config) {
        Ok(formatted) => formatted,
        Err(error) => return Err(RunFault::Format(error)),
    };
    match write_until_failure(formatted.as_bytes(), output) {
        Ok(()) => Ok(()),
        Err(_) => Err(RunFault::Write),
    }
}

/// Reads a text to its end, and returns whether it is as `format_stream` would write it.
///
/// The faults are those of `format_stream`, except for `Write`.
pub fn check_stream<R: Read>(
    alloc: Global,
    input: &mut Watched<R>,
    config: &Config,
) -> Result<bool, RunFault>
    ensures read { TellsRead (has_failed input.old) (has_failed input.new) result }
    ensures check { TellsCheck config.now.line_width config.now.indent_width (R.remaining (device_of input.old)) (R.remaining (device_of input.new)) result }
{
    let ps = read_text(alloc, input)?;
    match is_formatted(alloc, ps.as_str(), config) {
        Ok(is_formatted) => Ok(is_formatted),
        Err(error) => Err(RunFault::Format(error)),
    }
}
