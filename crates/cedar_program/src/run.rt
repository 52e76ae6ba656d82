//! A run of the program.
ghost use Rattle.std.specs.Prelude.{◌≡◌, ◌≢◌, IfOk, map, string_bytes};
ghost use Rattle.std.specs.Io.KnownBytes.{Keeps};
ghost use Rattle.cedar_streams.specs.Devices.{device_of, has_failed, is_flushed};
ghost use Rattle.clap.specs.Words.{kind_of};
ghost use Rattle.cedar_program.specs.Runs.{AnswersKind, AnswersWords, Checks, Formats, RunsTo, known_text, status_of};

use crate::command::HelpTexts;
use crate::options::{Options, read_options};
use cedar_policy_formatter::{Config, FormatError, RunFault, Watched, check_stream, format_stream};
use clap::Error;
use clap::error::ErrorKind;
use std::alloc::Global;
use std::fs;
use std::io::{Read, Write};
use std::rt::Files;

// Success: the text was written, or is formatted.
const DONE: u8 = 0;
// A text that can't be read or written, or is refused.
const FAILED: u8 = 1;
// A fault of the command line.
pub(crate) const MISUSED: u8 = 2;
// A text that is accepted and not formatted.
const UNFORMATTED: u8 = 3;

/// Runs the program on `words`, which begin with its name, and returns its exit status.
///
/// Formatted text and requested help go to `output`; everything else goes to `errors`. Faults are found in this order:
/// command line, reading, text that isn't UTF-8, refusal, writing. Failing to write the text of a fault changes no
/// status. With `--check` no policies are written, and the status says whether they are formatted.
pub fn run_words<R: Files + AllocGlobal, I: Read + Drop, O: Write, E: Write>(
    rt: &R,
    words: &[String],
    input: I,
    output: &mut Watched<O>,
    errors: &mut E,
) -> u8
    ensures { AnswersWords (map string_bytes words.now) (I.remaining input) (O.contents (device_of output.old)) (O.contents (device_of output.new)) (has_failed output.new) (is_flushed output.new) result }
{
    let alloc = rt.alloc();
    let Config {
        line_width,
        indent_width,
    } = Config::default();
    let Ok(texts) = HelpTexts::new(alloc, line_width, indent_width) else {
        return tell_memory(errors);
    };
    match read_options(alloc, words, &texts) {
        Ok(options) => run_options(rt, &options, input, output, errors),
        Err(error) => answer_words(&error, output, errors),
    }
}

// The help, or what is wrong with the words.
fn answer_words<O: Write, E: Write>(error: &Error, output: &mut Watched<O>, errors: &mut E) -> u8
    ensures { AnswersKind (kind_of error.now) (O.contents (device_of output.old)) (O.contents (device_of output.new)) (is_flushed output.new) result }
{
    if error.kind() == ErrorKind::OutOfMemory {
        return tell_memory(errors);
    }
    if error.use_stderr() {
        let _ = write!(errors, "{error}");
        return MISUSED;
    }
    if write!(output, "{error}").is_err() || output.flush().is_err() {
        return fail(RunFault::Write, None, errors);
    }
    DONE
}

/// Runs on the file that the options name, or on `input`, and returns the exit status: 0 if the output was written, or
/// with `--check` if the text is its own; 3 if it is accepted and isn't; 1 for every fault, whose text goes to `errors`.
///
/// Nothing is written to `output` before the text is read and accepted, and with `--check` nothing at all.
pub fn run_options<R: Files + AllocGlobal, I: Read + Drop, O: Write, E: Write>(
    rt: &R,
    options: &Options<'_>,
    input: I,
    output: &mut Watched<O>,
    errors: &mut E,
) -> u8
    ensures run { RunsTo options.now (known_text options.now (I.remaining input)) (O.contents (device_of output.old)) (O.contents (device_of output.new)) (has_failed output.new) (is_flushed output.new) result }
    ensures quiet { result ≢ 1 → Keeps (E.contents errors.old) (E.contents errors.new) }
{
    match run_on_text(rt, options, input, output) {
        Ok(status) => status,
        Err(fault) => fail(fault, options.file, errors),
    }
}

// Runs on the file that the options name, or on `input`: the status, or the fault.
fn run_on_text<R: Files + AllocGlobal, I: Read + Drop, O: Write>(
    rt: &R,
    options: &Options<'_>,
    input: I,
    output: &mut Watched<O>,
) -> Result<u8, RunFault>
    ensures run { RunsTo options.now (known_text options.now (I.remaining input)) (O.contents (device_of output.old)) (O.contents (device_of output.new)) (has_failed output.new) (is_flushed output.new) (status_of result) }
    ensures ok { IfOk result (λ s. s ≢ 1) }
{
    let alloc = rt.alloc();
    match options.file {
        Some(name) => match fs::open(rt, name) {
            Ok(file) => run_on(alloc, options, file, output),
            Err(_) => Err(RunFault::Read),
        },
        None => run_on(alloc, options, input, output),
    }
}

// Formats or checks the text of a reader: the status, or the fault.
fn run_on<I: Read + Drop, O: Write>(
    alloc: Global,
    options: &Options<'_>,
    input: I,
    output: &mut Watched<O>,
) -> Result<u8, RunFault>
    ensures run { RunsTo options.now (I.remaining input) (O.contents (device_of output.old)) (O.contents (device_of output.new)) (has_failed output.new) (is_flushed output.new) (status_of result) }
    ensures ok { IfOk result (λ s. s ≢ 1) }
{
    let mut input = Watched::new(input);
    if options.only_checks {
        check(alloc, &options.config, &mut input)
    } else {
        format(alloc, &options.config, &mut input, output)
    }
}

// Writes the output of a reader's text.
fn format<I: Read, O: Write>(
    alloc: Global,
    config: &Config,
    input: &mut Watched<I>,
    output: &mut Watched<O>,
) -> Result<u8, RunFault>
    ensures run { Formats config.now (I.remaining (device_of input.old)) (O.contents (device_of output.old)) (O.contents (device_of output.new)) (has_failed output.new) (is_flushed output.new) (status_of result) }
    ensures ok { IfOk result (λ s. s ≢ 1) }
{
    format_stream(alloc, input, output, config)?;
    match output.flush() {
        Ok(()) => Ok(DONE),
        Err(_) => Err(RunFault::Write),
    }
}

// The status that says whether the text of a reader is formatted.
fn check<I: Read>(alloc: Global, config: &Config, input: &mut Watched<I>) -> Result<u8, RunFault>
    ensures run { Checks config.now (I.remaining (device_of input.old)) (status_of result) }
    ensures ok { IfOk result (λ s. s ≢ 1) }
{
    if check_stream(alloc, input, config)? {
        Ok(DONE)
    } else {
        Ok(UNFORMATTED)
    }
}

// Reports out of memory.
pub(crate) fn tell_memory<E: Write>(errors: &mut E) -> u8
    ensures { result ≡ 1 }
{
    fail(RunFault::Format(FormatError::OutOfMemory), None, errors)
}

// Writes the text of the fault, and returns the status. `file` names what was read.
fn fail<E: Write>(fault: RunFault, file: Option<&str>, errors: &mut E) -> u8
    ensures { result ≡ 1 }
{
    let _ = match fault {
        RunFault::Read => match file {
            Some(name) => write!(errors, "cedar: cannot read {name}\n"),
            None => write!(errors, "cedar: cannot read standard input\n"),
        },
        RunFault::NotUtf8 => write!(errors, "cedar: input is not UTF-8\n"),
        RunFault::Format(error) => write!(errors, "cedar: {error}\n"),
        RunFault::Write => write!(errors, "cedar: cannot write the output\n"),
    };
    FAILED
}
