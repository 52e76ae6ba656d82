//! The words of the command line.
ghost use Rattle.std.specs.Prelude.{◌≡◌, ◌≢◌, ◌↔◌, IsTrue};
ghost use Rattle.cedar_files.specs.Options.{mode_of};

use crate::words::{Word, Words};
use cedar_program::VERSION;
use clap::{Arg, ArgAction, ArgMatches, Command, Error, value_parser};
use std::alloc::{AllocError, Global};

/// What is done with a file that isn't formatted.
#[derive(Clone, Copy, PartialEq, Eq)]
pub enum Mode {
    /// It is replaced, and its name is printed.
    Write,
    /// Its name is printed.
    Check,
    /// What would change is printed.
    Diff,
}

impl Mode {
    /// The mode of a run with or without `--check` and `--diff`.
    fn of(checks: bool, diffs: bool) -> Mode
        ensures { result ≡ mode_of checks diffs }
    {
        if checks {
            Mode::Check
        } else if diffs {
            Mode::Diff
        } else {
            Mode::Write
        }
    }

    /// Whether nothing is changed.
    pub fn only_checks(self) -> bool
        ensures { IsTrue result ↔ (self ≢ Mode.Write) }
    {
        self != Mode::Write
    }
}

/// How a run prints what it has to say.
#[derive(Clone, Copy, PartialEq, Eq)]
pub enum Format {
    /// In lines for people.
    Text,
    /// As workflow commands of GitHub.
    Github,
    /// As objects of JSON, one a line.
    Json,
}

/// What a run is asked for.
#[derive(Drop)]
pub struct Options<'a> {
    pub mode: Mode,
    pub format: Format,
    /// Whether a zero byte follows a name, in place of a line feed.
    pub ends_with_zero: bool,
    /// The indentation of a level in columns, if it is asked for.
    pub indent_width: Option<u16>,
    /// The width of a line in columns, if it is asked for.
    pub line_width: Option<u16>,
    /// Whether files `.editorconfig` are read.
    pub reads_config: bool,
    /// Whether the layout of each file is printed.
    pub tells_layouts: bool,
    /// The name of the file that standard input stands for.
    pub input_name: Option<&'a str>,
    /// Whether only faults and names are printed.
    pub quiet: bool,
    /// Which files and folders are skipped, as globs.
    pub excluded: Vec<&'a str>,
    /// Whether files and folders that are named are skipped too.
    pub excludes_named: bool,
    /// The files and folders, in order.
    pub paths: Vec<Word<'a>>,
}

static FORMATS: [&str; 3] = ["text", "github", "json"];

static EXAMPLES: &str =
    "Names of files that were replaced, or aren't formatted, go to standard output, and faults as \
FILE:LINE:COLUMN: WHY to standard error, of a file the first ten; columns are counted in bytes.
Status: 0; 3 with --check or --diff where a file isn't formatted; 1 where a file is refused, or can't be read or written
(the others are done all the same), or where the output can't be written; 2 for a usage error.
A file .cedar-files.NUMBER.LETTERS is left by a run that was killed, and can be removed.

Examples:
  cedar-files policies
  cedar-files --check policies
  cedar-files - < policy.cedar
  cedar-files --stdin-filename policies/a.cedar - < policy.cedar";

/// The command line.
fn command<'a>(alloc: Global) -> Result<Command<'a>, AllocError> {
    let command = Command::new(alloc, "cedar-files")
        .about("Formats files of Cedar policies in place, or checks them")
        .version(VERSION)
        .after_help(EXAMPLES);
    let command = with_output(alloc, with_modes(alloc, command)?)?;
    with_files(alloc, with_layout(alloc, command)?)
}

// An option that is given or not.
fn flag<'a>(alloc: Global, name: &'a str, help: &'a str) -> Arg<'a> {
    Arg::new(alloc, name)
        .long(name)
        .action(ArgAction::SetTrue)
        .help(help)
}

// An option with a value.
fn option<'a>(alloc: Global, name: &'a str, value: &'a str, help: &'a str) -> Arg<'a> {
    Arg::new(alloc, name)
        .long(name)
        .value_name(value)
        .help(help)
}

// What is done, and how.
fn with_modes<'a>(alloc: Global, command: Command<'a>) -> Result<Command<'a>, AllocError> {
    let check = "Print the names of the files that aren't formatted, and change nothing";
    let diff = "Print what would change, and change nothing";
    let jobs = "Accepted and without effect: one process does all files";
    let quiet = "Don't show the progress and the summary";
    command
        .arg(flag(alloc, "check", check).short('c'))?
        .arg(flag(alloc, "diff", diff).conflicts_with("check")?)?
        .arg(
            option(alloc, "jobs", "N", jobs)
                .short('j')
                .value_parser(value_parser!(u16).range(1..)),
        )?
        .arg(flag(alloc, "quiet", quiet).short('q'))
}

// What is printed, and how.
fn with_output<'a>(alloc: Global, command: Command<'a>) -> Result<Command<'a>, AllocError> {
    let format =
        "Print names and faults to standard output as workflow commands of GitHub, or as JSON, one object a line";
    let null = "End names with a zero byte, and don't quote them";
    command
        .arg(
            option(alloc, "output-format", "FORMAT", format)
                .value_parser(FORMATS.as_slice())
                .conflicts_with("diff")?,
        )?
        .arg(flag(alloc, "null", null).short('0'))
}

// How files are laid out.
fn with_layout<'a>(alloc: Global, command: Command<'a>) -> Result<Command<'a>, AllocError> {
    let indent = "The indentation of a level, in columns [default: as .editorconfig says, or 2]";
    let width = "The width of a line, in columns [default: as .editorconfig says, or 80]";
    let verbose = "Tell on standard error how each file is laid out, and by what";
    command
        .arg(
            option(alloc, "indent-width", "N", indent)
                .short('i')
                .value_parser(value_parser!(u16)),
        )?
        .arg(
            option(alloc, "line-width", "N", width)
                .short('l')
                .value_parser(value_parser!(u16)),
        )?
        .arg(flag(alloc, "no-config", "Ignore files .editorconfig"))?
        .arg(flag(alloc, "verbose", verbose))
}

// Which files.
fn with_files<'a>(alloc: Global, command: Command<'a>) -> Result<Command<'a>, AllocError> {
    let exclude =
        "Leave these files and folders alone: a name, or a path from the folder or from here, with *, ** and ?; may be repeated";
    let force = "With --exclude: leave files and folders alone that are named, too";
    let name = "With -: lay standard input out as this file, and report it by this name";
    let path = Arg::new(alloc, "path")
        .value_name("PATH")
        .action(ArgAction::Append)
        .num_args(1..)
        .required(true)
        .help("A file, or a folder that is searched for *.cedar; - for standard input");
    command
        .arg(option(alloc, "exclude", "GLOB", exclude).action(ArgAction::Append))?
        .arg(flag(alloc, "force-exclude", force))?
        .arg(option(alloc, "stdin-filename", "NAME", name))?
        .arg(path)
}

/// What a line of words asks for, or why it is refused, or the help or the version that it asks for. A word that isn't UTF-8
/// has its stand-in there.
pub fn read_options<'a>(
    alloc: Global,
    line: &'a [&'a str],
    words: &'a Words,
) -> Result<Options<'a>, Error> {
    let matches = command(alloc)?.try_get_matches_from(line)?;
    let mut paths = Vec::new(alloc);
    for path in &texts(alloc, &matches, "path")? {
        paths.push(words.word_of(path))?;
    }
    Ok(Options {
        mode: Mode::of(matches.get_flag("check"), matches.get_flag("diff")),
        format: match matches.get_str("output-format") {
            Some("github") => Format::Github,
            Some("json") => Format::Json,
            _ => Format::Text,
        },
        ends_with_zero: matches.get_flag("null"),
        indent_width: matches.get_one::<u16>("indent-width"),
        line_width: matches.get_one::<u16>("line-width"),
        reads_config: !matches.get_flag("no-config"),
        tells_layouts: matches.get_flag("verbose"),
        input_name: matches.get_str("stdin-filename"),
        quiet: matches.get_flag("quiet"),
        excluded: texts(alloc, &matches, "exclude")?,
        excludes_named: matches.get_flag("force-exclude"),
        paths,
    })
}

// All values of an argument.
fn texts<'a>(
    alloc: Global,
    matches: &ArgMatches<'a>,
    id: &str,
) -> Result<Vec<&'a str>, AllocError> {
    let mut found = Vec::new(alloc);
    if let Some(values) = matches.get_strs(id) {
        found.extend_from_slice(values)?;
    }
    Ok(found)
}
