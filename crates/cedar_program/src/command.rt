//! The words that the program takes.
ghost use Rattle.std.specs.Prelude.{◌≡◌, IfOk, MatchResult, false, map, string_bytes};
ghost use Rattle.clap.specs.Words.{app_of, kind_of, rule_of};
ghost use Rattle.clap.specs.declared.builder.command.Command.TheViews.{out-Command as fields_of};
ghost use Rattle.cedar_program.specs.CommandLine.{HasFault, HasMatches, cedar_app, check_rule, file_rule, format_app, number_rule};

use clap::{Arg, ArgAction, ArgMatches, Command, Error, value_parser};
use std::alloc::{AllocError, Global};

/// The version: the number of the Rust crate that this is a port of, the project's own (the file `VERSION`), and the kit that
/// proves it (the file `KIT`). `tools/version` checks it against both files.
pub const VERSION: &str =
    "4.14.1 (noblesilk 1.0.0, proved with rattle-kit-13f logic dac8208d650f15bf)";

/// The texts of the help that name a default.
#[derive(Drop)]
pub struct HelpTexts {
    indent: String,
    width: String,
}

impl HelpTexts {
    /// The texts that name these defaults, in columns: the width of a line, and the indentation of a level.
    pub fn new(
        alloc: Global,
        line_width: usize,
        indent_width: isize,
    ) -> Result<HelpTexts, AllocError> {
        let indent = format!(in alloc;
            "The indentation of a level, in columns [default: {indent_width}]"
        )?;
        let width = format!(in alloc; "The width of a line, in columns [default: {line_width}]")?;
        Ok(HelpTexts { indent, width })
    }
}

static EXAMPLES: &str = "Examples:
  cedar format < policies.cedar > formatted.cedar
  cedar format --check -p policies.cedar";

// The command line: `cedar format [-p FILE] [-i N] [-l N] [-c]`, or with long names.
fn command<'a>(alloc: Global, texts: &'a HelpTexts) -> Result<Command<'a>, AllocError>
    ensures { IfOk result (λ c. app_of c ≡ cedar_app) }
{
    Command::new(alloc, "cedar")
        .about("Formats Cedar policies")
        .version(VERSION)
        .after_help(EXAMPLES)
        .subcommand_required(true)
        .disable_help_subcommand(true)
        .subcommand(format_command(alloc, texts)?)
}

// The subcommand `format`.
fn format_command<'a>(alloc: Global, texts: &'a HelpTexts) -> Result<Command<'a>, AllocError>
    ensures { IfOk result (λ c. (app_of c ≡ format_app) × ((fields_of c).has_globals ≡ false)) }
{
    Command::new(alloc, "format")
        .about("Formats policies and writes them to standard output")
        .after_help(EXAMPLES)
        .arg(file_arg(alloc))?
        .arg(number_arg(alloc, "indent", 'i', "indent-width", &texts.indent))?
        .arg(number_arg(alloc, "width", 'l', "line-width", &texts.width))?
        .arg(check_arg(alloc))
}

// The option of the file.
fn file_arg<'a>(alloc: Global) -> Arg<'a>
    ensures rule { rule_of result ≡ file_rule }
    ensures local { result.global ≡ false }
{
    Arg::new(alloc, "file")
        .short('p')
        .long("policies")
        .value_name("FILE")
        .help("The policy file [default: standard input]")
}

// An option for a number, by a letter or a long name.
fn number_arg<'a>(alloc: Global, id: &'a str, letter: char, name: &'a str, help: &'a str) -> Arg<'a>
    ensures rule { rule_of result ≡ number_rule id.entry.now letter name.entry.now }
    ensures local { result.global ≡ false }
{
    Arg::new(alloc, id)
        .short(letter)
        .long(name)
        .value_name("N")
        .value_parser(value_parser!(u16))
        .help(help)
}

// The flag that only checks.
fn check_arg<'a>(alloc: Global) -> Arg<'a>
    ensures rule { rule_of result ≡ check_rule }
    ensures local { result.global ≡ false }
{
    Arg::new(alloc, "check")
        .short('c')
        .long("check")
        .action(ArgAction::SetTrue)
        .help("Only say whether the policies are formatted: status 0 if they are, 3 if they aren't")
}

/// What follows `cedar format` in the words, which begin with the program's name; or why they are refused, or
/// the help or the version that they ask for.
pub fn match_words<'a>(
    alloc: Global,
    words: &'a [String],
    texts: &'a HelpTexts,
) -> Result<ArgMatches<'a>, Error>
    ensures { MatchResult result (HasMatches (map string_bytes words.now)) (λ e. HasFault (map string_bytes words.now) (kind_of e)) }
{
    command(alloc, texts)?.try_get_matches_from(words)
}
