//! The options of a run, as the words give them.
ghost use Rattle.std.specs.Prelude.{IfSome, MatchResult, map, string_bytes};
ghost use Rattle.clap.specs.Words.{found_of, kind_of, rows_of, subcommand_rows_of};
ghost use Rattle.cedar_program.specs.CommandLine.{HasFault};
ghost use Rattle.cedar_program.specs.Options.{AskFor, HasOptions};

use crate::command::{HelpTexts, match_words};
use cedar_policy_formatter::Config;
use clap::{ArgMatches, Error};
use std::alloc::Global;

/// What is asked of a run.
#[derive(Drop)]
pub struct Options<'a> {
    /// The file to read; standard input if there is none.
    pub file: Option<&'a str>,
    /// How the text is laid out.
    pub config: Config,
    /// Whether the run only says if the text is formatted.
    pub only_checks: bool,
}

/// What the words ask for. They begin with the program's name.
pub(crate) fn read_options<'a>(
    alloc: Global,
    words: &'a [String],
    texts: &'a HelpTexts,
) -> Result<Options<'a>, Error>
    ensures { MatchResult result (AskFor (map string_bytes words.now)) (λ e. HasFault (map string_bytes words.now) (kind_of e)) }
{
    let matches = match_words(alloc, words, texts)?;
    Ok(options_of(&matches))
}

// The options that the matches name.
fn options_of<'a>(matches: &ArgMatches<'a>) -> Options<'a>
    ensures { IfSome (subcommand_rows_of matches.now) (λ found. HasOptions found.1 result) }
{
    match matches.subcommand() {
        Some((_, format)) => format_options(format),
        None => Options {
            file: None,
            config: Config::default(),
            only_checks: false,
        },
    }
}

// The options that the matches of `format` name.
fn format_options<'a>(format: &ArgMatches<'a>) -> Options<'a>
    ensures { HasOptions (rows_of (found_of format.now)) result }
{
    let mut config = Config::default();
    if let Some(width) = format.get_one::<u16>("width") {
        config.line_width = width as usize;
    }
    if let Some(indent) = format.get_one::<u16>("indent") {
        config.indent_width = indent as isize;
    }
    Options {
        file: format.get_str("file"),
        config,
        only_checks: format.get_flag("check"),
    }
}
