//! What the words of the command line ask for.
ghost use Rattle.std.specs.Prelude.{◌≡◌, option_map};
ghost use Rattle.cedar_files.specs.Tasks.{IsTaskOf, first_odd_word};

use crate::names::ShownBytes;
use crate::options::{Mode, Options};
use crate::words::Words;
use std::fmt;

// The path that stands for standard input.
const STANDARD_INPUT: &str = "-";

/// What is formatted.
#[derive(Clone, Copy)]
pub enum Task {
    /// Standard input.
    Input,
    /// Files.
    Files,
}

/// Why the words can't be followed. Its `Display` says so.
#[derive(Clone, Copy)]
pub enum Misuse<'a> {
    /// This option, or value of an option, isn't UTF-8.
    NotUtf8(&'a [u8]),
    /// There are other paths beside standard input.
    InputAmongPaths,
    /// The difference to standard input is asked for.
    InputWithDiff,
    /// Standard input has a name, but isn't read.
    NameWithoutInput,
}

impl fmt::Display for Misuse<'_> {
    fn fmt<W: fmt::Write>(&self, f: &mut fmt::Formatter<W>) -> fmt::Result {
        match self {
            Misuse::NotUtf8(word) => {
                let word = ShownBytes(word);
                write!(f, "a word of the command line is not UTF-8: {word}")
            }
            Misuse::InputAmongPaths => f.write_str("- can't be combined with other paths"),
            Misuse::InputWithDiff => f.write_str("- can't be combined with --diff"),
            Misuse::NameWithoutInput => f.write_str("--stdin-filename needs the path -"),
        }
    }
}

/// What these words, which were read as these options, ask for.
pub fn task_of<'w>(words: &'w Words, options: &Options<'_>) -> Result<Task, Misuse<'w>>
    ensures { IsTaskOf words.now options.now result }
{
    if let Some(word) = odd_word(words, options) {
        return Err(Misuse::NotUtf8(word));
    }
    let reads_input = options.paths.iter().any(|path| path.is(STANDARD_INPUT));
    if !reads_input {
        return match options.input_name {
            Some(_) => Err(Misuse::NameWithoutInput),
            None => Ok(Task::Files),
        };
    }
    if options.paths.len() > 1 {
        Err(Misuse::InputAmongPaths)
    } else if options.mode == Mode::Diff {
        Err(Misuse::InputWithDiff)
    } else {
        Ok(Task::Input)
    }
}

// The first option that isn't UTF-8, or else the first such value of an option.
fn odd_word<'w>(words: &'w Words, options: &Options<'_>) -> Option<&'w [u8]>
    ensures { option_map (λ bytes. bytes.now) result ≡ first_odd_word words.now options.now }
{
    if let Some(word) = words.odd_option() {
        return Some(word);
    }
    for value in &options.excluded {
        if let Some(word) = words.odd_word(value) {
            return Some(word);
        }
    }
    match options.input_name {
        Some(name) => words.odd_word(name),
        None => None,
    }
}
