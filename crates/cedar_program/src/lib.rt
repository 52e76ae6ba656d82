//! What the programs do: `cedar`, from the words of its command line to its exit status, and the files of a folder, one after the
//! other (`folder`).
#![tactic(auto)]

mod command;
pub mod folder;
mod options;
mod run;

ghost use Rattle.std.specs.Prelude.{◌≡◌, ◌≢◌};
ghost use Rattle.std.specs.IoError.{error_kind};

pub use command::{HelpTexts, VERSION, match_words};
pub use options::Options;
pub use run::{run_options, run_words};
use run::{MISUSED, tell_memory};
use std::io;
use std::io::{ErrorKind, Write};

/// Says why the words of the command line can't be read, and returns the status: 2 if one isn't UTF-8, 1 if out of
/// memory.
pub fn tell_unread_words<E: Write>(error: &io::Error, errors: &mut E) -> u8
    ensures not_utf8 { error_kind error.now ≡ ErrorKind.InvalidData → result ≡ 2 }
    ensures memory { error_kind error.now ≢ ErrorKind.InvalidData → result ≡ 1 }
{
    if error.kind() == ErrorKind::InvalidData {
        let _ = write!(errors, "cedar: a word of the command line is not UTF-8\n");
        return MISUSED;
    }
    tell_memory(errors)
}
