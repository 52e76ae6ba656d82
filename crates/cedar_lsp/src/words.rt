//! The words of the command line.
use cedar_program::VERSION;
use std::io::Write;
use std::{env, io};

/// What the words ask for.
#[derive(Drop)]
pub enum Asked {
    /// To serve a client.
    Serve,
    /// The help.
    Help,
    /// The version.
    Version,
    /// Something that isn't known: this word.
    Unknown(String),
}

static HELP: &str =
    "The language server for Cedar policies, over standard input and output; an editor starts it

Usage: cedar-lsp [OPTIONS]

Options:
      --stdio    Use standard input and output, as without it
  -h, --help     Print help
  -V, --version  Print version

Status: 0 for an exit after a shutdown; 1 for one without, or if a message can't be read or written; 2 for a usage error.
";

/// What the program's words ask for. `--stdio` and `--clientProcessId=N`, which some clients add, change nothing.
pub fn read_words(rt: &HostRuntime) -> io::Result<Asked> {
    let words: Vec<String> = env::args(rt)?.collect(rt.alloc())?;
    for word in words.iter().skip(1) {
        match word.as_str() {
            "-h" | "--help" => return Ok(Asked::Help),
            "-V" | "--version" => return Ok(Asked::Version),
            "--stdio" => {}
            other if other.starts_with("--clientProcessId=") => {}
            other => return Ok(Asked::Unknown(String::from_str(rt.alloc(), other)?)),
        }
    }
    Ok(Asked::Serve)
}

/// Writes the help.
pub fn write_help<W: Write>(output: &mut W) -> io::Result<()> {
    output.write_all(HELP.as_bytes())?;
    output.flush()
}

/// Writes the version.
pub fn write_version<W: Write>(output: &mut W) -> io::Result<()> {
    write!(output, "cedar-lsp {VERSION}\n")?;
    output.flush()
}
