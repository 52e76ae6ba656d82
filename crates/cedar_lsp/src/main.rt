//! The language server `cedar-lsp`, over standard input and output.
#![tactic(auto)]

mod client;
mod decode;
mod encode;
mod frames;
mod outline;
mod params;
mod project;
mod words;

use cedar_server::serve;
use client::Streams;
use project::Projects;
use std::io;
use std::io::{ErrorKind, Write};
use std::process::ExitCode;
use words::{Asked, read_words, write_help, write_version};

// A fault other than one of the words.
const FAILED: u8 = 1;
// A usage error.
const MISUSED: u8 = 2;

fn main(rt: HostRuntime) -> ExitCode {
    let status = match read_words(&rt) {
        Ok(asked) => answer(&rt, asked),
        Err(error) if error.kind() == ErrorKind::InvalidData => {
            let _ = write!(
                rt.stderr(),
                "cedar-lsp: a word of the command line is not UTF-8\n"
            );
            MISUSED
        }
        Err(error) => tell(&rt, &error),
    };
    ExitCode::from(status)
}

// Does what is asked for, and returns the status to end with.
fn answer(rt: &HostRuntime, asked: Asked) -> u8 {
    let done = match asked {
        Asked::Serve => serve_client(rt),
        Asked::Help => write_help(&mut rt.stdout()).map(|_| 0),
        Asked::Version => write_version(&mut rt.stdout()).map(|_| 0),
        Asked::Unknown(word) => {
            let _ = write!(
                rt.stderr(),
                "cedar-lsp: unexpected argument '{word}'; see cedar-lsp --help\n"
            );
            Ok(MISUSED)
        }
    };
    match done {
        Ok(status) => status,
        Err(error) => tell(rt, &error),
    }
}

// Serves the client at standard input and output, and returns the status to end with.
fn serve_client(rt: &HostRuntime) -> io::Result<u8> {
    let mut client = Streams::new(rt.alloc(), rt.stdin(), rt.stdout(), Projects::new(rt))?;
    serve(rt.alloc(), &mut client)
}

// Reports a fault, and returns its status.
fn tell(rt: &HostRuntime, error: &io::Error) -> u8 {
    let _ = write!(rt.stderr(), "cedar-lsp: {error}\n");
    FAILED
}
