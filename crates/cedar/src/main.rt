//! The program `cedar`: it formats a policy text, or checks whether it is formatted.
#![tactic(auto)]

use cedar_program::{run_words, tell_unread_words};
use cedar_streams::Watched;
use std::process::ExitCode;
use std::{env, io};

// The program's words.
fn words(rt: &HostRuntime) -> io::Result<Vec<String>> {
    let words = env::args(rt)?.collect(rt.alloc())?;
    Ok(words)
}

fn main(rt: HostRuntime) -> ExitCode {
    let mut errors = rt.stderr();
    let status = match words(&rt) {
        Ok(words) => {
            let mut output = Watched::new(rt.stdout());
            run_words(&rt, words.as_slice(), rt.stdin(), &mut output, &mut errors)
        }
        Err(error) => tell_unread_words(&error, &mut errors),
    };
    ExitCode::from(status)
}
