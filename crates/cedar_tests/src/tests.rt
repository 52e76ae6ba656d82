//! What no clause says: that layouts are laid out as they are at many widths, what calls answer when memory or a device
//! fails, and that they succeed with ample memory. Rows are tables, since each function is proved and a table isn't.
use cedar_policy_formatter::cst::parse_policies;
use cedar_policy_formatter::{Config, FormatError, policies_str_to_pretty};
use cedar_test_rows::Part::{Once, Times};
use cedar_test_rows::{Part, ROW, Row, joined};
use std::alloc::{AllocError, Global};
use std::process::Abort;

mod answers;
mod devices;
mod documents;
mod examples;
mod memory;
mod program;
mod refusals;
mod samples;
mod sweep;

fn config(line_width: usize, indent_width: isize) -> Config {
    Config {
        line_width,
        indent_width,
    }
}

// The words of a command line.
fn words_of(alloc: Global, words: &[&str]) -> Result<Vec<String>, AllocError> {
    let mut given = Vec::new(alloc);
    for word in words {
        given.push(String::from_str(alloc, word)?)?;
    }
    Ok(given)
}

// Each assertion stands in a function of its own: it is a good part of what its function costs to prove.
fn expect_text(rt: &impl Abort, got: &str, want: &str, name: &str) {
    assert_eq!(rt; got, want, "{name}");
}

fn expect_bytes(rt: &impl Abort, got: &[u8], want: &str, name: &str) {
    let got = str::from_utf8(got).unwrap_or("bytes that are not UTF-8");
    expect_text(rt, got, want, name);
}

fn expect_refusal(
    rt: &impl Abort,
    got: Option<FormatError>,
    want: Option<FormatError>,
    name: &str,
) {
    assert_eq!(rt; got, want, "{name}");
}

fn expect_told(
    rt: &impl Abort,
    got: Result<bool, FormatError>,
    want: Result<bool, FormatError>,
    name: &str,
) {
    expect_refusal(rt, got.err(), want.err(), name);
    expect_same(rt, got.ok(), want.ok(), name);
}

fn expect_same(rt: &impl Abort, got: Option<bool>, want: Option<bool>, name: &str) {
    assert_eq!(rt; got, want, "{name}");
}
