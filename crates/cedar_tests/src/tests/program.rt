//! What the program writes and which status it answers.
use super::devices::{Sink, Source};
use super::*;
use cedar_policy_formatter::Watched;
use cedar_program::{run_words, tell_unread_words};
use std::io::ErrorKind;
use std::rt::Files;
use std::{fs, io};

// A run of the program: its words, its input, the calls at which reading, writing and reporting faults fail, counted from 1,
// what it writes to the output and to the errors, and its status.
#[derive(Clone, Copy)]
pub(super) struct Call {
    pub(super) name: &'static str,
    pub(super) words: &'static [&'static str],
    pub(super) input: &'static [u8],
    pub(super) read_fails_at: usize,
    pub(super) write_fails_at: usize,
    pub(super) tell_fails_at: usize,
    pub(super) output: &'static str,
    pub(super) errors: &'static str,
    pub(super) status: u8,
}

// What a row has that says nothing else.
pub(super) const CALL: Call = Call {
    name: "",
    words: &["cedar", "format"],
    input: b"permit(principal,action,resource);",
    read_fails_at: 0,
    write_fails_at: 0,
    tell_fails_at: 0,
    output: "",
    errors: "",
    status: 0,
};

// What a run wrote, and its status.
#[derive(Drop)]
struct Outcome {
    output: Vec<u8>,
    errors: Vec<u8>,
    status: u8,
}

fn outcome_of<R: Files + AllocGlobal>(rt: &R, call: &Call) -> Result<Outcome, AllocError> {
    let alloc = rt.alloc();
    let words = words_of(alloc, call.words)?;
    let mut output = Vec::new(alloc);
    let mut errors = Vec::new(alloc);
    let reader = Source::new(call.input, usize::MAX, call.read_fails_at);
    let mut writer = Watched::new(Sink::new(&mut output, 7, call.write_fails_at, ErrorKind::Other));
    let mut teller = Sink::new(&mut errors, 7, call.tell_fails_at, ErrorKind::Other);
    let status = run_words(rt, words.as_slice(), reader, &mut writer, &mut teller);
    Ok(Outcome {
        output,
        errors,
        status,
    })
}

fn expect_call<R: Files + AllocGlobal + Abort>(rt: &R, call: &Call) -> Result<(), AllocError> {
    let got = outcome_of(rt, call)?;
    assert_eq!(rt; got.status, call.status, "{}", call.name);
    expect_bytes(rt, got.output.as_slice(), call.output, call.name);
    expect_bytes(rt, got.errors.as_slice(), call.errors, call.name);
    Ok(())
}

static FORMATS: [Call; 11] = [
    Call {
        name: "default width",
        output: r#"permit (principal, action, resource);
"#,
        ..CALL
    },
    Call {
        name: "width 36",
        words: &["cedar", "format", "-l", "36"],
        output: r#"permit
(principal, action, resource);
"#,
        ..CALL
    },
    Call {
        name: "width 0",
        words: &["cedar", "format", "-l", "0"],
        output: r#"permit
(principal, action, resource);
"#,
        ..CALL
    },
    Call {
        name: "largest width",
        words: &["cedar", "format", "-l", "65535"],
        output: r#"permit (principal, action, resource);
"#,
        ..CALL
    },
    Call {
        name: "indentation 4",
        words: &["cedar", "format", "-i", "4"],
        input: br#"permit(principal == User::"a",action,resource);"#,
        output: r#"permit (
    principal == User::"a",
    action,
    resource
);
"#,
        ..CALL
    },
    Call {
        name: "default indentation",
        input: br#"permit(principal == User::"a",action,resource);"#,
        output: r#"permit (
  principal == User::"a",
  action,
  resource
);
"#,
        ..CALL
    },
    Call {
        name: "line of 80 columns",
        input: br#"permit (principal, action, resource); // xxxxxxxxxxxxxxxxxxxxxxxxxxxxxxxxxxxxxxx
"#,
        output: r#"permit (principal, action, resource); // xxxxxxxxxxxxxxxxxxxxxxxxxxxxxxxxxxxxxxx
"#,
        ..CALL
    },
    Call {
        name: "line of 81 columns",
        input: br#"permit (principal, action, resource); // xxxxxxxxxxxxxxxxxxxxxxxxxxxxxxxxxxxxxxxx
"#,
        output: r#"permit
(principal, action, resource); // xxxxxxxxxxxxxxxxxxxxxxxxxxxxxxxxxxxxxxxx
"#,
        ..CALL
    },
    Call {
        name: "version",
        words: &["cedar", "--version"],
        output: r#"cedar 4.14.1 (noblesilk 1.0.0, proved with rattle-kit-13f logic dac8208d650f15bf)
"#,
        ..CALL
    },
    Call {
        name: "empty text",
        input: b"",
        output: "\n",
        ..CALL
    },
    Call {
        name: "no semicolon",
        input: b"permit (principal, action, resource)",
        errors: r#"cedar: not in the grammar at byte 36
"#,
        status: 1,
        ..CALL
    },
];

// Checks, and the long words.
static CHECKS: [Call; 8] = [
    Call {
        name: "check of a layout",
        words: &["cedar", "format", "--check"],
        input: br#"permit (principal, action, resource);
"#,
        ..CALL
    },
    Call {
        name: "check of a text without a line feed",
        words: &["cedar", "format", "--check"],
        input: b"permit (principal, action, resource);",
        status: 3,
        ..CALL
    },
    Call {
        name: "check of a trailing comma",
        words: &["cedar", "format", "--check"],
        input: b"permit(principal,action,resource,);",
        status: 3,
        ..CALL
    },
    Call {
        name: "check of a refused text",
        words: &["cedar", "format", "--check"],
        input: b"permit (principal, action, resource)",
        errors: r#"cedar: not in the grammar at byte 36
"#,
        status: 1,
        ..CALL
    },
    Call {
        name: "check of a layout for another width",
        words: &["cedar", "format", "--check"],
        input: br#"permit
(principal, action, resource);
"#,
        status: 3,
        ..CALL
    },
    Call {
        name: "check at width 36",
        words: &["cedar", "format", "--check", "-l", "36"],
        input: br#"permit
(principal, action, resource);
"#,
        ..CALL
    },
    Call {
        name: "short word for a check, and long word for the width",
        words: &["cedar", "format", "-c", "--line-width", "36"],
        input: br#"permit
(principal, action, resource);
"#,
        ..CALL
    },
    Call {
        name: "long word for the indentation",
        words: &["cedar", "format", "--indent-width", "4"],
        input: br#"permit(principal == User::"a",action,resource);"#,
        output: r#"permit (
    principal == User::"a",
    action,
    resource
);
"#,
        ..CALL
    },
];

fn expect_calls<R: Files + AllocGlobal + Abort>(rt: &R, calls: &[Call]) -> Result<(), AllocError> {
    for call in calls {
        expect_call(rt, call)?;
    }
    Ok(())
}

#[test]
fn formats(rt: HostRuntime) -> Result<(), AllocError> {
    expect_calls(&rt, &FORMATS)
}

#[test]
fn checks_layouts(rt: HostRuntime) -> Result<(), AllocError> {
    expect_calls(&rt, &CHECKS)
}

static FAULTS: [Call; 11] = [
    Call {
        name: "first read fails",
        read_fails_at: 1,
        errors: r#"cedar: cannot read standard input
"#,
        status: 1,
        ..CALL
    },
    Call {
        name: "second read fails",
        read_fails_at: 2,
        errors: r#"cedar: cannot read standard input
"#,
        status: 1,
        ..CALL
    },
    Call {
        name: "first read of a check fails",
        words: &["cedar", "format", "--check"],
        read_fails_at: 1,
        errors: r#"cedar: cannot read standard input
"#,
        status: 1,
        ..CALL
    },
    Call {
        name: "second read of a check fails",
        words: &["cedar", "format", "--check"],
        read_fails_at: 2,
        errors: r#"cedar: cannot read standard input
"#,
        status: 1,
        ..CALL
    },
    Call {
        name: "not UTF-8",
        input: &[255],
        errors: r#"cedar: input is not UTF-8
"#,
        status: 1,
        ..CALL
    },
    Call {
        name: "check of what is not UTF-8",
        words: &["cedar", "format", "--check"],
        input: &[255],
        errors: r#"cedar: input is not UTF-8
"#,
        status: 1,
        ..CALL
    },
    Call {
        name: "not UTF-8, and telling it fails",
        input: &[255],
        tell_fails_at: 1,
        status: 1,
        ..CALL
    },
    Call {
        name: "first write fails",
        write_fails_at: 1,
        errors: r#"cedar: cannot write the output
"#,
        status: 1,
        ..CALL
    },
    Call {
        name: "second write fails",
        write_fails_at: 2,
        output: "permit ",
        errors: r#"cedar: cannot write the output
"#,
        status: 1,
        ..CALL
    },
    Call {
        name: "read and write fail",
        input: &[255],
        read_fails_at: 1,
        write_fails_at: 1,
        errors: r#"cedar: cannot read standard input
"#,
        status: 1,
        ..CALL
    },
    Call {
        name: "not UTF-8, and the write would fail",
        input: &[255],
        write_fails_at: 1,
        errors: r#"cedar: input is not UTF-8
"#,
        status: 1,
        ..CALL
    },
];

#[test]
fn refuses_what_cannot_be_read_or_written(rt: HostRuntime) -> Result<(), AllocError> {
    expect_calls(&rt, &FAULTS)
}

// Its errors are in clap's own words.
static COMMAND_LINES: [Call; 12] = [
    Call {
        name: "no command",
        words: &["cedar"],
        status: 2,
        ..CALL
    },
    Call {
        name: "indentation above 65535",
        words: &["cedar", "format", "-i", "70000"],
        status: 2,
        ..CALL
    },
    Call {
        name: "negative width",
        words: &["cedar", "format", "-l", "-1"],
        status: 2,
        ..CALL
    },
    Call {
        name: "width that is no number",
        words: &["cedar", "format", "-l", "a"],
        status: 2,
        ..CALL
    },
    Call {
        name: "width left out",
        words: &["cedar", "format", "-l"],
        status: 2,
        ..CALL
    },
    Call {
        name: "file left out",
        words: &["cedar", "format", "-p"],
        status: 2,
        ..CALL
    },
    Call {
        name: "file left out after the long word",
        words: &["cedar", "format", "--policies"],
        status: 2,
        ..CALL
    },
    Call {
        name: "width above 65535",
        words: &["cedar", "format", "--line-width", "65536"],
        status: 2,
        ..CALL
    },
    Call {
        name: "unknown option",
        words: &["cedar", "format", "-x"],
        status: 2,
        ..CALL
    },
    Call {
        name: "file without its option",
        words: &["cedar", "format", "file"],
        status: 2,
        ..CALL
    },
    Call {
        name: "unknown command",
        words: &["cedar", "other"],
        status: 2,
        ..CALL
    },
    Call {
        name: "indentation above 65535 and a file that is not there",
        words: &["cedar", "format", "-i", "70000", "-p", "none.cedar"],
        status: 2,
        ..CALL
    },
];

#[test]
fn faults_of_the_command_line(rt: HostRuntime) -> Result<(), AllocError> {
    for call in &COMMAND_LINES {
        let got = outcome_of(&rt, call)?;
        assert_eq!(rt; got.status, call.status, "{}", call.name);
        assert!(rt; got.output.is_empty(), "{}", call.name);
        assert!(rt; !got.errors.is_empty(), "{}", call.name);
    }
    Ok(())
}

// The output is a piece of the whole.
static HELPS: [Call; 4] = [
    Call {
        name: "short word",
        words: &["cedar", "-h"],
        read_fails_at: 1,
        output: "cedar format --check -p policies.cedar",
        ..CALL
    },
    Call {
        name: "long word",
        words: &["cedar", "--help"],
        read_fails_at: 1,
        output: "cedar format --check -p policies.cedar",
        ..CALL
    },
    Call {
        name: "short word after the command",
        words: &["cedar", "format", "-h"],
        read_fails_at: 1,
        output: "[default: 80]",
        ..CALL
    },
    Call {
        name: "long word after the command",
        words: &["cedar", "format", "--help"],
        read_fails_at: 1,
        output: "[default: 2]",
        ..CALL
    },
];

#[test]
fn shows_help(rt: HostRuntime) -> Result<(), AllocError> {
    for call in &HELPS {
        let got = outcome_of(&rt, call)?;
        assert_eq!(rt; got.status, call.status, "{}", call.name);
        let help = String::from_utf8_lossy(rt.alloc(), got.output.as_slice())?;
        assert!(rt;
            help.as_str().contains(call.output),
            "{}: {help}",
            call.name
        );
        assert!(rt; got.errors.is_empty(), "{}", call.name);
    }
    Ok(())
}

static MISSING: [Call; 2] = [
    Call {
        name: "file that is not there",
        words: &["cedar", "format", "-p", "none.cedar"],
        input: b"",
        errors: r#"cedar: cannot read none.cedar
"#,
        status: 1,
        ..CALL
    },
    Call {
        name: "check of a file that is not there",
        words: &["cedar", "format", "--check", "--policies", "none.cedar"],
        input: b"",
        errors: r#"cedar: cannot read none.cedar
"#,
        status: 1,
        ..CALL
    },
];

static FILE: Call = Call {
    name: "file",
    words: &["cedar", "format", "-l", "36", "-p", "f.cedar"],
    input: b"",
    read_fails_at: 1,
    output: r#"permit
(principal, action, resource);
"#,
    ..CALL
};

#[test]
fn reads_files(rt: HostRuntime) -> Result<(), io::Error> {
    expect_calls(&rt, &MISSING)?;
    fs::write(&rt, "f.cedar", "permit(principal,action,resource);")?;
    expect_call(&rt, &FILE)?;
    fs::remove_file(&rt, "f.cedar")
}

// Why the words could not be had, and what is reported.
struct Unread {
    kind: ErrorKind,
    errors: &'static str,
    status: u8,
}

static UNREAD: [Unread; 2] = [
    Unread {
        kind: ErrorKind::InvalidData,
        errors: r#"cedar: a word of the command line is not UTF-8
"#,
        status: 2,
    },
    Unread {
        kind: ErrorKind::OutOfMemory,
        errors: r#"cedar: out of memory
"#,
        status: 1,
    },
];

#[test]
fn tells_words_that_cannot_be_had(rt: HostRuntime) {
    for row in &UNREAD {
        let mut errors = Vec::new(rt.alloc());
        let mut teller = Sink::new(&mut errors, 7, 0, ErrorKind::Other);
        let status = tell_unread_words(&io::Error::from(row.kind), &mut teller);
        assert_eq!(rt; status, row.status, "{}", row.errors);
        expect_bytes(&rt, errors.as_slice(), row.errors, row.errors);
    }
}
