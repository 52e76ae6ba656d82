//! Readers and writers that fail at a chosen call.
use super::*;
use cedar_policy_formatter::{RunFault, Watched, check_stream, format_stream};
use cedar_program::run_words;
use std::io;
use std::io::{ErrorKind, Read, Write};
use std::rt::Files;

// A reader over memory that gives `most` bytes a call and fails at the call `fails_at`, counted from 1.
#[derive(Drop)]
pub(super) struct Source<'a> {
    rest: &'a [u8],
    most: usize,
    calls: usize,
    fails_at: usize,
}

impl<'a> Source<'a> {
    pub(super) fn new(rest: &'a [u8], most: usize, fails_at: usize) -> Source<'a> {
        Source {
            rest,
            most,
            calls: 0,
            fails_at,
        }
    }
}

impl Read for Source<'_> {
    fn read(&mut self, buf: &mut [u8]) -> io::Result<usize> {
        self.calls = self.calls.saturating_add(1);
        if self.calls == self.fails_at {
            return Err(io::Error::from(ErrorKind::Interrupted));
        }
        let count = self.rest.len().min(self.most).min(buf.len());
        let (now, later) = self.rest.split_at(count);
        buf[..count].copy_from_slice(now);
        self.rest = later;
        Ok(count)
    }
}

// A writer over memory that takes `most` bytes a call and fails so at the call `fails_at`, counted from 1.
#[derive(Drop)]
pub(super) struct Sink<'a> {
    taken: &'a mut Vec<u8>,
    most: usize,
    calls: usize,
    fails_at: usize,
    kind: ErrorKind,
}

impl<'a> Sink<'a> {
    pub(super) fn new(
        taken: &'a mut Vec<u8>,
        most: usize,
        fails_at: usize,
        kind: ErrorKind,
    ) -> Sink<'a> {
        Sink {
            taken,
            most,
            calls: 0,
            fails_at,
            kind,
        }
    }
}

impl Write for Sink<'_> {
    fn write(&mut self, buf: &[u8]) -> io::Result<usize> {
        self.calls = self.calls.saturating_add(1);
        if self.calls == self.fails_at {
            return Err(io::Error::from(self.kind));
        }
        let count = buf.len().min(self.most);
        self.taken.extend_from_slice(&buf[..count])?;
        Ok(count)
    }

    fn flush(&mut self) -> io::Result<()> {
        Ok(())
    }
}

// A writer over memory that fails at these calls of `write` and of `flush`, each counted from 1. What is flushed is what it
// had taken by then.
#[derive(Drop)]
struct Buffer<'a> {
    taken: &'a mut Vec<u8>,
    flushed: &'a mut Vec<u8>,
    writes: usize,
    flushes: usize,
    write_fails_at: usize,
    flush_fails_at: usize,
}

impl Write for Buffer<'_> {
    fn write(&mut self, buf: &[u8]) -> io::Result<usize> {
        self.writes = self.writes.saturating_add(1);
        if self.writes == self.write_fails_at {
            return Err(io::Error::from(ErrorKind::Other));
        }
        self.taken.extend_from_slice(buf)?;
        Ok(buf.len())
    }

    fn flush(&mut self) -> io::Result<()> {
        self.flushes = self.flushes.saturating_add(1);
        if self.flushes == self.flush_fails_at {
            return Err(io::Error::from(ErrorKind::Other));
        }
        self.flushed.clear();
        self.flushed.extend_from_slice(self.taken.as_slice())?;
        Ok(())
    }
}

// How a reader or a writer goes: how many bytes a call moves at most, and the call that fails, counted from 1.
#[derive(Clone, Copy)]
struct Device {
    most: usize,
    fails_at: usize,
}

// One that moves all bytes at once, and never fails.
const DEVICE: Device = Device {
    most: usize::MAX,
    fails_at: 0,
};

// A run: its text, how the reader and the writer go, what it answers, whether the reader and the writer failed, and what was
// written.
#[derive(Clone, Copy)]
struct Run<'a> {
    name: &'static str,
    text: &'a [u8],
    reading: Device,
    writing: Device,
    answer: Result<(), RunFault>,
    reader_fails: bool,
    writer_fails: bool,
    written: &'a str,
}

// What a row has that says nothing else.
const RUN: Run<'static> = Run {
    name: "",
    text: b"permit(principal,action,resource);",
    reading: DEVICE,
    writing: DEVICE,
    answer: Ok(()),
    reader_fails: false,
    writer_fails: false,
    written: "",
};

static RUNS: [Run<'static>; 11] = [
    // Runs that succeed.
    Run {
        name: "at once",
        written: r#"permit (principal, action, resource);
"#,
        ..RUN
    },
    Run {
        name: "byte by byte",
        reading: Device { most: 1, ..DEVICE },
        writing: Device { most: 3, ..DEVICE },
        written: r#"permit (principal, action, resource);
"#,
        ..RUN
    },
    Run {
        name: "nothing",
        text: b"",
        written: "\n",
        ..RUN
    },
    // Reads and writes that fail.
    Run {
        name: "no first read",
        reading: Device {
            fails_at: 1,
            ..DEVICE
        },
        answer: Err(RunFault::Read),
        reader_fails: true,
        ..RUN
    },
    Run {
        name: "no second read",
        reading: Device {
            fails_at: 2,
            ..DEVICE
        },
        answer: Err(RunFault::Read),
        reader_fails: true,
        ..RUN
    },
    Run {
        name: "no read in mid-stream",
        reading: Device {
            most: 5,
            fails_at: 2,
        },
        answer: Err(RunFault::Read),
        reader_fails: true,
        ..RUN
    },
    Run {
        name: "no first write",
        writing: Device {
            fails_at: 1,
            ..DEVICE
        },
        answer: Err(RunFault::Write),
        writer_fails: true,
        ..RUN
    },
    Run {
        name: "no write in mid-stream",
        writing: Device {
            most: 5,
            fails_at: 2,
        },
        answer: Err(RunFault::Write),
        writer_fails: true,
        written: "permi",
        ..RUN
    },
    Run {
        name: "a write of nothing",
        writing: Device { most: 0, ..DEVICE },
        answer: Err(RunFault::Write),
        writer_fails: true,
        ..RUN
    },
    // Refused texts.
    Run {
        name: "no UTF-8",
        text: &[255],
        answer: Err(RunFault::NotUtf8),
        ..RUN
    },
    Run {
        name: "no policy",
        text: b"permit(principal,action,resource)",
        answer: Err(RunFault::Format(FormatError::Grammar { at: 33 })),
        ..RUN
    },
];

fn expect_failed(rt: &impl Abort, failed: bool, want: bool, name: &str) {
    assert_eq!(rt; failed, want, "{name}: a device fails");
}

fn expect_run(rt: &impl Abort, alloc: Global, run: &Run<'_>) {
    let mut taken = Vec::new(alloc);
    let (reading, writing) = (run.reading, run.writing);
    let mut input = Watched::new(Source::new(run.text, reading.most, reading.fails_at));
    let mut output = Watched::new(Sink::new(
        &mut taken,
        writing.most,
        writing.fails_at,
        ErrorKind::Interrupted,
    ));
    expect_failed(rt, input.failed() || output.failed(), false, run.name);
    let got = format_stream(alloc, &mut input, &mut output, &Config::default());
    assert_eq!(rt; got, run.answer, "{}", run.name);
    expect_failed(rt, input.failed(), run.reader_fails, run.name);
    expect_failed(rt, output.failed(), run.writer_fails, run.name);
    expect_bytes(rt, taken.as_slice(), run.written, run.name);
}

#[test]
fn runs(rt: HostRuntime) {
    for run in &RUNS {
        expect_run(&rt, rt.alloc(), run);
    }
}

// A check: its text, how the reader goes, what it answers, and whether the reader failed.
#[derive(Clone, Copy)]
struct Check {
    name: &'static str,
    text: &'static [u8],
    reading: Device,
    answer: Result<bool, RunFault>,
    reader_fails: bool,
}

const CHECK: Check = Check {
    name: "",
    text: b"",
    reading: DEVICE,
    answer: Ok(true),
    reader_fails: false,
};

static CHECKS: [Check; 7] = [
    Check {
        name: "packed",
        text: b"permit(principal,action,resource);",
        answer: Ok(false),
        ..CHECK
    },
    Check {
        name: "laid out",
        text: br#"permit (principal, action, resource);
"#,
        answer: Ok(true),
        ..CHECK
    },
    Check {
        name: "laid out, byte by byte",
        text: br#"permit (principal, action, resource);
"#,
        reading: Device { most: 1, ..DEVICE },
        answer: Ok(true),
        ..CHECK
    },
    Check {
        name: "no policy",
        text: b"permit(principal,action,resource)",
        reading: Device { most: 5, ..DEVICE },
        answer: Err(RunFault::Format(FormatError::Grammar { at: 33 })),
        ..CHECK
    },
    Check {
        name: "no UTF-8",
        text: &[255],
        answer: Err(RunFault::NotUtf8),
        ..CHECK
    },
    Check {
        name: "no first read",
        text: br#"permit (principal, action, resource);
"#,
        reading: Device {
            fails_at: 1,
            ..DEVICE
        },
        answer: Err(RunFault::Read),
        reader_fails: true,
    },
    Check {
        name: "no read in mid-stream",
        text: br#"permit (principal, action, resource);
"#,
        reading: Device {
            most: 5,
            fails_at: 3,
        },
        answer: Err(RunFault::Read),
        reader_fails: true,
    },
];

fn expect_check(rt: &impl Abort, alloc: Global, check: &Check) {
    let reading = check.reading;
    let mut input = Watched::new(Source::new(check.text, reading.most, reading.fails_at));
    let got = check_stream(alloc, &mut input, &Config::default());
    assert_eq!(rt; got, check.answer, "{}", check.name);
    expect_failed(rt, input.failed(), check.reader_fails, check.name);
}

#[test]
fn checks(rt: HostRuntime) {
    for check in &CHECKS {
        expect_check(&rt, rt.alloc(), check);
    }
}

#[test]
fn large_runs(rt: HostRuntime) {
    let policy = "permit(principal,action,resource);";
    let text = joined(rt.alloc(), &[Times(5000, policy)]).expect(&rt, "the text");
    let parts = [
        Once("permit (principal, action, resource);\n"),
        Times(4999, "\npermit (principal, action, resource);\n"),
    ];
    let layout = joined(rt.alloc(), &parts).expect(&rt, "the layout");
    for most in [1000, 65536, 1000000] {
        let device = Device { most, ..DEVICE };
        let run = Run {
            name: "5,000 policies",
            text: text.as_str().as_bytes(),
            reading: device,
            writing: device,
            written: layout.as_str(),
            ..RUN
        };
        expect_run(&rt, rt.alloc(), &run);
    }
}

// A run of the program: its words, its text, the calls at which writing and flushing fail, what it writes to the output,
// what of that is flushed, what it reports, and its status.
#[derive(Clone, Copy)]
struct Flush {
    name: &'static str,
    words: &'static [&'static str],
    text: &'static str,
    write_fails_at: usize,
    flush_fails_at: usize,
    output: &'static str,
    flushed: &'static str,
    errors: &'static str,
    status: u8,
}

const FLUSH: Flush = Flush {
    name: "",
    words: &["cedar", "format"],
    text: "permit(principal,action,resource);",
    write_fails_at: 0,
    flush_fails_at: 0,
    output: "",
    flushed: "",
    errors: "",
    status: 0,
};

static FLUSHES: [Flush; 5] = [
    Flush {
        name: "all is flushed",
        output: r#"permit (principal, action, resource);
"#,
        flushed: r#"permit (principal, action, resource);
"#,
        ..FLUSH
    },
    Flush {
        name: "no flush",
        flush_fails_at: 1,
        output: r#"permit (principal, action, resource);
"#,
        errors: r#"cedar: cannot write the output
"#,
        status: 1,
        ..FLUSH
    },
    Flush {
        name: "nothing to flush",
        words: &["cedar", "format", "--check"],
        text: r#"permit (principal, action, resource);
"#,
        write_fails_at: 1,
        flush_fails_at: 1,
        ..FLUSH
    },
    Flush {
        name: "a refused text and no write",
        text: "permit(principal,action,resource)",
        write_fails_at: 1,
        errors: r#"cedar: not in the grammar at byte 33
"#,
        status: 1,
        ..FLUSH
    },
    Flush {
        name: "a refused text, no write and no flush",
        text: "permit(principal,action,resource)",
        write_fails_at: 1,
        flush_fails_at: 1,
        errors: r#"cedar: not in the grammar at byte 33
"#,
        status: 1,
        ..FLUSH
    },
];

// What a run of the program wrote to the output, how much of that is flushed, what it reported, and its status.
#[derive(Drop)]
struct Written {
    output: Vec<u8>,
    flushed: Vec<u8>,
    errors: Vec<u8>,
    status: u8,
}

fn written_by<R: Files + AllocGlobal + Abort>(rt: &R, row: &Flush) -> Written {
    let alloc = rt.alloc();
    let words = words_of(alloc, row.words).expect(rt, row.name);
    let mut output = Vec::new(alloc);
    let mut flushed = Vec::new(alloc);
    let mut errors = Vec::new(alloc);
    let mut writer = Watched::new(Buffer {
        taken: &mut output,
        flushed: &mut flushed,
        writes: 0,
        flushes: 0,
        write_fails_at: row.write_fails_at,
        flush_fails_at: row.flush_fails_at,
    });
    let mut teller = Sink::new(&mut errors, 7, 0, ErrorKind::Other);
    let reader = Source::new(row.text.as_bytes(), usize::MAX, 0);
    let status = run_words(rt, words.as_slice(), reader, &mut writer, &mut teller);
    Written {
        output,
        flushed,
        errors,
        status,
    }
}

#[test]
fn flushes(rt: HostRuntime) {
    for row in &FLUSHES {
        let got = written_by(&rt, row);
        assert_eq!(rt; got.status, row.status, "{}", row.name);
        expect_bytes(&rt, got.output.as_slice(), row.output, row.name);
        expect_bytes(&rt, got.flushed.as_slice(), row.flushed, row.name);
        expect_bytes(&rt, got.errors.as_slice(), row.errors, row.name);
    }
}

static HELP: Flush = Flush {
    name: "help",
    words: &["cedar", "--help"],
    text: "",
    ..FLUSH
};

static HELP_UNFLUSHED: Flush = Flush {
    name: "help that is not flushed",
    words: &["cedar", "--help"],
    text: "",
    flush_fails_at: 1,
    ..FLUSH
};

#[test]
fn flushes_help(rt: HostRuntime) {
    let whole = written_by(&rt, &HELP);
    assert_eq!(rt; whole.status, 0);
    assert!(rt; !whole.output.is_empty() && whole.flushed == whole.output);
    let unflushed = written_by(&rt, &HELP_UNFLUSHED);
    assert_eq!(rt; unflushed.status, 1);
    assert!(rt; unflushed.output == whole.output && unflushed.flushed.is_empty());
    let told = "cedar: cannot write the output\n";
    expect_bytes(
        &rt,
        unflushed.errors.as_slice(),
        told,
        "help that is not flushed",
    );
}
