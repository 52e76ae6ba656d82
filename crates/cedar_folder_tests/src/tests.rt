//! What no clause says: that calls succeed with ample memory, and what is reported where they do.
use crate::memory::{Entry, Memory, Trouble};
use cedar_policy_formatter::Config;
use cedar_program::folder::{Access, Outcome, Task, format_files};
use disturbed::Disturbed;
use std::alloc::{AllocError, Global};
use std::process::Abort;

mod disturbed;

const ACCESS: Access = Access {
    mode: 0o644,
    owner: 1,
    group: 2,
};

const PACKED: &str = "permit(principal,action,resource);";

const LAID_OUT: &str = "permit (principal, action, resource);\n";

const NARROW: &str = "permit
(principal, action, resource);
";

const REFUSED: &str = "permit(principal,action,resource) when { 1 + };";

const REPORT: &str = r#"packed: replaced
formatted: formatted
refused: refused
nowhere: unread
empty: empty
other: replaced
"#;

const CHECK_REPORT: &str = r#"packed: unformatted
formatted: formatted
refused: refused
nowhere: unread
empty: empty
other: unformatted
"#;

// Each file is changed while it is formatted.
const CHANGED_REPORT: &str = r#"packed: unwritten
formatted: formatted
refused: refused
nowhere: unread
empty: empty
other: unwritten
"#;

// The names of the files, with one that isn't there, and the widths of their lines.
static FILES: [(&str, usize); 6] = [
    ("packed", 80),
    ("formatted", 80),
    ("refused", 80),
    ("nowhere", 80),
    ("empty", 80),
    ("other", 30),
];

fn tasks(alloc: Global) -> Result<Vec<Task>, AllocError> {
    let mut tasks = Vec::new(alloc);
    for (name, line_width) in FILES {
        tasks.push(Task {
            name: String::from_str(alloc, name)?,
            config: Config {
                line_width,
                ..Config::default()
            },
        })?;
    }
    Ok(tasks)
}

// A folder with one file of each kind.
fn folder(alloc: Global, trouble: Trouble) -> Result<Memory, AllocError> {
    let files = [
        ("packed", PACKED),
        ("formatted", LAID_OUT),
        ("refused", REFUSED),
        ("empty", ""),
        ("other", PACKED),
        ("unnamed", PACKED),
    ];
    let mut folder = Memory::new(alloc, trouble);
    for (name, text) in files {
        folder.put(name, text.as_bytes(), ACCESS)?;
    }
    Ok(folder)
}

// The folder after a run over it.
fn run(alloc: Global, trouble: Trouble, only_checks: bool) -> Result<Memory, AllocError> {
    let mut folder = folder(alloc, trouble)?;
    let tasks = tasks(alloc)?;
    format_files(alloc, &mut folder, tasks.as_slice(), only_checks);
    Ok(folder)
}

// What an outcome is called.
fn word(outcome: &Outcome) -> &str {
    match outcome {
        Outcome::Formatted => "formatted",
        Outcome::Empty => "empty",
        Outcome::Unformatted { .. } => "unformatted",
        Outcome::Replaced => "replaced",
        Outcome::NotUtf8 => "not UTF-8",
        Outcome::Refused { .. } => "refused",
        Outcome::Unread(_) => "unread",
        Outcome::Unwritten(_) => "unwritten",
        Outcome::LeftBeside { beside, .. } => beside.as_str(),
    }
}

// What was reported, a line for each file.
fn report_of(alloc: Global, folder: &Memory) -> Result<String, AllocError> {
    let mut report = String::new(alloc);
    for entry in &folder.log {
        if let Entry::Reported { name, outcome, .. } = entry {
            let line = format!(in alloc; "{name}: {}\n", word(outcome))?;
            report.push_str(line.as_str())?;
        }
    }
    Ok(report)
}

fn expect_report(
    rt: &impl Abort,
    alloc: Global,
    folder: &Memory,
    wanted: &str,
) -> Result<(), AllocError> {
    let report = report_of(alloc, folder)?;
    assert_eq!(rt; report.as_str(), wanted);
    Ok(())
}

fn text_of<'a>(folder: &'a Memory, name: &str) -> Option<&'a [u8]> {
    match folder.file_of(name) {
        Some(file) => Some(file.bytes.as_slice()),
        None => None,
    }
}

fn expect_file(rt: &impl Abort, folder: &Memory, name: &str, text: &str) {
    let held = text_of(folder, name);
    assert!(rt; held == Some(text.as_bytes()), "{name}");
}

#[test]
fn files_are_replaced(rt: HostRuntime) -> Result<(), AllocError> {
    let folder = run(rt.alloc(), Trouble::Nothing, false)?;
    expect_report(&rt, rt.alloc(), &folder, REPORT)?;
    expect_file(&rt, &folder, "packed", LAID_OUT);
    expect_file(&rt, &folder, "formatted", LAID_OUT);
    expect_file(&rt, &folder, "refused", REFUSED);
    expect_file(&rt, &folder, "other", NARROW);
    expect_file(&rt, &folder, "empty", "");
    expect_file(&rt, &folder, "unnamed", PACKED);
    Ok(())
}

#[test]
fn a_file_that_is_changed_is_left_alone(rt: HostRuntime) -> Result<(), AllocError> {
    let mut folder = Disturbed(folder(rt.alloc(), Trouble::Nothing)?);
    let tasks = tasks(rt.alloc())?;
    format_files(rt.alloc(), &mut folder, tasks.as_slice(), false);
    expect_report(&rt, rt.alloc(), &folder.0, CHANGED_REPORT)?;
    expect_file(&rt, &folder.0, "packed", PACKED);
    expect_file(&rt, &folder.0, "other", PACKED);
    Ok(())
}

#[test]
fn what_is_left_is_named(rt: HostRuntime) -> Result<(), AllocError> {
    // (reading, a name, creating)
    let folder = run(rt.alloc(), Trouble::LeavesPart(3), false)?;
    let report = report_of(rt.alloc(), &folder)?;
    assert!(rt; report.as_str().starts_with("packed: .packed\n"));
    expect_file(&rt, &folder, "packed", PACKED);
    expect_file(&rt, &folder, ".packed", "");
    Ok(())
}

#[test]
fn a_stop_is_obeyed(rt: HostRuntime) -> Result<(), AllocError> {
    let folder = run(rt.alloc(), Trouble::Stops, false)?;
    expect_report(&rt, rt.alloc(), &folder, "packed: replaced\n")?;
    expect_file(&rt, &folder, "other", PACKED);
    Ok(())
}

#[test]
fn a_run_ends_with_a_report_that_fails(rt: HostRuntime) -> Result<(), AllocError> {
    // (reading, a name, creating, replacing, reporting)
    let folder = run(rt.alloc(), Trouble::Fails(5), false)?;
    expect_report(&rt, rt.alloc(), &folder, "")?;
    expect_file(&rt, &folder, "packed", LAID_OUT);
    expect_file(&rt, &folder, "other", PACKED);
    Ok(())
}

#[test]
fn a_check_changes_nothing(rt: HostRuntime) -> Result<(), AllocError> {
    let folder = run(rt.alloc(), Trouble::Nothing, true)?;
    expect_report(&rt, rt.alloc(), &folder, CHECK_REPORT)?;
    expect_file(&rt, &folder, "packed", PACKED);
    expect_file(&rt, &folder, "other", PACKED);
    Ok(())
}

#[test]
fn each_call_fails_in_turn(rt: HostRuntime) -> Result<(), AllocError> {
    let whole = run(rt.alloc(), Trouble::Nothing, false)?;
    for n in 1..=whole.calls() {
        let folder = run(rt.alloc(), Trouble::Fails(n), false)?;
        for (name, output) in [("packed", LAID_OUT), ("other", NARROW)] {
            let held = text_of(&folder, name);
            let is_either = held == Some(PACKED.as_bytes()) || held == Some(output.as_bytes());
            assert!(rt; is_either, "{name} after call {n} failed");
        }
        expect_file(&rt, &folder, "formatted", LAID_OUT);
        expect_file(&rt, &folder, "refused", REFUSED);
        expect_file(&rt, &folder, "unnamed", PACKED);
        for beside in [".packed", ".other"] {
            assert!(rt;
                text_of(&folder, beside).is_none(),
                "{beside} after call {n} failed"
            );
        }
    }
    Ok(())
}
