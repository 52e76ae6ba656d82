//! Memory that is refused, one block after another (`./fail-alloc`).
use cedar_settings::{ConfigFile, Glob, GlobError, decide};
use std::alloc::{AllocError, Global};
use std::process::Abort;

// A glob, and a path that it matches.
struct Row {
    glob: &'static str,
    path: &'static str,
}

static ROWS: [Row; 3] = [
    Row {
        glob: "a/**/{b,c[d-f]}?.{-9..120}",
        path: "/a/x/cey.77",
    },
    Row {
        glob: r"*.\{{cedar}",
        path: "/x/y.{{cedar}",
    },
    Row {
        glob: "*",
        path: "/a",
    },
];

const NEAR: &str = "[*]\nindent_size = tab\nmax_line_length = x\nnonsense\n";

const FAR: &str = "root = true\n[*.cedar]\ntab_width = 8\nmax_line_length = 70\n";

fn expect_yes(rt: &impl Abort, got: Result<bool, AllocError>, name: &str) {
    if let Ok(is_right) = got {
        assert!(rt; is_right, "{name}");
    }
}

// Whether the glob of a row matches its path.
fn matches(alloc: Global, row: &Row) -> Result<bool, AllocError> {
    match Glob::new(alloc, row.glob) {
        Ok(glob) => glob.matches(alloc, row.path),
        Err(GlobError::OutOfMemory) => Err(AllocError),
        Err(GlobError::TooLarge) => Ok(false),
    }
}

#[test]
fn globs_without_memory(rt: HostRuntime) {
    for row in &ROWS {
        expect_yes(&rt, matches(rt.alloc(), row), row.glob);
    }
}

// Whether two files decide as they are to.
fn decides(alloc: Global) -> Result<bool, AllocError> {
    let mut files = Vec::new(alloc);
    files.push(ConfigFile::new(alloc, "/p/q", NEAR)?)?;
    files.push(ConfigFile::new(alloc, "/p", FAR)?)?;
    let decision = decide(alloc, &files, "/p/q/a.cedar")?;
    let indent = decision.indent_width.map(|it| (it.columns, it.line));
    let width = decision.line_width.map(|it| (it.columns, it.line));
    let is_right = indent == Some((8, 2)) && width == Some((70, 4));
    Ok(is_right && decision.problems.len() == 2)
}

#[test]
fn decisions_without_memory(rt: HostRuntime) {
    expect_yes(&rt, decides(rt.alloc()), "two files");
}
