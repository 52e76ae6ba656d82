//! Which paths globs match.
use cedar_settings::{Glob, GlobError};
use std::alloc::{AllocError, Global};
use std::process::Abort;

// A glob, and paths that it matches and that it doesn't.
struct Row {
    name: &'static str,
    glob: &'static str,
    matches: &'static [&'static str],
    others: &'static [&'static str],
}

// Names, and paths from the folder on.
static NAMES: [Row; 5] = [
    Row {
        name: "a name in any folder",
        glob: "a.cedar",
        matches: &["/a.cedar", "/b/a.cedar", "/b/c/a.cedar"],
        others: &["/ba.cedar", "/a.cedar/b", "/acedar", "/A.cedar"],
    },
    Row {
        name: "all files",
        glob: "*",
        matches: &["/a", "/a.b", "/.a", "/b/c/a", "/a\nb"],
        others: &[],
    },
    Row {
        name: "a star for no character, and not for a slash",
        glob: "a*c.cedar",
        matches: &["/ac.cedar", "/abc.cedar", "/b/a.c.cedar"],
        others: &["/a/c.cedar", "/ab.cedar"],
    },
    Row {
        name: "with a slash, from the folder on",
        glob: "b/*.cedar",
        matches: &["/b/a.cedar", "/b/.cedar"],
        others: &["/a/b/a.cedar", "/b/c/a.cedar", "/a.cedar"],
    },
    Row {
        name: "with a slash at the beginning",
        glob: "/*.cedar",
        matches: &["/a.cedar"],
        others: &["/b/a.cedar"],
    },
];

// Two stars.
static STARS: [Row; 5] = [
    Row {
        name: "two stars for slashes too",
        glob: "a**z.cedar",
        matches: &[
            "/az.cedar",
            "/a/z.cedar",
            "/amnz.cedar",
            "/am/nz.cedar",
            "/b/amz.cedar",
        ],
        others: &["/a/z.cedarx", "/bz.cedar"],
    },
    Row {
        name: "two stars after a folder",
        glob: "b/**z.cedar",
        matches: &["/b/z.cedar", "/b/mnz.cedar", "/b/m/nz.cedar"],
        others: &["/bz.cedar", "/c/b/z.cedar"],
    },
    Row {
        name: "two stars between slashes, for no folder or several",
        glob: "c/**/z.cedar",
        matches: &["/c/z.cedar", "/c/m/z.cedar", "/c/m/n/z.cedar"],
        others: &["/cz.cedar", "/c/mz.cedar", "/d/c/z.cedar"],
    },
    Row {
        name: "two stars at the beginning",
        glob: "**/z.cedar",
        matches: &["/z.cedar", "/c/m/z.cedar"],
        others: &["/az.cedar"],
    },
    Row {
        name: "two stars at the end",
        glob: "c/**",
        matches: &["/c/a", "/c/d/a"],
        others: &["/c", "/d/c/a"],
    },
];

// Single characters.
static CHARACTERS: [Row; 6] = [
    Row {
        name: "one character, and no slash",
        glob: "a?.cedar",
        matches: &["/ab.cedar", "/a\u{e9}.cedar", "/b/a?.cedar"],
        others: &["/a.cedar", "/a/.cedar", "/abc.cedar"],
    },
    Row {
        name: "one of these characters",
        glob: "[ab].a",
        matches: &["/a.a", "/b.a"],
        others: &["/c.a", "/ab.a", "/.a"],
    },
    Row {
        name: "none of these characters",
        glob: "[!ab].b",
        matches: &["/c.b", "/!.b"],
        others: &["/a.b", "/b.b"],
    },
    Row {
        name: "a range of characters",
        glob: "[d-g].c",
        matches: &["/d.c", "/f.c", "/g.c"],
        others: &["/c.c", "/h.c", "/-.c"],
    },
    Row {
        name: "no character of a range",
        glob: "[!d-g].d",
        matches: &["/h.d"],
        others: &["/e.d"],
    },
    Row {
        name: "a dash as a member",
        glob: "[-ab].f",
        matches: &["/-.f", "/a.f"],
        others: &["/c.f"],
    },
];

// Brackets.
static BRACKETS: [Row; 5] = [
    Row {
        name: "a bracket as a member",
        glob: r"[\]ab].g",
        matches: &["/].g", "/a.g"],
        others: &["/c.g", "/\\.g"],
    },
    Row {
        name: "a bracket after a class",
        glob: "[ab]].g",
        matches: &["/b].g"],
        others: &["/b.g", "/].g"],
    },
    Row {
        name: "a slash in brackets, which stand for themselves",
        glob: "ab[e/]cd.i",
        matches: &["/ab[e/]cd.i"],
        others: &["/abecd.i", "/ab/cd.i"],
    },
    Row {
        name: "a bracket that isn't closed",
        glob: "ab[/c",
        matches: &["/ab[/c"],
        others: &["/ab/c"],
    },
    Row {
        name: "nothing in brackets",
        glob: "a[]",
        matches: &["/a[]"],
        others: &["/a"],
    },
];

// Choices.
static CHOICES: [Row; 6] = [
    Row {
        name: "one of these texts",
        glob: "*.{py,js,html}",
        matches: &["/a.py", "/a.js", "/b/a.html"],
        others: &["/a.pyjs", "/a.", "/a.{py,js,html}"],
    },
    Row {
        name: "a single text, which stands for itself",
        glob: "{single}.b",
        matches: &["/{single}.b"],
        others: &["/single.b", "/.b"],
    },
    Row {
        name: "nothing in braces",
        glob: "{}.c",
        matches: &["/{}.c"],
        others: &["/.c"],
    },
    Row {
        name: "an empty text among these",
        glob: "a{b,c,}.d",
        matches: &["/ab.d", "/ac.d", "/a.d"],
        others: &["/abc.d", "/a,.d"],
    },
    Row {
        name: "empty texts among these",
        glob: "a{,b,,c,}.e",
        matches: &["/a.e", "/ab.e", "/ac.e"],
        others: &["/abc.e"],
    },
    Row {
        name: "a brace that isn't closed",
        glob: "{.f",
        matches: &["/{.f"],
        others: &["/.f"],
    },
];

// Braces in braces.
static BRACES: [Row; 6] = [
    Row {
        name: "a brace in braces",
        glob: "{word,{also},this}.g",
        matches: &["/word.g", "/{also}.g", "/this.g"],
        others: &["/also.g", "/.g"],
    },
    Row {
        name: "a choice in a choice, at its start",
        glob: "{{a,b},c}.k",
        matches: &["/a.k", "/b.k", "/c.k"],
        others: &["/{a,b}.k", "/ac.k"],
    },
    Row {
        name: "a choice in a choice, at its end",
        glob: "{a,{b,c}}.l",
        matches: &["/a.l", "/b.l", "/c.l"],
        others: &["/ab.l"],
    },
    Row {
        name: "patterns in braces",
        glob: "{some,a{*c,b}[ef]}.j",
        matches: &["/some.j", "/abe.j", "/abf.j", "/axxce.j"],
        others: &["/abg.j", "/a*ce", "/someabe.j"],
    },
    Row {
        name: "closed before it begins",
        glob: "{},b}.h",
        matches: &["/{},b}.h"],
        others: &["/b.h", "/{}.h"],
    },
    Row {
        name: "opened twice, closed once",
        glob: "{{,b,c{d}.i",
        matches: &["/{{,b,c{d}.i"],
        others: &["/{b.i", "/cd.i"],
    },
];

// What stands for itself.
static ESCAPES: [Row; 5] = [
    Row {
        name: "an escaped comma",
        glob: r"{a\,b,cd}.txt",
        matches: &["/a,b.txt", "/cd.txt"],
        others: &["/a.txt", "/b.txt", "/a\\.txt"],
    },
    Row {
        name: "an escaped brace",
        glob: r"{e,\},f}.txt",
        matches: &["/}.txt", "/e.txt", "/f.txt"],
        others: &["/\\.txt"],
    },
    Row {
        name: "an escaped backslash",
        glob: r"{g,\\,i}.txt",
        matches: &["/\\.txt", "/g.txt", "/i.txt"],
        others: &["/,.txt"],
    },
    Row {
        name: "escaped signs",
        glob: r"\*\?\[a]\{b,c}",
        matches: &["/*?[a]{b,c}"],
        others: &["/xy[a]{b,c}", "/*?ab"],
    },
    Row {
        name: "signs of regular expressions, which stand for themselves",
        glob: "a+b(c)|^$#&~<>.d",
        matches: &["/a+b(c)|^$#&~<>.d"],
        others: &["/aabc.d"],
    },
];

// Ranges of numbers.
static NUMBERS: [Row; 6] = [
    Row {
        name: "numbers",
        glob: "{3..120}",
        matches: &["/3", "/9", "/15", "/60", "/99", "/100", "/119", "/120"],
        others: &[
            "/1",
            "/2",
            "/121",
            "/300",
            "/060",
            "/5a",
            "/a5",
            "/-5",
            "/{3..120}",
        ],
    },
    Row {
        name: "numbers from 1 to 9",
        glob: "{1..9}.cedar",
        matches: &["/1.cedar", "/5.cedar", "/9.cedar"],
        others: &["/0.cedar", "/10.cedar", "/.cedar"],
    },
    Row {
        name: "numbers below and above zero",
        glob: "a{-12..11}",
        matches: &["/a-12", "/a-9", "/a-1", "/a0", "/a7", "/a10", "/a11"],
        others: &["/a-13", "/a-20", "/a12", "/a-0", "/a", "/a-"],
    },
    Row {
        name: "numbers below zero, backwards",
        glob: "{-2..-10}",
        matches: &["/-2", "/-10"],
        others: &["/-1", "/-11", "/2", "/0"],
    },
    Row {
        name: "many numbers",
        glob: "{95..10042}",
        matches: &[
            "/95", "/99", "/100", "/999", "/1000", "/9999", "/10000", "/10039", "/10042",
        ],
        others: &["/94", "/10043", "/11000", "/20000"],
    },
    Row {
        name: "no numbers",
        glob: "{aardvark..antelope}",
        matches: &["/{aardvark..antelope}"],
        others: &["/a", "/aardvark"],
    },
];

fn expect(
    rt: &impl Abort,
    alloc: Global,
    row: &Row,
    glob: &Glob,
    path: &str,
    wanted: bool,
) -> Result<(), AllocError> {
    let found = glob.matches(alloc, path)?;
    assert!(rt; found == wanted, "{}: {path}", row.name);
    Ok(())
}

fn expect_row(rt: &impl Abort, alloc: Global, row: &Row) -> Result<(), AllocError> {
    let glob = Glob::new(alloc, row.glob);
    assert!(rt; glob.is_ok(), "{}", row.name);
    if let Ok(glob) = glob {
        for path in row.matches {
            expect(rt, alloc, row, &glob, path, true)?;
        }
        for path in row.others {
            expect(rt, alloc, row, &glob, path, false)?;
        }
    }
    Ok(())
}

fn expect_rows(rt: &impl Abort, alloc: Global, rows: &[Row]) -> Result<(), AllocError> {
    for row in rows {
        expect_row(rt, alloc, row)?;
    }
    Ok(())
}

#[test]
fn names_are_matched(rt: HostRuntime) -> Result<(), AllocError> {
    expect_rows(&rt, rt.alloc(), &NAMES)
}

#[test]
fn two_stars_are_matched(rt: HostRuntime) -> Result<(), AllocError> {
    expect_rows(&rt, rt.alloc(), &STARS)
}

#[test]
fn characters_are_matched(rt: HostRuntime) -> Result<(), AllocError> {
    expect_rows(&rt, rt.alloc(), &CHARACTERS)
}

#[test]
fn brackets_are_matched(rt: HostRuntime) -> Result<(), AllocError> {
    expect_rows(&rt, rt.alloc(), &BRACKETS)
}

#[test]
fn choices_are_matched(rt: HostRuntime) -> Result<(), AllocError> {
    expect_rows(&rt, rt.alloc(), &CHOICES)
}

#[test]
fn braces_are_matched(rt: HostRuntime) -> Result<(), AllocError> {
    expect_rows(&rt, rt.alloc(), &BRACES)
}

#[test]
fn escapes_are_matched(rt: HostRuntime) -> Result<(), AllocError> {
    expect_rows(&rt, rt.alloc(), &ESCAPES)
}

#[test]
fn numbers_are_matched(rt: HostRuntime) -> Result<(), AllocError> {
    expect_rows(&rt, rt.alloc(), &NUMBERS)
}

#[test]
fn a_glob_may_be_too_large(rt: HostRuntime) -> Result<(), AllocError> {
    let glob = "ab".repeat(rt.alloc(), 2049)?;
    let read = Glob::new(rt.alloc(), glob.as_str());
    assert!(rt; matches!(read, Err(GlobError::TooLarge)));
    let read = Glob::new(rt.alloc(), &glob.as_str()[..4096]);
    assert!(rt; read.is_ok());
    Ok(())
}
