//! What files say about a path.
use cedar_settings::{ConfigFile, Decision, Setting, decide};
use std::alloc::{AllocError, Global};
use std::process::Abort;

// A folder, and the text of its file.
#[derive(Clone, Copy)]
struct Source {
    folder: &'static str,
    text: &'static str,
}

// A setting: its columns, its file and its line.
type Made = Option<(u16, usize, usize)>;

// Files, and what they say about a path.
#[derive(Clone, Copy)]
struct Row {
    name: &'static str,
    path: &'static str,
    // From the nearest one upward.
    files: &'static [Source],
    indent: Made,
    width: Made,
    // The files and lines of problems, and what is wrong.
    problems: &'static [(usize, usize, &'static str)],
}

const ROW: Row = Row {
    name: "",
    path: "/p/q/a.cedar",
    files: &[],
    indent: None,
    width: None,
    problems: &[],
};

static ROWS: &[Row] = &[
    Row {
        name: "no file",
        ..ROW
    },
    Row {
        name: "both settings",
        files: &[Source {
            folder: "/p",
            text: "[*.cedar]\nindent_size = 4\nmax_line_length = 100\n",
        }],
        indent: Some((4, 0, 2)),
        width: Some((100, 0, 3)),
        ..ROW
    },
    Row {
        name: "blanks, comments, capitals, carriage returns and a byte order mark",
        files: &[Source {
            folder: "/p",
            text: "\u{feff}# a comment\r\n\t; another\r\n  [*.cedar]  \r\n\r\n\tIndent_SIZE=8\r\n  MAX_line_length   =OFF  \r\n#indent_size = 3",
        }],
        indent: Some((8, 0, 5)),
        width: Some((65535, 0, 6)),
        ..ROW
    },
    Row {
        name: "a later section of a file",
        files: &[Source {
            folder: "/p",
            text: "[*.cedar]\nindent_size = 4\nmax_line_length = 90\n[*]\nindent_size = 6\n[*.py]\nindent_size = 8",
        }],
        indent: Some((6, 0, 5)),
        width: Some((90, 0, 3)),
        ..ROW
    },
    Row {
        name: "a later line of a section",
        files: &[Source {
            folder: "/p",
            text: "[*]\nindent_size = 4\nindent_size = 5",
        }],
        indent: Some((5, 0, 3)),
        ..ROW
    },
    Row {
        name: "the nearest file that has the setting",
        files: &[
            Source {
                folder: "/p/q",
                text: "[*]\nindent_size = 3",
            },
            Source {
                folder: "/p",
                text: "[*]\nindent_size = 4\nmax_line_length = 90",
            },
        ],
        indent: Some((3, 0, 2)),
        width: Some((90, 1, 3)),
        ..ROW
    },
    Row {
        name: "no file above a root",
        files: &[
            Source {
                folder: "/p/q",
                text: "; the top\nROOT = True\n[*]\nindent_size = 3",
            },
            Source {
                folder: "/p",
                text: "[*]\nmax_line_length = 90\nindent_size = x",
            },
        ],
        indent: Some((3, 0, 4)),
        ..ROW
    },
    Row {
        name: "root in a section, or not true",
        files: &[
            Source {
                folder: "/p/q",
                text: "root = true\nroot = no\n[*]\nroot = true",
            },
            Source {
                folder: "/p",
                text: "[*]\nmax_line_length = 90",
            },
        ],
        width: Some((90, 1, 2)),
        ..ROW
    },
    Row {
        name: "settings before all sections",
        files: &[Source {
            folder: "/p",
            text: "indent_size = 4\nmax_line_length = x\n[a.cedar]\n",
        }],
        ..ROW
    },
    Row {
        name: "globs from the file's own folder on",
        files: &[Source {
            folder: "/p",
            text: "[q/*.cedar]\nindent_size = 4\n[/a.cedar]\nindent_size = 5\n[p/q/*.cedar]\nindent_size = 6",
        }],
        indent: Some((4, 0, 2)),
        ..ROW
    },
    Row {
        name: "a file of the root folder",
        files: &[Source {
            folder: "",
            text: "[p/**.cedar]\nindent_size = 4",
        }],
        indent: Some((4, 0, 2)),
        ..ROW
    },
    Row {
        name: "a file of another folder",
        files: &[Source {
            folder: "/other",
            text: "[*]\nindent_size = 4",
        }],
        ..ROW
    },
    Row {
        name: "unset, as if nothing had been set",
        files: &[
            Source {
                folder: "/p/q",
                text: "[*]\nindent_size = Unset\nmax_line_length = unset",
            },
            Source {
                folder: "/p",
                text: "[*]\nindent_size = 4\nmax_line_length = 90",
            },
        ],
        ..ROW
    },
    Row {
        name: "tab, with a tab's width",
        files: &[
            Source {
                folder: "/p/q",
                text: "[*]\nindent_size = TAB",
            },
            Source {
                folder: "/p",
                text: "[*]\ntab_width = 8\nindent_size = 4",
            },
        ],
        indent: Some((8, 0, 2)),
        ..ROW
    },
    Row {
        name: "tab, without a tab's width",
        files: &[Source {
            folder: "/p",
            text: "[*]\nindent_size = tab",
        }],
        indent: Some((2, 0, 2)),
        ..ROW
    },
    Row {
        name: "tab, with a tab's width that is unset",
        files: &[Source {
            folder: "/p",
            text: "[*]\nindent_size = tab\ntab_width = 8\ntab_width = unset",
        }],
        indent: Some((2, 0, 2)),
        ..ROW
    },
    Row {
        name: "a tab's width alone",
        files: &[Source {
            folder: "/p",
            text: "[*]\ntab_width = 8\nindent_style = tab",
        }],
        ..ROW
    },
    Row {
        name: "the limits of numbers",
        files: &[Source {
            folder: "/p",
            text: "[*]\nindent_size = 0\nmax_line_length = 1\n[*.cedar]\nindent_size = 65535\nmax_line_length = 65535",
        }],
        indent: Some((65535, 0, 5)),
        width: Some((65535, 0, 6)),
        ..ROW
    },
    Row {
        name: "the least numbers",
        files: &[Source {
            folder: "/p",
            text: "[*]\nindent_size = 0\nmax_line_length = 1",
        }],
        indent: Some((0, 0, 2)),
        width: Some((1, 0, 3)),
        ..ROW
    },
    Row {
        name: "values that can't be used, after some that can",
        files: &[
            Source {
                folder: "/p/q",
                text: "[*]\nindent_size = 3\nmax_line_length = 70\nindent_size = x\nmax_line_length = 0\nindent_size = off\nmax_line_length = tab\nindent_size = 65536\ntab_width = -1\ntab_width = tab\nindent_size =\nindent_size = 4 ; four",
            },
            Source {
                folder: "/p",
                text: "[*]\nmax_line_length = 99999999999999999999\n",
            },
        ],
        indent: Some((3, 0, 2)),
        width: Some((70, 0, 3)),
        problems: &[
            (0, 4, "indent_size is no number: x"),
            (0, 5, "max_line_length is not from 1 to 65535: 0"),
            (0, 6, "indent_size is no number: off"),
            (0, 7, "max_line_length is no number: tab"),
            (0, 8, "indent_size is not from 0 to 65535: 65536"),
            (0, 9, "tab_width is no number: -1"),
            (0, 10, "tab_width is no number: tab"),
            (0, 11, "indent_size is no number: "),
            (0, 12, "indent_size is no number: 4 ; four"),
            (
                1,
                2,
                "max_line_length is not from 1 to 65535: 99999999999999999999",
            ),
        ],
        ..ROW
    },
    Row {
        name: "a value that can't be used, in a section for other files",
        files: &[Source {
            folder: "/p",
            text: "[*.py]\nindent_size = x",
        }],
        ..ROW
    },
    Row {
        name: "lines that are nothing",
        files: &[Source {
            folder: "/p",
            text: "root\n[*.cedar\n[*]\nindent_size 4\nindent_size = 5\n=\n",
        }],
        indent: Some((5, 0, 5)),
        problems: &[
            (0, 1, "no section, setting or comment"),
            (0, 2, "no section, setting or comment"),
            (0, 4, "no section, setting or comment"),
        ],
        ..ROW
    },
];

// The files of a row.
fn files_of(alloc: Global, row: &Row) -> Result<Vec<ConfigFile>, AllocError> {
    let mut files = Vec::new(alloc);
    for source in row.files {
        files.push(ConfigFile::new(alloc, source.folder, source.text)?)?;
    }
    Ok(files)
}

fn expect_setting(rt: &impl Abort, got: Option<Setting>, wanted: Made, name: &str) {
    let got = got.map(|it| (it.columns, it.file, it.line));
    assert_eq!(rt; got, wanted, "{name}");
}

fn expect_problems(
    rt: &impl Abort,
    alloc: Global,
    files: &[ConfigFile],
    decision: &Decision,
    row: &Row,
) -> Result<(), AllocError> {
    assert_eq!(rt; decision.problems.len(), row.problems.len(), "{}", row.name);
    for (problem, (file, line, message)) in decision.problems.iter().zip(row.problems) {
        let wanted = (*file, *line);
        assert_eq!(rt; (problem.file, problem.line), wanted, "{}", row.name);
        if let Some(config) = files.get(problem.file) {
            let got = config.explain(alloc, problem.line, problem.fault)?;
            assert_eq!(rt; got.as_str(), *message, "{}", row.name);
        }
    }
    Ok(())
}

fn expect_row(rt: &impl Abort, alloc: Global, row: &Row) -> Result<(), AllocError> {
    let files = files_of(alloc, row)?;
    let decision = decide(alloc, &files, row.path)?;
    expect_setting(rt, decision.indent_width, row.indent, row.name);
    expect_setting(rt, decision.line_width, row.width, row.name);
    expect_problems(rt, alloc, &files, &decision, row)
}

#[test]
fn files_decide(rt: HostRuntime) -> Result<(), AllocError> {
    for row in ROWS {
        expect_row(&rt, rt.alloc(), row)?;
    }
    Ok(())
}

#[test]
fn a_glob_may_be_too_large(rt: HostRuntime) -> Result<(), AllocError> {
    let alloc = rt.alloc();
    let name = "a".repeat(alloc, 5000)?;
    let text = format!(in alloc; "[*]\nindent_size = 3\n[{name}]\nindent_size = 4\n")?;
    let mut files = Vec::new(alloc);
    files.push(ConfigFile::new(alloc, "/p", text.as_str())?)?;
    files.push(ConfigFile::not_utf8(alloc, "")?)?;
    let decision = decide(alloc, &files, "/p/a.cedar")?;
    expect_setting(
        &rt,
        decision.indent_width,
        Some((3, 0, 2)),
        "the sections before",
    );
    let row = Row {
        problems: &[
            (0, 3, "this pattern is too large"),
            (1, 0, "not UTF-8, so it is ignored"),
        ],
        ..ROW
    };
    expect_problems(&rt, alloc, &files, &decision, &row)
}
