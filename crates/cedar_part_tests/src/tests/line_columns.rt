//! The line and the column of a byte.
use super::*;
use cedar_policy_formatter::{Place, place};

// A text, a byte of it, and that byte's line and column.
struct Spot {
    name: &'static str,
    text: &'static str,
    at: usize,
    line: usize,
    column: usize,
}

static PLACES: [Spot; 32] = [
    // No text.
    Spot {
        name: "no text",
        text: "",
        at: 0,
        line: 1,
        column: 1,
    },
    Spot {
        name: "past the end of no text",
        text: "",
        at: 7,
        line: 1,
        column: 1,
    },
    // A line feed, and the end of the text.
    Spot {
        name: "first byte",
        text: r#"a
b"#,
        at: 0,
        line: 1,
        column: 1,
    },
    Spot {
        name: "line feed",
        text: r#"a
b"#,
        at: 1,
        line: 1,
        column: 2,
    },
    Spot {
        name: "first byte of the second line",
        text: r#"a
b"#,
        at: 2,
        line: 2,
        column: 1,
    },
    Spot {
        name: "end of the second line",
        text: r#"a
b"#,
        at: 3,
        line: 2,
        column: 2,
    },
    Spot {
        name: "past the end",
        text: r#"a
b"#,
        at: 9,
        line: 2,
        column: 2,
    },
    Spot {
        name: "largest place",
        text: r#"a
b"#,
        at: usize::MAX,
        line: 2,
        column: 2,
    },
    Spot {
        name: "line feed at the end",
        text: r#"a
"#,
        at: 1,
        line: 1,
        column: 2,
    },
    Spot {
        name: "end after a line feed",
        text: r#"a
"#,
        at: 2,
        line: 2,
        column: 1,
    },
    Spot {
        name: "first of two line feeds",
        text: "\n\n",
        at: 0,
        line: 1,
        column: 1,
    },
    Spot {
        name: "second of two line feeds",
        text: "\n\n",
        at: 1,
        line: 2,
        column: 1,
    },
    Spot {
        name: "end after two line feeds",
        text: "\n\n",
        at: 2,
        line: 3,
        column: 1,
    },
    // Characters of three bytes.
    Spot {
        name: "first byte of three",
        text: "日本",
        at: 0,
        line: 1,
        column: 1,
    },
    Spot {
        name: "second byte of three",
        text: "日本",
        at: 1,
        line: 1,
        column: 1,
    },
    Spot {
        name: "third byte of three",
        text: "日本",
        at: 2,
        line: 1,
        column: 1,
    },
    Spot {
        name: "second character of three bytes",
        text: "日本",
        at: 3,
        line: 1,
        column: 2,
    },
    Spot {
        name: "last byte of a character of three bytes",
        text: "日本",
        at: 5,
        line: 1,
        column: 2,
    },
    Spot {
        name: "end after characters of three bytes",
        text: "日本",
        at: 6,
        line: 1,
        column: 3,
    },
    Spot {
        name: "past the end after characters of three bytes",
        text: "日本",
        at: 7,
        line: 1,
        column: 3,
    },
    Spot {
        name: "line feed after characters of three bytes",
        text: r#"日本
語x"#,
        at: 6,
        line: 1,
        column: 3,
    },
    Spot {
        name: "character of three bytes on the second line",
        text: r#"日本
語x"#,
        at: 7,
        line: 2,
        column: 1,
    },
    Spot {
        name: "last byte of a character on the second line",
        text: r#"日本
語x"#,
        at: 9,
        line: 2,
        column: 1,
    },
    Spot {
        name: "character after one of three bytes on the second line",
        text: r#"日本
語x"#,
        at: 10,
        line: 2,
        column: 2,
    },
    // Two and four bytes, a tab, and an accent of its own.
    Spot {
        name: "tab after a character of two bytes",
        text: "é\t🦀x",
        at: 2,
        line: 1,
        column: 2,
    },
    Spot {
        name: "last byte of a character of four bytes",
        text: "é\t🦀x",
        at: 6,
        line: 1,
        column: 3,
    },
    Spot {
        name: "character after one of four bytes",
        text: "é\t🦀x",
        at: 7,
        line: 1,
        column: 4,
    },
    Spot {
        name: "character after an accent of its own",
        text: "e\u{301}x",
        at: 3,
        line: 1,
        column: 3,
    },
    // A carriage return is a character of its line.
    Spot {
        name: "line feed after a carriage return",
        text: "a\r\nb",
        at: 2,
        line: 1,
        column: 3,
    },
    Spot {
        name: "line after a carriage return and a line feed",
        text: "a\r\nb",
        at: 3,
        line: 2,
        column: 1,
    },
    Spot {
        name: "character after a lone carriage return",
        text: "a\rb",
        at: 2,
        line: 1,
        column: 3,
    },
    Spot {
        name: "refused token after a policy",
        text: r#"permit(principal,action,resource);
;="#,
        at: 36,
        line: 2,
        column: 2,
    },
];

#[test]
fn places_of_bytes(rt: HostRuntime) {
    for row in &PLACES {
        let want = Place {
            line: row.line,
            column: row.column,
        };
        assert_eq!(rt; place(row.text, row.at), want, "{}", row.name);
    }
}
