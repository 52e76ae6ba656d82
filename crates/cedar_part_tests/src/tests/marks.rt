//! Documents as flat lists of marks: the layout of the document that marks are of.
use cedar_documents::document::to_document;
use cedar_policy_formatter::layout::render;
use cedar_print::mark::Mark::{Begin, EndGroup, EndNest, Hard, Line, LineOrNil, Nest, Text};
use cedar_print::mark::{Indent, Mark};
use std::alloc::Global;
use std::process::Abort;

fn expect_layout(rt: &impl Abort, got: &str, want: &str, name: &str, width: usize) {
    assert_eq!(rt; got, want, "{name} at {width}");
}

// The marks, and their layouts at some widths.
struct Row {
    name: &'static str,
    marks: &'static [Mark<'static>],
    layouts: &'static [(usize, &'static str)],
}

static ROWS: [Row; 9] = [
    Row {
        name: "nothing",
        marks: &[],
        layouts: &[(0, ""), (80, "")],
    },
    Row {
        name: "a group at the end",
        marks: &[Text("a"), Begin, Line, Text("b"), EndGroup],
        layouts: &[(3, "a b"), (2, "a\nb")],
    },
    Row {
        name: "a text after a group, up to the break in the next one",
        marks: &[
            Begin,
            Text("a"),
            Line,
            Text("b"),
            EndGroup,
            Text("cc"),
            Begin,
            LineOrNil,
            Text("d"),
            EndGroup,
        ],
        layouts: &[
            (6, "a bccd"),
            (5, "a bcc\nd"),
            (4, "a\nbccd"),
            (3, "a\nbcc\nd"),
        ],
    },
    Row {
        name: "a hard break in a group",
        marks: &[Begin, Text("a"), Line, Text("b"), Hard, Text("c"), EndGroup],
        layouts: &[(usize::MAX, "a\nb\nc")],
    },
    Row {
        name: "a hard break in an inner group, and a flat one beside it",
        marks: &[
            Begin,
            Begin,
            Text("a"),
            LineOrNil,
            Text("b"),
            EndGroup,
            Begin,
            Hard,
            EndGroup,
            Text("c"),
            Line,
            Text("d"),
            EndGroup,
        ],
        layouts: &[(80, "ab\nc\nd"), (1, "a\nb\nc\nd")],
    },
    Row {
        name: "nests, one of them below zero",
        marks: &[
            Nest(Indent { columns: 2 }),
            Hard,
            Text("a"),
            Nest(Indent { columns: -5 }),
            Hard,
            Text("b"),
            EndNest,
            Hard,
            Text("c"),
            EndNest,
            Hard,
            Text("d"),
        ],
        layouts: &[(80, "\n  a\nb\n  c\nd")],
    },
    Row {
        name: "wide characters",
        marks: &[Begin, Text("日本"), Line, Text("b"), EndGroup],
        layouts: &[(6, "日本 b"), (5, "日本\nb")],
    },
    Row {
        name: "the column after an indentation",
        marks: &[
            Nest(Indent { columns: 4 }),
            Hard,
            Begin,
            Text("a"),
            Line,
            Text("b"),
            EndGroup,
            EndNest,
        ],
        layouts: &[(7, "\n    a b"), (6, "\n    a\n    b")],
    },
    Row {
        name: "a group in a flat group",
        marks: &[
            Begin,
            Text("a"),
            Begin,
            Line,
            Text("b"),
            EndGroup,
            LineOrNil,
            Text("c"),
            EndGroup,
        ],
        layouts: &[(4, "a bc"), (3, "a b\nc"), (2, "a\nb\nc")],
    },
];

fn expect_row(rt: &impl Abort, row: &Row, alloc: Global) {
    let doc = to_document(alloc, row.marks).expect(rt, row.name);
    for (width, want) in row.layouts {
        let mut got = String::new(alloc);
        render(alloc, &doc, *width, &mut got).expect(rt, row.name);
        expect_layout(rt, got.as_str(), want, row.name, *width);
    }
}

#[test]
fn rows(rt: HostRuntime) {
    for row in &ROWS {
        expect_row(&rt, row, rt.alloc());
    }
}
