//! Marks and their layouts, worked out by hand.
use cedar_print::mark::Mark::{
    Begin, EndGroup, EndNest, EndNothing, Hard, Line, LineOrNil, Nest, Space, Text,
};
use cedar_print::mark::{Indent, Mark};
use cedar_print::printer::Printer;
use std::alloc::AllocError;
use std::process::Abort;

// Marks, and their layouts at some widths, without blank lines and trimmed.
struct Row {
    name: &'static str,
    marks: &'static [Mark<'static>],
    layouts: &'static [(usize, &'static str)],
}

static ROWS: [Row; 16] = [
    Row {
        name: "nothing",
        marks: &[],
        layouts: &[(0, ""), (80, "")],
    },
    Row {
        name: "breaks that are in no group",
        marks: &[
            Text("a"),
            Line,
            Text("b"),
            Begin,
            LineOrNil,
            EndNothing,
            Text("c"),
        ],
        layouts: &[(80, "a\nb\nc")],
    },
    Row {
        name: "nests to the left, up to the margin",
        marks: &[
            Nest(Indent { columns: 4 }),
            Hard,
            Text("a"),
            Nest(Indent { columns: -2 }),
            Hard,
            Text("b"),
            Nest(Indent { columns: -3 }),
            Hard,
            Text("c"),
            EndNest,
            Hard,
            Text("d"),
            EndNest,
            Hard,
            Text("e"),
            EndNest,
        ],
        layouts: &[(80, "a\n  b\nc\n  d\n    e")],
    },
    Row {
        name: "a group, and a text up to the break after it",
        marks: &[
            Begin,
            Text("a"),
            Line,
            Text("b"),
            EndGroup,
            Text("c"),
            Space,
            Hard,
        ],
        layouts: &[(5, "a bc"), (4, "a\nbc")],
    },
    Row {
        name: "nothing in a group, and a group in nothing",
        marks: &[
            Begin,
            Begin,
            Text("a"),
            Line,
            EndNothing,
            Text("b"),
            EndGroup,
            Hard,
            Begin,
            Begin,
            Text("c"),
            LineOrNil,
            Text("d"),
            EndGroup,
            Line,
            EndNothing,
        ],
        layouts: &[(3, "a b\ncd"), (2, "a\nb\ncd"), (1, "a\nb\nc\nd")],
    },
    Row {
        name: "a call",
        marks: &[
            Text("f("),
            Begin,
            Nest(Indent { columns: 2 }),
            LineOrNil,
            Text("x,"),
            Line,
            Text("y"),
            EndNest,
            LineOrNil,
            EndGroup,
            Text(")"),
        ],
        layouts: &[(8, "f(x, y)"), (7, "f(x, y)"), (6, "f(\n  x,\n  y\n)")],
    },
    Row {
        name: "a flat group in a broken one, and a broken one in a nest",
        marks: &[
            Begin,
            Text("if"),
            Nest(Indent { columns: 2 }),
            Line,
            Begin,
            Text("a"),
            Space,
            Text("<"),
            Line,
            Text("b"),
            EndGroup,
            EndNest,
            Line,
            Text("then"),
            EndGroup,
        ],
        layouts: &[
            (13, "if a < b then"),
            (12, "if\n  a < b\nthen"),
            (6, "if\n  a <\n  b\nthen"),
        ],
    },
    Row {
        name: "a hard break in a group",
        marks: &[
            Begin,
            Text("a"),
            Line,
            Begin,
            Text("b"),
            Hard,
            EndNothing,
            Text("c"),
            EndGroup,
        ],
        layouts: &[(usize::MAX, "a\nb\nc")],
    },
    Row {
        name: "nests in nests",
        marks: &[
            Nest(Indent { columns: 1 }),
            Hard,
            Begin,
            Nest(Indent { columns: 2 }),
            Hard,
            Text("a"),
            EndNest,
            EndNothing,
            Hard,
            Text("b"),
            EndNest,
            Hard,
        ],
        layouts: &[(80, "a\n b")],
    },
    Row {
        name: "a character of two columns",
        marks: &[Begin, Text("日"), Line, Text("b"), EndGroup],
        layouts: &[(4, "日 b"), (3, "日\nb")],
    },
    Row {
        name: "blanks alone",
        marks: &[Space, Hard, Space, Hard],
        layouts: &[(80, "")],
    },
    Row {
        name: "breaks at both ends, and two between texts",
        marks: &[
            Hard,
            Text("// a"),
            Hard,
            Hard,
            Text("b"),
            Space,
            Text("// c"),
            Hard,
        ],
        layouts: &[(80, "// a\nb // c")],
    },
    Row {
        name: "a line of spaces, and the indentation after it",
        marks: &[
            Nest(Indent { columns: 2 }),
            Text("a"),
            Hard,
            EndNest,
            Space,
            Nest(Indent { columns: 1 }),
            Hard,
            Text("b"),
            EndNest,
        ],
        layouts: &[(80, "a\n b")],
    },
    Row {
        name: "spaces before and after a break",
        marks: &[
            Text("a"),
            Space,
            Hard,
            Space,
            Begin,
            Line,
            Text("b"),
            EndGroup,
        ],
        layouts: &[(80, "a \n  b")],
    },
    Row {
        name: "texts that are blanks",
        marks: &[
            Text("a"),
            Text("\n"),
            Text(" "),
            Text("\n"),
            Text(" "),
            Text("b"),
        ],
        layouts: &[(80, "a\n b")],
    },
    Row {
        name: "blank lines in a text",
        marks: &[Text("\"a\n\n b\""), Hard, Text(";"), LineOrNil],
        layouts: &[(80, "\"a\n\n b\"\n;")],
    },
];

fn expect_row(
    rt: &impl Abort,
    printer: &mut Printer,
    row: &Row,
    out: &mut String,
) -> Result<(), AllocError> {
    for (width, layout) in row.layouts {
        out.clear();
        out.push_str("> ")?;
        printer.lay_out_clean(row.marks, *width, out)?;
        assert_eq!(rt;
            out.strip_prefix("> "),
            Some(*layout),
            "{} at {width}",
            row.name
        );
    }
    Ok(())
}

#[test]
fn layouts(rt: HostRuntime) -> Result<(), AllocError> {
    let mut printer = Printer::new(rt.alloc());
    let mut out = String::new(rt.alloc());
    for row in &ROWS {
        expect_row(&rt, &mut printer, row, &mut out)?;
    }
    Ok(())
}
