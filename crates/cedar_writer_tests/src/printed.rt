//! Texts with one policy, printed.
use cedar_print::mark::Indent;
use cedar_reading::lexeme::Lexeme;
use cedar_reading::pieces::read_piece;
use cedar_writer::printer::{NotPrinted, PolicyPrinter};
use std::alloc::AllocError;
use std::process::Abort;

// A text, and what is printed of it at a width and an indentation; nothing if it is not accepted.
struct Row {
    name: &'static str,
    text: &'static str,
    width: usize,
    columns: isize,
    printed: Option<&'static str>,
}

static ROWS: [Row; 5] = [
    Row {
        name: "a trailing comma",
        text: "permit(principal,action,resource)when{[1,2,]==[]};",
        width: 80,
        columns: 2,
        printed: Some("permit (principal, action, resource)\nwhen { [1, 2] == [] };\n"),
    },
    Row {
        name: "comments around a trailing comma",
        text: "permit(principal,action,resource)when{[1 // a\n, // b\n]};",
        width: 80,
        columns: 2,
        printed: Some(
            "permit (principal, action, resource)\nwhen\n{\n  [1 // a\n  // b\n  ]\n};\n",
        ),
    },
    Row {
        name: "an indentation to the left",
        text: "permit(principal,action,resource)when{(1+2)};",
        width: 0,
        columns: -3,
        printed: Some("permit\n(principal, action, resource)\nwhen\n{\n(1 +\n 2)\n};\n"),
    },
    Row {
        name: "only a comma in a list",
        text: "permit(principal,action,resource)when{[,]};",
        width: 80,
        columns: 2,
        printed: None,
    },
    Row {
        name: "no policy",
        text: ";",
        width: 80,
        columns: 2,
        printed: None,
    },
];

#[tactic(auto, using(crate::proofs::Whole::whole_lexemes, crate::proofs::Whole::whole_piece))]
fn expect_row(
    rt: &impl Abort,
    printer: &mut PolicyPrinter<'static>,
    row: &Row,
    lexemes: &mut Vec<Lexeme<'static>>,
    out: &mut String,
) -> Result<(), AllocError> {
    let Some(len) = read_piece(row.text, lexemes)? else {
        panic!(rt; "{}", row.name);
    };
    if len != row.text.len() {
        panic!(rt; "{}", row.name);
    }
    let indent = Indent {
        columns: row.columns,
    };
    match (
        printer.print(row.text, lexemes, row.width, indent, out),
        row.printed,
    ) {
        (Ok(()), Some(printed)) => assert_eq!(rt; out.as_str(), printed, "{}", row.name),
        (Err(NotPrinted::NotAccepted), None) => {}
        (Err(NotPrinted::OutOfMemory), _) => return Err(AllocError),
        _ => panic!(rt; "{}", row.name),
    }
    Ok(())
}

// Each row with a new printer, and with that of the rows before it.
#[test]
fn rows(rt: HostRuntime) -> Result<(), AllocError> {
    let mut lexemes = Vec::new(rt.alloc());
    let mut out = String::new(rt.alloc());
    let mut kept = PolicyPrinter::new(rt.alloc());
    for row in &ROWS {
        let mut printer = PolicyPrinter::new(rt.alloc());
        expect_row(&rt, &mut printer, row, &mut lexemes, &mut out)?;
        expect_row(&rt, &mut kept, row, &mut lexemes, &mut out)?;
    }
    Ok(())
}
