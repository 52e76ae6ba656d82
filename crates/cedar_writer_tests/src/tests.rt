//! Policies, and their marks, worked out by hand from the grammar and its table.
use cedar_print::mark::{Indent, Mark};
use cedar_reading::token::Token;
use cedar_tokens::kind::kind_of;
use cedar_writer::policy::{Refusal, write_policy};
use std::alloc::{AllocError, Global};
use std::process::Abort;

// Tokens split by blanks, with comments at two of them, and how many brackets may be nested. Either the marks, or how many tokens
// are left where they are refused, for their depth alone or not.
struct Row {
    name: &'static str,
    words: &'static str,
    led: &'static str,
    leading: &'static str,
    trailed: &'static str,
    trailing: &'static str,
    depth: usize,
    marks: &'static str,
    left: usize,
    too_deep: bool,
}

// What a row has that says nothing else.
const ROW: Row = Row {
    name: "",
    words: "",
    led: "",
    leading: "",
    trailed: "",
    trailing: "",
    depth: 9,
    marks: "",
    left: 0,
    too_deep: false,
};

static ROWS: [Row; 7] = [
    Row {
        name: "three bare variables",
        words: "permit ( principal , action , resource ) ;",
        marks: "begin 'permit' line '(' group begin nest2 begin begin 'principal' nothing nothing ',' space \
            begin begin 'action' nothing nothing ',' space begin begin 'resource' nothing nothing end group ')' ';' ",
        ..ROW
    },
    Row {
        name: "comments",
        words: "forbid ( principal , action , resource ) unless { } } ;",
        led: "unless",
        leading: "// a\n // b\n",
        trailed: ",",
        trailing: "// c",
        left: 3,
        ..ROW
    },
    Row {
        name: "scope and annotation",
        words: "@ id ( \"x\" ) @ in permit ( principal is A :: B in ?principal , \
            action in [ Action :: \"r\" , Action :: \"w\" , ] , resource == R :: \"x\" , ) ;",
        led: "permit",
        leading: "// a\n",
        trailed: "id",
        trailing: "// b",
        marks: "'@' 'id' space '// b' hard '(' '\"x\"' ')' hard '@' 'in' hard \
            hard '// a' hard begin 'permit' line '(' group nest2 hard \
            begin begin 'principal' begin nest2 begin line 'is' group line 'A' '::' 'B' end group \
            line 'in' group nest2 line begin begin begin '?principal' nest2 end group group group end group ',' hard \
            begin begin 'action' line 'in' group nest2 line begin begin begin '[' nest1 \
            begin begin begin 'Action' '::' '\"r\"' nest2 end group group group ',' line \
            begin begin begin 'Action' '::' '\"w\"' nest2 end group group group ',' end ']' nest2 end group group group end group ',' hard \
            begin begin 'resource' line '==' group nest2 line begin begin begin 'R' '::' '\"x\"' nest2 end group group group end group \
            end hard ',' ')' ';' ",
        ..ROW
    },
    Row {
        name: "condition",
        words: "permit ( principal , action , resource ) when { \
            ! principal . f ( 1 , \"s\" ) [ \"k\" ] + 2 * 3 > 04 && x :: \"e\" has a . b } ;",
        led: "when",
        leading: "// a",
        trailed: "&&",
        trailing: "// b",
        marks: "begin 'permit' line '(' group begin nest2 begin begin 'principal' nothing nothing ',' space \
            begin begin 'action' nothing nothing ',' space begin begin 'resource' nothing nothing end group ')' hard \
            hard '// a' hard begin 'when' line '{' begin nest2 line begin \
            begin begin begin '!' begin 'principal' nest2 '.' 'f' '(' nest2 nil \
            begin begin begin begin '1' nest2 end group group group nothing ',' line \
            begin begin begin begin '\"s\"' nest2 end group group group nothing end nil ')' nil '[' '\"k\"' ']' end group group \
            space '+' line begin begin '2' nest2 end group space '*' line begin '3' nest2 end group group group \
            space '>' space begin begin begin '4' nest2 end group group group nothing \
            space '&&' space '// b' hard begin begin begin begin 'x' '::' '\"e\"' nest2 end group group group \
            line 'has' line nest2 begin begin begin 'a' nest2 '.' 'b' end group group group end group \
            group end line '}' group group ';' ",
        ..ROW
    },
    Row {
        name: "if, record, list and called path",
        words: "permit ( principal , action , resource ) when { if true then { a : [ ] , } else a :: b ( ) . c } unless { false } ;",
        depth: 3,
        marks: "begin 'permit' line '(' group begin nest2 begin begin 'principal' nothing nothing ',' space \
            begin begin 'action' nothing nothing ',' space begin begin 'resource' nothing nothing end group ')' hard \
            begin 'when' line '{' begin nest2 line begin \
            begin 'if' nest2 line begin begin begin begin 'true' nest2 end group group group nothing end \
            line 'then' nest2 line begin begin begin begin '{' nest2 begin line 'a' ':' space \
            begin begin begin begin '[' nest1 end ']' nest2 end group group group nothing ',' line group end '}' nest2 end group group group nothing end \
            line 'else' nest2 line begin begin begin begin 'a' '::' 'b' nest2 '(' ')' nil '.' 'c' end group group group nothing end group \
            group end line '}' group group hard begin 'unless' line '{' begin nest2 line begin \
            begin begin begin begin 'false' nest2 end group group group nothing group end line '}' group group ';' ",
        ..ROW
    },
    Row {
        name: "a list too deep",
        words: "permit ( principal , action , resource ) when { if true then [ [ ] ] else 1 } ;",
        depth: 2,
        left: 7,
        too_deep: true,
        ..ROW
    },
    Row {
        name: "no comma between variables",
        words: "permit ( principal , action resource ) ;",
        left: 3,
        ..ROW
    },
];

fn tokens_of(alloc: Global, row: &Row) -> Result<Vec<Token<'static, 'static>>, AllocError> {
    let mut tokens = Vec::new(alloc);
    for word in row.words.split(' ') {
        let leading = if word == row.led { row.leading } else { "" };
        let trailing = if word == row.trailed {
            row.trailing
        } else {
            ""
        };
        tokens.push(Token::new(kind_of(word), word, leading, trailing))?;
    }
    Ok(tokens)
}

fn push_mark(out: &mut String, mark: &Mark<'_>) -> Result<(), AllocError> {
    match mark {
        Mark::Text(text) => {
            out.push_str("'")?;
            out.push_str(text)?;
            out.push_str("'")?;
        }
        Mark::Space => out.push_str("space")?,
        Mark::Line => out.push_str("line")?,
        Mark::LineOrNil => out.push_str("nil")?,
        Mark::Hard => out.push_str("hard")?,
        Mark::Nest(Indent { columns: 1 }) => out.push_str("nest1")?,
        Mark::Nest(_) => out.push_str("nest2")?,
        Mark::EndNest => out.push_str("end")?,
        Mark::Begin => out.push_str("begin")?,
        Mark::EndGroup => out.push_str("group")?,
        Mark::EndNothing => out.push_str("nothing")?,
    }
    out.push_str(" ")?;
    Ok(())
}

// The marks of the row, each and a blank after it, and how many tokens are left; or why there are none.
fn marks_of(
    alloc: Global,
    row: &Row,
    marks: &mut Vec<Mark<'static>>,
) -> Result<Result<(String, usize), Refusal>, AllocError> {
    let tokens = tokens_of(alloc, row)?;
    match write_policy(&tokens, marks, Indent { columns: 2 }, row.depth) {
        Ok(left) => {
            let mut out = String::new(alloc);
            for mark in marks {
                push_mark(&mut out, mark)?;
            }
            Ok(Ok((out, left)))
        }
        Err(refusal) => Ok(Err(refusal)),
    }
}

fn expect_row(
    rt: &impl Abort,
    alloc: Global,
    row: &Row,
    marks: &mut Vec<Mark<'static>>,
) -> Result<(), AllocError> {
    match marks_of(alloc, row, marks)? {
        Ok((marks, left)) => {
            assert_eq!(rt; marks.as_str(), row.marks, "{}", row.name);
            assert_eq!(rt; left, row.left, "{}", row.name);
        }
        Err(refusal) => {
            let is_wanted = match refusal {
                Refusal::TooDeep { left } => row.too_deep && left == row.left,
                Refusal::Grammar { left } => !row.too_deep && left == row.left,
                Refusal::OutOfMemory => false,
            };
            assert!(rt; is_wanted, "{}", row.name);
            assert_eq!(rt; "", row.marks, "{}", row.name);
        }
    }
    Ok(())
}

// Each row in new memory, and in that of the rows before it.
#[test]
fn rows(rt: HostRuntime) -> Result<(), AllocError> {
    let mut kept = Vec::new(rt.alloc());
    for row in &ROWS {
        let mut marks = Vec::new(rt.alloc());
        expect_row(&rt, rt.alloc(), row, &mut marks)?;
        expect_row(&rt, rt.alloc(), row, &mut kept)?;
    }
    Ok(())
}
