//! What could stand at the place where a text leaves the grammar, by the lines of the written grammar, and what is said of it.
use cedar_cst::cst::parse_policies;
use cedar_faults::expected::expected;
use cedar_faults::explain::explain;
use cedar_tokens::kind::{Kind, kind_of};
use std::alloc::{AllocError, Global};
use std::process::Abort;

const IDENTIFIERS: &str = "permit forbid when unless principal action resource context a";

const WORDS: &str =
    "permit forbid when unless principal action resource context a true false if then else in is like has";

const FLAT: &str =
    "permit forbid when unless principal action resource context a true false 0 \"\"";

const OPERANDS: &str =
    "permit forbid when unless principal action resource context a true false 0 \"\" ( [ {";

const EXPRESSIONS: &str =
    "permit forbid when unless principal action resource context a true false 0 \"\" ( [ { if ! -";

const OPERATORS: &str = "+ - * < <= > >= != == in has like is && ||";

// A refused text, with so many `(` after it, where it is refused, the token that stands there, and what is said of it.
struct Row {
    name: &'static str,
    text: &'static str,
    brackets: usize,
    at: usize,
    found: Option<&'static str>,
    // Tokens of the kinds that could stand there, one of each, split by blanks; a word in capitals stands for those of a group.
    kinds: &'static str,
    // Whether the text could end there.
    end: bool,
    message: &'static str,
}

// What a row has that says nothing else.
const ROW: Row = Row {
    name: "",
    text: "",
    brackets: 0,
    at: 0,
    found: None,
    kinds: "",
    end: false,
    message: "",
};

static ROWS: [Row; 39] = [
    // Scopes and annotations.
    Row {
        name: "end after the scope",
        text: "permit(principal,action,resource)",
        at: 33,
        kinds: "when unless ;",
        message: "expected a condition or ';', found the end of the text",
        ..ROW
    },
    Row {
        name: "no comma between variables",
        text: "permit(principal,action resource);",
        at: 24,
        found: Some("resource"),
        kinds: "== in ,",
        message: "expected 'in', ',' or '==', found 'resource'",
        ..ROW
    },
    Row {
        name: "no comma after the principal",
        text: "permit(principal action",
        at: 17,
        found: Some("action"),
        kinds: "== is in ,",
        message: "expected 'in', 'is', ',' or '==', found 'action'",
        ..ROW
    },
    Row {
        name: "slot of another variable",
        text: "permit(principal in ?resource,action,resource);",
        at: 20,
        found: Some("?resource"),
        kinds: "IDENT ?principal",
        message: "expected an identifier or '?principal', found '?resource'",
        ..ROW
    },
    Row {
        name: "slot of an action",
        text: "permit(principal,action in ?principal,resource);",
        at: 27,
        found: Some("?principal"),
        kinds: "IDENT [",
        message: "expected an identifier or '[', found '?principal'",
        ..ROW
    },
    Row {
        name: "two commas after a type",
        text: "permit(principal,action,resource is A,,);",
        at: 38,
        found: Some(","),
        kinds: ")",
        message: "expected ')', found ','",
        ..ROW
    },
    Row {
        name: "brace after a type",
        text: "permit(principal,action,resource is A{);",
        at: 37,
        found: Some("{"),
        kinds: ":: in , )",
        message: "expected 'in', ',', '::' or ')', found '{'",
        ..ROW
    },
    Row {
        name: "annotation named by a keyword, and the end",
        text: "@ permit",
        at: 8,
        kinds: "@ permit forbid (",
        message: "expected a policy or '(', found the end of the text",
        ..ROW
    },
    Row {
        name: "annotation without a name",
        text: "@;",
        at: 1,
        found: Some(";"),
        kinds: "WORD",
        message: "expected a word, found ';'",
        ..ROW
    },
    Row {
        name: "annotation with a name for a value",
        text: "@a(b)",
        at: 3,
        found: Some("b"),
        kinds: r#""""#,
        message: "expected a string, found 'b'",
        ..ROW
    },
    // Between policies, and after a scope.
    Row {
        name: "bracket after a policy",
        text: "permit(principal,action,resource); )",
        at: 35,
        found: Some(")"),
        kinds: "@ permit forbid",
        end: true,
        message: "expected a policy or the end of the text, found ')'",
        ..ROW
    },
    Row {
        name: "only a bracket",
        text: ")",
        at: 0,
        found: Some(")"),
        kinds: "@ permit forbid",
        end: true,
        message: "expected a policy or the end of the text, found ')'",
        ..ROW
    },
    Row {
        name: "policy before the semicolon of another",
        text: r#"permit(principal,action,resource)
permit(principal,action,resource);"#,
        at: 34,
        found: Some("permit"),
        kinds: "when unless ;",
        message: "expected a condition or ';', found 'permit'",
        ..ROW
    },
    Row {
        name: "bracket after a comment",
        text: r#"permit(principal,action,resource) // c
)"#,
        at: 39,
        found: Some(")"),
        kinds: "when unless ;",
        message: "expected a condition or ';', found ')'",
        ..ROW
    },
    Row {
        name: "comment before the end",
        text: "permit(principal,action,resource) // c",
        at: 38,
        kinds: "when unless ;",
        message: "expected a condition or ';', found the end of the text",
        ..ROW
    },
    Row {
        name: "number after a condition",
        text: r#"permit(principal,action,resource);
permit(principal,action,resource);
permit(principal,action,resource) when { true } 1;"#,
        at: 118,
        found: Some("1"),
        kinds: "when unless ;",
        message: "expected a condition or ';', found '1'",
        ..ROW
    },
    // Conditions.
    Row {
        name: "empty condition",
        text: "permit(principal,action,resource)when{};",
        at: 38,
        found: Some("}"),
        kinds: "EXPR",
        message: "expected an expression, found '}'",
        ..ROW
    },
    Row {
        name: "two comparisons",
        text: "permit(principal,action,resource)when { 1 < 2 < 3 };",
        at: 46,
        found: Some("<"),
        kinds: ". [ + - * && || }",
        message: "expected '.', '}', '[' or an arithmetic or logical operator, found '<'",
        ..ROW
    },
    Row {
        name: "dot without a field",
        text: "permit(principal,action,resource)when { context. };",
        at: 49,
        found: Some("}"),
        kinds: "IDENT",
        message: "expected an identifier, found '}'",
        ..ROW
    },
    Row {
        name: "two items without a comma",
        text: "permit(principal,action,resource)when { [1 2] };",
        at: 43,
        found: Some("2"),
        kinds: ". [ OPS , ]",
        message: "expected an operator, '.', ',', '[' or ']', found '2'",
        ..ROW
    },
    Row {
        name: "two commas in a list",
        text: "permit(principal,action,resource)when { [1,,] };",
        at: 43,
        found: Some(","),
        kinds: "EXPR ]",
        message: "expected an expression or ']', found ','",
        ..ROW
    },
    Row {
        name: "only a comma in a call",
        text: "permit(principal,action,resource)when { context.f(, };",
        at: 50,
        found: Some(","),
        kinds: "EXPR )",
        message: "expected an expression or ')', found ','",
        ..ROW
    },
    Row {
        name: "method closed by a square bracket",
        text: "permit(principal,action,resource)when { context.f ] };",
        at: 50,
        found: Some("]"),
        kinds: ". [ ( OPS }",
        message: "expected an operator, '.', '(', '}' or '[', found ']'",
        ..ROW
    },
    Row {
        name: "two commas in a record",
        text: "permit(principal,action,resource)when { {a:1, , };",
        at: 46,
        found: Some(","),
        kinds: r#"IDENT "" }"#,
        message: "expected an identifier, a string or '}', found ','",
        ..ROW
    },
    Row {
        name: "key without a colon",
        text: "permit(principal,action,resource)when { {a 1} };",
        at: 43,
        found: Some("1"),
        kinds: ":",
        message: "expected ':', found '1'",
        ..ROW
    },
    Row {
        name: "name after a number",
        text: "permit(principal,action,resource)when { 7a };",
        at: 41,
        found: Some("a"),
        kinds: ". [ OPS }",
        message: "expected an operator, '.', '}' or '[', found 'a'",
        ..ROW
    },
    Row {
        name: "name alone",
        text: "permit(principal,action,resource)when { a };",
        at: 42,
        found: Some("}"),
        kinds: ":: (",
        message: "expected '::' or '(', found '}'",
        ..ROW
    },
    Row {
        name: "path without its end",
        text: "permit(principal,action,resource)when { a:: };",
        at: 44,
        found: Some("}"),
        kinds: r#"IDENT """#,
        message: "expected an identifier or a string, found '}'",
        ..ROW
    },
    Row {
        name: "sum without its end",
        text: "permit(principal,action,resource)when { 1 + };",
        at: 44,
        found: Some("}"),
        kinds: "OPERAND ! -",
        message: "expected an operand, '-' or '!', found '}'",
        ..ROW
    },
    Row {
        name: "five signs",
        text: "permit(principal,action,resource)when { !!!!!true };",
        at: 44,
        found: Some("!"),
        kinds: "OPERAND",
        message: "expected an operand, found '!'",
        ..ROW
    },
    Row {
        name: "not after minus",
        text: "permit(principal,action,resource)when { -!true };",
        at: 41,
        found: Some("!"),
        kinds: "OPERAND -",
        message: "expected an operand or '-', found '!'",
        ..ROW
    },
    Row {
        name: "if without then",
        text: "permit(principal,action,resource)when { if 1 };",
        at: 45,
        found: Some("}"),
        kinds: ". [ OPS then",
        message: "expected 'then', an operator, '.' or '[', found '}'",
        ..ROW
    },
    Row {
        name: "has before a number",
        text: "permit(principal,action,resource)when { context has 1 };",
        at: 52,
        found: Some("1"),
        kinds: r#"IDENT """#,
        message: "expected an identifier or a string, found '1'",
        ..ROW
    },
    Row {
        name: "like before a number",
        text: "permit(principal,action,resource)when { context like 1 };",
        at: 53,
        found: Some("1"),
        kinds: r#""""#,
        message: "expected a string, found '1'",
        ..ROW
    },
    Row {
        name: "brace after a type in a condition",
        text: "permit(principal,action,resource)when { context is A { };",
        at: 53,
        found: Some("{"),
        kinds: ":: in && || }",
        message: "expected 'in', '::', '}', '||' or '&&', found '{'",
        ..ROW
    },
    Row {
        name: "index that is a number",
        text: "permit(principal,action,resource)when { context[1] };",
        at: 48,
        found: Some("1"),
        kinds: r#""""#,
        message: "expected a string, found '1'",
        ..ROW
    },
    Row {
        name: "bracket in 128 brackets",
        text: "permit(principal,action,resource)when {",
        brackets: 129,
        at: 167,
        found: Some("("),
        kinds: "FLAT ! -",
        message: "expected an operand without brackets, '-' or '!', found '('",
        ..ROW
    },
    Row {
        name: "long string of two lines",
        text: r#"permit(principal,action,resource)when { 1 "0123456789
0123456789 0123456789" };"#,
        at: 42,
        found: Some(
            r#""0123456789
0123456789 0123456789""#,
        ),
        kinds: ". [ OPS }",
        message: r#"expected an operator, '.', '}' or '[', found '"0123456789\n0123456789 0123456...'"#,
        ..ROW
    },
    Row {
        name: "hidden characters",
        text: "permit(principal,action,resource) \"\u{202e}\u{feff}\u{7f}\";",
        at: 34,
        found: Some("\"\u{202e}\u{feff}\u{7f}\""),
        kinds: "when unless ;",
        message: r#"expected a condition or ';', found '"\u{202e}\u{feff}\u{7f}"'"#,
        ..ROW
    },
];

// The tokens of a group.
fn group(word: &str) -> &str {
    match word {
        "IDENT" => IDENTIFIERS,
        "WORD" => WORDS,
        "FLAT" => FLAT,
        "OPERAND" => OPERANDS,
        "EXPR" => EXPRESSIONS,
        "OPS" => OPERATORS,
        other => other,
    }
}

// The kinds of a row.
fn kinds_of(alloc: Global, words: &str) -> Result<Vec<Kind>, AllocError> {
    let mut kinds = Vec::new(alloc);
    for word in words.split(' ') {
        for token in group(word).split(' ') {
            kinds.push(kind_of(token))?;
        }
    }
    Ok(kinds)
}

// The text with so many `(` after it.
fn full(alloc: Global, text: &str, brackets: usize) -> Result<String, AllocError> {
    let mut whole = String::from_str(alloc, text)?;
    for _ in 0..brackets {
        whole.push('(')?;
    }
    Ok(whole)
}

fn expect_row(rt: &impl Abort, alloc: Global, row: &Row) -> Result<(), AllocError> {
    let text = full(alloc, row.text, row.brackets)?;
    let Some(expected) = expected(alloc, &text)? else {
        assert!(rt; false, "{}: not refused", row.name);
        return Ok(());
    };
    assert_eq!(rt; expected.at, row.at, "{}", row.name);
    assert_eq!(rt; expected.found, row.found, "{}", row.name);
    assert_eq!(rt; expected.end, row.end, "{}", row.name);
    let kinds = kinds_of(alloc, row.kinds)?;
    for kind in &kinds {
        assert!(rt;
            expected.kinds.contains(*kind),
            "{}: {kind:?} is left out",
            row.name
        );
    }
    for kind in &expected.kinds.items {
        assert!(rt; kinds.contains(kind), "{}: {kind:?} is too much", row.name);
    }
    let message = format!(in alloc; "{expected}")?;
    expect_text(rt, message.as_str(), row.message, row.name);
    Ok(())
}

fn expect_text(rt: &impl Abort, got: &str, want: &str, name: &str) {
    assert_eq!(rt; got, want, "{name}");
}

#[test]
fn rows(rt: HostRuntime) -> Result<(), AllocError> {
    for row in &ROWS {
        expect_row(&rt, rt.alloc(), row)?;
    }
    Ok(())
}

struct Other {
    name: &'static str,
    text: &'static str,
}

// Accepted texts, and texts that are refused because of their tokens.
static OTHERS: [Other; 6] = [
    Other {
        name: "empty text",
        text: "",
    },
    Other {
        name: "only a comment",
        text: "// c",
    },
    Other {
        name: "accepted policy",
        text: "permit(principal,action,resource);",
    },
    Other {
        name: "unknown character",
        text: "permit(principal,action,resource);=",
    },
    Other {
        name: "unfinished string",
        text: r#"""#,
    },
    Other {
        name: "number too large",
        text: "18446744073709551616",
    },
];

#[test]
fn others(rt: HostRuntime) -> Result<(), AllocError> {
    for row in &OTHERS {
        let is_none = expected(rt.alloc(), row.text)?.is_none();
        assert!(rt; is_none, "{}", row.name);
    }
    Ok(())
}

// A refused text, with so many `(` after it, and what is said of it.
struct Sentence {
    name: &'static str,
    text: &'static str,
    brackets: usize,
    sentence: &'static str,
}

static SENTENCES: [Sentence; 5] = [
    Sentence {
        name: "unknown character",
        text: "permit(principal,action,resource);=",
        brackets: 0,
        sentence: "no token begins with this character",
    },
    Sentence {
        name: "unfinished string",
        text: r#"permit(principal,action,resource);""#,
        brackets: 0,
        sentence: "this string is not finished",
    },
    Sentence {
        name: "number too large",
        text: "18446744073709551616",
        brackets: 0,
        sentence: "this number is above 18446744073709551615",
    },
    Sentence {
        name: "129 brackets",
        text: "permit(principal,action,resource)when {",
        brackets: 129,
        sentence: "nested too deeply: more than 128 brackets and ifs",
    },
    Sentence {
        name: "end after the scope",
        text: "permit(principal,action,resource)",
        brackets: 0,
        sentence: "expected a condition or ';', found the end of the text",
    },
];

#[test]
fn sentences(rt: HostRuntime) -> Result<(), AllocError> {
    for row in &SENTENCES {
        let text = full(rt.alloc(), row.text, row.brackets)?;
        match parse_policies(rt.alloc(), &text) {
            Ok(_) => assert!(rt; false, "{}: not refused", row.name),
            Err(error) => {
                let said = explain(rt.alloc(), &text, error)?;
                expect_text(&rt, said.as_str(), row.sentence, row.name);
            }
        }
    }
    Ok(())
}
