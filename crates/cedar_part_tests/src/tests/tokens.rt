//! Tokens and comments: where a text doesn't split, what its tokens are, and what they print.
use super::*;
use cedar_policy_formatter::lexer::{
    LexFault, LexFaultKind, TokenReader, drop_trailing_commas, first_fault, get_token_stream,
};
use cedar_policy_formatter::token::{Comment, Comments, Span, Token, WrappedToken, get_comment};

// A text, and the first place where it doesn't split.
struct Faulty {
    name: &'static str,
    text: &'static str,
    fault: Option<LexFault>,
}

static FAULTS: [Faulty; 18] = [
    Faulty {
        name: "lone equals sign",
        text: "a = b",
        fault: Some(LexFault {
            kind: LexFaultKind::UnknownCharacter,
            at: 2,
        }),
    },
    Faulty {
        name: "line feed after a backslash in a string",
        text: r#""a\
""#,
        fault: Some(LexFault {
            kind: LexFaultKind::UnfinishedString,
            at: 0,
        }),
    },
    Faulty {
        name: "name that begins as a slot",
        text: "?principals",
        fault: None,
    },
    Faulty {
        name: "empty text",
        text: "",
        fault: None,
    },
    Faulty {
        name: "only a comment",
        text: "// c",
        fault: None,
    },
    Faulty {
        name: "byte order mark",
        text: "\u{feff}a",
        fault: Some(LexFault {
            kind: LexFaultKind::UnknownCharacter,
            at: 0,
        }),
    },
    Faulty {
        name: "space of no width",
        text: "permit\u{200b}(",
        fault: Some(LexFault {
            kind: LexFaultKind::UnknownCharacter,
            at: 6,
        }),
    },
    Faulty {
        name: "blanks beyond ASCII",
        text: "permit\u{a0}(\u{2028}\u{85}\u{3000})",
        fault: None,
    },
    Faulty {
        name: "unfinished string in a scope",
        text: r#"permit(principal == User::"a,action,resource);"#,
        fault: Some(LexFault {
            kind: LexFaultKind::UnfinishedString,
            at: 26,
        }),
    },
    Faulty {
        name: "equals sign in a condition",
        text: "permit(principal,action,resource)when{=};",
        fault: Some(LexFault {
            kind: LexFaultKind::UnknownCharacter,
            at: 38,
        }),
    },
    Faulty {
        name: "lone quote",
        text: r#") ""#,
        fault: Some(LexFault {
            kind: LexFaultKind::UnfinishedString,
            at: 2,
        }),
    },
    Faulty {
        name: "lone ampersand",
        text: "a & b",
        fault: Some(LexFault {
            kind: LexFaultKind::UnknownCharacter,
            at: 2,
        }),
    },
    Faulty {
        name: "lone bar",
        text: "a | b",
        fault: Some(LexFault {
            kind: LexFaultKind::UnknownCharacter,
            at: 2,
        }),
    },
    Faulty {
        name: "slot cut off",
        text: "?resourc",
        fault: Some(LexFault {
            kind: LexFaultKind::UnknownCharacter,
            at: 0,
        }),
    },
    Faulty {
        name: "signs of two characters",
        text: "a || b && !c != d",
        fault: None,
    },
    Faulty {
        name: "strings with a backslash and a line feed",
        text: r#""\é" "a
b""#,
        fault: None,
    },
    Faulty {
        name: "lone quote after a name",
        text: r#"a "b"#,
        fault: Some(LexFault {
            kind: LexFaultKind::UnfinishedString,
            at: 2,
        }),
    },
    Faulty {
        name: "string that ends after a backslash",
        text: r#""a\""#,
        fault: Some(LexFault {
            kind: LexFaultKind::UnfinishedString,
            at: 0,
        }),
    },
];

#[test]
fn faults(rt: HostRuntime) {
    for row in &FAULTS {
        assert_eq!(rt; first_fault(row.text), row.fault, "{}", row.name);
    }
}

// A text, and what is shown of its tokens or its comments.
struct Shown {
    name: &'static str,
    text: &'static str,
    shown: &'static str,
}

// Each comment with a `;` after it.
static COMMENTS: [Shown; 6] = [
    Shown {
        name: "two comments",
        text: "// a \n x // b",
        shown: "// a;// b;",
    },
    Shown {
        name: "slashes in a string",
        text: r#""//xy""#,
        shown: r#"//xy";"#,
    },
    Shown {
        name: "lone slashes",
        text: "no / comment /",
        shown: "",
    },
    Shown {
        name: "four slashes",
        text: "////",
        shown: "////;",
    },
    Shown {
        name: "carriage returns and a line separator",
        text: "x // a\r// b\r\n//c\u{2028}d ",
        shown: "// a;// b;//c\u{2028}d;",
    },
    Shown {
        name: "slashes in a comment",
        text: "/// a // b",
        shown: "/// a // b;",
    },
];

#[test]
fn comments(rt: HostRuntime) {
    for row in &COMMENTS {
        let mut out = String::new(rt.alloc());
        append_lines(&rt, &mut out, get_comment(row.text));
        expect_text(&rt, out.as_str(), row.shown, row.name);
    }
}

fn append_lines(rt: &impl Abort, out: &mut String, lines: Comments<'_>) {
    for line in lines {
        write!(out, "{line};").expect(rt, "memory");
    }
}

// Each token as `[START..END TEXT <COMMENTS>]`, then `|` and each closing comment with a `;`.
fn shown_stream(
    rt: &impl Abort,
    alloc: Global,
    tokens: &[WrappedToken<'_>],
    closing: Comments<'_>,
) -> String {
    let mut out = String::new(alloc);
    for token in tokens {
        let start = token.span.start;
        let end = token.span.end;
        let name = &token.token;
        let comment = &token.comment;
        write!(out, "[{start}..{end} {name} <{comment}>]").expect(rt, "memory");
    }
    out.push_str("|").expect(rt, "memory");
    append_lines(rt, &mut out, closing);
    out
}

static STREAMS: [Shown; 18] = [
    Shown {
        name: "leading and trailing comments",
        text: r#"// a
permit // b
// c
(// d"#,
        shown: r#"[5..11 permit <// a
// b>][22..23 ( <// c
// d>]|"#,
    },
    Shown {
        name: "words and numbers side by side",
        text: "truex 7a",
        shown: "[0..5 truex <>][6..7 7 <>][7..8 a <>]|",
    },
    Shown {
        name: "empty text",
        text: "",
        shown: "|",
    },
    Shown {
        name: "only a comment",
        text: "// c",
        shown: "|// c;",
    },
    Shown {
        name: "comment before a token",
        text: r#"//a
a"#,
        shown: r#"[4..5 a <//a
>]|"#,
    },
    Shown {
        name: "comments after and between",
        text: r#"a // a
//b
b//b"#,
        shown: r#"[0..1 a <// a>][11..12 b <//b
//b>]|"#,
    },
    Shown {
        name: "carriage returns between comments",
        text: "a;// t\r// u\n// v \n w // x // y\r //z",
        shown: "[0..1 a <>][1..2 ; <// t\r// u>][19..20 w <// v\n// x // y\r //z>]|",
    },
    Shown {
        name: "carriage returns before a closing comment",
        text: ";\r// a\r// b\n// c\n",
        shown: "[0..1 ; <// a\r// b>]|// c;",
    },
    Shown {
        name: "carriage returns before line feeds",
        text: "a\r\n//b\r\nc",
        shown: r#"[0..1 a <>][8..9 c <//b
>]|"#,
    },
    Shown {
        name: "unfinished string after slashes",
        text: "a\n// e\r// f \n\"//x",
        shown: "no split",
    },
    Shown {
        name: "two closing comments",
        text: "a\n// e\r// f \n",
        shown: "[0..1 a <>]|// e;// f;",
    },
    Shown {
        name: "byte order mark",
        text: "\u{feff}a",
        shown: "no split",
    },
    Shown {
        name: "letter beyond ASCII",
        text: "é\u{a0}",
        shown: "no split",
    },
    Shown {
        name: "no-break space",
        text: "permit\u{a0}(",
        shown: "[0..6 permit <>][8..9 ( <>]|",
    },
    Shown {
        name: "line separator in a comment",
        text: ";// a\u{2028}b",
        shown: "[0..1 ; <// a\u{2028}b>]|",
    },
    Shown {
        name: "letters beyond ASCII in a comment and a string",
        text: "a//é\n\u{2028}\"é\"",
        shown: r#"[0..1 a <//é>][9..13 "é" <>]|"#,
    },
    Shown {
        name: "slashes in a string",
        text: r#""a
//b""#,
        shown: r#"[0..7 "a
//b" <>]|"#,
    },
    Shown {
        name: "signs side by side",
        text: "a==b<=c<d:::",
        shown: "[0..1 a <>][1..3 == <>][3..4 b <>][4..6 <= <>][6..7 c <>][7..8 < <>][8..9 d <>][9..11 :: <>][11..12 : <>]|",
    },
];

#[test]
fn streams(rt: HostRuntime) {
    for row in &STREAMS {
        expect_stream(&rt, rt.alloc(), row, false);
    }
}

// The stream of the text, `plain` without its trailing commas.
fn expect_stream(rt: &impl Abort, alloc: Global, row: &Shown, plain: bool) {
    let stream = get_token_stream(alloc, row.text).expect(rt, row.name);
    let Some((mut tokens, closing)) = stream else {
        expect_text(rt, "no split", row.shown, row.name);
        return;
    };
    if plain {
        drop_trailing_commas(alloc, &mut tokens).expect(rt, row.name);
    }
    let got = shown_stream(rt, alloc, &tokens, closing);
    expect_text(rt, got.as_str(), row.shown, row.name);
}

// The kinds of the tokens, each with a space after it.
static KINDS: [Shown; 3] = [
    Shown {
        name: "keyword and bracket",
        text: r#"// a
permit // b
// c
(// d"#,
        shown: "Permit LParen ",
    },
    Shown {
        name: "words and numbers side by side",
        text: "truex 7a",
        shown: "Identifier Number Identifier ",
    },
    Shown {
        name: "keyword in a string, and a longer word",
        text: r#""permit" permits"#,
        shown: "Str Identifier ",
    },
];

fn kind_name(token: &Token) -> &'static str {
    match token {
        Token::Permit => "Permit",
        Token::LParen => "LParen",
        Token::Identifier(_) => "Identifier",
        Token::Number(_) => "Number",
        Token::Str(_) => "Str",
        _ => "another",
    }
}

fn expect_kinds(rt: &impl Abort, alloc: Global, row: &Shown) {
    let stream = get_token_stream(alloc, row.text).expect(rt, row.name);
    let (tokens, _closing) = stream.expect(rt, row.name);
    let mut out = String::new(alloc);
    for token in &tokens {
        let name = kind_name(&token.token);
        write!(out, "{name} ").expect(rt, row.name);
    }
    expect_text(rt, out.as_str(), row.shown, row.name);
}

#[test]
fn kinds(rt: HostRuntime) {
    for row in &KINDS {
        expect_kinds(&rt, rt.alloc(), row);
    }
}

#[test]
fn streams_token_by_token(rt: HostRuntime) {
    for row in &STREAMS {
        expect_given(&rt, rt.alloc(), row);
    }
}

// A reader gives the tokens of the text's stream, then none, again and again, and at any time the same closing comments.
fn expect_given(rt: &impl Abort, alloc: Global, row: &Shown) {
    let (text, name) = (row.text, row.name);
    let stream = get_token_stream(alloc, text).expect(rt, name);
    let Some((tokens, _)) = stream else {
        assert!(rt; TokenReader::new(text).is_none(), "{name}");
        return;
    };
    let mut reader = TokenReader::new(text).expect(rt, name);
    for token in &tokens {
        let got = shown_stream(rt, alloc, &tokens, reader.closing());
        expect_text(rt, got.as_str(), row.shown, name);
        let given = reader.next(alloc).expect(rt, name);
        expect_equal(rt, &given.expect(rt, name), token, true, name);
    }
    for _ in 0..2 {
        assert!(rt; reader.next(alloc).expect(rt, name).is_none(), "{name}");
    }
    let got = shown_stream(rt, alloc, &tokens, reader.closing());
    expect_text(rt, got.as_str(), row.shown, name);
}

// The streams without trailing commas.
static COMMAS: [Shown; 14] = [
    Shown {
        name: "comma before a bracket",
        text: "(a,)",
        shown: "[0..1 ( <>][1..2 a <>][3..4 ) <>]|",
    },
    Shown {
        name: "comma in a list",
        text: "[1,2,]==[]",
        shown: "[0..1 [ <>][1..2 1 <>][2..3 , <>][3..4 2 <>][5..6 ] <>][6..8 == <>][8..9 [ <>][9..10 ] <>]|",
    },
    Shown {
        name: "commas in a record and a call",
        text: "f({a:1,},)",
        shown: "[0..1 f <>][1..2 ( <>][2..3 { <>][3..4 a <>][4..5 : <>][5..6 1 <>][7..8 } <>][9..10 ) <>]|",
    },
    Shown {
        name: "only a comma",
        text: ",",
        shown: "[0..1 , <>]|",
    },
    Shown {
        name: "two commas",
        text: ",,)",
        shown: "[0..1 , <>][2..3 ) <>]|",
    },
    Shown {
        name: "comma before a commented bracket",
        text: ",) // x",
        shown: "[1..2 ) <// x>]|",
    },
    // The comma's trailing text stays on the token before it, where no comment stands between the two.
    Shown {
        name: "comment of the comma alone",
        text: r#"r, // r
)"#,
        shown: "[0..1 r <// r>][8..9 ) <>]|",
    },
    // Else all its comments lead the bracket, before the bracket's own lines.
    Shown {
        name: "comments of the token, the comma and the bracket",
        text: r#"r // a
// b
, // c
// d
)"#,
        shown: r#"[0..1 r <// a>][24..25 ) <// b
// c
// d
>]|"#,
    },
    Shown {
        name: "comments of the token and the comma",
        text: r#"1 // a
, // b
]"#,
        shown: r#"[0..1 1 <// a>][14..15 ] <// b
>]|"#,
    },
    Shown {
        name: "comment on the line of the bracket",
        text: "r\n// b\n, // c\r// d\n} // e",
        shown: r#"[0..1 r <>][19..20 } <// b
// c
// d
// e>]|"#,
    },
    // The first token has none before it.
    Shown {
        name: "comma without a token before it",
        text: r#"// a
, // b
// c
)"#,
        shown: r#"[17..18 ) <// a
// b
// c
>]|"#,
    },
    Shown {
        name: "comma after a bracket",
        text: r#"(, // b
)"#,
        shown: "[0..1 ( <// b>][8..9 ) <>]|",
    },
    Shown {
        name: "comma between",
        text: "a,b",
        shown: "[0..1 a <>][1..2 , <>][2..3 b <>]|",
    },
    Shown {
        name: "empty text",
        text: "",
        shown: "|",
    },
];

#[test]
fn trailing_commas(rt: HostRuntime) {
    for row in &COMMAS {
        expect_stream(&rt, rt.alloc(), row, true);
    }
}

// A token of each kind: it prints its text and a space.
static TOKENS: [&str; 48] = [
    "true",
    "false",
    "if",
    "permit",
    "forbid",
    "when",
    "unless",
    "in",
    "has",
    "like",
    "is",
    "then",
    "else",
    "principal",
    "action",
    "resource",
    "context",
    "?principal",
    "?resource",
    "a_1",
    "007",
    "\"x\\\"\"",
    "@",
    ".",
    ",",
    ";",
    ":",
    "::",
    "(",
    ")",
    "{",
    "}",
    "[",
    "]",
    "==",
    "!=",
    "<",
    "<=",
    ">",
    ">=",
    "||",
    "&&",
    "+",
    "-",
    "*",
    "/",
    "%",
    "!",
];

#[test]
fn printed_tokens(rt: HostRuntime) {
    for text in &TOKENS {
        expect_printed(&rt, rt.alloc(), text, 0, text, " ");
    }
    let text = "// a\npermit // b\n// c\n(// d";
    expect_printed(&rt, rt.alloc(), text, 1, "// c\n( // d", "");
}

// The text's last token, which so many stand before.
fn last_token<'a>(
    rt: &impl Abort,
    alloc: Global,
    text: &'a str,
    before: usize,
) -> WrappedToken<'a> {
    let stream = get_token_stream(alloc, text).expect(rt, text);
    let (mut tokens, _) = stream.expect(rt, text);
    let token = tokens.pop().expect(rt, text);
    assert_eq!(rt; tokens.len(), before, "{text}");
    token
}

// The text's last token, which so many stand before, prints `want` and `after`.
fn expect_printed(
    rt: &impl Abort,
    alloc: Global,
    text: &str,
    before: usize,
    want: &str,
    after: &str,
) {
    let token = last_token(rt, alloc, text, before);
    let printed = format!(in alloc; "{token}").expect(rt, text);
    let want = format!(in alloc; "{want}{after}").expect(rt, text);
    expect_text(rt, printed.as_str(), want.as_str(), text);
}

fn expect_equal(
    rt: &impl Abort,
    a: &WrappedToken<'_>,
    b: &WrappedToken<'_>,
    want: bool,
    name: &str,
) {
    assert_eq!(rt; a == b, want, "{name}: {a} and {b}");
}

#[test]
fn comments_moved_out(rt: HostRuntime) {
    let alloc = rt.alloc();
    let span = Span { start: 3, end: 4 };
    let comment = Comment::new(alloc, "// a\n// b\n", " // t ").expect(&rt, "memory");
    let printed = format!(in alloc; "{comment}").expect(&rt, "memory");
    expect_text(&rt, printed.as_str(), "// a\n// b\n// t", "comment");
    let mut token = WrappedToken::new(Token::Comma, span, comment);
    let copy = token.clone().expect(&rt, "memory");
    expect_equal(&rt, &copy, &token, true, "copy");
    let lines = token.consume_leading_comment();
    expect_text(
        &rt,
        token.comment.trailing_comment(),
        "// t",
        "trailing text",
    );
    expect_equal(&rt, &copy, &token, false, "without its lines");
    let mut token = WrappedToken::new(Token::Comma, span, Comment::from_parts(lines, "// t"));
    expect_equal(&rt, &copy, &token, true, "with its lines again");
    let taken = token.consume_comment();
    assert!(rt; taken == copy.comment);
    let empty = WrappedToken::new(Token::Comma, span, Comment::empty(alloc));
    expect_equal(&rt, &token, &empty, true, "without its comment");
}

// Whether two tokens without their comments are equal, their comments, and all with the places.
#[derive(Clone, Copy)]
struct Equal {
    tokens: bool,
    comments: bool,
    all: bool,
}

const EQUAL: Equal = Equal {
    tokens: true,
    comments: true,
    all: true,
};

// Two texts of one token.
struct Pair {
    name: &'static str,
    first: &'static str,
    second: &'static str,
    equal: Equal,
}

static EQUALS: [Pair; 11] = [
    Pair {
        name: "same",
        first: r#"// a
, // t"#,
        second: r#"// a
, // t"#,
        equal: EQUAL,
    },
    Pair {
        name: "other trailing text",
        first: r#"// a
, // t"#,
        second: r#"// a
, // u"#,
        equal: Equal {
            comments: false,
            all: false,
            ..EQUAL
        },
    },
    Pair {
        name: "no trailing text",
        first: r#"// a
, // t"#,
        second: r#"// a
,"#,
        equal: Equal {
            comments: false,
            all: false,
            ..EQUAL
        },
    },
    Pair {
        name: "other leading line",
        first: r#"// a
, // t"#,
        second: r#"// b
, // t"#,
        equal: Equal {
            comments: false,
            all: false,
            ..EQUAL
        },
    },
    Pair {
        name: "no leading line",
        first: r#"// a
, // t"#,
        second: "    \n, // t",
        equal: Equal {
            comments: false,
            all: false,
            ..EQUAL
        },
    },
    Pair {
        name: "other place",
        first: r#"// a
, // t"#,
        second: r#"// a
 , // t"#,
        equal: Equal {
            all: false,
            ..EQUAL
        },
    },
    Pair {
        name: "other sign",
        first: r#"// a
, // t"#,
        second: r#"// a
; // t"#,
        equal: Equal {
            tokens: false,
            all: false,
            ..EQUAL
        },
    },
    Pair {
        name: "names",
        first: "a",
        second: "b",
        equal: Equal {
            tokens: false,
            all: false,
            ..EQUAL
        },
    },
    Pair {
        name: "numbers",
        first: "1",
        second: "2",
        equal: Equal {
            tokens: false,
            all: false,
            ..EQUAL
        },
    },
    Pair {
        name: "strings",
        first: r#""a""#,
        second: r#""b""#,
        equal: Equal {
            tokens: false,
            all: false,
            ..EQUAL
        },
    },
    Pair {
        name: "name and number",
        first: "a",
        second: "1",
        equal: Equal {
            tokens: false,
            all: false,
            ..EQUAL
        },
    },
];

fn expect_equality(
    rt: &impl Abort,
    a: &WrappedToken<'_>,
    b: &WrappedToken<'_>,
    want: Equal,
    name: &str,
) {
    let got = (a.token == b.token, a.comment == b.comment, a == b);
    let want = (want.tokens, want.comments, want.all);
    assert_eq!(rt; got, want, "{name}: {a} and {b}");
}

fn expect_equals(rt: &impl Abort, alloc: Global, row: &Pair) {
    let first = last_token(rt, alloc, row.first, 0);
    let second = last_token(rt, alloc, row.second, 0);
    expect_equality(rt, &first, &second, row.equal, row.name);
    expect_equality(rt, &second, &first, row.equal, row.name);
    let copy = first.clone().expect(rt, row.name);
    expect_equality(rt, &first, &copy, EQUAL, row.name);
    let span = Span {
        start: first.span.start,
        end: 99,
    };
    let longer = WrappedToken::new(copy.token, span, copy.comment);
    let elsewhere = Equal {
        all: false,
        ..EQUAL
    };
    expect_equality(rt, &first, &longer, elsewhere, row.name);
}

// Each token is equal to its clone, and not to one that ends at another place.
#[test]
fn equal_tokens(rt: HostRuntime) {
    for row in &EQUALS {
        expect_equals(&rt, rt.alloc(), row);
    }
}

#[test]
fn words_and_numbers_differ(rt: HostRuntime) {
    let word = String::from_str(rt.alloc(), "7").expect(&rt, "memory");
    let number = String::from_str(rt.alloc(), "7").expect(&rt, "memory");
    assert!(rt; Token::Identifier(word) != Token::Number(number));
}
