//! Comments and brackets around documents, and the cleaning of a text.
use super::*;
use cedar_policy_formatter::layout::{Document, render};
use cedar_policy_formatter::token::{Comment, Span};
use cedar_policy_formatter::utils::{
    add_brackets, add_comment, append_without_empty_lines, find_comment_at, find_string_at,
    remove_empty_lines,
};

fn expect_shown(rt: &impl Abort, alloc: Global, doc: &Document<'_>, want: &str, name: &str) {
    let mut out = String::new(alloc);
    render(alloc, doc, 80, &mut out).expect(rt, name);
    expect_text(rt, out.as_str(), want, name);
}

// The text `x` with a comment of these leading lines and this trailing text, what stands after it, and the layout.
struct Commented {
    name: &'static str,
    leading: &'static str,
    trailing: &'static str,
    next: &'static str,
    layout: &'static str,
}

static COMMENTED: [Commented; 3] = [
    Commented {
        name: "leading and trailing comment",
        leading: "// l",
        trailing: "// t",
        next: "",
        layout: r#"
// l
x // t
"#,
    },
    Commented {
        name: "two leading lines before a text",
        leading: r#"// a
// b"#,
        trailing: "",
        next: "y",
        layout: r#"
// a
// b
xy"#,
    },
    Commented {
        name: "no comment",
        leading: "",
        trailing: "",
        next: "y",
        layout: "xy",
    },
];

#[test]
fn comments_round_a_document(rt: HostRuntime) {
    let alloc = rt.alloc();
    for row in &COMMENTED {
        let comment = Comment::new(alloc, row.leading, row.trailing).expect(&rt, row.name);
        let (text, next) = (Document::Text("x"), Document::Text(row.next));
        let doc = add_comment(alloc, text, &comment, next).expect(&rt, row.name);
        expect_shown(&rt, alloc, &doc, row.layout, row.name);
    }
}

#[test]
fn brackets_round_a_document(rt: HostRuntime) {
    let alloc = rt.alloc();
    let name = "brackets";
    let inner = Document::Hard
        .append(alloc, Document::Text("a"))
        .expect(&rt, name);
    let doc = add_brackets(alloc, inner, Document::Text("("), Document::Text(")"), 2);
    expect_shown(&rt, alloc, &doc.expect(&rt, name), "(\n  a)", name);
}

// A text before and after its cleaning.
struct Cleaned {
    name: &'static str,
    text: &'static str,
    cleaned: &'static str,
}

static CLEANED: [Cleaned; 10] = [
    Cleaned {
        name: "empty text",
        text: "",
        cleaned: "",
    },
    Cleaned {
        name: "empty lines between and at the end",
        text: r#"a

 b
"#,
        cleaned: r#"a
 b"#,
    },
    Cleaned {
        name: "lines of blanks",
        text: "\"x\" \n \n y",
        cleaned: "\"x\" \n y",
    },
    Cleaned {
        name: "quote in a comment before a string with an empty line",
        text: r#"// "a

"b

c""#,
        cleaned: r#"// "a
"b

c""#,
    },
    Cleaned {
        name: "empty lines at the start",
        text: r#"

a"#,
        cleaned: "a",
    },
    Cleaned {
        name: "line with a no-break space",
        text: "a\n\u{a0}\nb",
        cleaned: r#"a
b"#,
    },
    Cleaned {
        name: "empty lines around comments",
        text: r#"a


// c

// d

b"#,
        cleaned: r#"a
// c
// d
b"#,
    },
    Cleaned {
        name: "slashes in a string, and a lone quote",
        text: r#""a

//b" "c"#,
        cleaned: r#""a

//b" "c"#,
    },
    Cleaned {
        name: "carriage return in a comment",
        text: "a // b\r\n\r\nc",
        cleaned: "a // b\r\nc",
    },
    Cleaned {
        name: "empty line in a string and outside",
        text: r#"a

"b

"

c"#,
        cleaned: r#"a
"b

"
c"#,
    },
];

#[test]
fn blank_lines_are_removed(rt: HostRuntime) {
    for row in &CLEANED {
        let got = remove_empty_lines(rt.alloc(), row.text).expect(&rt, row.name);
        expect_text(&rt, got.as_str(), row.cleaned, row.name);
    }
}

#[test]
fn cleaned_texts_are_appended(rt: HostRuntime) {
    let mut out = String::from_str(rt.alloc(), "\n\n").expect(&rt, "memory");
    append_without_empty_lines("\n\na\n\n b\n", &mut out).expect(&rt, "memory");
    append_without_empty_lines(" c ", &mut out).expect(&rt, "memory");
    expect_text(&rt, out.as_str(), "\n\na\n bc", "appended");
}

// A text, where the search begins, and what it finds.
struct Search {
    name: &'static str,
    text: &'static str,
    begin: usize,
    found: Option<Span>,
}

static COMMENTS_FOUND: [Search; 6] = [
    Search {
        name: "comment up to a carriage return",
        text: "a//b\rc",
        begin: 0,
        found: Some(Span { start: 1, end: 4 }),
    },
    Search {
        name: "comment that began before",
        text: "a//b\rc",
        begin: 2,
        found: None,
    },
    Search {
        name: "comment on the next line",
        text: r#"a//b
//c"#,
        begin: 2,
        found: Some(Span { start: 5, end: 8 }),
    },
    Search {
        name: "slashes after a quote",
        text: r#""//""#,
        begin: 0,
        found: Some(Span { start: 1, end: 4 }),
    },
    Search {
        name: "lone slash",
        text: "a / b",
        begin: 0,
        found: None,
    },
    Search {
        name: "search past the end",
        text: "a",
        begin: 5,
        found: None,
    },
];

static STRINGS_FOUND: [Search; 7] = [
    Search {
        name: "string that begins in another",
        text: r#""a"b""#,
        begin: 1,
        found: Some(Span { start: 2, end: 5 }),
    },
    Search {
        name: "lone quote",
        text: r#""a"b""#,
        begin: 3,
        found: None,
    },
    Search {
        name: "string after slashes",
        text: r#"// "a""#,
        begin: 0,
        found: Some(Span { start: 3, end: 6 }),
    },
    Search {
        name: "quote after a backslash",
        text: r#""a\"b""#,
        begin: 0,
        found: Some(Span { start: 0, end: 6 }),
    },
    Search {
        name: "line feed after a backslash",
        text: r#""a\
"b""#,
        begin: 0,
        found: Some(Span { start: 4, end: 7 }),
    },
    Search {
        name: "characters of two bytes",
        text: r#"é"é""#,
        begin: 0,
        found: Some(Span { start: 2, end: 6 }),
    },
    Search {
        name: "no quote",
        text: "ab",
        begin: 0,
        found: None,
    },
];

#[test]
fn comments_and_strings_are_found(rt: HostRuntime) {
    for row in &COMMENTS_FOUND {
        let got = find_comment_at(row.text, row.begin);
        assert_eq!(rt; got, row.found, "{}", row.name);
    }
    for row in &STRINGS_FOUND {
        let got = find_string_at(row.text, row.begin);
        assert_eq!(rt; got, row.found, "{}", row.name);
    }
}
