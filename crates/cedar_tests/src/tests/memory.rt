//! Out of memory: to be run with each allocation refused in turn. The answer is then out of memory or the row's.
//! `tests/memory` runs the proved tests so, and `./fail-alloc` those that aren't proved yet.
use super::devices::{Sink, Source};
use super::program::{CALL, Call};
use super::*;
use cedar_policy_formatter::doc::Doc;
use cedar_policy_formatter::layout::{Document, render};
use cedar_policy_formatter::lexer::{TokenReader, drop_trailing_commas, get_token_stream};
use cedar_policy_formatter::token::{Comment, Span, WrappedToken};
use cedar_policy_formatter::utils::{get_comment_in_range, in_order};
use cedar_policy_formatter::{Context, Watched, is_formatted, same_layout, soundness_check};
use cedar_program::run_words;
use std::io::ErrorKind;
use std::rt::Files;

// In full, so that the test itself takes no memory for them.
static FULL: [Row; 7] = [
    Row {
        name: "comment before an operator",
        text: r#"permit(principal,action,resource)when{"a"
// c
== "b"};"#,
        layout: "permit (principal, action, resource)\nwhen\n{\n  \"a\" \n  // c\n  == \"b\"\n};\n",
        ..ROW
    },
    Row {
        name: "record, list and is in",
        text: r#"permit(principal,action,resource)when{{a:1,"b":[2,-3]}==context&&principal is A::B in A::"c"};"#,
        layout: r#"permit (principal, action, resource)
when { { a: 1, "b": [2, -3] } == context && principal is A::B in A::"c" };
"#,
        ..ROW
    },
    Row {
        name: "comments in an argument",
        text: r#"permit(principal,action,resource)when{f(1 // x
// y
)};"#,
        layout: r#"permit (principal, action, resource)
when
{
  f(
      1 // x
    // y
    )
};
"#,
        ..ROW
    },
    Row {
        name: "trailing, leading and closing comments",
        text: r#"permit(principal,action,resource); // t
// l
permit(principal,action,resource);
// e"#,
        layout: r#"permit (principal, action, resource); // t

// l
permit (principal, action, resource);
// e
"#,
        ..ROW
    },
    Row {
        name: "comment after a trailing comma",
        text: r#"permit(principal,action,resource, // r
);"#,
        layout: r#"permit (principal, action, resource // r
  );
"#,
        ..ROW
    },
    Row {
        name: "comments around a trailing comma",
        text: r#"permit(principal,action,resource // a
// b
, // c
// d
);"#,
        layout: r#"permit (principal, action, resource // a
// b
// c
// d
);
"#,
        ..ROW
    },
    Row {
        name: "comments around a trailing comma in a list",
        text: r#"permit(principal,action,resource)when{[1 // a
, // b
]};"#,
        layout: r#"permit (principal, action, resource)
when
{
  [1 // a
  // b
  ]
};
"#,
        ..ROW
    },
];

// The answer is yes, or out of memory.
fn expect_yes(rt: &impl Abort, got: Result<bool, FormatError>, name: &str) {
    if got.err() != Some(FormatError::OutOfMemory) {
        expect_told(rt, got, Ok(true), name);
    }
}

fn lays_out(alloc: Global, text: &str, want: &str) -> Result<bool, FormatError> {
    let got = policies_str_to_pretty(alloc, text, &Config::default())?;
    Ok(got.as_str() == want)
}

fn is_sound(alloc: Global, text: &str, want: &str) -> Result<bool, FormatError> {
    let tree = parse_policies(alloc, text)?;
    soundness_check(alloc, want, &tree)?;
    Ok(true)
}

#[test]
fn layouts_without_memory(rt: HostRuntime) {
    let config = Config::default();
    for row in &FULL {
        let (name, text, layout) = (row.name, row.text, row.layout);
        expect_yes(&rt, lays_out(rt.alloc(), text, layout), name);
        expect_yes(&rt, is_sound(rt.alloc(), text, layout), name);
        expect_yes(&rt, is_formatted(rt.alloc(), layout, &config), name);
        expect_yes(&rt, same_layout(rt.alloc(), text, layout, &config), name);
    }
}

// A text, and its refusal if it is refused.
struct Answer {
    name: &'static str,
    text: &'static str,
    refusal: Option<FormatError>,
}

static ANSWERS: [Answer; 6] = [
    Answer {
        name: "trailing comma and a comment",
        text: r#"permit(principal,action in [A::"x",],resource)when{"a"
// c
== "b"};"#,
        refusal: None,
    },
    Answer {
        name: "annotation, record and list",
        text: r#"@id("x")permit(principal,action,resource)when{{a:1,"b":[2,-3]}==context&&principal is A::B in A::"c"};"#,
        refusal: None,
    },
    Answer {
        name: "if, calls and operators",
        text: "permit(principal,action,resource)unless{if f(1||2,1)then(true)else context.a()*2+3};",
        refusal: None,
    },
    Answer {
        name: "two trailing commas in a list",
        text: "permit(principal,action,resource)when{[1,,]};",
        refusal: Some(FormatError::Grammar { at: 41 }),
    },
    Answer {
        name: "number too large",
        text: "permit(principal,action,resource)when{18446744073709551616};",
        refusal: Some(FormatError::NumberTooLarge { at: 38 }),
    },
    Answer {
        name: "unknown character",
        text: "permit(principal,action,resource)when{=};",
        refusal: Some(FormatError::UnknownCharacter { at: 38 }),
    },
];

#[test]
fn answers_without_memory(rt: HostRuntime) {
    for row in &ANSWERS {
        let got = parse_policies(rt.alloc(), row.text).err();
        if got != Some(FormatError::OutOfMemory) {
            expect_refusal(&rt, got, row.refusal, row.name);
        }
    }
}

// A text, how many tokens it has, and how many of these are trailing commas.
struct List {
    name: &'static str,
    text: &'static str,
    tokens: usize,
    commas: usize,
}

static LISTS: [List; 9] = [
    List {
        name: "comment before an operator",
        text: r#"permit(principal,action,resource)when{"a"
// c
== "b"};"#,
        tokens: 15,
        commas: 0,
    },
    List {
        name: "record, list and is in",
        text: r#"permit(principal,action,resource)when{{a:1,"b":[2,-3]}==context&&principal is A::B in A::"c"};"#,
        tokens: 38,
        commas: 0,
    },
    List {
        name: "comments in an argument",
        text: r#"permit(principal,action,resource)when{f(1 // x
// y
)};"#,
        tokens: 16,
        commas: 0,
    },
    List {
        name: "trailing, leading and closing comments",
        text: r#"permit(principal,action,resource); // t
// l
permit(principal,action,resource);
// e"#,
        tokens: 18,
        commas: 0,
    },
    List {
        name: "comments around a trailing comma",
        text: r#"permit(principal,action,resource // a
// b
, // c
// d
);"#,
        tokens: 10,
        commas: 1,
    },
    List {
        name: "comments around a trailing comma in a list",
        text: r#"[1 // a
, // b
]"#,
        tokens: 4,
        commas: 1,
    },
    List {
        name: "comments in a chain of accesses",
        text: r#"a // 1
.b // 2
// 3
.c"#,
        tokens: 5,
        commas: 0,
    },
    List {
        name: "one token",
        text: "a",
        tokens: 1,
        commas: 0,
    },
    List {
        name: "no token",
        text: "",
        tokens: 0,
        commas: 0,
    },
];

// Whether the comments are those of the tokens, one for each.
fn are_comments_of(found: &[Comment<'_>], tokens: &[WrappedToken<'_>]) -> bool {
    found.len() == tokens.len() && found.iter().zip(tokens).all(|(x, y)| *x == y.comment)
}

// Whether a text has so many tokens, and all their comments are taken; or out of memory, after which they are where they
// were.
fn takes_comments(
    rt: &impl Abort,
    alloc: Global,
    text: &str,
    count: usize,
) -> Result<bool, FormatError> {
    let Some((mut tokens, _)) = get_token_stream(alloc, text)? else {
        return Ok(false);
    };
    let before = tokens.clone()?;
    assert!(rt; in_order(&tokens));
    let whole = Span {
        start: 0,
        end: text.len(),
    };
    match get_comment_in_range(alloc, whole, &mut tokens) {
        Ok(found) => Ok(tokens.len() == count && are_comments_of(&found, &before)),
        Err(error) if tokens == before => Err(FormatError::from(error)),
        Err(_) => Ok(false),
    }
}

// Whether so many of a text's tokens are left without trailing commas; or out of memory, after which all are as they were.
fn drops_commas(alloc: Global, text: &str, left: usize) -> Result<bool, FormatError> {
    let Some((mut tokens, _)) = get_token_stream(alloc, text)? else {
        return Ok(false);
    };
    let before = tokens.clone()?;
    match drop_trailing_commas(alloc, &mut tokens) {
        Ok(()) => Ok(tokens.len() == left),
        Err(error) if tokens == before => Err(FormatError::from(error)),
        Err(_) => Ok(false),
    }
}

// Whether a reader gives so many tokens. A call that finds no memory is made again, and the reader then goes on where it was.
fn reads_tokens(alloc: Global, text: &str, count: usize) -> bool {
    let Some(mut reader) = TokenReader::new(text) else {
        return false;
    };
    let mut given = 0_usize;
    for _ in 0..count.saturating_add(2) {
        if let Ok(Some(_)) = reader.next(alloc) {
            given = given.saturating_add(1);
        }
    }
    given == count
}

#[test]
fn lists_without_memory(rt: HostRuntime) {
    for row in &LISTS {
        let (name, text, count) = (row.name, row.text, row.tokens);
        let left = count.saturating_sub(row.commas);
        expect_yes(&rt, takes_comments(&rt, rt.alloc(), text, count), name);
        expect_yes(&rt, drops_commas(rt.alloc(), text, left), name);
        expect_yes(&rt, Ok(reads_tokens(rt.alloc(), text, count)), name);
    }
}

// A text, and what the documents of its policies, taken in order, are rendered to.
struct Rendered {
    name: &'static str,
    text: &'static str,
    layouts: &'static [&'static str],
}

static RENDERED: [Rendered; 5] = [
    Rendered {
        name: "bare policy",
        text: "permit(principal,action,resource);",
        layouts: &["permit (principal, action, resource);"],
    },
    Rendered {
        name: "comment before an operator",
        text: r#"permit(principal,action,resource)when{"a"
// c
== "b"};"#,
        layouts: &[
            "permit (principal, action, resource)\nwhen\n{\n  \"a\" \n  // c\n  == \"b\"\n};",
        ],
    },
    Rendered {
        name: "record, list and is in",
        text: r#"permit(principal,action,resource)when{{a:1,"b":[2,-3]}==context&&principal is A::B in A::"c"};"#,
        layouts: &[
            r#"permit (principal, action, resource)
when { { a: 1, "b": [2, -3] } == context && principal is A::B in A::"c" };"#,
        ],
    },
    Rendered {
        name: "comments in an argument",
        text: r#"permit(principal,action,resource)when{f(1 // x
// y
)};"#,
        layouts: &[
            "permit (principal, action, resource)\nwhen\n{\n  f(\n      1 // x\n      \n    \n    // y\n    )\n};",
        ],
    },
    Rendered {
        name: "trailing, leading and closing comments",
        text: r#"permit(principal,action,resource); // t
// l
permit(principal,action,resource);
// e"#,
        layouts: &[
            r#"permit (principal, action, resource); // t
"#,
            r#"
// l
permit (principal, action, resource);"#,
        ],
    },
];

// Whether a document is rendered so; or out of memory, after which nothing was appended.
fn renders(alloc: Global, doc: &Document<'_>, want: &str) -> Result<bool, FormatError> {
    let mut out = String::from_str(alloc, "x")?;
    match render(alloc, doc, Config::default().line_width, &mut out) {
        Ok(()) => Ok(out.as_str().strip_prefix("x") == Some(want)),
        Err(error) if out.as_str() == "x" => Err(FormatError::from(error)),
        Err(_) => Ok(false),
    }
}

// Whether the documents of a text's policies are rendered so; or out of memory.
fn renders_all(
    rt: &impl Abort,
    alloc: Global,
    text: &str,
    wants: &[&str],
) -> Result<bool, FormatError> {
    let tree = parse_policies(alloc, text)?;
    let Some((tokens, _)) = get_token_stream(alloc, text)? else {
        return Ok(false);
    };
    let config = Config::default();
    let mut context = Context {
        config: &config,
        tokens,
    };
    for (policy, want) in tree.policies.iter().zip(wants) {
        assert!(rt; in_order(&context.tokens));
        let doc = policy.to_doc(alloc, &mut context)?.expect(rt, want);
        if !renders(alloc, &doc, want)? {
            return Ok(false);
        }
    }
    Ok(tree.policies.len() == wants.len())
}

#[test]
fn renderings_without_memory(rt: HostRuntime) {
    for row in &RENDERED {
        let got = renders_all(&rt, rt.alloc(), row.text, row.layouts);
        expect_yes(&rt, got, row.name);
    }
}

// Of a text that is clap's own only a piece.
static CALLS: [Call; 7] = [
    Call {
        name: "formats",
        output: r#"permit (principal, action, resource);
"#,
        ..CALL
    },
    Call {
        name: "at a width and an indentation",
        words: &["cedar", "format", "--line-width", "36", "-i", "4"],
        output: r#"permit
(principal, action, resource);
"#,
        ..CALL
    },
    Call {
        name: "checks",
        words: &["cedar", "format", "--check"],
        status: 3,
        ..CALL
    },
    Call {
        name: "no file",
        words: &["cedar", "format", "-p", "none.cedar"],
        errors: r#"cedar: cannot read none.cedar
"#,
        status: 1,
        ..CALL
    },
    Call {
        name: "no number",
        words: &["cedar", "format", "-i", "70000"],
        errors: "70000",
        status: 2,
        ..CALL
    },
    Call {
        name: "no command",
        words: &["cedar", "other"],
        errors: "other",
        status: 2,
        ..CALL
    },
    Call {
        name: "help",
        words: &["cedar", "format", "--help"],
        output: "[default: 80]",
        ..CALL
    },
];

fn holds_piece(bytes: &[u8], piece: &str) -> bool {
    match str::from_utf8(bytes) {
        Ok(text) if piece.is_empty() => text.is_empty(),
        Ok(text) => text.contains(piece),
        Err(_) => false,
    }
}

// Whether the program writes so and ends so; or out of memory, reported on the standard error alone.
fn runs<R: Files + AllocGlobal>(rt: &R, call: &Call) -> Result<bool, FormatError> {
    let alloc = rt.alloc();
    let words = words_of(alloc, call.words)?;
    // (the streams themselves take no memory then)
    let mut output = Vec::with_capacity(alloc, 4096)?;
    let mut errors = Vec::with_capacity(alloc, 4096)?;
    let reader = Source::new(call.input, usize::MAX, 0);
    let mut writer = Watched::new(Sink::new(&mut output, usize::MAX, 0, ErrorKind::Other));
    let mut teller = Sink::new(&mut errors, usize::MAX, 0, ErrorKind::Other);
    let status = run_words(rt, words.as_slice(), reader, &mut writer, &mut teller);
    if errors.as_slice() == b"cedar: out of memory\n".as_slice()
        && status == 1
        && output.is_empty()
    {
        return Err(FormatError::OutOfMemory);
    }
    let is_told = holds_piece(&output, call.output) && holds_piece(&errors, call.errors);
    Ok(is_told && status == call.status)
}

#[test]
fn words_without_memory(rt: HostRuntime) {
    for call in &CALLS {
        expect_yes(&rt, runs(&rt, call), call.name);
    }
}
