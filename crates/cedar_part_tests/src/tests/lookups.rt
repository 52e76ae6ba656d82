//! Lookups over the tokens of a text.
ghost use Rattle.std.specs.Prelude.{◌≡◌, ◌+◌, ◌<◌, ◌≤◌, length};
ghost use Rattle.cedar_layout.specs.Lookups.{AreInOrder, CountsSteps};

use super::*;
use cedar_policy_formatter::layout::Steps;
use cedar_policy_formatter::lexer::get_token_stream;
use cedar_policy_formatter::token::{Comment, Span, WrappedToken};
use cedar_policy_formatter::utils::{
    get_comment_after_end, get_comment_after_end_counted, get_comment_at_end,
    get_comment_at_end_counted, get_comment_at_start, get_comment_at_start_counted,
    get_comment_in_range, get_comment_in_range_counted, get_leading_comment_at_start,
    get_leading_comment_at_start_counted, in_order,
};
use std::marker::Brand;
use std::sync::ledger::{Blank, Ledger};

enum Lookup {
    AtStart,
    LinesAtStart,
    AtEnd,
    AfterEnd,
    InRange,
}

static LOOKUPS: [Lookup; 5] = [
    Lookup::AtStart,
    Lookup::LinesAtStart,
    Lookup::AtEnd,
    Lookup::AfterEnd,
    Lookup::InRange,
];

fn tokens<'a>(rt: &impl Abort, alloc: Global, text: &'a str) -> Vec<WrappedToken<'a>> {
    let stream = get_token_stream(alloc, text).expect(rt, text);
    let (tokens, _) = stream.expect(rt, text);
    tokens
}

fn append_text(rt: &impl Abort, out: &mut String, text: &str) {
    out.push_str(text).expect(rt, "memory");
}

// Appends lines, each with a `;`.
fn append_lines(rt: &impl Abort, out: &mut String, lines: &[&str]) {
    for line in lines {
        append_text(rt, out, line);
        append_text(rt, out, ";");
    }
}

// Appends a comment as `LINE;..|TRAILING `.
fn append_comment(rt: &impl Abort, out: &mut String, comment: &Comment<'_>) {
    append_lines(rt, out, comment.leading_comment());
    append_text(rt, out, "|");
    append_text(rt, out, comment.trailing_comment());
    append_text(rt, out, " ");
}

fn append_comments(rt: &impl Abort, out: &mut String, comments: &[Comment<'_>]) {
    for comment in comments {
        append_comment(rt, out, comment);
    }
}

fn append_found(rt: &impl Abort, out: &mut String, comment: Option<Comment<'_>>) {
    if let Some(comment) = comment {
        append_comment(rt, out, &comment);
    }
}

// The comment that a lookup of one comment answers.
fn comment_found<'src, L: Ledger>(
    lookup: &Lookup,
    span: Span,
    tokens: &mut [WrappedToken<'src>],
    steps: &mut Steps<L>,
) -> Option<Comment<'src>>
    requires { AreInOrder tokens.old }
    ensures { CountsSteps (length tokens.old) steps.old steps.new }
{
    match lookup {
        Lookup::AtStart => get_comment_at_start_counted(span, tokens, steps),
        Lookup::AtEnd => get_comment_at_end_counted(span, tokens, steps),
        _ => get_comment_after_end_counted(span, tokens, steps),
    }
}

// What a lookup answers; nothing where it names no token. It counts its steps.
fn counted_answer<L: Ledger>(
    rt: &impl Abort,
    alloc: Global,
    lookup: &Lookup,
    span: Span,
    tokens: &mut [WrappedToken<'_>],
    steps: &mut Steps<L>,
) -> String
    ensures { CountsSteps (length tokens.old) steps.old steps.new }
{
    assert!(rt; in_order(tokens));
    let mut out = String::new(alloc);
    match lookup {
        Lookup::LinesAtStart => {
            let lines = get_leading_comment_at_start_counted(span, tokens, steps);
            append_lines(rt, &mut out, &lines.unwrap_or(Vec::new(alloc)));
        }
        Lookup::InRange => {
            let comments = get_comment_in_range_counted(alloc, span, tokens, steps);
            append_comments(rt, &mut out, &comments.expect(rt, "memory"));
        }
        _ => append_found(rt, &mut out, comment_found(lookup, span, tokens, steps)),
    }
    out
}

// A lookup among no tokens, one, seven or eight, and the steps that it may take.
fn answer_among_few<L: Ledger>(
    rt: &impl Abort,
    alloc: Global,
    lookup: &Lookup,
    span: Span,
    tokens: &mut [WrappedToken<'_>],
    steps: &mut Steps<L>,
) -> String
    ensures none { length tokens.old ≡ 0 → steps.new ≡ steps.old }
    ensures least { 0 < length tokens.old → steps.old < steps.new }
    ensures one { length tokens.old ≡ 1 → steps.new ≤ steps.old + 2 }
    ensures seven { length tokens.old ≡ 7 → steps.new ≤ steps.old + 4 }
    ensures eight { length tokens.old ≡ 8 → steps.new ≤ steps.old + 5 }
{
    counted_answer(rt, alloc, lookup, span, tokens, steps)
}

// The same, from no steps on.
fn answer_from<L: Ledger>(
    rt: &impl Abort,
    alloc: Global,
    lookup: &Lookup,
    span: Span,
    tokens: &mut [WrappedToken<'_>],
    blank: Blank,
) -> String
    requires name { blank.name ≡ L.name }
    requires parts { blank.parts ≡ L.parts }
    requires some { 0 < L.parts }
{
    let mut steps: Steps<L> = Steps::new(blank);
    answer_among_few(rt, alloc, lookup, span, tokens, &mut steps)
}

fn answer(
    rt: &impl Abort,
    alloc: Global,
    lookup: &Lookup,
    span: Span,
    tokens: &mut [WrappedToken<'_>],
) -> String {
    answer_from::<Brand>(rt, alloc, lookup, span, tokens, Blank::new(1))
}

// A lookup with a span, and what it answers.
struct Asked {
    lookup: Lookup,
    start: usize,
    end: usize,
    answer: &'static str,
}

// Lookups in turn over the tokens of `a // t`, `// l`, `b`.
struct Turns {
    name: &'static str,
    asked: &'static [Asked],
}

static NAMED: [Turns; 3] = [
    Turns {
        name: "after the first token, and its end",
        asked: &[
            Asked {
                lookup: Lookup::AfterEnd,
                start: 0,
                end: 1,
                answer: "// l;| ",
            },
            Asked {
                lookup: Lookup::AfterEnd,
                start: 0,
                end: 1,
                answer: "| ",
            },
            Asked {
                lookup: Lookup::AtEnd,
                start: 0,
                end: 1,
                answer: "|// t ",
            },
        ],
    },
    Turns {
        name: "places of no token, and one comment for each",
        asked: &[
            Asked {
                lookup: Lookup::AtStart,
                start: 1,
                end: 2,
                answer: "",
            },
            Asked {
                lookup: Lookup::AfterEnd,
                start: 12,
                end: 13,
                answer: "",
            },
            Asked {
                lookup: Lookup::AtStart,
                start: 0,
                end: 9,
                answer: "|// t ",
            },
            Asked {
                lookup: Lookup::LinesAtStart,
                start: 1,
                end: 2,
                answer: "",
            },
            Asked {
                lookup: Lookup::LinesAtStart,
                start: 12,
                end: 13,
                answer: "// l;",
            },
            Asked {
                lookup: Lookup::AtEnd,
                start: 0,
                end: 13,
                answer: "| ",
            },
        ],
    },
    Turns {
        name: "ranges",
        asked: &[
            Asked {
                lookup: Lookup::InRange,
                start: 1,
                end: 12,
                answer: "",
            },
            Asked {
                lookup: Lookup::InRange,
                start: 0,
                end: 0,
                answer: "",
            },
            Asked {
                lookup: Lookup::InRange,
                start: 13,
                end: 20,
                answer: "",
            },
            Asked {
                lookup: Lookup::InRange,
                start: 0,
                end: 13,
                answer: "|// t // l;| ",
            },
            Asked {
                lookup: Lookup::AtStart,
                start: 12,
                end: 13,
                answer: "| ",
            },
        ],
    },
];

fn expect_turns(rt: &impl Abort, alloc: Global, turns: &Turns) {
    let mut tokens = tokens(rt, alloc, "a // t\n// l\nb");
    for asked in turns.asked {
        let span = Span {
            start: asked.start,
            end: asked.end,
        };
        let got = answer(rt, alloc, &asked.lookup, span, &mut tokens);
        expect_text(rt, got.as_str(), asked.answer, turns.name);
    }
}

#[test]
fn named_tokens(rt: HostRuntime) {
    for turns in &NAMED {
        expect_turns(&rt, rt.alloc(), turns);
    }
}

// Whether a token's place is the one that a lookup names.
fn is_named(lookup: &Lookup, span: Span, own: Span) -> bool {
    match lookup {
        Lookup::AtStart | Lookup::LinesAtStart => own.start == span.start,
        Lookup::AtEnd => own.end == span.end,
        Lookup::AfterEnd => own.start >= span.end,
        Lookup::InRange => span.start <= own.start && own.end <= span.end,
    }
}

// What a lookup has to answer, by a scan that takes the comments out of the tokens.
fn scanned(
    rt: &impl Abort,
    alloc: Global,
    lookup: &Lookup,
    span: Span,
    tokens: &mut [WrappedToken<'_>],
) -> String {
    let mut out = String::new(alloc);
    for token in tokens.iter_mut() {
        if !is_named(lookup, span, token.span) {
            continue;
        }
        if matches!(lookup, Lookup::LinesAtStart) {
            append_lines(rt, &mut out, &token.consume_leading_comment());
            return out;
        }
        append_comment(rt, &mut out, &token.consume_comment());
        if !matches!(lookup, Lookup::InRange) {
            return out;
        }
    }
    out
}

// A lookup and a scan answer alike and leave the same tokens.
fn expect_scanned(
    rt: &impl Abort,
    alloc: Global,
    lookup: &Lookup,
    span: Span,
    text: &str,
    name: &str,
) {
    let mut left = tokens(rt, alloc, text);
    let got = answer(rt, alloc, lookup, span, &mut left);
    let mut wanted = tokens(rt, alloc, text);
    let want = scanned(rt, alloc, lookup, span, &mut wanted);
    expect_text(rt, got.as_str(), want.as_str(), name);
    assert!(rt; left == wanted, "{name}: {span:?}");
}

struct Searched {
    name: &'static str,
    text: &'static str,
}

static SCANNED: [Searched; 4] = [
    Searched {
        name: "no token",
        text: "",
    },
    Searched {
        name: "one token",
        text: " a ",
    },
    Searched {
        name: "seven tokens",
        text: r#"// l
ab // t
// m
,;(== // t
)
// n
b"#,
    },
    Searched {
        name: "eight tokens",
        text: r#"a // 1
.b // 2
.c // 3
.d // 4
;"#,
    },
];

// Each lookup with each span that lies in the text, and of ends one past it.
#[test]
fn against_scans(rt: HostRuntime) {
    for row in &SCANNED {
        let text = row.text;
        for start in 0..text.len() + 2 {
            for end in start..text.len() + 2 {
                for lookup in &LOOKUPS {
                    let span = Span { start, end };
                    expect_scanned(&rt, rt.alloc(), lookup, span, text, row.name);
                }
            }
        }
    }
}

#[test]
fn order(rt: HostRuntime) {
    let mut tokens = tokens(&rt, rt.alloc(), "a b");
    assert!(rt; in_order(&tokens));
    tokens.reverse();
    assert!(rt; !in_order(&tokens));
    for token in tokens.iter_mut() {
        token.span = Span { start: 3, end: 3 };
    }
    assert!(rt; !in_order(&tokens));
    assert!(rt; in_order(&[]));
}

fn is_empty(comment: Comment<'_>) -> bool {
    comment.leading_comment().is_empty() && comment.trailing_comment().is_empty()
}

// Each lookup with each token's own span: it finds the token, or the next one, and no comment.
fn expect_empty(rt: &impl Abort, alloc: Global, tokens: &mut [WrappedToken<'_>]) {
    assert!(rt; in_order(tokens));
    let count = tokens.len();
    for at in 0..count {
        let own = Span {
            start: at,
            end: at + 1,
        };
        let at_start = get_comment_at_start(own, tokens).map(is_empty);
        expect_same(rt, at_start, Some(true), "at start");
        let lines = get_leading_comment_at_start(own, tokens).map(|lines| lines.is_empty());
        expect_same(rt, lines, Some(true), "lines at start");
        let at_end = get_comment_at_end(own, tokens).map(is_empty);
        expect_same(rt, at_end, Some(true), "at end");
        let after = get_comment_after_end(own, tokens).map(is_empty);
        expect_same(rt, after, (at + 1 < count).then_some(true), "after end");
        let mut range = get_comment_in_range(alloc, own, tokens).expect(rt, "memory");
        let only = range.pop().map(is_empty);
        expect_same(rt, only, Some(range.is_empty()), "in range");
    }
}

// A scan after the stated steps needs hours here.
#[test]
fn many_tokens(rt: HostRuntime) {
    let text = joined(rt.alloc(), &[Times(500_000, ";")]).expect(&rt, "the text");
    let mut tokens = tokens(&rt, rt.alloc(), text.as_str());
    expect_empty(&rt, rt.alloc(), &mut tokens);
}
