//! Layouts are laid out as they are, at many widths and indentations.
use super::samples::{COMMENTS, CONDITIONS, ENDS, SCOPES, Sample, WIDTHS};
use super::*;
use cedar_policy_formatter::lexer::{drop_trailing_commas, get_token_stream};
use cedar_policy_formatter::token::{Token, WrappedToken};

// Equal tokens; two numbers of one value.
fn same_value(a: &Token, b: &Token) -> bool {
    match (a, b) {
        (Token::Number(x), Token::Number(y)) => {
            x.as_str().trim_start_matches('0') == y.as_str().trim_start_matches('0')
        }
        _ => a == b,
    }
}

fn same_tokens(a: &[WrappedToken<'_>], b: &[WrappedToken<'_>]) -> bool {
    a.len() == b.len()
        && a.iter().zip(b).all(|(x, y)| same_value(&x.token, &y.token) && x.comment == y.comment)
}

// Whether the tokens of `a` without trailing commas are those of `b`, with their comments, and the closing comments too.
fn same_list(rt: &impl Abort, alloc: Global, a: &str, b: &str) -> bool {
    let stream = get_token_stream(alloc, a).expect(rt, a);
    let (mut tokens, closing) = stream.expect(rt, a);
    let stream = get_token_stream(alloc, b).expect(rt, b);
    let (others, ending) = stream.expect(rt, b);
    drop_trailing_commas(alloc, &mut tokens).expect(rt, a);
    let lines: Vec<&str> = closing.collect(alloc).expect(rt, a);
    let ends: Vec<&str> = ending.collect(alloc).expect(rt, b);
    same_tokens(&tokens, &others) && lines == ends
}

fn expect_kept(
    rt: &impl Abort,
    is_kept: bool,
    name: &str,
    text: &str,
    first: &str,
    config: &Config,
) {
    assert!(rt; is_kept, "{name}: {text:?} at {config:?} gives {first:?}");
}

// The text's layout is of the same list, and is laid out as it is.
fn expect_stable(rt: &impl Abort, alloc: Global, name: &str, text: &str, config: &Config) {
    let layout = policies_str_to_pretty(alloc, text, config).expect(rt, name);
    let first = layout.as_str();
    let is_kept = same_list(rt, alloc, text, first);
    expect_kept(rt, is_kept, name, text, first, config);
    let again = policies_str_to_pretty(alloc, first, config).expect(rt, name);
    let is_kept = again.as_str() == first;
    expect_kept(rt, is_kept, name, text, first, config);
}

// Every width up to 90 and every indentation from -1 to 4.
fn sweep(rt: &impl Abort, alloc: Global, name: &str, text: &str) {
    for indent in -1..5 {
        for width in 0..91 {
            expect_stable(rt, alloc, name, text, &config(width, indent));
        }
    }
}

fn sweep_samples(rt: &impl Abort, alloc: Global, samples: &[Sample]) {
    for sample in samples {
        sweep(rt, alloc, sample.name, sample.text);
    }
}

#[test]
fn ends_at_every_width(rt: HostRuntime) {
    sweep_samples(&rt, rt.alloc(), &ENDS);
}

#[test]
fn scopes_at_every_width(rt: HostRuntime) {
    sweep_samples(&rt, rt.alloc(), &SCOPES);
}

#[test]
fn comments_at_every_width(rt: HostRuntime) {
    sweep_samples(&rt, rt.alloc(), &COMMENTS);
}

#[test]
fn conditions_at_every_width(rt: HostRuntime) {
    sweep_samples(&rt, rt.alloc(), &CONDITIONS);
}

#[test]
fn widths_at_every_width(rt: HostRuntime) {
    sweep_samples(&rt, rt.alloc(), &WIDTHS);
}

struct Accepted {
    name: &'static str,
    text: &'static str,
}

// Accepted texts of worked examples that other calls answer: of trees, of checks, of single documents, of comparing.
static OTHERS: [Accepted; 17] = [
    Accepted {
        name: "list",
        text: "permit(principal,action,resource)when{[1,2]};",
    },
    Accepted {
        name: "record",
        text: "permit(principal,action,resource)when{{a:1}};",
    },
    Accepted {
        name: "comment in brackets",
        text: r#"permit(principal,action,resource)when{(true // c
)};"#,
    },
    Accepted {
        name: "brackets",
        text: "permit(principal,action,resource)when{(true)};",
    },
    Accepted {
        name: "number with zeros in front",
        text: "permit(principal,action,resource)when{007};",
    },
    Accepted {
        name: "number with one zero in front",
        text: "permit(principal,action,resource)when{7==07};",
    },
    Accepted {
        name: "number with two zeros in front",
        text: "permit(principal,action,resource)when{7==007};",
    },
    Accepted {
        name: "comment on the line after a policy",
        text: r#"permit(principal,action,resource);
// t"#,
    },
    Accepted {
        name: "principal in a slot",
        text: "permit(principal in ?principal,action,resource);",
    },
    Accepted {
        name: "principal that equals a slot",
        text: "permit(principal == ?principal,action,resource);",
    },
    Accepted {
        name: "trailing comma in a scope",
        text: r#"permit (principal, action, resource,);
"#,
    },
    Accepted {
        name: "string with lines of blanks",
        text: "permit (principal, action, resource)\n        when { \"\n        \n        a\n        \" };",
    },
    Accepted {
        name: "string of several lines",
        text: r#"permit (principal, action, resource)
        when { "
        a
        " };"#,
    },
    Accepted {
        name: "two policies, the second with empty lines in a string",
        text: r#"permit (principal, action, resource)
when { "a"};
permit (principal, action, resource)
when { "

a
" };"#,
    },
    Accepted {
        name: "two policies, the first with lines in a string",
        text: r#"permit (principal, action, resource)
when { "
a
" };
permit (principal, action, resource)
when { "a"};"#,
    },
    Accepted {
        name: "blanks before a closing brace",
        text: r#"permit (principal, action, resource)
when { "a"   };
permit (principal, action, resource)
when { "b" };"#,
    },
    Accepted {
        name: "no blank before the last closing brace",
        text: r#"permit (principal, action, resource)
when { "a" };
permit (principal, action, resource)
when { "b"};"#,
    },
];

#[test]
fn others_at_every_width(rt: HostRuntime) {
    for row in &OTHERS {
        sweep(&rt, rt.alloc(), row.name, row.text);
    }
}

// A text that is as deep as one may be, in parts.
struct Deepest {
    name: &'static str,
    parts: &'static [Part],
}

static DEEPEST: [Deepest; 2] = [
    Deepest {
        name: "128 brackets",
        parts: &[
            Once("permit(principal,action,resource)when{"),
            Times(128, "("),
            Once("true"),
            Times(128, ")"),
            Once("};"),
        ],
    },
    Deepest {
        name: "index in 128 brackets",
        parts: &[
            Once("permit(principal,action,resource)when{"),
            Times(128, "("),
            Once(r#"principal["x"]"#),
            Times(128, ")"),
            Once("};"),
        ],
    },
];

#[test]
fn deepest_texts(rt: HostRuntime) {
    for row in &DEEPEST {
        let text = joined(rt.alloc(), row.parts).expect(&rt, row.name);
        sweep(&rt, rt.alloc(), row.name, text.as_str());
    }
}

// Each beginning of these is refused as it is by the parser, or its layout is laid out as it is.
static BEGUN: [Accepted; 6] = [
    Accepted {
        name: "annotation",
        text: r#"@id("x")permit(principal,action,resource);"#,
    },
    Accepted {
        name: "comment before an operator",
        text: r#"permit(principal,action,resource)when{"a"
// c
== "b"};"#,
    },
    Accepted {
        name: "record, list and is in",
        text: r#"permit(principal,action,resource)when{{a:1,"b":[2,-3]}==context&&principal is A::B in A::"c"};"#,
    },
    Accepted {
        name: "comments in an argument",
        text: r#"permit(principal,action,resource)when{f(1 // x
// y
)};"#,
    },
    Accepted {
        name: "trailing, leading and closing comments",
        text: r#"permit(principal,action,resource); // t
// l
permit(principal,action,resource);
// e"#,
    },
    Accepted {
        name: "comments around a trailing comma",
        text: r#"permit(principal,action,resource // a
// b
, // c
// d
);"#,
    },
];

fn expect_beginning(rt: &impl Abort, alloc: Global, name: &str, begun: &str) {
    let config = Config::default();
    match parse_policies(alloc, begun).err() {
        None => expect_stable(rt, alloc, name, begun, &config),
        refusal => {
            let got = policies_str_to_pretty(alloc, begun, &config).err();
            expect_refusal(rt, got, refusal, begun);
        }
    }
}

fn expect_beginnings(rt: &impl Abort, alloc: Global, name: &str, text: &str) {
    for (end, _) in text.char_indices() {
        expect_beginning(rt, alloc, name, &text[..end]);
    }
}

#[test]
fn beginnings(rt: HostRuntime) {
    for row in &BEGUN {
        expect_beginnings(&rt, rt.alloc(), row.name, row.text);
    }
}
