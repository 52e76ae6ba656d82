//! Whether texts are formatted, or laid out alike.
use super::*;
use cedar_policy_formatter::{is_formatted, same_layout};

// A text, and whether it is formatted.
struct Formatted {
    name: &'static str,
    text: &'static str,
    answer: Result<bool, FormatError>,
}

static FORMATTED: [Formatted; 7] = [
    Formatted {
        name: "packed",
        text: "permit(principal,action,resource);",
        answer: Ok(false),
    },
    Formatted {
        name: "laid out but for the line feed",
        text: "permit (principal, action, resource);",
        answer: Ok(false),
    },
    Formatted {
        name: "laid out",
        text: r#"permit (principal, action, resource);
"#,
        answer: Ok(true),
    },
    Formatted {
        name: "trailing comma",
        text: r#"permit (principal, action, resource,);
"#,
        answer: Ok(false),
    },
    Formatted {
        name: "no semicolon",
        text: "permit (principal, action, resource)",
        answer: Err(FormatError::Grammar { at: 36 }),
    },
    Formatted {
        name: "empty text",
        text: "",
        answer: Ok(false),
    },
    Formatted {
        name: "only a line feed",
        text: "\n",
        answer: Ok(true),
    },
];

#[test]
fn formatted_texts(rt: HostRuntime) {
    for row in &FORMATTED {
        let got = is_formatted(rt.alloc(), row.text, &Config::default());
        expect_told(&rt, got, row.answer, row.name);
    }
}

// Two texts, and whether they have one layout.
struct Pair {
    name: &'static str,
    first: &'static str,
    second: &'static str,
    answer: Result<bool, FormatError>,
}

static ALIKE: [Pair; 6] = [
    Pair {
        name: "numbers of one value",
        first: "permit(principal,action,resource)when{007==7};",
        second: "permit(principal,action,resource)when{7==007};",
        answer: Ok(true),
    },
    Pair {
        name: "comment on the line and on the next one",
        first: "permit(principal,action,resource);// t",
        second: r#"permit(principal,action,resource);
// t"#,
        answer: Ok(false),
    },
    Pair {
        name: "permit and forbid",
        first: "permit(principal,action,resource);",
        second: "forbid(principal,action,resource);",
        answer: Ok(false),
    },
    Pair {
        name: "refused second text",
        first: "permit(principal,action,resource);",
        second: "permit(principal,action,resource);;",
        answer: Err(FormatError::Grammar { at: 34 }),
    },
    Pair {
        name: "two refused texts",
        first: "=",
        second: r#"""#,
        answer: Err(FormatError::UnknownCharacter { at: 0 }),
    },
    Pair {
        name: "trailing comma",
        first: "permit(principal,action,resource);",
        second: "permit(principal,action,resource,);",
        answer: Ok(true),
    },
];

#[test]
fn texts_laid_out_alike(rt: HostRuntime) {
    for row in &ALIKE {
        let got = same_layout(rt.alloc(), row.first, row.second, &Config::default());
        expect_told(&rt, got, row.answer, row.name);
    }
}
