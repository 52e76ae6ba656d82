//! What no clause says: worked edits, and that calls succeed with ample memory, for every range of some texts.
use cedar_policy_formatter::ranges::{Edit, apply_edits, format_range, format_text};
use cedar_policy_formatter::token::Span;
use cedar_policy_formatter::{Config, FormatError, policies_str_to_pretty, same_layout};
use std::alloc::Global;
use std::process::Abort;
use std::test::Fail;

// An edit: its span, and its text.
struct Put {
    span: (usize, usize),
    text: &'static str,
}

// The edits that are expected for a whole text.
struct WholeRow {
    name: &'static str,
    text: &'static str,
    edits: &'static [Put],
}

// The edits that are expected for a range of a text.
struct RangeRow {
    text: &'static str,
    range: (usize, usize),
    edits: &'static [Put],
}

// Two policies on one line: 34 bytes and a blank, then 34 bytes, a comment and a line feed.
const ONE_LINE: &str =
    "permit(principal,action,resource); forbid(principal,action,resource); // b\n";

// Three lines of 35 bytes.
const THREE: &str =
    "permit(principal,action,resource);\nforbid(principal,action,resource);\npermit(principal,action,resource);\n";

// Each policy with a line before it: 42 bytes and 42.
const LED: &str =
    "// one\npermit(principal,action,resource);\n// two\nforbid(principal,action,resource);\n";

const CLOSED: &str = "permit(principal,action,resource);\n// end\n";

const CRLF: &str = "permit(principal,action,resource);\r\nforbid(principal,action,resource);\r\n";

// Two policies as they are laid out, of 38 bytes each, with an empty line between.
const FORMATTED: &str =
    "permit (principal, action, resource);\n\nforbid (principal, action, resource);\n";

// A policy whose fourth line, the bytes 58 to 99, has no blanks around its sign.
const ONE_LINE_OFF: &str =
    "permit (principal, action, resource) // any action\nwhen\n{\n  resource.owner==principal && // theirs\n  !(resource has frozen)\n};\n";

// A policy of 35 bytes, one of 9 that is refused, and one of 35.
const REFUSED_BETWEEN: &str =
    "permit(principal,action,resource);\nforbid(;\npermit(principal,action,resource);\n";

// A policy of 63 bytes with a number that is too large, and one of 35.
const LARGE_NUMBER: &str =
    "permit(principal,action,resource)when{1<99999999999999999999};\npermit(principal,action,resource);\n";

// A policy, and a character that begins no token.
const UNREADABLE: &str =
    "permit(principal,action,resource);\n#\nforbid(principal,action,resource);\n";

const WHOLE_ROWS: [WholeRow; 12] = [
    WholeRow {
        name: "an empty text gets a line feed",
        text: "",
        edits: &[Put {
            span: (0, 0),
            text: "\n",
        }],
    },
    WholeRow {
        name: "a formatted text",
        text: FORMATTED,
        edits: &[],
    },
    WholeRow {
        name: "each policy has an edit",
        text: THREE,
        edits: &[
            Put {
                span: (0, 35),
                text: "permit (principal, action, resource);\n",
            },
            Put {
                span: (35, 70),
                text: "\nforbid (principal, action, resource);\n",
            },
            Put {
                span: (70, 105),
                text: "\npermit (principal, action, resource);\n",
            },
        ],
    },
    WholeRow {
        name: "one line of a policy",
        text: ONE_LINE_OFF,
        edits: &[Put {
            span: (58, 99),
            text: "  resource.owner == principal && // theirs\n",
        }],
    },
    WholeRow {
        name: "one empty line too many",
        text: "permit (principal, action, resource);\n\n\nforbid (principal, action, resource);\n",
        edits: &[Put {
            span: (39, 40),
            text: "",
        }],
    },
    WholeRow {
        name: "an empty line is missing",
        text: "permit (principal, action, resource);\nforbid (principal, action, resource);\n",
        edits: &[Put {
            span: (38, 38),
            text: "\n",
        }],
    },
    WholeRow {
        name: "empty lines at the end",
        text: "permit (principal, action, resource);\n\n\n",
        edits: &[Put {
            span: (38, 40),
            text: "",
        }],
    },
    WholeRow {
        name: "no line feed at the end",
        text: "permit (principal, action, resource);",
        edits: &[Put {
            span: (0, 37),
            text: "permit (principal, action, resource);\n",
        }],
    },
    WholeRow {
        name: "carriage returns stay",
        text: CRLF,
        edits: &[
            Put {
                span: (0, 36),
                text: "permit (principal, action, resource);\r\n",
            },
            Put {
                span: (36, 72),
                text: "\r\nforbid (principal, action, resource);\r\n",
            },
        ],
    },
    WholeRow {
        name: "a formatted text with carriage returns",
        text: "permit (principal, action, resource);\r\n\r\nforbid (principal, action, resource);\r\n",
        edits: &[],
    },
    WholeRow {
        name: "a carriage return among line feeds goes",
        text: "permit (principal, action, resource);\r\n\nforbid (principal, action, resource);\n",
        edits: &[Put {
            span: (0, 39),
            text: "permit (principal, action, resource);\n",
        }],
    },
    WholeRow {
        name: "a string keeps its carriage return and line feed",
        text: "@i(\"a\r\nb\")permit(principal,action,resource);\r\n",
        edits: &[Put {
            span: (7, 46),
            text: "b\")\r\npermit (principal, action, resource);\r\n",
        }],
    },
];

const RANGE_ROWS: [RangeRow; 21] = [
    RangeRow {
        text: ONE_LINE,
        range: (40, 41),
        edits: &[Put {
            span: (35, 75),
            text: "\n\nforbid (principal, action, resource); // b\n",
        }],
    },
    RangeRow {
        text: ONE_LINE,
        range: (0, 1),
        edits: &[Put {
            span: (0, 35),
            text: "permit (principal, action, resource);\n",
        }],
    },
    RangeRow {
        text: ONE_LINE,
        range: (34, 36),
        edits: &[
            Put {
                span: (0, 35),
                text: "permit (principal, action, resource);\n",
            },
            Put {
                span: (35, 75),
                text: "\nforbid (principal, action, resource); // b\n",
            },
        ],
    },
    RangeRow {
        text: THREE,
        range: (40, 45),
        edits: &[Put {
            span: (35, 70),
            text: "\nforbid (principal, action, resource);\n",
        }],
    },
    RangeRow {
        text: THREE,
        range: (35, 35),
        edits: &[Put {
            span: (35, 70),
            text: "\nforbid (principal, action, resource);\n",
        }],
    },
    RangeRow {
        text: THREE,
        range: (0, 35),
        edits: &[Put {
            span: (0, 35),
            text: "permit (principal, action, resource);\n",
        }],
    },
    RangeRow {
        text: LED,
        range: (44, 46),
        edits: &[Put {
            span: (42, 84),
            text: "\n// two\nforbid (principal, action, resource);\n",
        }],
    },
    RangeRow {
        text: CLOSED,
        range: (36, 38),
        edits: &[],
    },
    RangeRow {
        text: "",
        range: (0, 0),
        edits: &[],
    },
    RangeRow {
        text: "\n// none\n",
        range: (0, 9),
        edits: &[],
    },
    RangeRow {
        text: CRLF,
        range: (36, 40),
        edits: &[Put {
            span: (36, 72),
            text: "\r\nforbid (principal, action, resource);\r\n",
        }],
    },
    RangeRow {
        text: CRLF,
        range: (20, 1000),
        edits: &[
            Put {
                span: (0, 36),
                text: "permit (principal, action, resource);\r\n",
            },
            Put {
                span: (36, 72),
                text: "\r\nforbid (principal, action, resource);\r\n",
            },
        ],
    },
    RangeRow {
        text: CRLF,
        range: (1000, usize::MAX),
        edits: &[],
    },
    RangeRow {
        text: CRLF,
        range: (usize::MAX, usize::MAX),
        edits: &[],
    },
    RangeRow {
        text: FORMATTED,
        range: (0, 10),
        edits: &[],
    },
    RangeRow {
        text: FORMATTED,
        range: (40, 41),
        edits: &[],
    },
    RangeRow {
        text: ONE_LINE_OFF,
        range: (0, 0),
        edits: &[Put {
            span: (58, 99),
            text: "  resource.owner == principal && // theirs\n",
        }],
    },
    RangeRow {
        text: REFUSED_BETWEEN,
        range: (50, 51),
        edits: &[Put {
            span: (44, 79),
            text: "\npermit (principal, action, resource);\n",
        }],
    },
    RangeRow {
        text: LARGE_NUMBER,
        range: (70, 71),
        edits: &[Put {
            span: (63, 98),
            text: "\npermit (principal, action, resource);\n",
        }],
    },
    RangeRow {
        text: UNREADABLE,
        range: (3, 4),
        edits: &[Put {
            span: (0, 35),
            text: "permit (principal, action, resource);\n",
        }],
    },
    RangeRow {
        text: UNREADABLE,
        range: (40, 41),
        edits: &[],
    },
];

// Comments before and after each policy.
const COMMENTS: &str =
    "//a\npermit(principal,action,resource);//b\n\n//c\nforbid(principal,action,resource);";

// Characters of several bytes, a line feed in a string, and a blank of two bytes between.
const BYTES: &str =
    "@i(\"ü\n\")permit(principal,action,resource);\u{a0}permit(principal,action,resource);";

// Trailing commas, a number with a zero, and comments in a list.
const LISTS: &str =
    "permit(principal,action,resource)when{[01,//ü\n]==[1,]};//b\nforbid(principal,action,resource);";

// Line ends of two bytes, and a comment at the end.
const RETURNS: &str =
    "permit(principal,action,resource);\r\n//a\r\nforbid(principal,action,resource);//b\r\n//c";

// A comment that ends with a lone carriage return, and no line feed.
const LONE_RETURN: &str =
    "permit(principal,action,resource);//a\r permit(principal,action,resource);//b\r";

const TEXTS: [&str; 9] = [
    "",
    " \n// only\n",
    CLOSED,
    ONE_LINE,
    COMMENTS,
    BYTES,
    LISTS,
    RETURNS,
    LONE_RETURN,
];

fn config(line_width: usize) -> Config {
    Config {
        line_width,
        indent_width: 2,
    }
}

// Compares edits with those that are expected.
fn are(rt: &impl Abort, text: &str, edits: &[Edit], expected: &[Put]) {
    assert_eq!(rt; edits.len(), expected.len(), "in {text}");
    for (edit, put) in edits.iter().zip(expected) {
        let (start, end) = put.span;
        assert_eq!(rt; edit.span.start, start, "in {text}");
        assert_eq!(rt; edit.span.end, end, "in {text}");
        assert!(rt;
            edit.text.as_str() == put.text,
            "in {text}: {}",
            edit.text.as_str()
        );
    }
}

#[test]
fn lays_out_the_whole_text(rt: HostRuntime) -> Result<(), Fail> {
    for row in &WHOLE_ROWS {
        let edits = format_text(rt.alloc(), row.text, &config(80))?;
        are(&rt, row.name, edits.as_slice(), row.edits);
    }
    Ok(())
}

#[test]
fn lays_out_what_the_range_touches(rt: HostRuntime) -> Result<(), Fail> {
    for row in &RANGE_ROWS {
        let (start, end) = row.range;
        let edits = format_range(rt.alloc(), row.text, Span { start, end }, &config(80))?;
        are(&rt, row.text, edits.as_slice(), row.edits);
    }
    Ok(())
}

#[test]
fn refuses_what_the_formatter_refuses(rt: HostRuntime) {
    let refused = format_text(rt.alloc(), REFUSED_BETWEEN, &config(80));
    assert!(rt; matches!(&refused, Err(FormatError::Grammar { at: 42 })));
    let touched = Span { start: 40, end: 41 };
    let refused = format_range(rt.alloc(), REFUSED_BETWEEN, touched, &config(80));
    assert!(rt; matches!(&refused, Err(FormatError::Grammar { at: 7 })));
}

// The text with edits applied is accepted, and has the list and the output of the text.
fn keeps(
    rt: &impl Abort,
    alloc: Global,
    text: &str,
    edited: &str,
    config: &Config,
) -> Result<(), Fail> {
    assert!(rt; same_layout(alloc, text, edited, config)?, "{text}");
    let output = policies_str_to_pretty(alloc, text, config)?;
    let whole = policies_str_to_pretty(alloc, edited, config)?;
    assert!(rt; whole.as_str() == output.as_str(), "{text}");
    Ok(())
}

// The text with the edits for a range applied.
fn edited_at(
    alloc: Global,
    text: &str,
    start: usize,
    end: usize,
    config: &Config,
) -> Result<String, Fail> {
    let edits = format_range(alloc, text, Span { start, end }, config)?;
    Ok(apply_edits(alloc, text, edits.as_slice())?)
}

// The texts that the edits for all ranges from there on make keep the list and the output.
fn keep_from(
    rt: &impl Abort,
    alloc: Global,
    text: &str,
    start: usize,
    config: &Config,
) -> Result<(), Fail> {
    let mut last = edited_at(alloc, text, start, start, config)?;
    keeps(rt, alloc, text, last.as_str(), config)?;
    for end in start..text.len().saturating_add(2) {
        let edited = edited_at(alloc, text, start, end, config)?;
        if edited.as_str() != last.as_str() {
            keeps(rt, alloc, text, edited.as_str(), config)?;
            last = edited;
        }
    }
    Ok(())
}

// The edits for all ranges of a text.
fn every_range_keeps(rt: &impl Abort, alloc: Global, text: &str) -> Result<(), Fail> {
    for start in 0..text.len().saturating_add(2) {
        keep_from(rt, alloc, text, start, &config(80))?;
    }
    Ok(())
}

#[test]
fn keeps_closed(rt: HostRuntime) -> Result<(), Fail> {
    every_range_keeps(&rt, rt.alloc(), "")?;
    every_range_keeps(&rt, rt.alloc(), " \n// only\n")?;
    every_range_keeps(&rt, rt.alloc(), CLOSED)
}

#[test]
fn keeps_one_line(rt: HostRuntime) -> Result<(), Fail> {
    every_range_keeps(&rt, rt.alloc(), ONE_LINE)
}

#[test]
fn keeps_comments(rt: HostRuntime) -> Result<(), Fail> {
    every_range_keeps(&rt, rt.alloc(), COMMENTS)
}

#[test]
fn keeps_bytes(rt: HostRuntime) -> Result<(), Fail> {
    every_range_keeps(&rt, rt.alloc(), BYTES)
}

#[test]
fn keeps_returns(rt: HostRuntime) -> Result<(), Fail> {
    every_range_keeps(&rt, rt.alloc(), RETURNS)
}

#[test]
fn keeps_lone_return(rt: HostRuntime) -> Result<(), Fail> {
    every_range_keeps(&rt, rt.alloc(), LONE_RETURN)
}

// The edits for a whole text and for an empty range at each of its bytes.
fn every_byte_keeps(
    rt: &impl Abort,
    alloc: Global,
    text: &str,
    config: &Config,
) -> Result<(), Fail> {
    let end = text.len();
    let mut last = edited_at(alloc, text, 0, end, config)?;
    keeps(rt, alloc, text, last.as_str(), config)?;
    for start in 0..end {
        let edited = edited_at(alloc, text, start, start, config)?;
        if edited.as_str() != last.as_str() {
            keeps(rt, alloc, text, edited.as_str(), config)?;
            last = edited;
        }
    }
    Ok(())
}

// What a range touches does not depend on the width, so at narrow ones these are enough.
#[test]
fn keeps_at_narrow_widths(rt: HostRuntime) -> Result<(), Fail> {
    for text in TEXTS {
        every_byte_keeps(&rt, rt.alloc(), text, &config(10))?;
        every_byte_keeps(&rt, rt.alloc(), text, &config(40))?;
    }
    Ok(())
}

// A whole text that its edits are applied to has no edits any more.
#[test]
fn needs_no_second_run(rt: HostRuntime) -> Result<(), Fail> {
    for text in TEXTS {
        let edits = format_text(rt.alloc(), text, &config(40))?;
        let formatted = apply_edits(rt.alloc(), text, edits.as_slice())?;
        let again = format_text(rt.alloc(), formatted.as_str(), &config(40))?;
        assert!(rt; again.is_empty(), "{text}");
    }
    Ok(())
}
