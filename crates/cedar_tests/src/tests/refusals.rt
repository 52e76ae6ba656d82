//! What refusals print, and an indentation that memory runs out for. Which texts are refused, and where, is in
//! `tests/rows`.
use super::*;

#[test]
fn too_wide_an_indentation(rt: HostRuntime) {
    let text = r#"permit(principal == User::"a",action,resource);"#;
    let got = policies_str_to_pretty(rt.alloc(), text, &config(80, isize::MAX)).err();
    expect_refusal(&rt, got, Some(FormatError::OutOfMemory), text);
}

struct Printed {
    refusal: FormatError,
    text: &'static str,
}

static PRINTED: [Printed; 8] = [
    Printed {
        refusal: FormatError::UnknownCharacter { at: 1 },
        text: "unknown character at byte 1",
    },
    Printed {
        refusal: FormatError::UnfinishedString { at: 20 },
        text: "unfinished string at byte 20",
    },
    Printed {
        refusal: FormatError::NumberTooLarge { at: 0 },
        text: "number too large at byte 0",
    },
    Printed {
        refusal: FormatError::Grammar { at: 4 },
        text: "not in the grammar at byte 4",
    },
    Printed {
        refusal: FormatError::TooDeep { at: 5 },
        text: "nested too deeply at byte 5",
    },
    Printed {
        refusal: FormatError::NoDocument,
        text: "failed to produce doc",
    },
    Printed {
        refusal: FormatError::Unsound,
        text: "formatter changed the policies",
    },
    Printed {
        refusal: FormatError::OutOfMemory,
        text: "out of memory",
    },
];

#[test]
fn refusals_printed(rt: HostRuntime) {
    for row in &PRINTED {
        let refusal = row.refusal;
        let got = format!(in rt.alloc(); "{refusal}").expect(&rt, row.text);
        expect_text(&rt, got.as_str(), row.text, row.text);
    }
}
