//! The policies of a text, one after the other.
use super::*;
use cedar_policy_formatter::cst::PolicyReader;
use cedar_policy_formatter::token::Span;

// What a reader answers: where a policy stands, or the end, or a refusal.
type Step = Result<Option<Span>, FormatError>;

struct Reading {
    name: &'static str,
    text: &'static str,
    steps: &'static [Step],
}

static READS: [Reading; 5] = [
    Reading {
        name: "empty text",
        text: "",
        steps: &[Ok(None), Ok(None)],
    },
    Reading {
        name: "three policies and comments",
        text: r#"// a
permit(principal,action,resource); // b

@id("x")
permit(principal,action,resource);permit(principal,action,resource); // c"#,
        steps: &[
            Ok(Some(Span { start: 5, end: 39 })),
            Ok(Some(Span { start: 46, end: 89 })),
            Ok(Some(Span {
                start: 89,
                end: 123,
            })),
            Ok(None),
            Ok(None),
        ],
    },
    Reading {
        name: "refused second policy",
        text: r#"permit(principal,action,resource); // b
permit(principal,action,resource) when;permit(principal,action,resource);"#,
        steps: &[
            Ok(Some(Span { start: 0, end: 34 })),
            Err(FormatError::Grammar { at: 78 }),
            Err(FormatError::Grammar { at: 78 }),
        ],
    },
    Reading {
        name: "second policy without a semicolon",
        text: r#"permit(principal,action,resource);
permit(principal,action,resource)"#,
        steps: &[
            Ok(Some(Span { start: 0, end: 34 })),
            Err(FormatError::Grammar { at: 68 }),
        ],
    },
    Reading {
        name: "bracket after a policy",
        text: r#"permit(principal,action,resource);
)"#,
        steps: &[
            Ok(Some(Span { start: 0, end: 34 })),
            Err(FormatError::Grammar { at: 35 }),
        ],
    },
];

fn expect_steps(rt: &impl Abort, alloc: Global, row: &Reading) {
    let mut reader = PolicyReader::new(row.text);
    for want in row.steps {
        let got = match reader.next(alloc) {
            Ok(Some(policy)) => Ok(Some(policy.span)),
            Ok(None) => Ok(None),
            Err(refusal) => Err(refusal),
        };
        assert_eq!(rt; got, *want, "{}", row.name);
    }
}

#[test]
fn policies_one_by_one(rt: HostRuntime) {
    for row in &READS {
        expect_steps(&rt, rt.alloc(), row);
    }
}

// The text of a piece, and the place of its policy there.
struct Piece {
    text: &'static str,
    policy: Span,
}

// A text, its pieces, and what is left.
struct Pieces {
    name: &'static str,
    text: &'static str,
    pieces: &'static [Piece],
    rest: &'static str,
}

static PIECES: [Pieces; 3] = [
    Pieces {
        name: "only a comment",
        text: r#"// a
"#,
        pieces: &[],
        rest: r#"// a
"#,
    },
    Pieces {
        name: "three policies and comments",
        text: r#"// a
permit(principal,action,resource); // b

@id("x")
permit(principal,action,resource);permit(principal,action,resource); // c"#,
        pieces: &[
            Piece {
                text: r#"// a
permit(principal,action,resource); // b
"#,
                policy: Span { start: 5, end: 39 },
            },
            Piece {
                text: r#"
@id("x")
permit(principal,action,resource);"#,
                policy: Span { start: 1, end: 44 },
            },
            Piece {
                text: "permit(principal,action,resource); // c",
                policy: Span { start: 0, end: 34 },
            },
        ],
        rest: "",
    },
    Pieces {
        name: "comments after a policy",
        text: r#"permit(principal,action,resource); // b
// c"#,
        pieces: &[Piece {
            text: r#"permit(principal,action,resource); // b
"#,
            policy: Span { start: 0, end: 34 },
        }],
        rest: "// c",
    },
];

fn expect_pieces(rt: &impl Abort, alloc: Global, row: &Pieces) {
    let mut reader = PolicyReader::new(row.text);
    let mut texts = PolicyReader::new(row.text);
    let mut tokens = Vec::new(alloc);
    for want in row.pieces {
        let Some(piece) = reader.next_piece(alloc, &mut tokens).expect(rt, row.name) else {
            break;
        };
        expect_text(rt, piece.text, want.text, row.name);
        assert_eq!(rt; piece.policy.span, want.policy, "{}", row.name);
        let text = texts.next_text(alloc, &mut tokens).expect(rt, row.name);
        expect_text(rt, text.unwrap_or(""), want.text, row.name);
    }
    assert!(rt;
        matches!(reader.next_piece(alloc, &mut tokens), Ok(None)),
        "{}",
        row.name
    );
    expect_text(rt, reader.rest(), row.rest, row.name);
}

#[test]
fn pieces_one_by_one(rt: HostRuntime) {
    for row in &PIECES {
        expect_pieces(&rt, rt.alloc(), row);
    }
}

#[test]
fn refused_pieces_have_places_of_the_text(rt: HostRuntime) {
    let text = r#"permit(principal,action,resource); // b
permit(principal,action,resource) when;permit(principal,action,resource);"#;
    let mut reader = PolicyReader::new(text);
    let mut tokens = Vec::new(rt.alloc());
    let first = reader.next_piece(rt.alloc(), &mut tokens).expect(&rt, text);
    assert!(rt; first.is_some());
    let refusal = reader.next_piece(rt.alloc(), &mut tokens).err();
    expect_refusal(&rt, refusal, Some(FormatError::Grammar { at: 78 }), text);
}

// Texts with faults: a refusal is that of the first fault, even if the grammar refuses a piece before it.
static FAULTS: [Reading; 6] = [
    Reading {
        name: "unfinished string after two policies",
        text: r#"permit(principal,action,resource);permit(principal,action,resource); "x"#,
        steps: &[
            Ok(Some(Span { start: 0, end: 34 })),
            Ok(Some(Span { start: 34, end: 68 })),
            Err(FormatError::UnfinishedString { at: 69 }),
            Err(FormatError::UnfinishedString { at: 69 }),
        ],
    },
    Reading {
        name: "unfinished string after a refused policy",
        text: r#"permit(principal,action,resource) when;permit(principal,action,resource); "x"#,
        steps: &[
            Err(FormatError::UnfinishedString { at: 74 }),
            Err(FormatError::UnfinishedString { at: 74 }),
        ],
    },
    Reading {
        name: "large number in the second policy",
        text: r#"permit(principal,action,resource);permit(principal,action,resource) when { 18446744073709551616 };"#,
        steps: &[
            Ok(Some(Span { start: 0, end: 34 })),
            Err(FormatError::NumberTooLarge { at: 75 }),
            Err(FormatError::NumberTooLarge { at: 75 }),
        ],
    },
    Reading {
        name: "large number after a refused policy",
        text: r#"permit(principal,action,resource);)permit(principal,action,resource); 18446744073709551616"#,
        steps: &[
            Ok(Some(Span { start: 0, end: 34 })),
            Err(FormatError::NumberTooLarge { at: 70 }),
        ],
    },
    Reading {
        name: "unknown character after a large number",
        text: r#"18446744073709551616; permit(principal,action,resource); $"#,
        steps: &[Err(FormatError::UnknownCharacter { at: 57 })],
    },
    Reading {
        name: "unknown character in the second policy",
        text: r#"permit(principal,action,resource);permit(principal,action,resource) $"#,
        steps: &[
            Ok(Some(Span { start: 0, end: 34 })),
            Err(FormatError::UnknownCharacter { at: 68 }),
        ],
    },
];

#[test]
fn faults_come_first(rt: HostRuntime) {
    for row in &FAULTS {
        expect_steps(&rt, rt.alloc(), row);
    }
}
