//! Layouts of documents, made by hand.
use super::*;
use cedar_policy_formatter::layout::{Document, intersperse, render};
use std::alloc::AllocError;

type Built = Result<Document<'static>, AllocError>;

fn seq(
    alloc: Global,
    first: Document<'static>,
    second: Document<'static>,
    third: Document<'static>,
) -> Built {
    Ok(Document::Seq(vec![in alloc; first, second, third]?))
}

// A group of a text, a line and a text.
fn two(alloc: Global, first: &'static str, second: &'static str) -> Built {
    seq(
        alloc,
        Document::Text(first),
        Document::Line,
        Document::Text(second),
    )?
    .group(alloc)
}

fn two_and_text(alloc: Global) -> Built {
    two(alloc, "a", "b")?.append(alloc, Document::Text("c"))
}

fn two_and_group(alloc: Global) -> Built {
    let group = seq(alloc, Document::Line, Document::Text("c"), Document::Nil)?.group(alloc)?;
    two(alloc, "a", "b")?.append(alloc, group)
}

fn two_and_sequence(alloc: Global) -> Built {
    let group = seq(alloc, Document::Line, Document::Text("d"), Document::Nil)?.group(alloc)?;
    let inner = seq(alloc, Document::Text("c"), group, Document::Nil)?;
    two(alloc, "a", "b")?.append(alloc, inner)
}

fn with_hard(alloc: Global) -> Built {
    let rest = seq(
        alloc,
        Document::Text("b"),
        Document::Hard,
        Document::Text("c"),
    )?;
    seq(alloc, Document::Text("a"), Document::Line, rest)?.group(alloc)
}

fn wide(alloc: Global) -> Built {
    two(alloc, "日本", "b")
}

fn to_the_left(alloc: Global) -> Built {
    seq(alloc, Document::Hard, Document::Text("x"), Document::Nil)?.nest(alloc, -5)
}

fn separated(alloc: Global) -> Built {
    let docs = vec![in alloc;
        Document::Text("a"),
        Document::Text("b"),
        Document::Text("c"),
    ]?;
    intersperse(alloc, docs, &Document::Text(","))
}

fn none_separated(alloc: Global) -> Built {
    intersperse(alloc, Vec::new(alloc), &Document::Text(","))
}

// The document of `permit(principal,action,resource);`.
fn bare_policy(alloc: Global) -> Built {
    let comma = || Document::Text(", ");
    let first = seq(
        alloc,
        Document::Text("principal"),
        comma(),
        Document::Text("action"),
    )?;
    let scope = seq(alloc, first, comma(), Document::Text("resource"))?;
    let scope = scope.nest(alloc, 2)?.group(alloc)?;
    seq(
        alloc,
        two(alloc, "permit", "(")?,
        scope,
        Document::Text(");"),
    )
}

// The documents of the layouts.
enum Sample {
    TwoAndText,
    TwoAndGroup,
    TwoAndSequence,
    WithHard,
    Wide,
    ToTheLeft,
    Separated,
    NoneSeparated,
    BarePolicy,
}

fn document_of(alloc: Global, sample: &Sample) -> Built {
    match sample {
        Sample::TwoAndText => two_and_text(alloc),
        Sample::TwoAndGroup => two_and_group(alloc),
        Sample::TwoAndSequence => two_and_sequence(alloc),
        Sample::WithHard => with_hard(alloc),
        Sample::Wide => wide(alloc),
        Sample::ToTheLeft => to_the_left(alloc),
        Sample::Separated => separated(alloc),
        Sample::NoneSeparated => none_separated(alloc),
        Sample::BarePolicy => bare_policy(alloc),
    }
}

// The document is laid out like this, and so is a copy of it.
fn expect_rendered(
    rt: &impl Abort,
    alloc: Global,
    doc: Built,
    width: usize,
    want: &str,
    name: &str,
) {
    let doc = doc.expect(rt, name);
    let copy = doc.clone().expect(rt, name);
    for it in [doc, copy] {
        let mut out = String::new(alloc);
        render(alloc, &it, width, &mut out).expect(rt, name);
        expect_text(rt, out.as_str(), want, name);
    }
}

struct Layout {
    name: &'static str,
    sample: Sample,
    width: usize,
    layout: &'static str,
}

static LAYOUTS: [Layout; 13] = [
    Layout {
        name: "group and text that fit",
        sample: Sample::TwoAndText,
        width: 4,
        layout: "a bc",
    },
    Layout {
        name: "group and text, one wider",
        sample: Sample::TwoAndText,
        width: 3,
        layout: r#"a
bc"#,
    },
    Layout {
        name: "group and group that begins with a line",
        sample: Sample::TwoAndGroup,
        width: 3,
        layout: r#"a b
c"#,
    },
    Layout {
        name: "group with a hard break",
        sample: Sample::WithHard,
        width: 80,
        layout: r#"a
b
c"#,
    },
    Layout {
        name: "wide characters that fit",
        sample: Sample::Wide,
        width: 6,
        layout: "日本 b",
    },
    Layout {
        name: "wide characters, one wider",
        sample: Sample::Wide,
        width: 5,
        layout: r#"日本
b"#,
    },
    Layout {
        name: "nested to the left of the first column",
        sample: Sample::ToTheLeft,
        width: 80,
        layout: r#"
x"#,
    },
    Layout {
        name: "texts with commas between",
        sample: Sample::Separated,
        width: 80,
        layout: "a,b,c",
    },
    Layout {
        name: "no texts with commas between",
        sample: Sample::NoneSeparated,
        width: 80,
        layout: "",
    },
    Layout {
        name: "group and sequence up to its group",
        sample: Sample::TwoAndSequence,
        width: 4,
        layout: r#"a bc
d"#,
    },
    Layout {
        name: "group and sequence, one wider",
        sample: Sample::TwoAndSequence,
        width: 3,
        layout: r#"a
bc
d"#,
    },
    Layout {
        name: "bare policy as wide as the width",
        sample: Sample::BarePolicy,
        width: 37,
        layout: "permit (principal, action, resource);",
    },
    Layout {
        name: "bare policy one wider than the width",
        sample: Sample::BarePolicy,
        width: 36,
        layout: r#"permit
(principal, action, resource);"#,
    },
];

#[test]
fn layouts(rt: HostRuntime) {
    let alloc = rt.alloc();
    for row in &LAYOUTS {
        let doc = document_of(alloc, &row.sample);
        expect_rendered(&rt, alloc, doc, row.width, row.layout, row.name);
    }
}

// How a document grows, from a line feed and `x` on.
enum Growth {
    Nests,
    NestsAndGroups,
    Sequences,
    Texts,
    Groups,
}

fn grown(alloc: Global, growth: &Growth, doc: Document<'static>) -> Built {
    match growth {
        Growth::Nests => doc.nest(alloc, 1),
        Growth::NestsAndGroups => doc.nest(alloc, 1)?.group(alloc),
        Growth::Sequences => seq(alloc, doc, Document::Text("x"), Document::Nil),
        Growth::Texts => doc.append(alloc, Document::Text("x")),
        Growth::Groups => doc.append(alloc, Document::Text("x").group(alloc)?),
    }
}

// How often it grows, and what is laid out then. A renderer that measures anew what follows a group needs hours here; one
// that calls itself for each level, or a drop that does, runs out of stack.
struct Large {
    name: &'static str,
    growth: Growth,
    times: usize,
    layout: &'static [Part],
}

static LARGE_NESTS: [Large; 2] = [
    Large {
        name: "1,000 nests",
        growth: Growth::Nests,
        times: 1_000,
        layout: &[Once("\n"), Times(1_000, " "), Once("x")],
    },
    Large {
        name: "100,000 nests and groups",
        growth: Growth::NestsAndGroups,
        times: 100_000,
        layout: &[Once("\n"), Times(100_000, " "), Once("x")],
    },
];

static LARGE_SEQUENCES: Large = Large {
    name: "1,000,000 sequences",
    growth: Growth::Sequences,
    times: 1_000_000,
    layout: &[Once("\n"), Times(1_000_000, "x"), Once("x")],
};

static LARGE_TEXTS: Large = Large {
    name: "1,000,000 texts in a row",
    growth: Growth::Texts,
    times: 1_000_000,
    layout: &[Once("\n"), Times(1_000_000, "x"), Once("x")],
};

static LARGE_GROUPS: Large = Large {
    name: "1,000,000 groups in a row",
    growth: Growth::Groups,
    times: 1_000_000,
    layout: &[Once("\n"), Times(1_000_000, "x"), Once("x")],
};

fn expect_large(rt: &impl Abort, alloc: Global, row: &Large) {
    let start = seq(alloc, Document::Hard, Document::Text("x"), Document::Nil);
    let mut doc = start.expect(rt, row.name);
    for _ in 0..row.times {
        doc = grown(alloc, &row.growth, doc).expect(rt, row.name);
    }
    let mut out = String::new(alloc);
    render(alloc, &doc, usize::MAX, &mut out).expect(rt, row.name);
    let want = joined(alloc, row.layout).expect(rt, row.name);
    assert!(rt; out.as_str() == want.as_str(), "{}", row.name);
}

#[test]
fn large_nests(rt: HostRuntime) {
    for row in &LARGE_NESTS {
        expect_large(&rt, rt.alloc(), row);
    }
}

#[test]
fn large_sequences(rt: HostRuntime) {
    expect_large(&rt, rt.alloc(), &LARGE_SEQUENCES);
}

#[test]
fn large_rows_of_texts(rt: HostRuntime) {
    expect_large(&rt, rt.alloc(), &LARGE_TEXTS);
}

#[test]
fn large_rows_of_groups(rt: HostRuntime) {
    expect_large(&rt, rt.alloc(), &LARGE_GROUPS);
}

// A chain of appends is one sequence, without what is `Nil`.
#[test]
fn one_sequence(rt: HostRuntime) {
    let mut doc = Document::Nil;
    for text in [
        Document::Text("a"),
        Document::Text("b"),
        Document::Nil,
        Document::Text("c"),
    ] {
        doc = doc.append(rt.alloc(), text).expect(&rt, "memory");
    }
    assert!(rt; matches!(&doc, Document::Seq(docs) if docs.len() == 3));
    expect_rendered(&rt, rt.alloc(), Ok(doc), 80, "abc", "chain of appends");
}

// No memory for the spaces of a break: what was there stays, and nothing else.
#[test]
fn no_memory_for_a_break(rt: HostRuntime) {
    let alloc = rt.alloc();
    let doc = seq(alloc, Document::Text("a"), Document::Hard, Document::Nil);
    let doc = doc
        .expect(&rt, "memory")
        .nest(alloc, isize::MAX)
        .expect(&rt, "memory");
    let mut out = String::from_str(alloc, "kept").expect(&rt, "memory");
    assert_eq!(rt; render(alloc, &doc, 80, &mut out), Err(AllocError));
    expect_text(&rt, out.as_str(), "kept", "refused");
}
