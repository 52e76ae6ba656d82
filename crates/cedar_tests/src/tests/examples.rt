//! The examples of `cedar_examples`, each called once.
use super::*;
use cedar_examples::{
    LintError, Store, comments_of, fingerprint, first_document, print_rewritten, save,
};
use cedar_policy_formatter::layout::{Document, render};

const TEXT: &str = "permit(principal,action,resource,);// who";

const LAID_OUT: &str = "permit (principal, action, resource); // who\n";

const OTHER: &str = "permit(principal,action,resource);";

#[test]
fn texts_are_stored_by_their_keys(rt: HostRuntime) {
    let alloc = rt.alloc();
    let mut store = Store::new(alloc);
    store.insert(alloc, TEXT).expect(&rt, TEXT);
    let same = store.contains(alloc, LAID_OUT);
    expect_told(&rt, same, Ok(true), LAID_OUT);
    let other = store.contains(alloc, OTHER);
    expect_told(&rt, other, Ok(false), OTHER);
    let refused = store.contains(alloc, "permit");
    let want = Err(FormatError::Grammar { at: 6 });
    expect_told(&rt, refused, want, "permit");
}

#[test]
fn rewritten_texts_keep_their_comments(rt: HostRuntime) {
    let alloc = rt.alloc();
    let printed = print_rewritten(alloc, TEXT, LAID_OUT).expect(&rt, TEXT);
    expect_text(&rt, printed.as_str(), LAID_OUT, TEXT);
    let lost = print_rewritten(alloc, TEXT, OTHER).err();
    assert_eq!(rt; lost, Some(LintError::OtherComments), "{OTHER:?}");
    let found = comments_of(alloc, TEXT).expect(&rt, TEXT);
    expect_text(&rt, first_of(&found), "// who", TEXT);
}

// The first of the texts, if there is one.
fn first_of<'a>(found: &Option<Vec<&'a str>>) -> &'a str {
    match found {
        Some(texts) => texts.first().copied().unwrap_or(""),
        None => "",
    }
}

// By another program, of the text as it is laid out.
static DIGEST: [u8; 32] = [
    0xab, 0x23, 0x38, 0x14, 0x25, 0xc2, 0x9a, 0xd1, 0x55, 0xba, 0x83, 0x88, 0xd2, 0x4a, 0x13, 0xb1,
    0x80, 0xe2, 0x39, 0xf1, 0x8c, 0x57, 0xce, 0xba, 0xae, 0x75, 0x2f, 0x36, 0xd3, 0x55, 0x94, 0xb1,
];

#[test]
fn fingerprints_are_of_the_output(rt: HostRuntime) {
    let alloc = rt.alloc();
    let digest = fingerprint(alloc, TEXT).expect(&rt, TEXT);
    let is_same = digest.as_slice() == DIGEST.as_slice();
    expect_same(&rt, Some(is_same), Some(true), TEXT);
}

#[test]
fn buffers_are_saved(rt: HostRuntime) {
    let alloc = rt.alloc();
    let mut buffer = String::from_str(alloc, TEXT).expect(&rt, TEXT);
    save(alloc, &mut buffer, &Config::default()).expect(&rt, TEXT);
    expect_text(&rt, buffer.as_str(), LAID_OUT, TEXT);
    let mut refused = String::from_str(alloc, "permit").expect(&rt, TEXT);
    let got = save(alloc, &mut refused, &Config::default()).err();
    expect_refusal(&rt, got, Some(FormatError::Grammar { at: 6 }), "permit");
    expect_text(&rt, refused.as_str(), "permit", "permit");
}

// The text of a document at width 80; of none, the empty text.
fn shown(alloc: Global, document: &Option<Document<'_>>) -> Result<String, AllocError> {
    let mut out = String::new(alloc);
    if let Some(document) = document {
        render(alloc, document, 80, &mut out)?;
    }
    Ok(out)
}

#[test]
fn first_policies_have_documents(rt: HostRuntime) {
    let alloc = rt.alloc();
    let config = Config::default();
    for (text, want) in &[(TEXT, LAID_OUT), ("// none", "")] {
        let made = first_document(alloc, text, &config).expect(&rt, text);
        let out = shown(alloc, &made).expect(&rt, text);
        expect_text(&rt, out.as_str(), want, text);
    }
    let refused = first_document(alloc, "permit", &config).err();
    assert_eq!(rt; refused, Some(FormatError::Grammar { at: 6 }), "permit");
}
