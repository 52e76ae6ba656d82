//! Layouts from the documents of policies are those of the formatter: it lays out the marks that it writes of rows, and
//! `render` what `to_doc` makes of the same rows.
use super::samples::{COMMENTS, CONDITIONS, ENDS, SCOPES, Sample, WIDTHS};
use super::*;
use cedar_policy_formatter::Context;
use cedar_policy_formatter::doc::Doc;
use cedar_policy_formatter::layout::render;
use cedar_policy_formatter::lexer::{drop_trailing_commas, get_token_stream};
use cedar_policy_formatter::utils::{in_order, remove_empty_lines};

// The layouts of the policies of a sample's text, an empty line between them, and then the closing comments.
fn rendered(
    rt: &impl Abort,
    alloc: Global,
    sample: &Sample,
    config: &Config,
) -> Result<String, FormatError> {
    let tree = parse_policies(alloc, sample.text)?;
    let (mut tokens, closing) = get_token_stream(alloc, sample.text)?.expect(rt, sample.name);
    drop_trailing_commas(alloc, &mut tokens)?;
    let mut context = Context { config, tokens };
    let mut out = String::new(alloc);
    for policy in &tree.policies {
        assert!(rt; in_order(&context.tokens));
        let Some(doc) = policy.to_doc(alloc, &mut context)? else {
            return Err(FormatError::NoDocument);
        };
        let mut layout = String::new(alloc);
        render(alloc, &doc, config.line_width, &mut layout)?;
        if !out.is_empty() {
            out.push('\n')?;
        }
        out.push_str(remove_empty_lines(alloc, layout.as_str())?.as_str())?;
        out.push('\n')?;
    }
    if out.is_empty() {
        out.push('\n')?;
    }
    for comment in closing {
        out.push_str(comment)?;
        out.push('\n')?;
    }
    Ok(out)
}

fn expect_alike(rt: &impl Abort, alloc: Global, sample: &Sample) {
    let config = config(sample.width, sample.indent);
    let want = policies_str_to_pretty(alloc, sample.text, &config).expect(rt, sample.name);
    let got = rendered(rt, alloc, sample, &config).expect(rt, sample.name);
    expect_text(rt, got.as_str(), want.as_str(), sample.name);
}

fn expect_all_alike(rt: &impl Abort, alloc: Global, samples: &[Sample]) {
    for sample in samples {
        expect_alike(rt, alloc, sample);
    }
}

#[test]
fn ends_from_documents(rt: HostRuntime) {
    expect_all_alike(&rt, rt.alloc(), &ENDS);
}

#[test]
fn scopes_from_documents(rt: HostRuntime) {
    expect_all_alike(&rt, rt.alloc(), &SCOPES);
}

#[test]
fn comments_from_documents(rt: HostRuntime) {
    expect_all_alike(&rt, rt.alloc(), &COMMENTS);
}

#[test]
fn conditions_from_documents(rt: HostRuntime) {
    expect_all_alike(&rt, rt.alloc(), &CONDITIONS);
}

#[test]
fn widths_from_documents(rt: HostRuntime) {
    expect_all_alike(&rt, rt.alloc(), &WIDTHS);
}
