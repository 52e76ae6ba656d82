//! The parts of a text that an editor can fold.
ghost use Rattle.std.specs.Prelude.{◌≡◌, ◌<◌, ◌+◌, ◌^◌, ◌++◌, [], ◌∷◌, All, length, map, IfOk, OnOk};
ghost use Rattle.std.specs.Option.{option_to_list};
ghost use Rattle.cedar_server.specs.Folds.{AreFolds, spans_lines, cond_fold, policy_folds, several, comment_on, line_with, runs};
ghost use Rattle.cedar_server.specs.Inside.Folding.{AddsFolds, AddsRuns, AreLines, joined};
ghost use Rattle.cedar_server.specs.Inside.StandingParts.{PolicyStands, Stands};
ghost use Rattle.cedar_server.specs.Parts.{HasPartKind};

use crate::parts::{Part, PartKind, Parts};
use crate::sections::{section_len, section_policies};
use crate::symbols::moved;
use cedar_grammar::tree::{Cond, Node, Policy};
use cedar_tokens::token::Span;
use std::alloc::{AllocError, Global};

/// What can be folded.
#[derive(Clone, Copy)]
pub enum FoldKind {
    /// A policy, from its first annotation through its `;`.
    Policy,
    /// From `when` or `unless` through its `}`.
    Condition,
    /// Lines that are comments alone, from the first comment through the last.
    Comments,
}

/// A part of a text that extends over lines and can be folded.
#[derive(Clone, Copy)]
pub struct Fold {
    pub span: Span,
    pub kind: FoldKind,
}

/// What a line has.
#[derive(Clone, Copy)]
pub enum Line {
    /// No token and no comment.
    Blank,
    /// One comment and no token.
    Comment(Span),
    /// Anything else.
    Other,
}

/// What can be folded in a text: the policies and conditions, in order, and then the runs of comments, in order, each over
/// several lines. What is between two `;` and isn't accepted has no policies and no conditions.
pub fn folds(alloc: Global, text: &str) -> Result<Vec<Fold>, AllocError>
    ensures { IfOk result (λ folds. AreFolds text.now folds.items) }
{
    let mut folds = Vec::new(alloc);
    let mut from = 0;
    let mut rest = text;
    'sections: while let Some(len) = section_len(rest) {
        let (section, after) = rest.split_at(len);
        push_section(alloc, section, from, &mut folds)?;
        from += len;
        rest = after;
    }
    let lines = lines(alloc, text)?;
    push_runs(text, &lines, &mut folds)?;
    Ok(folds)
}

// Appends the folds of the policies of a section that begins at the byte `from`.
fn push_section(
    alloc: Global,
    section: &str,
    from: usize,
    folds: &mut Vec<Fold>,
) -> Result<(), AllocError>
    requires { from + length section.now < 2 ^ 64 }
    ensures { OnOk result (AddsFolds section.now from folds.old.items folds.new.items) }
{
    let Some(policies) = section_policies(alloc, section)? else {
        return Ok(());
    };
    for policy in &policies.policies {
        push_policy(section, from, policy, folds)?;
    }
    Ok(())
}

// Appends the folds of a policy.
fn push_policy(
    section: &str,
    from: usize,
    policy: &Node<Policy>,
    folds: &mut Vec<Fold>,
) -> Result<(), AllocError>
    requires room { from + length section.now < 2 ^ 64 }
    requires stands { PolicyStands section.now policy.now }
    ensures { OnOk result (folds.new.items ≡ folds.old.items ++ several section.now from (policy_folds policy.now)) }
{
    let whole = Fold {
        span: policy.span,
        kind: FoldKind::Policy,
    };
    push_fold(section, from, whole, folds)?;
    push_conds(section, from, &policy.inner.conds, folds)?;
    Ok(())
}

// Appends the folds of conditions.
fn push_conds(
    section: &str,
    from: usize,
    conds: &[Node<Cond>],
    folds: &mut Vec<Fold>,
) -> Result<(), AllocError>
    requires room { from + length section.now < 2 ^ 64 }
    requires stands { All (λ c. Stands section.now c.span) conds.now }
    ensures { OnOk result (folds.new.items ≡ folds.old.items ++ several section.now from (map cond_fold conds.now)) }
{
    for cond in conds {
        let block = Fold {
            span: cond.span,
            kind: FoldKind::Condition,
        };
        push_fold(section, from, block, folds)?;
    }
    Ok(())
}

// Appends a fold if it extends over lines.
fn push_fold(text: &str, from: usize, fold: Fold, folds: &mut Vec<Fold>) -> Result<(), AllocError>
    requires start { from + fold.span.start < 2 ^ 64 }
    requires end { from + fold.span.end < 2 ^ 64 }
    ensures { OnOk result (folds.new.items ≡ folds.old.items ++ several text.now from (fold ∷ [])) }
{
    if !spans_lines(text, fold.span) {
        return Ok(());
    }
    folds.push(Fold {
        span: moved(from, fold.span),
        kind: fold.kind,
    })?;
    Ok(())
}

// Whether a line feed is in this part of the text.
fn spans_lines(text: &str, span: Span) -> bool
    ensures { result ≡ spans_lines text.now span }
{
    let len = span.end.saturating_sub(span.start);
    let bytes = text.as_bytes();
    bytes
        .iter()
        .skip(span.start)
        .take(len)
        .any(|byte| *byte == b'\n')
}

// The lines of a text.
fn lines(alloc: Global, text: &str) -> Result<Vec<Line>, AllocError>
    ensures { IfOk result (λ lines. AreLines text.now lines.items) }
{
    let mut lines = Vec::new(alloc);
    let mut line = Line::Blank;
    let mut end = 0;
    for part in Parts::new(text) {
        let start = end;
        end += part.text.len();
        if part.text == "\n" {
            lines.push(line)?;
            line = Line::Blank;
            continue;
        }
        line = line_with(line, part, Span { start, end });
    }
    lines.push(line)?;
    Ok(lines)
}

// A line with one more part.
fn line_with(line: Line, part: Part, span: Span) -> Line
    requires { HasPartKind part.kind part.text.now }
    ensures { result ≡ line_with line part.entry.text.now span }
{
    match part.kind {
        PartKind::Token => Line::Other,
        PartKind::Comment => comment_on(line, span),
        PartKind::Other => line,
    }
}

// A line with one more comment.
fn comment_on(line: Line, span: Span) -> Line
    ensures { result ≡ comment_on line span }
{
    match line {
        Line::Blank => Line::Comment(span),
        Line::Comment(_) | Line::Other => Line::Other,
    }
}

// Appends the runs of comments over several lines.
fn push_runs(text: &str, lines: &[Line], folds: &mut Vec<Fold>) -> Result<(), AllocError>
    ensures { OnOk result (AddsRuns text.now (runs lines.now) folds.old.items folds.new.items) }
{
    let mut run: Option<Span> = None;
    for line in lines {
        if let Line::Comment(span) = *line {
            run = Some(joined(run, span));
            continue;
        }
        push_run(text, run, folds)?;
        run = None;
    }
    push_run(text, run, folds)?;
    Ok(())
}

// A run of comments with one more.
fn joined(run: Option<Span>, comment: Span) -> Span
    ensures { result ≡ joined run comment }
{
    match run {
        Some(first) => Span {
            start: first.start,
            end: comment.end,
        },
        None => comment,
    }
}

// Appends a run of comments, if there is one, over several lines.
fn push_run(text: &str, run: Option<Span>, folds: &mut Vec<Fold>) -> Result<(), AllocError>
    ensures { OnOk result (AddsRuns text.now (option_to_list run) folds.old.items folds.new.items) }
{
    match run {
        Some(span) => push_fold(
            text,
            0,
            Fold {
                span,
                kind: FoldKind::Comments,
            },
            folds,
        ),
        None => Ok(()),
    }
}
