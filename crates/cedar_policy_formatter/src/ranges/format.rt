//! The edits that lay out a text, or the policies of it touched by a range.
ghost use Rattle.std.specs.Prelude.{◌≡◌, ◌<◌, ◌++◌, IfErr, IfOk, OnErr, OnOk, MatchResult, string_bytes};
ghost use Rattle.cedar_grammar.specs.Refusals.{OutOfMemoryOr, Refuses};
ghost use Rattle.cedar_grammar.specs.Texts.{Accepted};
ghost use Rattle.cedar_policy_formatter.specs.Refused.{IsMemory};
ghost use Rattle.cedar_edits.specs.Edits.{IsPartOf, edited_by, within};
ghost use Rattle.cedar_edits.specs.Lines.{AreLeastEdits};
ghost use Rattle.cedar_policy_formatter.specs.RangeEdits.{IsFormattedAt, IsFormattedOf, IsRefusedAt, LaysOutPolicies, feeds_after};
ghost use Rattle.cedar_policy_formatter.specs.Keeping.{Keeps};
ghost use Rattle.cedar_policy_formatter.specs.Inside.Parts.{HoldsPieces};

use crate::cst::FormatError;
use crate::cst::laws::accepted_is_not_refused;
use crate::fmt::{written_outputs_agree, written_texts_agree};
use crate::ranges::ends::in_line_ends;
use crate::ranges::pieces::edits_between;
use crate::ranges::touched::touched_span;
use crate::token::Span;
use crate::{Config, policies_str_to_pretty};
use cedar_edits::Edit;
use std::alloc::{AllocError, Global};

/// The edits that turn a text into its output at the width and the indentation of `config`; none if it is its own output.
///
/// Each edit replaces whole lines of one policy with the comments around it, and leaves out the lines that stay. The
/// output gets the text's line ends: if the text has line feeds, and a carriage return before each of them, so has the
/// text with the edits applied. A text is refused as `policies_str_to_pretty` refuses it.
pub fn format_text(alloc: Global, text: &str, config: &Config) -> Result<Vec<Edit>, FormatError>
    ensures answer { MatchResult result (λ _. Accepted text.now) (OutOfMemoryOr (Refuses text.now)) }
    ensures output { IfOk result (λ edits. IsFormattedOf config.now.line_width config.now.indent_width text.now (edited_by text.now edits.items)) }
    ensures keeps { IfOk result (λ edits. Keeps text.now (edited_by text.now edits.items)) }
    ensures edits { IfOk result (λ edits. AreLeastEdits text.now edits.items) }
{
    written_texts_agree();
    written_outputs_agree();
    let output = policies_str_to_pretty(alloc, text, config)?;
    let whole = Span {
        start: 0,
        end: text.len(),
    };
    let output = in_line_ends(alloc, text, whole, output)?;
    let edits = edits_between(alloc, text, whole, output.as_str())?;
    Ok(edits)
}

/// The edits that lay out the policies of `text` touched by `range`, at the width and the indentation of `config`; none
/// if they are laid out already.
///
/// A policy's piece of the text goes from the end of the piece before through the policy's `;` and the rest of its line,
/// so it includes the comments before the policy and the comment after its `;`. The range touches a piece if it contains
/// one of its bytes; an empty range, or one that ends before it starts, touches the piece of the byte where it starts.
/// Whatever lies past the last piece touches nothing, and so does whatever lies past a place where no token begins.
/// The pieces touched are replaced by their output, after an empty line if a piece comes before, in the text's line ends.
///
/// If the text is accepted, it is still accepted with the edits applied, and has the same list, so its output stays
/// what it is. The text may also be refused: what the pieces touched hold has to be accepted by itself, and is refused
/// otherwise, as `policies_str_to_pretty` refuses it, at a byte counted from the start of these pieces.
pub fn format_range(
    alloc: Global,
    text: &str,
    range: Span,
    config: &Config,
) -> Result<Vec<Edit>, FormatError>
    ensures answer { MatchResult result (λ edits. IsFormattedAt config.now.line_width config.now.indent_width text.now range (edited_by text.now edits.items)) (OutOfMemoryOr (IsRefusedAt text.now range)) }
    ensures accepted { IfErr result (λ e. Accepted text.now → IsMemory e) }
    ensures keeps { IfOk result (λ edits. Keeps text.now (edited_by text.now edits.items)) }
    ensures edits { IfOk result (λ edits. AreLeastEdits text.now edits.items) }
{
    accepted_is_not_refused();
    let span = touched_span(text, range);
    let layout = lay_out(alloc, text, span, config)?;
    let layout = in_line_ends(alloc, text, span, layout)?;
    let edits = edits_between(alloc, text, span, layout.as_str())?;
    Ok(edits)
}

// The policies of a span laid out, after the line feeds that separate them from what comes before; nothing for no policies.
fn lay_out(alloc: Global, text: &str, span: Span, config: &Config) -> Result<String, FormatError>
    requires part { IsPartOf text.now span }
    requires pieces { HoldsPieces text.now span }
    ensures layout { IfOk result (λ edit. LaysOutPolicies config.now.line_width config.now.indent_width text.now span (string_bytes edit)) }
    ensures refused { IfErr result (OutOfMemoryOr (Refuses (within text.now span))) }
    ensures some { OnErr result (span.start < span.end) }
{
    written_texts_agree();
    written_outputs_agree();
    let mut edit = String::new(alloc);
    if span.start == span.end {
        return Ok(edit);
    }
    push_feeds(&text[..span.start], &mut edit)?;
    let layout = policies_str_to_pretty(alloc, &text[span.start..span.end], config)?;
    edit.push_str(layout.as_str())?;
    Ok(edit)
}

// The line feeds that make an empty line after `before`.
fn push_feeds(before: &str, text: &mut String) -> Result<(), AllocError>
    ensures { OnOk result (string_bytes text.new ≡ string_bytes text.old ++ feeds_after before.now) }
{
    if before.is_empty() {
        return Ok(());
    }
    if before.ends_with('\n') {
        text.push('\n')
    } else {
        text.push_str("\n\n")
    }
}
