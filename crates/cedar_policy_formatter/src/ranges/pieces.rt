//! The edits between a part of a text and new bytes for it, piece by piece.
ghost use Rattle.std.specs.Prelude.{◌≡◌, IfOk, OnOk};
ghost use Rattle.cedar_edits.specs.Edits.{IsNamedPart, edited, edited_by};
ghost use Rattle.cedar_edits.specs.Lines.{AreLeastEdits};
ghost use Rattle.cedar_policy_formatter.specs.Inside.Growing.{Adds};

use crate::ranges::cuts::first_piece;
use crate::token::Span;
use cedar_edits::{Edit, line_edit};
use std::alloc::{AllocError, Global};

// The edits that turn the part of the text into `new`: at most one for each pair of pieces, and one for what follows them.
pub(crate) fn edits_between(
    alloc: Global,
    text: &str,
    span: Span,
    new: &str,
) -> Result<Vec<Edit>, AllocError>
    requires { IsNamedPart text.now span }
    ensures bytes { IfOk result (λ edits. edited_by text.now edits.items ≡ edited text.now span new.now) }
    ensures edits { IfOk result (λ edits. AreLeastEdits text.now edits.items) }
{
    let mut edits = Vec::new(alloc);
    if &text[span.start..span.end] == new {
        return Ok(edits);
    }
    let mut at = span.start;
    let mut from = 0;
    'pieces: while let Some(len) = first_piece(&text[at..span.end]) {
        let Some(new_len) = first_piece(&new[from..]) else {
            break;
        };
        let (end, to) = (at + len, from + new_len);
        push_edit(
            alloc,
            text,
            Span { start: at, end },
            &new[from..to],
            &mut edits,
        )?;
        at = end;
        from = to;
    }
    push_edit(
        alloc,
        text,
        Span {
            start: at,
            end: span.end,
        },
        &new[from..],
        &mut edits,
    )?;
    Ok(edits)
}

// Adds the edit that turns the part of the text into `new`, if anything changes.
fn push_edit(
    alloc: Global,
    text: &str,
    span: Span,
    new: &str,
    edits: &mut Vec<Edit>,
) -> Result<(), AllocError>
    requires { IsNamedPart text.now span }
    ensures { OnOk result (Adds text.now span new.now edits.old.items edits.new.items) }
{
    if let Some(edit) = line_edit(alloc, text, span, new)? {
        edits.push(edit)?;
    }
    Ok(())
}
