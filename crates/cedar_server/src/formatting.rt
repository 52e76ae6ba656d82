//! The answers to requests for a layout.
ghost use Rattle.std.specs.Prelude.{IfOk};
ghost use Rattle.cedar_server.specs.Layouts.{LaysOut, LaysOutPart};

use crate::messages::Answer;
use cedar_edits::{Encoding, Range, offset_at, place_edits};
use cedar_policy_formatter::ranges::{format_range, format_text};
use cedar_policy_formatter::token::Span;
use cedar_policy_formatter::{Config, FormatError};
use std::alloc::{AllocError, Global};

/// The edits that make the output of a text, in its line ends; nothing if it is refused.
pub(crate) fn format_whole(
    alloc: Global,
    text: &str,
    config: &Config,
    encoding: Encoding,
) -> Result<Answer, AllocError>
    ensures { IfOk result (LaysOut encoding config.now.line_width config.now.indent_width text.now) }
{
    match format_text(alloc, text, config) {
        Ok(edits) => {
            let placed = place_edits(alloc, text, edits, encoding)?;
            Ok(Answer::Edits(placed))
        }
        Err(FormatError::OutOfMemory) => Err(AllocError),
        Err(_) => Ok(Answer::Nothing),
    }
}

/// The edits that lay out the policies touched by a range; nothing if they are refused by themselves.
pub(crate) fn format_part(
    alloc: Global,
    text: &str,
    range: Range,
    config: &Config,
    encoding: Encoding,
) -> Result<Answer, AllocError>
    ensures { IfOk result (LaysOutPart encoding config.now.line_width config.now.indent_width range text.now) }
{
    let touched = Span {
        start: offset_at(text, range.start, encoding),
        end: offset_at(text, range.end, encoding),
    };
    match format_range(alloc, text, touched, config) {
        Ok(edits) => {
            let placed = place_edits(alloc, text, edits, encoding)?;
            Ok(Answer::Edits(placed))
        }
        Err(FormatError::OutOfMemory) => Err(AllocError),
        Err(_) => Ok(Answer::Nothing),
    }
}
