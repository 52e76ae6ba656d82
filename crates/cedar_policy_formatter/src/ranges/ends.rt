//! The line ends of a text.
ghost use Rattle.std.specs.Prelude.{◌≡◌, ◌↔◌, IfOk, IsTrue, string_bytes};
ghost use Rattle.cedar_grammar.specs.Texts.{Accepted};
ghost use Rattle.cedar_edits.specs.Edits.{IsPartOf, edited};
ghost use Rattle.cedar_edits.specs.Returns.{with_returns};
ghost use Rattle.cedar_policy_formatter.specs.Keeping.{InLineEnds, Keeps};

use crate::cst::laws::{accepted_is_not_refused, tree_is_of_accepted};
use crate::cst::parse_policies;
use crate::fmt::written_texts_agree;
use crate::token::Span;
use crate::{Config, FormatError, same_layout};
use cedar_edits::{Edit, has_returns, with_returns};
use std::alloc::{AllocError, Global};

// New bytes for a part of a text, in the line ends of the text.
pub(crate) fn in_line_ends(
    alloc: Global,
    text: &str,
    span: Span,
    new: String,
) -> Result<String, AllocError>
    requires { IsPartOf text.now span }
    ensures { IfOk result (λ put. InLineEnds text.now (edited text.now span (string_bytes new)) (edited text.now span (with_returns (string_bytes new))) (edited text.now span (string_bytes put))) }
{
    if !has_returns(text) {
        return Ok(new);
    }
    let returned = with_returns(alloc, new.as_str())?;
    let edit = Edit {
        span,
        text: returned,
    };
    let changed = edit.apply(alloc, text)?;
    if keeps(alloc, text, changed.as_str())? {
        Ok(edit.text)
    } else {
        Ok(new)
    }
}

// Whether the text, if it is accepted, keeps its list in the other.
fn keeps(alloc: Global, text: &str, other: &str) -> Result<bool, AllocError>
    ensures { IfOk result (λ r. IsTrue r ↔ Keeps text.now other.now) }
{
    written_texts_agree();
    accepted_is_not_refused();
    match same_layout(alloc, text, other, &Config::default()) {
        Ok(same) => Ok(same),
        Err(FormatError::OutOfMemory) => Err(AllocError),
        Err(_) => is_refused(alloc, text),
    }
}

// Whether the text is refused.
fn is_refused(alloc: Global, text: &str) -> Result<bool, AllocError>
    ensures { IfOk result (λ r. IsTrue r ↔ ¬ (Accepted text.now)) }
{
    accepted_is_not_refused();
    tree_is_of_accepted();
    match parse_policies(alloc, text) {
        Ok(_) => Ok(false),
        Err(FormatError::OutOfMemory) => Err(AllocError),
        Err(_) => Ok(true),
    }
}
