//! Parts of a text and their replacements.
ghost use Rattle.std.specs.Prelude.{◌≡◌, IfOk, string_bytes};
ghost use Rattle.cedar_edits.specs.Edits.{AreInOrder, IsPartOf, edited, edited_by};

use cedar_tokens::token::Span;
use std::alloc::{AllocError, Global};

/// A part of a text, and its replacement.
///
/// The spans of several edits are in the same text, each after the one before it, and don't overlap.
#[derive(Debug, Drop)]
pub struct Edit {
    /// The bytes to remove.
    pub span: Span,
    /// What replaces them.
    pub text: String,
}

impl Edit {
    /// The text with this edit applied. The span lies in the text, on character boundaries. The only error is out of memory.
    pub fn apply(&self, alloc: Global, text: &str) -> Result<String, AllocError>
        requires { IsPartOf text.now self.now.span }
        ensures { IfOk result (λ r. string_bytes r ≡ edited text.now self.now.span (string_bytes self.now.text)) }
    {
        let mut result = String::new(alloc);
        result.push_str(&text[..self.span.start])?;
        result.push_str(self.text.as_str())?;
        result.push_str(&text[self.span.end..])?;
        Ok(result)
    }
}

/// The text with all of these edits applied. The spans are in order and in the text, at places that a client can name.
/// The only error is out of memory.
pub fn apply_edits(alloc: Global, text: &str, edits: &[Edit]) -> Result<String, AllocError>
    requires { AreInOrder text.now 0 edits.now }
    ensures { IfOk result (λ r. string_bytes r ≡ edited_by text.now edits.now) }
{
    let mut result = String::new(alloc);
    let mut at = 0;
    for edit in edits {
        result.push_str(&text[at..edit.span.start])?;
        result.push_str(edit.text.as_str())?;
        at = edit.span.end;
    }
    result.push_str(&text[at..])?;
    Ok(result)
}
