//! The classes of the tokens and comments of a text.
ghost use Rattle.std.specs.Prelude.{IfOk};
ghost use Rattle.cedar_server.specs.Semantic.{AreSemanticTokens};
ghost use Rattle.cedar_server.specs.Inside.Ahead.{HasAhead};
ghost use Rattle.cedar_server.specs.PartSteps.{parts_left};

use crate::classes::{Class, Neighbours, class_of};
use crate::parts::{PartKind, Parts};
use cedar_tokens::kind::{Kind, kind_of};
use cedar_tokens::token::Span;
use std::alloc::{AllocError, Global};

/// A token or a comment: its bytes in the text, and its class.
#[derive(Clone, Copy)]
pub struct SemanticToken {
    pub span: Span,
    pub class: Class,
}

/// The tokens and comments of any text, in order, each with its class. Where no unit begins, one character is passed over.
pub fn semantic_tokens(alloc: Global, text: &str) -> Result<Vec<SemanticToken>, AllocError>
    ensures { IfOk result (λ tokens. AreSemanticTokens text.now tokens.items) }
{
    let mut tokens = Vec::new(alloc);
    let mut before = None;
    let mut end = 0;
    let mut parts = Parts::new(text);
    'parts: while let Some(part) = parts.next() {
        let start = end;
        end += part.text.len();
        let class = match part.kind {
            PartKind::Token => {
                let kind = kind_of(part.text);
                let (next, second) = kinds_ahead(parts);
                let around = Neighbours {
                    before,
                    next,
                    second,
                };
                before = Some(kind);
                class_of(around, kind)
            }
            PartKind::Comment => Class::Comment,
            PartKind::Other => continue,
        };
        tokens.push(SemanticToken {
            span: Span { start, end },
            class,
        })?;
    }
    Ok(tokens)
}

// The kinds of the first two tokens among these parts.
fn kinds_ahead(parts: Parts) -> (Option<Kind>, Option<Kind>)
    ensures { HasAhead (parts_left parts.entry) result.0 result.1 }
{
    let mut first = None;
    for part in parts {
        if part.kind == PartKind::Token {
            let kind = kind_of(part.text);
            match first {
                Some(_) => return (first, Some(kind)),
                None => first = Some(kind),
            }
        }
    }
    (first, None)
}
