//! The sections of a text: each through a `;`.
ghost use Rattle.std.specs.Prelude.{◌<◌, IfOk, IfSome, MatchOption};
ghost use Rattle.std.specs.Str.{IsCharBoundary};
ghost use Rattle.cedar_grammar.specs.Texts.{Accepted};
ghost use Rattle.cedar_grammar.specs.NodeTrees.{IsTreeOf};
ghost use Rattle.cedar_server.specs.Sections.{IsSection, HasNoSection};

use crate::parts::Parts;
use cedar_cst::cst::parse_policies;
use cedar_grammar::error::FormatError;
use cedar_grammar::tree::Policies;
use cedar_grammar::tree_laws::accepted_is_not_refused;
use std::alloc::{AllocError, Global};

/// The bytes of the first section of a text, through its first `;`; `None` if it has no `;`.
pub fn section_len(text: &str) -> Option<usize>
    ensures section { MatchOption result (HasNoSection text.now) (IsSection text.now) }
    ensures boundary { IfSome result (IsCharBoundary text.now) }
    ensures nonempty { IfSome result (λ n. 0 < n) }
{
    let mut end = 0;
    for part in Parts::new(text) {
        end += part.text.len();
        if part.text == ";" {
            return Some(end);
        }
    }
    None
}

/// The policies of a section; `None` if it isn't accepted.
pub fn section_policies(alloc: Global, section: &str) -> Result<Option<Policies<'_>>, AllocError>
    ensures { IfOk result (λ policies. MatchOption policies (¬ (Accepted section.now)) (IsTreeOf section.now)) }
{
    accepted_is_not_refused();
    match parse_policies(alloc, section) {
        Ok(policies) => Ok(Some(policies)),
        Err(error) => match error {
            FormatError::OutOfMemory => Err(AllocError),
            _ => Ok(None),
        },
    }
}
