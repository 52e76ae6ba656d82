//! Which tokens can follow those of a text.
ghost use Rattle.std.specs.Prelude.{◌↔◌, IsTrue, IfOk, MatchOption, map};
ghost use Rattle.cedar_tokens.specs.TokenKinds.{kind_of};
ghost use Rattle.cedar_reading.specs.Tokens.{HasTokens};
ghost use Rattle.cedar_faults.specs.Inside.TokenBeginnings.{IsPlaceOf, KindsFollow, HasTree, OfTokens};
ghost use Rattle.cedar_faults.specs.Inside.Pendings.{IsAfter, NeverRead};

use crate::kinds::Kinds;
use crate::pending::Pending;
use crate::samples::all_kinds;
use cedar_grammar::error::FormatError;
use cedar_tokens::kind::kind_of;
use cedar_tokens::lexer::UnitKind;
use cedar_tokens::units::Units;
use std::alloc::{AllocError, Global};

/// What can follow the tokens of a text.
#[derive(Drop)]
pub struct Continuation {
    /// The kinds of the tokens that can come next.
    pub kinds: Kinds,
    /// Whether the text may end there: its tokens are an accepted list.
    pub end: bool,
}

/// What can follow the tokens of `text`, which are read once.
pub fn what_follows(alloc: Global, text: &str) -> Result<Continuation, AllocError>
    requires { HasTokens text.now }
    ensures kinds { IfOk result (λ next. KindsFollow text.now next.kinds.items.items) }
    ensures end { IfOk result (λ next. IsTrue next.end ↔ HasTree text.now) }
{
    let mut items = Vec::new(alloc);
    let Some(pending) = read_tokens(alloc, text)? else {
        return Ok(Continuation {
            kinds: Kinds { items },
            end: false,
        });
    };
    for kind in all_kinds() {
        if pending.can_read(alloc, kind)? {
            items.push(kind)?;
        }
    }
    Ok(Continuation {
        kinds: Kinds { items },
        end: pending.can_end(),
    })
}

// What is still to be read after the tokens of `text`; `None` if one of them can't come.
fn read_tokens(alloc: Global, text: &str) -> Result<Option<Pending>, AllocError>
    requires { HasTokens text.now }
    ensures { IfOk result (λ pending. OfTokens text.now (λ front. MatchOption pending (NeverRead (map kind_of front)) (IsAfter (map kind_of front)))) }
{
    let mut pending = Pending::new(alloc)?;
    for unit in Units::new(text) {
        if unit.kind != UnitKind::Token {
            continue;
        }
        if !pending.read(kind_of(unit.text))? {
            return Ok(None);
        }
    }
    Ok(Some(pending))
}

/// Where a refused text leaves the grammar, if it does.
pub fn place_of(error: FormatError) -> Result<Option<usize>, AllocError>
    ensures { IfOk result (λ at. IsPlaceOf error at) }
{
    match error {
        FormatError::Grammar { at } => Ok(Some(at)),
        FormatError::TooDeep { at } => Ok(Some(at)),
        FormatError::OutOfMemory => Err(AllocError),
        _ => Ok(None),
    }
}
