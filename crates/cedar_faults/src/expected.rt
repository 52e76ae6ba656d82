//! What could come at the place where a text leaves the grammar.
ghost use Rattle.std.specs.Prelude.{IfOk, MatchOption};
ghost use Rattle.cedar_faults.specs.Inside.Firsts.{BeginsWithFirst};
ghost use Rattle.cedar_faults.specs.Inside.Leaving.{LeavesAfter};
ghost use Rattle.cedar_faults.specs.Expectations.{IsExpected, NeverLeaves};

use crate::expectation::Expected;
use crate::kinds::names_of;
use crate::probe::{place_of, what_follows};
use cedar_cst::cst::PolicyReader;
use cedar_grammar::tree_laws::{accepted_is_not_refused, refusal_is_unique};
use cedar_tokens::units::Units;
use std::alloc::{AllocError, Global};

/// What could come where `text` leaves the grammar, that is, where `parse_policies` refuses it as `Grammar` or `TooDeep`.
/// `None` for an accepted text, and for one that is refused for its tokens.
pub fn expected<'src>(alloc: Global, text: &'src str) -> Result<Option<Expected<'src>>, AllocError>
    ensures { IfOk result (λ expected. MatchOption expected (NeverLeaves text.now) (IsExpected text.now)) }
{
    let Some(leaving) = leave(alloc, text)? else {
        return Ok(None);
    };
    let from = text.len() - leaving.rest.len();
    let (before, after) = leaving.rest.split_at(leaving.at - from);
    let next = what_follows(alloc, before)?;
    let names = names_of(alloc, &next.kinds)?;
    Ok(Some(Expected {
        at: leaving.at,
        found: first_unit(after),
        kinds: next.kinds,
        names,
        end: next.end,
    }))
}

// Where a text leaves the grammar.
#[derive(Drop)]
struct Leaving<'src> {
    // In bytes from the start of the text.
    at: usize,
    // What follows the whole policies before the place.
    rest: &'src str,
}

// Where `text` leaves the grammar, if it does.
fn leave<'src>(alloc: Global, text: &'src str) -> Result<Option<Leaving<'src>>, AllocError>
    ensures { IfOk result (λ leaving. MatchOption leaving (NeverLeaves text.now) (LeavesAfter text.now)) }
{
    refusal_is_unique();
    accepted_is_not_refused();
    let mut reader = PolicyReader::new(text);
    'policies: loop {
        match reader.next(alloc) {
            Ok(Some(policy)) => drop(policy),
            Ok(None) => return Ok(None),
            Err(error) => {
                let rest = reader.rest();
                return match place_of(error)? {
                    Some(at) => Ok(Some(Leaving { at, rest })),
                    None => Ok(None),
                };
            }
        }
    }
}

// The first unit of `text`, if there is one.
fn first_unit(text: &str) -> Option<&str>
    ensures { BeginsWithFirst text.now result }
{
    let unit = Units::new(text).next()?;
    Some(unit.text)
}
