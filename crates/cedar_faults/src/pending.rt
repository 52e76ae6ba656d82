//! What is still to be read of policies after some of their tokens.
ghost use Rattle.std.specs.Prelude.{◌≡◌, ◌↔◌, ◌∷◌, ◌++◌, [], IsTrue, IfOk, OnOk, map};
ghost use Rattle.cedar_faults.specs.Inside.Pendings.{CanEnd, CanRead, ReadsOn, all_pending, pair, parts_of, with_levels};
ghost use Rattle.std.specs.List.{list_all};
ghost use Rattle.cedar_faults.specs.Inside.Turns.{is_optional};
ghost use Rattle.cedar_faults.specs.Inside.Reaching.{levels_in, room};

use crate::part::{Part, Turn};
use cedar_grammar::MAX_NESTING;
use cedar_tokens::kind::Kind;
use std::alloc::{AllocError, Global};

// A part that is still to be read, in which so many levels can be nested.
#[derive(Clone, Copy)]
struct Ahead {
    part: Part,
    levels: usize,
}

/// What is still to be read of policies.
#[derive(Drop)]
pub struct Pending {
    // The next part comes last.
    parts: Vec<Ahead>,
}

impl Pending {
    /// All of the policies of a text.
    pub fn new(alloc: Global) -> Result<Pending, AllocError>
        ensures { IfOk result (λ pending. parts_of pending ≡ all_pending) }
    {
        let mut parts = Vec::new(alloc);
        parts.push(Ahead {
            part: Part::Policies,
            levels: MAX_NESTING + 1,
        })?;
        Ok(Pending { parts })
    }

    /// Reads a token of this kind, and returns whether it can come here. If it can't, nothing is known of what is left.
    pub fn read(&mut self, kind: Kind) -> Result<bool, AllocError>
        ensures { IfOk result (ReadsOn self.old kind self.new) }
    {
        while let Some(ahead) = self.parts.pop() {
            let inside = levels_inside(ahead.part, ahead.levels);
            match ahead.part.turn(kind, ahead.levels > 0) {
                Turn::Takes(parts) => {
                    self.put(parts, inside)?;
                    return Ok(true);
                }
                Turn::Opens(parts) => self.put(parts, inside)?,
                Turn::Stops => return Ok(false),
            }
        }
        Ok(false)
    }

    /// Whether a token of this kind can come here.
    pub fn can_read(&self, alloc: Global, kind: Kind) -> Result<bool, AllocError>
        ensures { IfOk result (CanRead self.now kind) }
    {
        let mut parts = Vec::new(alloc);
        parts.extend_from_slice(&self.parts)?;
        let mut ahead = Pending { parts };
        ahead.read(kind)
    }

    /// Whether nothing more has to come.
    pub fn can_end(&self) -> bool
        ensures { IsTrue result ↔ CanEnd self.now }
    {
        all_optional(&self.parts)
    }

    // Has these parts come next.
    fn put(&mut self, parts: &[Part], levels: usize) -> Result<(), AllocError>
        ensures { IfOk result (λ _. parts_of self.new ≡ map (with_levels levels) parts.now ++ parts_of self.old) }
    {
        let Some((first, more)) = parts.split_first() else {
            return Ok(());
        };
        self.put(more, levels)?;
        self.parts.push(Ahead {
            part: *first,
            levels,
        })?;
        Ok(())
    }
}

// How many levels can be nested in the parts that a part is made of.
fn levels_inside(part: Part, levels: usize) -> usize
    ensures { result ≡ levels_in part levels }
{
    match part {
        Part::Inner => levels.saturating_sub(1),
        _ => levels,
    }
}

// Whether all of these parts can be empty.
fn all_optional(parts: &[Ahead]) -> bool
    ensures { result ≡ list_all (λ a. is_optional a.part) parts.now }
{
    parts.iter().all(|ahead| ahead.part.is_optional())
}
