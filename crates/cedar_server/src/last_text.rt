//! What was read of the text judged last, so that a change of it is read alone.
ghost use Rattle.std.specs.Prelude.{◌≡◌, ℕ, List, IfOk, IfSome, OnOk, string_bytes};
ghost use Rattle.std.specs.List.{All};
ghost use Rattle.cedar_faults.specs.Faults.{BeginsWithPolicy, GoesOn, IsStep};
ghost use Rattle.cedar_server.specs.Diagnoses.{AreDiagnoses};
ghost use Rattle.cedar_server.specs.Inside.Standing.{StandsAt};

use crate::diagnoses::{Diagnosis, MOST, tell, tell_more};
use cedar_edits::Encoding;
use cedar_faults::reader::{FaultReader, Step};
use cedar_tokens::token::Span;
use std::alloc::{AllocError, Global};
use std::marker::Model;

/// The text judged last, and those of its policies that a change elsewhere can't make faulty.
#[derive(Drop)]
pub(crate) struct LastText {
    text: String,
    // In order: accepted policies, each through the line feed after its `;`.
    standing: Vec<Span>,
}

impl Model for LastText {
    ghost Value = { List ℕ };

    ghost view = { λ l. string_bytes l.text };

    ghost invariant = { λ l. All (StandsAt (string_bytes l.text)) l.standing.items };
}

impl LastText {
    /// No text was judged yet.
    pub(crate) fn new(alloc: Global) -> LastText {
        LastText {
            text: String::new(alloc),
            standing: Vec::new(alloc),
        }
    }

    /// What is wrong with a text: a diagnosis for each of its faults, in order, or for the first `MOST` and that there are more;
    /// none if and only if it is accepted. Policies of the text judged last that stand in this one too, as far from its start or
    /// from its end, are not read again.
    pub(crate) fn judge(
        &mut self,
        alloc: Global,
        text: &str,
        encoding: Encoding,
    ) -> Result<Vec<Diagnosis>, AllocError>
        ensures { IfOk result (λ diagnoses. AreDiagnoses encoding text.now diagnoses.items) }
    {
        let mut standing = Vec::new(alloc);
        let diagnoses = self.read(alloc, text, encoding, &mut standing)?;
        *self = LastText {
            text: String::from_str(alloc, text)?,
            standing,
        };
        Ok(diagnoses)
    }

    // What is wrong with a text. Adds the policies of the text that stand.
    fn read(
        &self,
        alloc: Global,
        text: &str,
        encoding: Encoding,
        standing: &mut Vec<Span>,
    ) -> Result<Vec<Diagnosis>, AllocError>
        ensures diagnoses { IfOk result (λ diagnoses. AreDiagnoses encoding text.now diagnoses.items) }
        ensures standing { OnOk result (All (StandsAt text.now) standing.old.items → All (StandsAt text.now) standing.new.items) }
    {
        let mut diagnoses = Vec::new(alloc);
        let mut reader = FaultReader::new(alloc, text);
        'steps: loop {
            match self.step(alloc, &mut reader, standing)? {
                Step::Policy => {}
                Step::Fault(fault) => {
                    if diagnoses.len() == MOST {
                        let last = tell_more(alloc, text, &fault, encoding)?;
                        diagnoses.push(last)?;
                        return Ok(diagnoses);
                    }
                    let diagnosis = tell(alloc, text, &fault, encoding)?;
                    diagnoses.push(diagnosis)?;
                }
                Step::End => return Ok(diagnoses),
            }
        }
    }

    // What comes next in the text of a reader. Adds the policy, if it is one that stands.
    fn step<'src>(
        &self,
        alloc: Global,
        reader: &mut FaultReader<'src>,
        standing: &mut Vec<Span>,
    ) -> Result<Step<'src>, AllocError>
        ensures step { IfOk result (IsStep reader.old reader.new) }
        ensures text { reader.new.text ≡ reader.old.text }
        ensures further { IfOk result (GoesOn reader.old.at reader.new.at) }
        ensures standing { OnOk result (All (StandsAt reader.old.text) standing.old.items → All (StandsAt reader.old.text) standing.new.items) }
    {
        let start = reader.at();
        let rest = reader.rest();
        let step = self.next_step(alloc, reader)?;
        if let Step::Policy = step {
            let end = reader.at();
            if rest.as_bytes()[end - start - 1] == b'\n' {
                standing.push(Span { start, end })?;
            }
        }
        Ok(step)
    }

    // What comes next in the text of a reader. A policy that is known isn't read.
    fn next_step<'src>(
        &self,
        alloc: Global,
        reader: &mut FaultReader<'src>,
    ) -> Result<Step<'src>, AllocError>
        ensures step { IfOk result (IsStep reader.old reader.new) }
        ensures text { reader.new.text ≡ reader.old.text }
        ensures further { IfOk result (GoesOn reader.old.at reader.new.at) }
    {
        match self.known(reader.at(), reader.rest()) {
            Some(len) => {
                reader.pass(len);
                Ok(Step::Policy)
            }
            None => reader.step(alloc),
        }
    }

    // The length of the policy that stood in the text judged last as far from its start, or from its end, if the rest of a text
    // from the byte `start` on begins with it.
    fn known(&self, start: usize, rest: &str) -> Option<usize>
        ensures { IfSome result (BeginsWithPolicy rest.now) }
    {
        if let Some(len) = self.begins_with(start, rest) {
            return Some(len);
        }
        let start = self.text.len().checked_sub(rest.len())?;
        self.begins_with(start, rest)
    }

    // The length of the policy that stood there in the text judged last, if the rest of a text begins with it.
    fn begins_with(&self, start: usize, rest: &str) -> Option<usize>
        ensures { IfSome result (BeginsWithPolicy rest.now) }
    {
        let Ok(index) = self
            .standing
            .binary_search_by_key(&start, |span| span.start)
        else {
            return None;
        };
        let Span { start, end } = self.standing[index];
        let policy = self.text.get(start..end)?;
        let _ = rest.strip_prefix(policy)?;
        Some(policy.len())
    }
}
