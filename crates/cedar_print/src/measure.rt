//! The first pass over marks, from the last to the first. It finds what the second one needs about groups and breaks.
ghost use Rattle.std.specs.Prelude.{◌≡◌, ◌+◌, ◌^◌, ◌<◌, ◌≤◌, [], length, OnOk, OnErr};
ghost use Rattle.cedar_layout.specs.Nodes.{nodes};
ghost use Rattle.cedar_layout.specs.Value.{doc_of};
ghost use Rattle.cedar_print.specs.Marks.{mark_of, marks_of};
ghost use Rattle.cedar_print.specs.Inside.Measured.{before, before_break, facts, facts_of};
ghost use Rattle.cedar_print.specs.Rooms.{room_to_measure};
ghost use Rattle.cedar_print.specs.Inside.Spare.{spare_to_measure};
ghost use Rattle.cedar_print.specs.Inside.Walked.{marks_in};

use crate::mark::Mark;
use crate::walk::Backward;
use cedar_layout::layout::columns::columns_of;
use cedar_layout::layout::{Document, Steps};
use std::alloc::{AllocError, Global};
use std::sync::ledger::Ledger;

/// The columns of a hard break in a group that is laid out flat: more than any width, so that the group is broken.
const TOO_WIDE: u128 = 1 << 64;

/// The most columns of a document. A mark has at most 2^64, so more would take 2^64 - 1 marks, which fit in no memory.
const MOST: u128 = u128::MAX - TOO_WIDE;

/// What is known at a mark about the marks from there on.
#[derive(Drop)]
pub(crate) struct Known {
    /// Their columns, all laid out flat.
    pub columns: u128,
    /// The columns of those from the next break on.
    pub stop: u128,
    /// For each end of what began earlier: the columns from the next break after that end on, if it is a group's. The last
    /// one is that of the first end.
    pub ends: Vec<Option<u128>>,
    /// For each break the columns after it. The last one is that of the first break.
    pub breaks: Vec<u128>,
    /// For each beginning what is known of its end. The last one is that of the first beginning.
    pub begins: Vec<Option<u128>>,
}

impl Known {
    /// Nothing is known, and there is no room yet.
    pub(crate) fn new(alloc: Global) -> Known {
        Known {
            columns: 0,
            stop: 0,
            ends: Vec::new(alloc),
            breaks: Vec::new(alloc),
            begins: Vec::new(alloc),
        }
    }

    /// Finds what is known at the first of these marks. Each of them is a step.
    pub(crate) fn measure<L: Ledger>(
        &mut self,
        marks: &[Mark<'_>],
        steps: &mut Steps<L>,
    ) -> Result<(), AllocError>
        ensures facts { OnOk result (facts_of self.new ≡ facts (marks_of marks.now)) }
        ensures full { OnErr result (room_to_measure self.old < length marks.now) }
        ensures room { room_to_measure self.old ≤ room_to_measure self.new }
        ensures columns { OnOk result (self.new.columns + 2 ^ 64 ≤ 2 ^ 128) }
        ensures steps { OnOk result (steps.new ≡ steps.old + length marks.now) }
        ensures least { steps.old ≤ steps.new }
        ensures most { steps.new ≤ steps.old + length marks.now }
    {
        self.go_to_the_end();
        for i in (0..marks.len()).rev() {
            steps.tick();
            self.take_up(&marks[i])?;
        }
        Ok(())
    }

    /// Finds what is known at the first mark of a document. Each case of the document is a step.
    pub(crate) fn measure_document<L: Ledger>(
        &mut self,
        alloc: Global,
        doc: &Document<'_>,
        steps: &mut Steps<L>,
    ) -> Result<(), AllocError>
        ensures facts { OnOk result (facts_of self.new ≡ facts (marks_in (doc_of doc.now))) }
        ensures columns { OnOk result (self.new.columns + 2 ^ 64 ≤ 2 ^ 128) }
        ensures steps { OnOk result (steps.new ≡ steps.old + nodes doc.now) }
        ensures least { steps.old ≤ steps.new }
        ensures most { steps.new ≤ steps.old + nodes doc.now }
    {
        self.go_to_the_end();
        let mut walk = Backward::new(alloc, doc)?;
        while let Some(mark) = walk.next(steps)? {
            self.take_up(&mark)?;
            if self.columns > MOST {
                return Err(AllocError);
            }
        }
        Ok(())
    }

    /// Goes to the end, where nothing follows.
    fn go_to_the_end(&mut self)
        ensures facts { facts_of self.new ≡ facts [] }
        ensures room { room_to_measure self.new ≡ room_to_measure self.old }
        ensures spare { spare_to_measure self.new ≡ room_to_measure self.old }
    {
        self.columns = 0;
        self.stop = 0;
        self.ends.clear();
        self.breaks.clear();
        self.begins.clear();
    }

    /// Goes on to what is known before a mark.
    #[tactic(auto, using(crate::proofs::Columns::columns_of_space))]
    fn take_up(&mut self, mark: &Mark<'_>) -> Result<(), AllocError>
        requires { self.old.columns + 2 ^ 64 < 2 ^ 128 }
        ensures facts { OnOk result (facts_of self.new ≡ before (mark_of mark.now) (facts_of self.old)) }
        ensures full { OnErr result (spare_to_measure self.old ≡ 0) }
        ensures spare { spare_to_measure self.old ≤ spare_to_measure self.new + 1 }
        ensures room { room_to_measure self.old ≤ room_to_measure self.new }
        ensures columns { self.new.columns ≤ self.old.columns + 2 ^ 64 }
    {
        match mark {
            Mark::Text(text) => self.columns += columns_of(text),
            Mark::Space => self.columns += 1,
            Mark::Line => self.break_before(1)?,
            Mark::LineOrNil => self.break_before(0)?,
            Mark::Hard => self.break_before(TOO_WIDE)?,
            Mark::Nest(_) => {
                self.ends.pop();
            }
            Mark::Begin => {
                let end = self.ends.pop().unwrap_or(None);
                self.begins.push(end)?;
            }
            Mark::EndNest | Mark::EndNothing => self.ends.push(None)?,
            Mark::EndGroup => self.ends.push(Some(self.stop))?,
        }
        Ok(())
    }

    /// Goes on to what is known before a break that takes this many columns where it is laid out flat.
    fn break_before(&mut self, columns: u128) -> Result<(), AllocError>
        requires { self.old.columns + columns < 2 ^ 128 }
        ensures facts { OnOk result (facts_of self.new ≡ before_break columns (facts_of self.old)) }
        ensures full { OnErr result (spare_to_measure self.old ≡ 0) }
        ensures spare { spare_to_measure self.old ≤ spare_to_measure self.new + 1 }
        ensures room { room_to_measure self.old ≤ room_to_measure self.new }
        ensures columns { self.new.columns ≤ self.old.columns + columns }
    {
        self.breaks.push(self.columns)?;
        self.columns += columns;
        self.stop = self.columns;
        Ok(())
    }
}
