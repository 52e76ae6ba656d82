//! The second pass over marks, from the first to the last: what each of them writes, using what the first pass found.
ghost use Rattle.std.specs.Prelude.{◌≡◌, ◌+◌, ◌^◌, ◌<◌, ◌≤◌, [], ◌∷◌, if◌then◌else◌, length, OnOk, OnErr, IfOk};
ghost use Rattle.std.specs.List.{flat_map};
ghost use Rattle.cedar_layout.specs.Nodes.{nodes};
ghost use Rattle.cedar_layout.specs.Value.{doc_of};
ghost use Rattle.cedar_print.specs.WrittenMarks.{begin};
ghost use Rattle.cedar_print.specs.Marks.{mark_of, marks_of};
ghost use Rattle.cedar_print.specs.Clean.{units_of};
ghost use Rattle.cedar_print.specs.Rooms.{room_in};
ghost use Rattle.cedar_print.specs.Inside.Measured.{facts, facts_of};
ghost use Rattle.cedar_print.specs.Inside.Printed.{pieces_of, after_break, after_line, inside, outside, after, state_of, at_first};
ghost use Rattle.cedar_print.specs.Inside.Spare.{spare_to_enter};
ghost use Rattle.cedar_print.specs.Inside.Walked.{marks_in};
ghost use Rattle.cedar_print.specs.Inside.Written.{units_in, IsSolid};

use crate::mark::Mark;
use crate::measure::Known;
use cedar_layout::layout::{Document, Steps};
use std::alloc::{AllocError, Global};
use std::sync::ledger::Ledger;

/// The nest or the group that a mark is in.
#[derive(Clone, Copy)]
pub(crate) struct Frame {
    /// Whether it is in a flat group.
    pub flat: bool,
    /// The indentation of its breaks.
    pub indent: usize,
}

/// Around all marks.
const FIRST: Frame = Frame {
    flat: false,
    indent: 0,
};

/// What a mark writes.
#[derive(Clone, Copy)]
pub(crate) enum Written<'src> {
    /// A text other than a space or a line feed.
    Text(&'src str),
    /// A space.
    Space,
    /// A line feed, and the spaces of an indentation.
    Break(usize),
}

/// Where the second pass is, and what the first one found there.
#[derive(Drop)]
pub(crate) struct Place {
    pub here: Frame,
    /// The frames around this one, the nearest last.
    pub outer: Vec<Frame>,
    /// The column here, and the flat columns of the marks to come.
    pub start: u128,
    /// What the first pass found about the marks to come.
    pub known: Known,
}

impl Place {
    /// Before the first mark, without room yet.
    pub(crate) fn new(alloc: Global) -> Place {
        Place {
            here: FIRST,
            outer: Vec::new(alloc),
            start: 0,
            known: Known::new(alloc),
        }
    }

    /// Goes to the first of these marks, about which everything is known then. Each of them is a step.
    pub(crate) fn go_to_the_first<L: Ledger>(
        &mut self,
        marks: &[Mark<'_>],
        steps: &mut Steps<L>,
    ) -> Result<(), AllocError>
        ensures state { OnOk result (state_of self.new ≡ at_first (facts (marks_of marks.now))) }
        ensures full { OnErr result (room_in self.old < length marks.now) }
        ensures spare { OnOk result (room_in self.old ≤ spare_to_enter self.new) }
        ensures room { room_in self.old ≤ room_in self.new }
        ensures range { OnOk result ((facts (marks_of marks.now)).columns + 2 ^ 64 ≤ 2 ^ 128) }
        ensures steps { OnOk result (steps.new ≡ steps.old + length marks.now) }
        ensures least { steps.old ≤ steps.new }
        ensures most { steps.new ≤ steps.old + length marks.now }
    {
        self.known.measure(marks, steps)?;
        self.begin_anew();
        Ok(())
    }

    /// Goes to the first mark of a document, in the same way. Each case of the document is a step.
    pub(crate) fn go_to_the_first_of<L: Ledger>(
        &mut self,
        alloc: Global,
        doc: &Document<'_>,
        steps: &mut Steps<L>,
    ) -> Result<(), AllocError>
        ensures state { OnOk result (state_of self.new ≡ at_first (facts (marks_in (doc_of doc.now)))) }
        ensures range { OnOk result ((facts (marks_in (doc_of doc.now))).columns + 2 ^ 64 ≤ 2 ^ 128) }
        ensures steps { OnOk result (steps.new ≡ steps.old + nodes doc.now) }
        ensures least { steps.old ≤ steps.new }
        ensures most { steps.new ≤ steps.old + nodes doc.now }
    {
        self.known.measure_document(alloc, doc, steps)?;
        self.begin_anew();
        Ok(())
    }

    /// Goes to the first mark, about which everything is known.
    fn begin_anew(&mut self)
        ensures state { state_of self.new ≡ at_first (facts_of self.old.known) }
        ensures spare { room_in self.old ≤ spare_to_enter self.new }
        ensures room { room_in self.new ≡ room_in self.old }
    {
        self.here = FIRST;
        self.outer.clear();
        self.start = self.known.columns;
    }

    /// Passes a mark. Gives what it writes, if anything.
    pub(crate) fn pass<'src>(
        &mut self,
        mark: &Mark<'src>,
        width: usize,
    ) -> Result<Option<Written<'src>>, AllocError>
        ensures state { OnOk result (state_of self.new ≡ after width (mark_of mark.now) (state_of self.old)) }
        ensures units { IfOk result (λ x. units_in x ≡ flat_map units_of (pieces_of (mark_of mark.now) self.old.here)) }
        ensures solid { IfOk result IsSolid }
        ensures full { OnErr result (spare_to_enter self.old ≡ 0) }
        ensures spare { spare_to_enter self.old ≤ spare_to_enter self.new + 1 }
        ensures room { room_in self.old ≤ room_in self.new }
    {
        match mark {
            Mark::Text(text) => Ok(Some(text_or_blank(text))),
            Mark::Space => Ok(Some(Written::Space)),
            Mark::Line => Ok(self.pass_line(Some(Written::Space))),
            Mark::LineOrNil => Ok(self.pass_line(None)),
            Mark::Hard => Ok(Some(self.pass_break())),
            Mark::Nest(n) => {
                let inner = Frame {
                    flat: self.here.flat,
                    indent: self.here.indent.saturating_add_signed(n.columns),
                };
                self.begin(inner)?;
                Ok(None)
            }
            Mark::Begin => {
                self.begin_group(width)?;
                Ok(None)
            }
            Mark::EndNest | Mark::EndGroup => {
                self.end();
                Ok(None)
            }
            Mark::EndNothing => Ok(None),
        }
    }

    /// Passes a break that writes this where it is laid out flat.
    fn pass_line(&mut self, flat: Option<Written<'static>>) -> Option<Written<'static>>
        ensures state { state_of self.new ≡ after_line (state_of self.old) }
        ensures spare { spare_to_enter self.new ≡ spare_to_enter self.old }
        ensures room { room_in self.new ≡ room_in self.old }
        ensures value { result ≡ (if self.old.here.flat then flat.entry else Some (Written.Break self.old.here.indent)) }
    {
        if self.here.flat {
            self.known.breaks.pop();
            return flat;
        }
        Some(self.pass_break())
    }

    /// Passes a break that is not laid out flat.
    fn pass_break(&mut self) -> Written<'static>
        ensures state { state_of self.new ≡ after_break (state_of self.old) }
        ensures spare { spare_to_enter self.new ≡ spare_to_enter self.old }
        ensures room { room_in self.new ≡ room_in self.old }
        ensures value { result ≡ Written.Break self.old.here.indent }
    {
        let later = self.known.breaks.pop().unwrap_or(0);
        self.start = (self.here.indent as u128).saturating_add(later);
        Written::Break(self.here.indent)
    }

    /// Goes into the group that begins here, if it is one. It is laid out flat if it is in a flat one, or fits with its tail.
    fn begin_group(&mut self, width: usize) -> Result<(), AllocError>
        ensures state { OnOk result (state_of self.new ≡ after width begin (state_of self.old)) }
        ensures full { OnErr result (spare_to_enter self.old ≡ 0) }
        ensures spare { spare_to_enter self.old ≤ spare_to_enter self.new + 1 }
        ensures room { room_in self.old ≤ room_in self.new }
    {
        if let Some(Some(stop)) = self.known.begins.pop() {
            let inner = Frame {
                flat: self.here.flat || self.start.saturating_sub(stop) <= width as u128,
                indent: self.here.indent,
            };
            self.begin(inner)?;
        }
        Ok(())
    }

    /// Goes into a nest or a group.
    fn begin(&mut self, inner: Frame) -> Result<(), AllocError>
        ensures state { OnOk result (state_of self.new ≡ inside inner (state_of self.old)) }
        ensures full { OnErr result (spare_to_enter self.old ≡ 0) }
        ensures spare { spare_to_enter self.old ≤ spare_to_enter self.new + 1 }
        ensures room { room_in self.old ≤ room_in self.new }
    {
        self.outer.push(self.here)?;
        self.here = inner;
        Ok(())
    }

    /// Goes back to what is around the nest or the group that ends here.
    fn end(&mut self)
        ensures state { state_of self.new ≡ outside (state_of self.old) }
        ensures spare { spare_to_enter self.old ≤ spare_to_enter self.new }
        ensures room { room_in self.new ≡ room_in self.old }
    {
        if let Some(outer) = self.outer.pop() {
            self.here = outer;
        }
    }
}

/// A text, or the space or line feed that it is.
fn text_or_blank(text: &str) -> Written<'_>
    ensures units { units_in (Some result) ≡ text.now ∷ [] }
    ensures solid { IsSolid (Some result) }
{
    if text == " " {
        return Written::Space;
    }
    if text == "\n" {
        return Written::Break(0);
    }
    Written::Text(text)
}
