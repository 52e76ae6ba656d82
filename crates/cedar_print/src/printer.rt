//! The layout of marks at a width, without blank lines.
ghost use Rattle.std.specs.Prelude.{◌≡◌, ◌+◌, ◌*◌, ◌<◌, ◌≤◌, ◌++◌, false, length, take, string_bytes, string_len, string_capacity, List, ℕ, OnOk, OnErr};
ghost use Rattle.std.specs.Str.{trim};
ghost use Rattle.cedar_layout.specs.Layout.{Doc};
ghost use Rattle.cedar_print.specs.WrittenMarks.{AreMarks};
ghost use Rattle.cedar_print.specs.Marks.{marks_of};
ghost use Rattle.cedar_print.specs.Clean.{without_blank_lines, IsTheCleanLayoutAt};
ghost use Rattle.cedar_print.specs.Rooms.{room_of, HasNoRoomFor};
ghost use Rattle.cedar_print.specs.Inside.Written.{units_at, AreCounted, HasNoRoomForUnits};

use crate::mark::Mark;
use crate::place::Place;
use crate::write::{write_clean, write_held};
use cedar_layout::layout::Steps;
use cedar_layout::trim::trim_from;
use std::alloc::{AllocError, Global};
use std::marker::Brand;
use std::sync::ledger::{Blank, Ledger};

/// Lays out marks. Between two calls it only holds memory for reuse.
#[derive(Drop)]
pub struct Printer {
    place: Place,
}

impl Printer {
    /// A printer without room yet.
    pub fn new(alloc: Global) -> Printer {
        Printer {
            place: Place::new(alloc),
        }
    }

    /// Appends the layout of marks at a width, in columns, without its blank lines and without blanks at its ends. It begins
    /// in column 0, with indentation 0.
    pub fn lay_out_clean(
        &mut self,
        marks: &[Mark<'_>],
        width: usize,
        out: &mut String,
    ) -> Result<(), AllocError>
        // No other text is a layout of the marks' document at the width.
        ensures ok { OnOk result ((d : Doc) → AreMarks (marks_of marks.now) d → (t : List ℕ)
            × IsTheCleanLayoutAt width d t
            × (string_bytes out.new ≡ string_bytes out.old ++ t)) }
        ensures err { OnErr result (string_bytes out.new ≡ string_bytes out.old) }
        // Memory runs out only where the printer has no room for so many marks, or `out` has none for the layout.
        ensures memory { OnErr result (length marks.now ≤ room_of self.old → HasNoRoomFor width (marks_of marks.now) (string_capacity out.old) (string_len out.old)) }
        ensures room { room_of self.old ≤ room_of self.new }
    {
        self.lay_out_from::<Brand>(marks, width, out, Blank::new(1))
    }

    /// The same, discarding the step count.
    fn lay_out_from<L: Ledger>(
        &mut self,
        marks: &[Mark<'_>],
        width: usize,
        out: &mut String,
        blank: Blank,
    ) -> Result<(), AllocError>
        requires name { blank.name ≡ L.name }
        requires parts { blank.parts ≡ L.parts }
        requires some { 0 < L.parts }
        ensures ok { OnOk result ((d : Doc) → AreMarks (marks_of marks.now) d → (t : List ℕ)
            × IsTheCleanLayoutAt width d t
            × (string_bytes out.new ≡ string_bytes out.old ++ t)) }
        ensures err { OnErr result (string_bytes out.new ≡ string_bytes out.old) }
        // Memory runs out only where the printer has no room for so many marks, or `out` has none for the layout.
        ensures memory { OnErr result (length marks.now ≤ room_of self.old → HasNoRoomFor width (marks_of marks.now) (string_capacity out.old) (string_len out.old)) }
        ensures room { room_of self.old ≤ room_of self.new }
    {
        let mut steps: Steps<L> = Steps::new(blank);
        self.lay_out_counted(marks, width, out, &mut steps)
    }

    /// Like `lay_out_clean`, and counts the steps: each mark is taken up once for measuring and once for printing.
    pub fn lay_out_counted<L: Ledger>(
        &mut self,
        marks: &[Mark<'_>],
        width: usize,
        out: &mut String,
        steps: &mut Steps<L>,
    ) -> Result<(), AllocError>
        ensures ok { OnOk result ((d : Doc) → AreMarks (marks_of marks.now) d → (t : List ℕ)
            × IsTheCleanLayoutAt width d t
            × (string_bytes out.new ≡ string_bytes out.old ++ t)) }
        ensures err { OnErr result (string_bytes out.new ≡ string_bytes out.old) }
        // Memory runs out only where the printer has no room for so many marks, or `out` has none for the layout.
        ensures memory { OnErr result (length marks.now ≤ room_of self.old → HasNoRoomFor width (marks_of marks.now) (string_capacity out.old) (string_len out.old)) }
        ensures room { room_of self.old ≤ room_of self.new }
        ensures steps { OnOk result (steps.new ≡ steps.old + 2 * length marks.now) }
        ensures least { steps.old ≤ steps.new }
        ensures most { steps.new ≤ steps.old + 2 * length marks.now }
    {
        let start = out.len();
        if let Err(e) = self.print_clean(marks, width, out, steps) {
            out.truncate(start);
            return Err(e);
        }
        Ok(())
    }

    /// Appends the layout without blank lines and trimmed. If memory runs out, something else may have been appended.
    fn print_clean<L: Ledger>(
        &mut self,
        marks: &[Mark<'_>],
        width: usize,
        out: &mut String,
        steps: &mut Steps<L>,
    ) -> Result<(), AllocError>
        ensures ok { OnOk result (string_bytes out.new ≡ string_bytes out.old ++ trim (without_blank_lines false (units_at width (marks_of marks.now)))) }
        ensures range { OnOk result (AreCounted (marks_of marks.now)) }
        ensures memory { OnErr result (length marks.now ≤ room_of self.old → HasNoRoomForUnits width (marks_of marks.now) (string_capacity out.old) (string_len out.old)) }
        ensures room { room_of self.old ≤ room_of self.new }
        ensures capacity { string_capacity out.old ≤ string_capacity out.new }
        ensures kept { take (length (string_bytes out.old)) (string_bytes out.new) ≡ string_bytes out.old }
        ensures steps { OnOk result (steps.new ≡ steps.old + 2 * length marks.now) }
        ensures least { steps.old ≤ steps.new }
        ensures most { steps.new ≤ steps.old + 2 * length marks.now }
    {
        let start = out.len();
        self.print_lines(marks, width, out, steps)?;
        trim_from(out, start)
    }

    /// Appends the layout without blank lines. If memory runs out, a part of it may have been appended.
    fn print_lines<L: Ledger>(
        &mut self,
        marks: &[Mark<'_>],
        width: usize,
        out: &mut String,
        steps: &mut Steps<L>,
    ) -> Result<(), AllocError>
        ensures ok { OnOk result (string_bytes out.new ≡ string_bytes out.old ++ without_blank_lines false (units_at width (marks_of marks.now))) }
        ensures range { OnOk result (AreCounted (marks_of marks.now)) }
        ensures memory { OnErr result (length marks.now ≤ room_of self.old → HasNoRoomForUnits width (marks_of marks.now) (string_capacity out.old) (string_len out.old)) }
        ensures room { room_of self.old ≤ room_of self.new }
        ensures capacity { string_capacity out.old ≤ string_capacity out.new }
        ensures kept { take (length (string_bytes out.old)) (string_bytes out.new) ≡ string_bytes out.old }
        ensures steps { OnOk result (steps.new ≡ steps.old + 2 * length marks.now) }
        ensures least { steps.old ≤ steps.new }
        ensures most { steps.new ≤ steps.old + 2 * length marks.now }
    {
        self.place.go_to_the_first(marks, steps)?;
        let mut held = None;
        for mark in marks {
            steps.tick();
            let written = self.place.pass(mark, width)?;
            held = write_clean(held, written, out)?;
        }
        write_held(held, out)
    }
}
