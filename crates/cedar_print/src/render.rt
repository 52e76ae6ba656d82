//! The layout of a document at a width.
ghost use Rattle.std.specs.Prelude.{◌≡◌, ◌+◌, ◌*◌, ◌^◌, ◌<◌, ◌≤◌, ◌++◌, ℕ, List, length, take, string_bytes, OnOk, OnErr};
ghost use Rattle.std.specs.List.{concat};
ghost use Rattle.cedar_layout.specs.Layout.{IsTheLayoutAt};
ghost use Rattle.cedar_layout.specs.Nodes.{nodes};
ghost use Rattle.cedar_layout.specs.Value.{doc_of};
ghost use Rattle.cedar_print.specs.Inside.Measured.{facts};
ghost use Rattle.cedar_print.specs.Inside.Walked.{marks_in};
ghost use Rattle.cedar_print.specs.Inside.Written.{units_at};

use crate::place::Place;
use crate::walk::Forward;
use crate::write::write;
use cedar_layout::layout::{Document, Steps};
use std::alloc::{AllocError, Global};
use std::marker::Brand;
use std::sync::ledger::{Blank, Ledger};

/// Appends the layout of a document at a width, in columns. It begins in column 0, with indentation 0.
pub fn render(
    alloc: Global,
    doc: &Document<'_>,
    width: usize,
    out: &mut String,
) -> Result<(), AllocError>
    // No other text is a layout at the width.
    ensures ok { OnOk result ((t : List ℕ)
        × IsTheLayoutAt width (doc_of doc.now) t
        × (string_bytes out.new ≡ string_bytes out.old ++ t)) }
    ensures err { OnErr result (string_bytes out.new ≡ string_bytes out.old) }
{
    render_from::<Brand>(alloc, doc, width, out, Blank::new(1))
}

/// The same, discarding the step count.
fn render_from<L: Ledger>(
    alloc: Global,
    doc: &Document<'_>,
    width: usize,
    out: &mut String,
    blank: Blank,
) -> Result<(), AllocError>
    requires name { blank.name ≡ L.name }
    requires parts { blank.parts ≡ L.parts }
    requires some { 0 < L.parts }
    ensures ok { OnOk result ((t : List ℕ)
        × IsTheLayoutAt width (doc_of doc.now) t
        × (string_bytes out.new ≡ string_bytes out.old ++ t)) }
    ensures err { OnErr result (string_bytes out.new ≡ string_bytes out.old) }
{
    let mut steps: Steps<L> = Steps::new(blank);
    render_counted(alloc, doc, width, out, &mut steps)
}

/// Like `render`, and counts the steps: each case of the document that is processed is counted once for measuring and
/// once for printing.
pub fn render_counted<L: Ledger>(
    alloc: Global,
    doc: &Document<'_>,
    width: usize,
    out: &mut String,
    steps: &mut Steps<L>,
) -> Result<(), AllocError>
    ensures ok { OnOk result ((t : List ℕ)
        × IsTheLayoutAt width (doc_of doc.now) t
        × (string_bytes out.new ≡ string_bytes out.old ++ t)) }
    ensures err { OnErr result (string_bytes out.new ≡ string_bytes out.old) }

    ensures steps { OnOk result (steps.new ≡ steps.old + 2 * nodes doc.now) }
    ensures least { steps.old ≤ steps.new }
    ensures most { steps.new ≤ steps.old + 2 * nodes doc.now }
{
    let start = out.len();
    match measure_and_print(alloc, doc, width, out, steps) {
        Ok(()) => Ok(()),
        Err(e) => {
            out.truncate(start);
            Err(e)
        }
    }
}

/// Both passes. If memory runs out, a part of the layout may have been appended.
fn measure_and_print<L: Ledger>(
    alloc: Global,
    doc: &Document<'_>,
    width: usize,
    out: &mut String,
    steps: &mut Steps<L>,
) -> Result<(), AllocError>
    ensures ok { OnOk result (string_bytes out.new ≡ string_bytes out.old ++ concat (units_at width (marks_in (doc_of doc.now)))) }
    ensures range { OnOk result ((facts (marks_in (doc_of doc.now))).columns + 2 ^ 64 ≤ 2 ^ 128) }
    ensures kept { take (length (string_bytes out.old)) (string_bytes out.new) ≡ string_bytes out.old }
    ensures steps { OnOk result (steps.new ≡ steps.old + 2 * nodes doc.now) }
    ensures least { steps.old ≤ steps.new }
    ensures most { steps.new ≤ steps.old + 2 * nodes doc.now }
{
    let mut place = Place::new(alloc);
    place.go_to_the_first_of(alloc, doc, steps)?;
    let mut walk = Forward::new(alloc, doc)?;
    while let Some(mark) = walk.next(steps)? {
        let written = place.pass(&mark, width)?;
        write(written, out)?;
    }
    Ok(())
}
