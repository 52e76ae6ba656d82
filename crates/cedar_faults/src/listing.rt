//! All faults of a text.
ghost use Rattle.std.specs.Prelude.{IfOk};
ghost use Rattle.cedar_faults.specs.Faults.{AreFaults, AreFirstFaults};

use crate::fault::Fault;
use crate::reader::FaultReader;
use std::alloc::{AllocError, Global};

/// All faults of a text, in order; none if and only if it is accepted.
pub fn faults<'src>(alloc: Global, text: &'src str) -> Result<Vec<Fault<'src>>, AllocError>
    ensures { IfOk result (λ faults. AreFaults text.now faults.items) }
{
    let mut faults = Vec::new(alloc);
    let mut reader = FaultReader::new(alloc, text);
    'faults: loop {
        let Some(fault) = reader.next(alloc)? else {
            return Ok(faults);
        };
        faults.push(fault)?;
    }
}

/// The first faults of a text, at most `limit`, in order. Takes time in proportion to the text for each of them, where `faults`
/// may take it for as many as the text has semicolons.
pub fn first_faults<'src>(
    alloc: Global,
    text: &'src str,
    limit: usize,
) -> Result<Vec<Fault<'src>>, AllocError>
    ensures { IfOk result (λ faults. AreFirstFaults text.now limit faults.items) }
{
    let mut first = Vec::new(alloc);
    let mut reader = FaultReader::new(alloc, text);
    'first: while first.len() < limit {
        let Some(fault) = reader.next(alloc)? else {
            return Ok(first);
        };
        first.push(fault)?;
    }
    Ok(first)
}
