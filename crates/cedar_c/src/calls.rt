//! The library's calls over bytes.
ghost use Rattle.std.specs.Prelude.{◌≡◌, [], drop, IfOk, IfSome, MatchOption, MatchResult};
ghost use Rattle.std.specs.Str.{IsUtf8};
ghost use Rattle.cedar_c.specs.Answers.{TellsFault, TellsFormat, TellsIsFormatted, TellsPlace, TellsPut, TellsSameLayout, unclosed_part};
ghost use Rattle.cedar_c.specs.Inside.{IsNextFault};
ghost use Rattle.cedar_faults.specs.Faults.{AreFaults};
ghost use Rattle.cedar_faults.specs.Inside.Searches.{HasRoomAt};
ghost use Rattle.cedar_c.specs.declared.answer.CallFault.TheVariants.{NotUtf8};

use crate::answer::{
    CallFault, FaultAnswer, NOT_UTF8, OUT_OF_MEMORY, PlaceAnswer, RESULT, no_fault, refusal,
};
use crate::version::VERSION;
use cedar_faults::brackets::Bracket;
use cedar_faults::fault::Fault;
use cedar_faults::reader::FaultReader;
use cedar_policy_formatter::{Config, is_formatted, place, policies_str_to_pretty, same_layout};
use cedar_tokens::token::Span;
use std::alloc::{AllocError, Global};

/// Writes the layout of the policies `bytes` to the start of `out`. Returns its length in bytes.
pub fn format_into(
    alloc: Global,
    bytes: &[u8],
    config: &Config,
    out: &mut [u8],
) -> Result<usize, CallFault>
    ensures { TellsFormat config.now.line_width config.now.indent_width bytes.now out.old out.new result }
{
    let text = text_of(bytes)?;
    let layout = policies_str_to_pretty(alloc, text, config)?;
    put(layout.as_bytes(), out)
}

/// Whether the policies `bytes` are their own layout: 1 for yes, 0 for no.
pub fn check_layout(alloc: Global, bytes: &[u8], config: &Config) -> Result<usize, CallFault>
    ensures { TellsIsFormatted config.now.line_width config.now.indent_width bytes.now result }
{
    let text = text_of(bytes)?;
    let yes = is_formatted(alloc, text, config)?;
    Ok(usize::from(yes))
}

/// Whether the policies `a` and `b` have the same layout, at whatever width and indentation: 1 for yes, 0 for no.
pub fn compare_layouts(alloc: Global, a: &[u8], b: &[u8]) -> Result<usize, CallFault>
    ensures { TellsSameLayout a.now b.now result }
{
    let first = text_of(a)?;
    let second = text_of(b)?;
    let yes = same_layout(alloc, first, second, &Config::default())?;
    Ok(usize::from(yes))
}

/// Where the byte `at` is in the text `bytes`.
pub fn find_place(bytes: &[u8], at: usize) -> PlaceAnswer
    ensures { TellsPlace bytes.now at result }
{
    let Ok(text) = text_of(bytes) else {
        return PlaceAnswer {
            kind: NOT_UTF8,
            line: 0,
            column: 0,
        };
    };
    let found = place(text, at);
    PlaceAnswer {
        kind: RESULT,
        line: found.line,
        column: found.column,
    }
}

/// Writes the library's version to the start of `out`. Returns its length in bytes.
pub fn version_into(out: &mut [u8]) -> Result<usize, CallFault>
    ensures { TellsPut VERSION.now out.old out.new result }
{
    put(VERSION.as_bytes(), out)
}

/// The first fault of the text from the byte `from` on. Its message is written to the start of `out` if there is room.
pub fn find_fault(alloc: Global, bytes: &[u8], from: usize, out: &mut [u8]) -> FaultAnswer
    ensures { TellsFault bytes.now from out.old out.new result }
{
    let Ok(text) = text_from(bytes, from) else {
        return no_fault(NOT_UTF8);
    };
    match next_fault(alloc, text) {
        Ok(None) => no_fault(RESULT),
        Ok(Some(found)) => {
            let message = found.message.as_bytes();
            let _ = put(message, out);
            let unclosed = unclosed_part(found.fault.unclosed, from);
            FaultAnswer {
                kind: refusal(found.fault.error).kind,
                at: from + found.fault.expected.at,
                start: from + found.fault.part.start,
                end: from + found.fault.part.end,
                unclosed_start: unclosed.start,
                unclosed_end: unclosed.end,
                next: from + found.next,
                length: message.len(),
            }
        }
        Err(AllocError) => no_fault(OUT_OF_MEMORY),
    }
}

// A fault with its message, and the byte at which the search for the next one begins.
#[derive(Drop)]
struct NextFault<'src> {
    fault: Fault<'src>,
    message: String,
    next: usize,
}

// The first fault of the text.
fn next_fault(alloc: Global, text: &str) -> Result<Option<NextFault<'_>>, AllocError>
    ensures { IfOk result (λ found. MatchOption found (AreFaults text.now []) (IsNextFault text.now)) }
{
    let mut reader = FaultReader::new(alloc, text);
    let Some(fault) = reader.next(alloc)? else {
        return Ok(None);
    };
    let message = fault.message(alloc)?;
    let next = reader.at();
    Ok(Some(NextFault {
        fault,
        message,
        next,
    }))
}

// The bytes of the bracket that is left open, so many bytes later; from 0 to 0 if there is none.
fn unclosed_part(bracket: Option<Bracket>, by: usize) -> Span
    requires { IfSome bracket (HasRoomAt by) }
    ensures { result ≡ unclosed_part by bracket }
{
    match bracket {
        Some(Bracket { part, .. }) => Span {
            start: by + part.start,
            end: by + part.end,
        },
        None => Span { start: 0, end: 0 },
    }
}

// The text that the bytes encode in UTF-8.
fn text_of(bytes: &[u8]) -> Result<&str, CallFault>
    ensures { MatchResult result (λ text. IsUtf8 bytes.now × (text.now ≡ bytes.now)) (λ fault. (fault ≡ NotUtf8) × ¬ (IsUtf8 bytes.now)) }
{
    match str::from_utf8(without_pointer(bytes)) {
        Ok(text) => Ok(text),
        Err(_) => Err(CallFault::NotUtf8),
    }
}

// The text that the bytes from `from` on encode; none are past the end.
fn text_from(bytes: &[u8], from: usize) -> Result<&str, CallFault>
    ensures { MatchResult result (λ text. IsUtf8 (drop from bytes.now) × (text.now ≡ drop from bytes.now)) (λ fault. (fault ≡ NotUtf8) × ¬ (IsUtf8 (drop from bytes.now))) }
{
    if from < bytes.len() {
        text_of(&bytes[from..])
    } else {
        text_of(&[])
    }
}

// The same bytes. The pointer of no bytes, which is null for some callers, is replaced.
fn without_pointer(bytes: &[u8]) -> &[u8]
    ensures { result.now ≡ bytes.now }
{
    if bytes.is_empty() { &[] } else { bytes }
}

// Writes the layout to the start of the room if it fits there. Returns its length in bytes.
fn put(layout: &[u8], room: &mut [u8]) -> Result<usize, CallFault>
    ensures { TellsPut layout.now room.old room.new result }
{
    let length = layout.len();
    if room.len() < length {
        return Err(CallFault::NoRoom { length });
    }
    room[..length].copy_from_slice(layout);
    Ok(length)
}
