//! The formatter for C and other languages: a static library.
//!
//! Each export answers through its last parameter, and `include/cedar_formatter.h` says what C must keep. Its contract is
//! that of the library's call, over the bytes that C sees. A text of no bytes may be a null pointer, and so may a room of none:
//! they are never read or written through.
#![tactic(auto)]

ghost use Rattle.cedar_c.specs.Answers.{Answers, TellsFault, TellsFormat, TellsIsFormatted, TellsPlace, TellsPut, TellsSameLayout};

mod answer;
mod calls;
mod version;

use answer::answer_of;
pub use answer::{Answer, CallFault, FaultAnswer, PlaceAnswer};
use calls::{check_layout, compare_layouts, find_fault, find_place, format_into, version_into};
use cedar_policy_formatter::Config;
use std::alloc::Global;
pub use version::VERSION;

/// Lays out the policies `text` at `width` columns a line and `indent` columns a level, and writes the result to the start
/// of `out`. The answer's number is its length in bytes, even if `out` is too small; then nothing is written, as with
/// every refusal.
#[unsafe(no_mangle)]
pub extern "C" fn cedar_format(
    alloc: Global,
    text: &[u8],
    width: usize,
    indent: isize,
    out: &mut [u8],
    answer: &mut Answer,
)
    ensures { Answers (TellsFormat width indent text.now out.old out.new) answer.new }
{
    let config = Config {
        line_width: width,
        indent_width: indent,
    };
    *answer = answer_of(format_into(alloc, text, &config, out));
}

/// Whether `text` is as `cedar_format` lays it out: the answer's number is 1 for yes and 0 for no.
#[unsafe(no_mangle)]
pub extern "C" fn cedar_is_formatted(
    alloc: Global,
    text: &[u8],
    width: usize,
    indent: isize,
    answer: &mut Answer,
)
    ensures { Answers (TellsIsFormatted width indent text.now) answer.new }
{
    let config = Config {
        line_width: width,
        indent_width: indent,
    };
    *answer = answer_of(check_layout(alloc, text, &config));
}

/// Whether `a` and `b` are laid out alike, at whatever width and indentation: the answer's number is 1 for yes and 0 for no. A
/// refusal of `a` is reported before one of `b`.
#[unsafe(no_mangle)]
pub extern "C" fn cedar_same_layout(alloc: Global, a: &[u8], b: &[u8], answer: &mut Answer)
    ensures { Answers (TellsSameLayout a.now b.now) answer.new }
{
    *answer = answer_of(compare_layouts(alloc, a, b));
}

/// Where the byte `at` of `text`, counted from 0, is: its line and its column, both from 1, the column in characters. A
/// byte past the end is at the end of the text.
#[unsafe(no_mangle)]
pub extern "C" fn cedar_place(text: &[u8], at: usize, answer: &mut PlaceAnswer)
    ensures { TellsPlace text.now at answer.new }
{
    *answer = find_place(text, at);
}

/// The first fault of `text` from the byte `from` on: 0, or the `next` of the fault before it. Its message, with a tip if there is
/// one, is written to the start of `out` if there is room for all of it; the answer has its length in any case.
#[unsafe(no_mangle)]
pub extern "C" fn cedar_next_fault(
    alloc: Global,
    text: &[u8],
    from: usize,
    out: &mut [u8],
    answer: &mut FaultAnswer,
)
    ensures { TellsFault text.now from out.old out.new answer.new }
{
    *answer = find_fault(alloc, text, from, out);
}

/// Writes the version of the library, which says whether it is proved, to the start of `out`. The answer's number is its length
/// in bytes, even if `out` is too small; then nothing is written.
#[unsafe(no_mangle)]
pub extern "C" fn cedar_version(out: &mut [u8], answer: &mut Answer)
    ensures { Answers (TellsPut VERSION.now out.old out.new) answer.new }
{
    *answer = answer_of(version_into(out));
}
