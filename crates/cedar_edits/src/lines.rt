//! Edits of whole lines.
ghost use Rattle.std.specs.Prelude.{◌≡◌, ◌≤◌, ◌↔◌, length, IfOk, IfSome, IsTrue, MatchOption, string_bytes};
ghost use Rattle.cedar_edits.specs.Edits.{IsNamedPart, within};
ghost use Rattle.cedar_edits.specs.Lines.{IsLeast, Replaces};
ghost use Rattle.cedar_edits.specs.Inside.Trims.{EndLines, StartLines, StartsLine};

use crate::edits::Edit;
use cedar_tokens::token::Span;
use std::alloc::{AllocError, Global};

/// The edit that turns the part of the text at this span into `new`, of the fewest lines: what both begin and both end
/// with is left out. `None` if nothing changes. A line ends with a line feed. The only error is out of memory.
pub fn line_edit(
    alloc: Global,
    text: &str,
    span: Span,
    new: &str,
) -> Result<Option<Edit>, AllocError>
    requires { IsNamedPart text.now span }
    ensures edit { IfOk result (λ edit. MatchOption edit (new.now ≡ within text.now span) (Replaces text.now span new.now)) }
    ensures least { IfOk result (λ edit. IfSome edit (IsLeast text.now)) }
{
    let old = &text[span.start..span.end];
    if old == new {
        return Ok(None);
    }
    let first = first_lines(old.as_bytes(), new.as_bytes());
    let old_rest = &old[first..];
    let new_rest = &new[first..];
    let last = last_lines(old_rest.as_bytes(), new_rest.as_bytes());
    let put = String::from_str(alloc, &new_rest[..new_rest.len() - last])?;
    Ok(Some(Edit {
        span: Span {
            start: span.start + first,
            end: span.end - last,
        },
        text: put,
    }))
}

// The bytes of the lines that both begin with.
fn first_lines(old: &[u8], new: &[u8]) -> usize
    ensures { StartLines old.now new.now result }
{
    let mut lines = 0;
    for i in 0..old.len().min(new.len()) {
        if old[i] != new[i] {
            return lines;
        }
        if old[i] == b'\n' {
            lines = i + 1;
        }
    }
    lines
}

// The bytes of the lines that both end with.
fn last_lines(old: &[u8], new: &[u8]) -> usize
    ensures { EndLines old.now new.now result }
{
    let mut lines = 0;
    for n in 0..old.len().min(new.len()) {
        let i = old.len() - n - 1;
        let j = new.len() - n - 1;
        if old[i] != new[j] {
            return lines;
        }
        if starts_line(old, i) && starts_line(new, j) {
            lines = n + 1;
        }
    }
    lines
}

// Whether a line begins at the byte `at`.
fn starts_line(bytes: &[u8], at: usize) -> bool
    requires { at ≤ length bytes.now }
    ensures { IsTrue result ↔ StartsLine bytes.now at }
{
    at == 0 || bytes[at - 1] == b'\n'
}
