//! Writing what marks write, as it is or without blank lines.
ghost use Rattle.std.specs.Prelude.{◌≡◌, ℕ, ◌+◌, ◌^◌, ◌<◌, ◌≤◌, ◌∷◌, ◌++◌, List, length, replicate, take, string_bytes, string_len, string_capacity, OnOk, OnErr, IfOk};
ghost use Rattle.std.specs.List.{concat};
ghost use Rattle.cedar_tokens.specs.Bytes.{line_feed, space_character};
ghost use Rattle.cedar_print.specs.Inside.Written.{units_in, IsSolid, units_held, bytes_held, spaces_held, clean_after};

use crate::place::Written;
use std::alloc::AllocError;

/// A break that is not written yet, and the spaces after it. If another break follows, they are a blank line.
#[derive(Clone, Copy)]
pub(crate) struct Held {
    pub indent: usize,
    pub spaces: usize,
}

/// Appends what a mark writes. Where memory is refused, a part of it may have been appended.
#[tactic(auto, using(crate::proofs::Units::concat_break))]
pub(crate) fn write(written: Option<Written<'_>>, out: &mut String) -> Result<(), AllocError>
    ensures ok { OnOk result (string_bytes out.new ≡ string_bytes out.old ++ concat (units_in written.entry)) }
    ensures kept { take (length (string_bytes out.old)) (string_bytes out.new) ≡ string_bytes out.old }
{
    match written {
        Some(Written::Text(text)) => {
            out.push_str(text)?;
            Ok(())
        }
        Some(Written::Space) => {
            out.push(' ')?;
            Ok(())
        }
        Some(Written::Break(indent)) => write_break(out, indent),
        None => Ok(()),
    }
}

/// Appends what a mark writes, after what was held back, or holds it back. Gives what is held back then. Where memory is refused,
/// a part of it may have been appended.
pub(crate) fn write_clean(
    held: Option<Held>,
    written: Option<Written<'_>>,
    out: &mut String,
) -> Result<Option<Held>, AllocError>
    requires room { spaces_held held + 1 < 2 ^ 64 }
    requires solid { IsSolid written }
    ensures ok { IfOk result (λ h. (us : List (List ℕ))
        → string_bytes out.new ++ clean_after h us ≡ string_bytes out.old ++ clean_after held (units_in written.entry ++ us)) }
    ensures full { OnErr result ((us : List (List ℕ))
        → string_capacity out.old < string_len out.old + length (clean_after held (units_in written.entry ++ us))) }
    ensures capacity { string_capacity out.old ≤ string_capacity out.new }
    ensures room { IfOk result (λ h. spaces_held h ≤ spaces_held held + 1) }
    ensures kept { take (length (string_bytes out.old)) (string_bytes out.new) ≡ string_bytes out.old }
{
    match written {
        Some(Written::Text(text)) => {
            write_held(held, out)?;
            out.push_str(text)?;
            Ok(None)
        }
        Some(Written::Space) => write_space(held, out),
        Some(Written::Break(indent)) => Ok(Some(Held { indent, spaces: 0 })),
        None => Ok(held),
    }
}

/// Appends a space, or holds it back after a break.
fn write_space(held: Option<Held>, out: &mut String) -> Result<Option<Held>, AllocError>
    requires { spaces_held held + 1 < 2 ^ 64 }
    ensures ok { IfOk result (λ h. (us : List (List ℕ))
        → string_bytes out.new ++ clean_after h us ≡ string_bytes out.old ++ clean_after held (units_in (Some Written.Space) ++ us)) }
    ensures full { OnErr result ((us : List (List ℕ))
        → string_capacity out.old < string_len out.old + length (clean_after held (units_in (Some Written.Space) ++ us))) }
    ensures capacity { string_capacity out.old ≤ string_capacity out.new }
    ensures room { IfOk result (λ h. spaces_held h ≤ spaces_held held + 1) }
    ensures kept { take (length (string_bytes out.old)) (string_bytes out.new) ≡ string_bytes out.old }
{
    match held {
        Some(Held { indent, spaces }) => Ok(Some(Held {
            indent,
            spaces: spaces + 1,
        })),
        None => {
            out.push(' ')?;
            Ok(None)
        }
    }
}

/// Appends what was held back. Where memory is refused, a part of it may have been appended.
pub(crate) fn write_held(held: Option<Held>, out: &mut String) -> Result<(), AllocError>
    ensures ok { OnOk result (string_bytes out.new ≡ string_bytes out.old ++ concat (units_held held)) }
    ensures len { OnOk result (string_len out.new ≡ string_len out.old + bytes_held held) }
    ensures full { OnErr result (string_capacity out.old < string_len out.old + bytes_held held) }
    ensures capacity { string_capacity out.old ≤ string_capacity out.new }
    ensures kept { take (length (string_bytes out.old)) (string_bytes out.new) ≡ string_bytes out.old }
{
    if let Some(Held { indent, spaces }) = held {
        write_break(out, indent)?;
        for _i in 0..spaces {
            out.push(' ')?;
        }
    }
    Ok(())
}

/// Appends a line feed and the spaces of an indentation. Where memory is refused, a part of it may have been appended.
fn write_break(out: &mut String, indent: usize) -> Result<(), AllocError>
    ensures ok { OnOk result (string_bytes out.new ≡ string_bytes out.old ++ line_feed ∷ replicate indent space_character) }
    ensures full { OnErr result (string_capacity out.old < string_len out.old + 1 + indent) }
    ensures capacity { string_capacity out.old ≤ string_capacity out.new }
    ensures kept { take (length (string_bytes out.old)) (string_bytes out.new) ≡ string_bytes out.old }
{
    out.reserve(indent.saturating_add(1))?;
    out.push('\n')?;
    for _i in 0..indent {
        out.push(' ')?;
    }
    Ok(())
}
