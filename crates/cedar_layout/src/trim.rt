//! Removing the blanks at the ends of a text.
ghost use Rattle.std.specs.Prelude.{◌≡◌, ◌<◌, ◌≤◌, ◌++◌, drop, take, string_bytes, string_len, string_capacity, OnErr, OnOk};
ghost use Rattle.std.specs.Str.{IsCharBoundary, trim, trim_end, trim_start};

use std::alloc::AllocError;

/// Removes the blanks at both ends of what stands from `start` on. A failure changes nothing.
pub fn trim_from(out: &mut String, start: usize) -> Result<(), AllocError>
    requires { IsCharBoundary (string_bytes out.old) start }
    ensures ok { OnOk result (string_bytes out.new ≡ take start (string_bytes out.old) ++ trim (drop start (string_bytes out.old))) }
    ensures err { OnErr result (string_bytes out.new ≡ string_bytes out.old) }
    ensures full { OnErr result (string_capacity out.old < string_len out.old) }
    ensures capacity { string_capacity out.old ≤ string_capacity out.new }
{
    let blanks = blanks_before(&out.as_str()[start..]);
    out.replace_range(start..start + blanks, "")?;
    let len = len_without_blanks(&out.as_str()[start..]);
    out.truncate(start + len);
    Ok(())
}

// The bytes of the blanks that the text begins with.
fn blanks_before(text: &str) -> usize
    ensures rest { drop result text.now ≡ trim_start text.now }
    ensures boundary { IsCharBoundary text.now result }
{
    text.len() - text.trim_start().len()
}

// The bytes before the blanks that the text ends with.
fn len_without_blanks(text: &str) -> usize
    ensures front { take result text.now ≡ trim_end text.now }
    ensures boundary { IsCharBoundary text.now result }
{
    text.trim_end().len()
}
