//! The names of new files, before they take the place of others.
ghost use Rattle.std.specs.Prelude.{ℕ, MatchOption};
ghost use Rattle.cedar_files.specs.Beside.{IsNewName};

use std::alloc::{AllocError, Global};
use std::{fs, process};

// What their names begin with.
const PREFIX: &str = ".cedar-files.";

/// A name for a new file beside this one. `bits` tell it from others of this process.
pub fn name_beside(
    alloc: Global,
    rt: &HostRuntime,
    name: &str,
    bits: u64,
) -> Result<String, AllocError> {
    let number = process::id(rt.process());
    let folder = match name.rsplit_once('/') {
        Some((folder, _)) => format!(in alloc; "{folder}/")?,
        None => String::new(alloc),
    };
    format!(in alloc; "{folder}{PREFIX}{number}.{bits:016x}")
}

/// Whether a name in a folder is that of a new file that an ended run has left.
pub fn is_left(rt: &HostRuntime, alloc: Global, name: &str) -> Result<bool, AllocError> {
    let Some(number) = maker_of(name) else {
        return Ok(false);
    };
    let process = format!(in alloc; "/proc/{number}")?;
    Ok(!fs::exists(rt, process.as_str()).unwrap_or(false))
}

// The number of the process that gave a new file this name, if it is such a name.
fn maker_of(name: &str) -> Option<u32>
    ensures { MatchOption result ((number : ℕ) → ¬ (IsNewName name.now number)) (λ number. IsNewName name.now number) }
{
    let Some(rest) = name.strip_prefix(PREFIX) else {
        return None;
    };
    let Some((number, bits)) = rest.split_once('.') else {
        return None;
    };
    if !bits.bytes().all(|byte| byte.is_ascii_hexdigit()) {
        return None;
    }
    number.parse().ok()
}
