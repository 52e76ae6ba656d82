//! Reading a text to its end.
ghost use Rattle.std.specs.Prelude.{◌≡◌, ◌+◌, ◌≤◌, ◌<◌, length, vec_len, take, drop, string_bytes, IsTrue, IfOk, OnOk, OnErr, MatchResult};
ghost use Rattle.std.specs.Io.KnownBytes.{Consumes, IsAtEnd};
ghost use Rattle.cedar_streams.specs.Devices.{device_of, has_failed};
ghost use Rattle.cedar_streams.specs.Texts.{FailsToGive, GivesAll, GivesText, TellsRead};

use crate::watched::Watched;
use std::alloc::{AllocError, Global};
use std::io;
use std::io::{ErrorKind, Read};

/// Why a text wasn't read.
#[derive(Clone, Copy, Debug, PartialEq, Eq)]
pub enum ReadFault {
    /// A read failed.
    Read,
    /// What was read isn't UTF-8.
    NotUtf8,
    /// There was not enough memory for it.
    OutOfMemory,
}

/// The text that `input` yields up to its end.
///
/// The first failed read ends it with `Read`, even if it was only interrupted. `NotUtf8` means that everything was read but
/// isn't UTF-8, and `OutOfMemory` only that memory ran out.
pub fn read_text<R: Read>(alloc: Global, input: &mut Watched<R>) -> Result<String, ReadFault>
    ensures read { TellsRead (has_failed input.old) (has_failed input.new) result }
    ensures text { MatchResult result (λ t. GivesText (R.remaining (device_of input.old)) (R.remaining (device_of input.new)) (string_bytes t)) (FailsToGive (R.remaining (device_of input.old)) (R.remaining (device_of input.new))) }
{
    let bytes = read_all(alloc, input)?;
    match String::from_utf8(bytes) {
        Ok(text) => Ok(text),
        Err(_) => Err(ReadFault::NotUtf8),
    }
}

const BLOCK: usize = 65536;

// All bytes that `input` yields, read directly into place.
fn read_all<R: Read>(alloc: Global, input: &mut Watched<R>) -> Result<Vec<u8>, ReadFault>
    ensures read { TellsRead (has_failed input.old) (has_failed input.new) result }
    ensures bytes { MatchResult result (λ v. GivesAll (R.remaining (device_of input.old)) (R.remaining (device_of input.new)) v.items) (FailsToGive (R.remaining (device_of input.old)) (R.remaining (device_of input.new))) }
{
    let mut bytes = Vec::new(alloc);
    let mut filled = 0;
    loop {
        if make_room(&mut bytes, filled).is_err() {
            return Err(ReadFault::OutOfMemory);
        }
        let Ok(count) = read_at(input, bytes.as_mut_slice(), filled) else {
            return Err(ReadFault::Read);
        };
        if count == 0 {
            bytes.truncate(filled);
            return Ok(bytes);
        }
        filled += count;
    }
}

// Makes room for a read after the first `filled` bytes, if there is none.
fn make_room(bytes: &mut Vec<u8>, filled: usize) -> Result<(), AllocError>
    requires { filled ≤ vec_len bytes.old }
    ensures room { OnOk result (filled < vec_len bytes.new) }
    ensures front { OnOk result (take filled bytes.new.items ≡ take filled bytes.old.items) }
{
    if filled < bytes.len() {
        return Ok(());
    }
    bytes.resize(filled.saturating_add(BLOCK), 0)
}

// One read, into the bytes from `at` on. Returns how many bytes it read, 0 only at the end.
fn read_at<R: Read>(input: &mut Watched<R>, bytes: &mut [u8], at: usize) -> io::Result<usize>
    requires { at < length bytes.old }
    ensures ok { OnOk result (has_failed input.new ≡ has_failed input.old) }
    ensures err { OnErr result (IsTrue (has_failed input.new)) }
    ensures front { take at bytes.new ≡ take at bytes.old }
    ensures fits { IfOk result (λ n. at + n ≤ length bytes.new) }
    ensures gives { IfOk result (λ n. Consumes (R.remaining (device_of input.old)) (R.remaining (device_of input.new)) (take n (drop at bytes.new))) }
    ensures end { IfOk result (λ n. n ≡ 0 → IsAtEnd (R.remaining (device_of input.new))) }
{
    input.read(&mut bytes[at..])
}
