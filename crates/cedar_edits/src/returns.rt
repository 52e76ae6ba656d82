//! Carriage returns before line feeds.
ghost use Rattle.std.specs.Prelude.{◌≡◌, ◌<◌, ◌↔◌, ◌==◌, length, slice_index, IfOk, IsTrue, string_bytes};
ghost use Rattle.cedar_tokens.specs.Bytes.{carriage_return};
ghost use Rattle.cedar_edits.specs.Inside.Before.{byte_before};
ghost use Rattle.cedar_edits.specs.Returns.{HasReturns, lacks_return, with_returns};

use std::alloc::{AllocError, Global};

/// Whether the text has a line feed, and a carriage return before each of them.
pub fn has_returns(text: &str) -> bool
    ensures { IsTrue result ↔ HasReturns text.now }
{
    let bytes = text.as_bytes();
    let mut has_feed = false;
    for i in 0..bytes.len() {
        if bytes[i] == b'\n' {
            if !follows_return(bytes, i) {
                return false;
            }
            has_feed = true;
        }
    }
    has_feed
}

/// The text with a carriage return before each line feed that has none. The only error is out of memory.
pub fn with_returns(alloc: Global, text: &str) -> Result<String, AllocError>
    ensures { IfOk result (λ r. string_bytes r ≡ with_returns text.now) }
{
    let bytes = text.as_bytes();
    let mut result = String::new(alloc);
    let mut from = 0;
    for i in 0..bytes.len() {
        if lacks_return(bytes, i) {
            result.push_str(&text[from..i])?;
            result.push_str("\r")?;
            from = i;
        }
    }
    result.push_str(&text[from..])?;
    Ok(result)
}

// Whether this is a line feed without a carriage return before it.
fn lacks_return(bytes: &[u8], at: usize) -> bool
    requires { at < length bytes.now }
    ensures { result ≡ lacks_return (byte_before bytes.now at) (slice_index bytes.now at) }
{
    bytes[at] == b'\n' && !follows_return(bytes, at)
}

// Whether the byte before this one is a carriage return.
fn follows_return(bytes: &[u8], at: usize) -> bool
    requires { at < length bytes.now }
    ensures { result ≡ (byte_before bytes.now at == carriage_return) }
{
    at > 0 && bytes[at - 1] == b'\r'
}
