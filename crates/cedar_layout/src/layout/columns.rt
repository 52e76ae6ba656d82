//! The columns that a text takes.
ghost use Rattle.std.specs.Prelude.{◌≡◌, ◌^◌, ◌<◌};
ghost use Rattle.std.specs.Int.{is_in_range};
ghost use Rattle.std.specs.List.{list_all};
ghost use Rattle.cedar_layout.specs.Layout.{columns};

use unicode_width::UnicodeWidthStr;

// Whether each byte is printable ASCII.
fn all_printable(bytes: &[u8]) -> bool
    ensures { result ≡ list_all (is_in_range 0x20 0x7E) bytes.now }
{
    bytes.iter().all(|byte| b' ' <= *byte && *byte <= b'~')
}

/// The columns of a text. Printable ASCII takes one column per byte, so its characters need no lookup.
pub fn columns_of(text: &str) -> u128
    ensures value { result ≡ columns text.now }
    ensures range { result < 2 ^ 64 }
{
    if all_printable(text.as_bytes()) {
        text.len() as u128
    } else {
        text.width() as u128
    }
}
