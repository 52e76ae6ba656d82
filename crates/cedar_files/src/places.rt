//! Places in a text, and the line around one.
ghost use Rattle.std.specs.Prelude.{◌≡◌, nat_eq};
ghost use Rattle.std.specs.List.{after_last, before_first, common_prefix_len};
ghost use Rattle.cedar_files.specs.Places.{IsPlaceAfter, shared};
ghost use Rattle.cedar_policy_formatter.specs.Places.{is_line_feed};

/// A place in a text. Both numbers are counted from 1, columns in bytes, and only a line feed ends a line.
#[derive(Clone, Copy)]
pub struct Place {
    pub line: usize,
    pub column: usize,
}

/// The place after these bytes.
pub fn place_after(before: &[u8]) -> Place
    ensures { IsPlaceAfter before.now result }
{
    let mut place = Place { line: 1, column: 1 };
    for byte in before {
        if *byte == b'\n' {
            place.line += 1;
            place.column = 1;
        } else {
            place.column += 1;
        }
    }
    place
}

/// The place of the first byte that differs, or the end of the shorter text.
pub fn first_difference(before: &[u8], after: &[u8]) -> Place
    ensures { IsPlaceAfter (shared before.now after.now) result }
{
    place_after(&before[..shared_len(before, after)])
}

// How many bytes both begin with.
fn shared_len(before: &[u8], after: &[u8]) -> usize
    ensures { result ≡ common_prefix_len nat_eq before.now after.now }
{
    let most = before.len().min(after.len());
    for i in 0..most {
        if before[i] != after[i] {
            return i;
        }
    }
    most
}

/// What of its last line a text has.
pub fn last_line(text: &str) -> &str
    ensures { result.now ≡ after_last is_line_feed text.now }
{
    let start = match text.rfind('\n') {
        Some(feed) => feed + 1,
        None => 0,
    };
    &text[start..]
}

/// The first line of a text, without its end.
pub fn first_line(text: &str) -> &str
    ensures { result.now ≡ before_first is_line_feed text.now }
{
    match text.find('\n') {
        Some(feed) => &text[..feed],
        None => text,
    }
}
