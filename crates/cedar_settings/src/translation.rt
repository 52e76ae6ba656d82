//! The regular expression of a glob.
ghost use Rattle.std.specs.Prelude.{◌<◌, IfSome, length};

use std::alloc::{AllocError, Global};
use std::fmt::Write;

// A brace that is still open.
#[derive(Clone, Copy, PartialEq, Eq)]
enum Brace {
    // It holds alternatives.
    Choice,
    // It stands for itself.
    Itself,
}

// The inside of a brace.
#[derive(Clone, Copy)]
struct Inside<'g> {
    text: &'g [char],
    // Whether a comma divides it.
    is_choice: bool,
}

// A regular expression in the making, and the braces that are open.
#[derive(Drop)]
struct Translation {
    out: String,
    braces: Vec<Brace>,
}

/// The regular expression that matches the paths that a glob matches. A path begins with a slash, for the folder of the glob.
/// `.` has to match a line feed.
pub fn regex_of(alloc: Global, glob: &str) -> Result<String, AllocError> {
    let mut characters = Vec::new(alloc);
    characters.extend_from_slice(beginning_of(glob))?;
    for character in glob.chars() {
        characters.push(character)?;
    }
    let mut made = Translation {
        out: String::new(alloc),
        braces: Vec::new(alloc),
    };
    made.out.push('^')?;
    let mut rest = characters.as_slice();
    for _ in 0..=characters.len() {
        rest = made.take(alloc, rest)?;
    }
    made.out.push('$')?;
    Ok(made.out)
}

// What stands before a glob: it is below its folder, and one without a slash is a name in any folder.
fn beginning_of(glob: &str) -> &'static [char] {
    if glob.starts_with('/') {
        &[]
    } else if glob.contains('/') {
        &['/']
    } else {
        &['/', '*', '*', '/']
    }
}

impl Translation {
    // Translates what a text begins with, and returns the rest.
    fn take<'g>(&mut self, alloc: Global, text: &'g [char]) -> Result<&'g [char], AllocError> {
        match text {
            [] => Ok(text),
            ['/', '*', '*', '/', ..] => self.put("(?:/.*)?", &text[3..]),
            ['*', '*', rest @ ..] => self.put(".*", rest),
            ['*', rest @ ..] => self.put("[^/]*", rest),
            ['?', rest @ ..] => self.put("[^/]", rest),
            ['\\', character, rest @ ..] => self.put_literal(*character, rest),
            ['[', rest @ ..] => self.take_class(rest),
            ['{', rest @ ..] => self.take_brace(alloc, rest),
            [',', rest @ ..] if self.braces.last() == Some(&Brace::Choice) => self.put("|", rest),
            ['}', rest @ ..] => match self.braces.pop() {
                Some(Brace::Choice) => self.put(")", rest),
                _ => self.put_literal('}', rest),
            },
            [character, rest @ ..] => self.put_literal(*character, rest),
        }
    }

    fn put<'g>(&mut self, text: &str, rest: &'g [char]) -> Result<&'g [char], AllocError> {
        self.out.push_str(text)?;
        Ok(rest)
    }

    fn put_literal<'g>(
        &mut self,
        character: char,
        rest: &'g [char],
    ) -> Result<&'g [char], AllocError> {
        push_literal(&mut self.out, character)?;
        Ok(rest)
    }

    // Translates a class, after its bracket. A bracket that isn't closed, or with nothing or a slash in it, stands for itself.
    fn take_class<'g>(&mut self, text: &'g [char]) -> Result<&'g [char], AllocError> {
        let Some((class, rest)) = class_of(text) else {
            return self.put_literal('[', text);
        };
        let (begins, class) = match class {
            ['!', class @ ..] => ("[^", class),
            _ => ("[", class),
        };
        if class.is_empty() || class.contains(&'/') {
            return self.put_literal('[', text);
        }
        self.out.push_str(begins)?;
        push_members(&mut self.out, class)?;
        self.put("]", rest)
    }

    // Translates a brace, after its sign. A brace without a comma is a range of numbers or stands for itself.
    fn take_brace<'g>(
        &mut self,
        alloc: Global,
        text: &'g [char],
    ) -> Result<&'g [char], AllocError> {
        let Some(inside) = inside_of(text) else {
            return self.put_literal('{', text);
        };
        if inside.is_choice {
            self.braces.push(Brace::Choice)?;
            return self.put("(?:", text);
        }
        if let Some((first, last)) = numbers_of(alloc, inside.text)? {
            push_numbers(&mut self.out, first, last)?;
            return Ok(&text[inside.text.len() + 1..]);
        }
        self.braces.push(Brace::Itself)?;
        self.put_literal('{', text)
    }
}

// A class, up to the first bracket without a backslash before it, and what follows that bracket.
fn class_of(text: &[char]) -> Option<(&[char], &[char])> {
    let mut is_escaped = false;
    for (n, character) in text.iter().enumerate() {
        if *character == ']' && !is_escaped {
            return Some((&text[..n], &text[n + 1..]));
        }
        is_escaped = *character == '\\' && !is_escaped;
    }
    None
}

// The inside of a brace, after its sign; `None` if it isn't closed.
fn inside_of(text: &[char]) -> Option<Inside<'_>>
    ensures { IfSome result (λ inside. length inside.text.now < length text.now) }
{
    let mut depth = 0usize;
    let mut is_choice = false;
    let mut is_escaped = false;
    for (n, character) in text.iter().enumerate() {
        match *character {
            _ if is_escaped => {}
            '{' => depth = depth.saturating_add(1),
            '}' if depth == 0 => {
                return Some(Inside {
                    text: &text[..n],
                    is_choice,
                });
            }
            '}' => depth = depth.saturating_sub(1),
            ',' if depth == 0 => is_choice = true,
            _ => {}
        }
        is_escaped = *character == '\\' && !is_escaped;
    }
    None
}

// The first and the last number of `FIRST..LAST`.
fn numbers_of(alloc: Global, text: &[char]) -> Result<Option<(i64, i64)>, AllocError> {
    let mut range = String::new(alloc);
    for character in text {
        range.push(*character)?;
    }
    let Some((first, last)) = range.as_str().split_once("..") else {
        return Ok(None);
    };
    match (first.parse::<i64>(), last.parse::<i64>()) {
        (Ok(first), Ok(last)) => Ok(Some((first.min(last), first.max(last)))),
        _ => Ok(None),
    }
}

// Adds what matches a character.
fn push_literal(out: &mut String, character: char) -> Result<(), AllocError> {
    if "\\.+*?()|[]{}^$#&-~".contains(character) {
        out.push('\\')?;
    }
    out.push(character)
}

// Adds the members of a class: characters and ranges of them.
fn push_members(out: &mut String, class: &[char]) -> Result<(), AllocError> {
    let mut rest = class;
    for _ in 0..class.len() {
        rest = match rest {
            [] => rest,
            ['\\', character, more @ ..] => {
                push_literal(out, *character)?;
                more
            }
            [first, '-', last, more @ ..] if first <= last && *last != '\\' => {
                push_literal(out, *first)?;
                out.push('-')?;
                push_literal(out, *last)?;
                more
            }
            [character, more @ ..] => {
                push_literal(out, *character)?;
                more
            }
        };
    }
    Ok(())
}

// Adds what matches the numbers from `first` to `last`, written without a plus and without zeros before them.
fn push_numbers(out: &mut String, first: i64, last: i64) -> Result<(), AllocError> {
    out.push_str("(?:")?;
    if first < 0 {
        let least = if last < 0 { last.unsigned_abs() } else { 1 };
        out.push_str("-(?:")?;
        push_counts(out, least, first.unsigned_abs())?;
        out.push(')')?;
    }
    if first < 0 && last >= 0 {
        out.push('|')?;
    }
    if last >= 0 {
        push_counts(out, first.max(0).unsigned_abs(), last.unsigned_abs())?;
    }
    out.push(')')
}

// Adds what matches the numbers from `first` to `last`, block by block.
fn push_counts(out: &mut String, first: u64, last: u64) -> Result<(), AllocError> {
    let mut next = first;
    for _ in 0..u64::MAX {
        let (size, zeros) = block_at(next, last);
        write!(out, "{}[0-9]{{{zeros}}}", next / size)?;
        match next.checked_add(size) {
            Some(after) if after <= last => next = after,
            _ => return Ok(()),
        }
        out.push('|')?;
    }
    Ok(())
}

// The largest block of numbers that begin with the same digits, from `first` on and up to `last` at most: its size, a power of
// ten, and how many zeros that has.
fn block_at(first: u64, last: u64) -> (u64, u32)
    ensures { 0 < result.0 }
{
    let mut size = 1u64;
    let mut zeros = 0;
    for n in 1..20 {
        let Some(larger) = size.checked_mul(10) else {
            break;
        };
        if first == 0 || first % larger != 0 || last.saturating_sub(first) < larger - 1 {
            break;
        }
        size = larger;
        zeros = n;
    }
    (size, zeros)
}
