//! The lines of a file `.editorconfig`.
ghost use Rattle.std.specs.Prelude.{◌≡◌};
ghost use Rattle.cedar_settings.specs.Values.{Says, is_usable, least_number};

use std::num::IntErrorKind;

/// A setting that decides about a layout.
#[derive(Clone, Copy, PartialEq, Eq)]
pub enum Key {
    /// `indent_size`: the columns of a level.
    IndentSize,
    /// `tab_width`: the columns of a tab.
    TabWidth,
    /// `max_line_length`: the columns of a line.
    MaxLineLength,
}

/// What a setting is given.
#[derive(Clone, Copy)]
pub enum Value {
    /// So many columns.
    Columns(u16),
    /// `tab`: as many columns as a tab has.
    Tab,
    /// `off`: no limit.
    Off,
    /// `unset`: as if nothing had been set.
    Unset,
    /// The value can't be used.
    Wrong(Fault),
}

/// What is wrong in a file.
#[derive(Clone, Copy)]
pub enum Fault {
    /// The file isn't UTF-8.
    NotUtf8,
    /// The line is no section, no setting and no comment.
    NoSetting,
    /// The glob of a section is too large.
    TooLarge,
    /// The value is no number, and none of the words that the setting takes.
    NoNumber,
    /// The number is too small or too large.
    OutOfRange,
}

/// A line that gives a value to a setting.
#[derive(Clone, Copy)]
pub struct Entry {
    pub key: Key,
    pub value: Value,
    /// The number of the line, from 1.
    pub line: usize,
}

/// What a line holds.
#[derive(Clone, Copy)]
pub enum Line<'t> {
    /// Nothing, or a comment.
    Blank,
    /// The glob of a section.
    Section(&'t str),
    /// A setting and its value.
    Pair { key: &'t str, value: &'t str },
    /// Anything else.
    Other,
}

/// What a line holds.
pub fn read_line(line: &str) -> Line<'_> {
    let line = line.trim();
    if line.is_empty() || line.starts_with('#') || line.starts_with(';') {
        return Line::Blank;
    }
    if let Some(rest) = line.strip_prefix('[')
        && let Some(glob) = rest.strip_suffix(']')
    {
        return Line::Section(glob);
    }
    match line.split_once('=') {
        Some((key, value)) => Line::Pair {
            key: key.trim(),
            value: value.trim(),
        },
        None => Line::Other,
    }
}

/// The setting with this name, if it decides about a layout.
pub fn key_of(name: &str) -> Option<Key> {
    [Key::IndentSize, Key::TabWidth, Key::MaxLineLength]
        .into_iter()
        .find(|key| name.eq_ignore_ascii_case(key.name()))
}

impl Value {
    /// Whether it can be used.
    pub fn is_usable(self) -> bool
        ensures { result ≡ is_usable self }
    {
        !matches!(self, Value::Wrong(_))
    }
}

impl Key {
    /// Its name.
    pub fn name(self) -> &'static str {
        match self {
            Key::IndentSize => "indent_size",
            Key::TabWidth => "tab_width",
            Key::MaxLineLength => "max_line_length",
        }
    }

    /// The least number that it takes; the largest one is 65535.
    pub fn least(self) -> u16
        ensures { result ≡ least_number self }
    {
        match self {
            Key::IndentSize | Key::TabWidth => 0,
            Key::MaxLineLength => 1,
        }
    }

    /// What the text of a value says.
    pub fn read(self, text: &str) -> Value
        ensures { Says self text.now result }
    {
        if text.eq_ignore_ascii_case("unset") {
            return Value::Unset;
        }
        if self == Key::IndentSize && text.eq_ignore_ascii_case("tab") {
            return Value::Tab;
        }
        if self == Key::MaxLineLength && text.eq_ignore_ascii_case("off") {
            return Value::Off;
        }
        match text.parse::<u16>() {
            Ok(columns) if columns >= self.least() => Value::Columns(columns),
            Ok(_) => Value::Wrong(Fault::OutOfRange),
            Err(error) if *error.kind() == IntErrorKind::PosOverflow => {
                Value::Wrong(Fault::OutOfRange)
            }
            Err(_) => Value::Wrong(Fault::NoNumber),
        }
    }
}
