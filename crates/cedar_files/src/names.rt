//! How texts are printed.
use std::fmt;

/// A name as it is printed. One with a control character is in quotes, with escapes as in C.
#[derive(Clone, Copy)]
pub struct Shown<'a>(pub &'a str);

impl fmt::Display for Shown<'_> {
    fn fmt<W: fmt::Write>(&self, f: &mut fmt::Formatter<W>) -> fmt::Result {
        if !is_quoted(self.0) {
            return f.write_str(self.0);
        }
        f.write_char('"')?;
        write_escaped(self.0, f)?;
        f.write_char('"')
    }
}

/// A text between the quotes of a name, with escapes as in C.
#[derive(Clone, Copy)]
pub struct Escaped<'a>(pub &'a str);

impl fmt::Display for Escaped<'_> {
    fn fmt<W: fmt::Write>(&self, f: &mut fmt::Formatter<W>) -> fmt::Result {
        write_escaped(self.0, f)
    }
}

/// A name that isn't UTF-8, in quotes, with escapes as in C.
#[derive(Clone, Copy)]
pub struct ShownBytes<'a>(pub &'a [u8]);

impl fmt::Display for ShownBytes<'_> {
    fn fmt<W: fmt::Write>(&self, f: &mut fmt::Formatter<W>) -> fmt::Result {
        f.write_char('"')?;
        for byte in self.0 {
            match byte {
                b'"' => f.write_str("\\\"")?,
                b'\\' => f.write_str("\\\\")?,
                b'\n' => f.write_str("\\n")?,
                b'\t' => f.write_str("\\t")?,
                b' '..=b'~' => f.write_char(char::from(*byte))?,
                _ => write!(f, "\\{byte:03o}")?,
            }
        }
        f.write_char('"')
    }
}

/// Whether a name is printed in quotes.
pub fn is_quoted(name: &str) -> bool {
    name.starts_with('"') || name.chars().any(|it| it.is_control())
}

// Writes a text with escapes as in C: the bytes of a control character in octal.
fn write_escaped<W: fmt::Write>(text: &str, f: &mut fmt::Formatter<W>) -> fmt::Result {
    for character in text.chars() {
        match character {
            '"' => f.write_str("\\\"")?,
            '\\' => f.write_str("\\\\")?,
            '\n' => f.write_str("\\n")?,
            '\t' => f.write_str("\\t")?,
            _ if character.is_control() => write_octal(character, f)?,
            _ => f.write_char(character)?,
        }
    }
    Ok(())
}

fn write_octal<W: fmt::Write>(character: char, f: &mut fmt::Formatter<W>) -> fmt::Result {
    let mut bytes = [0; 4];
    for byte in character.encode_utf8(&mut bytes).bytes() {
        write!(f, "\\{byte:03o}")?;
    }
    Ok(())
}

/// A text as a string of JSON.
#[derive(Clone, Copy)]
pub struct JsonText<'a>(pub &'a str);

impl fmt::Display for JsonText<'_> {
    fn fmt<W: fmt::Write>(&self, f: &mut fmt::Formatter<W>) -> fmt::Result {
        f.write_char('"')?;
        for character in self.0.chars() {
            match character {
                '"' => f.write_str("\\\"")?,
                '\\' => f.write_str("\\\\")?,
                _ if character.is_control() => write!(f, "\\u{:04x}", u32::from(character))?,
                _ => f.write_char(character)?,
            }
        }
        f.write_char('"')
    }
}

/// A text in a workflow command of GitHub: its message, or one of its properties. Other control characters than the ends of
/// lines, which GitHub has escapes for, are written as in a name.
#[derive(Clone, Copy)]
pub enum CommandText<'a> {
    Message(&'a str),
    Property(&'a str),
}

impl fmt::Display for CommandText<'_> {
    fn fmt<W: fmt::Write>(&self, f: &mut fmt::Formatter<W>) -> fmt::Result {
        let (text, is_property) = match self {
            CommandText::Message(text) => (*text, false),
            CommandText::Property(text) => (*text, true),
        };
        for character in text.chars() {
            match character {
                '%' => f.write_str("%25")?,
                '\r' => f.write_str("%0D")?,
                '\n' => f.write_str("%0A")?,
                ':' if is_property => f.write_str("%3A")?,
                ',' if is_property => f.write_str("%2C")?,
                '\t' => f.write_str("\\t")?,
                _ if character.is_control() => write_octal(character, f)?,
                _ => f.write_char(character)?,
            }
        }
        Ok(())
    }
}
