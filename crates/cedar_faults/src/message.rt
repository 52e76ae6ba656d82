//! What was expected, for people.
ghost use Rattle.std.specs.Prelude.{◌≡◌, chars, Some};
ghost use Rattle.std.specs.Fmt.{DisplaysOnOk};
ghost use Rattle.cedar_faults.specs.Messages.{alternatives, called, expected_text, found_text, is_format, is_hidden, listed, quoted, shown, shown_character};
ghost use Rattle.cedar_faults.specs.Inside.Separators.{separator};

use crate::expectation::Expected;
use crate::kinds::Name;
use crate::samples::sample;
use cedar_tokens::kind::Kind;
use std::fmt;

// How many characters of a token are printed.
const SHOWN: usize = 30;

// What is found, or could come, after the last token.
const END: &str = "the end of the text";

impl fmt::Display for Name {
    ghost output = { λ name. Some (called name) };

    fn fmt<W: fmt::Write>(&self, f: &mut fmt::Formatter<W>) -> fmt::Result {
        match self {
            Name::Policy => f.write_str("a policy"),
            Name::Condition => f.write_str("a condition"),
            Name::Word => f.write_str("a word"),
            Name::Expression => f.write_str("an expression"),
            Name::Operand => f.write_str("an operand"),
            Name::FlatOperand => f.write_str("an operand without brackets"),
            Name::Identifier => f.write_str("an identifier"),
            Name::Operator => f.write_str("an operator"),
            Name::ArithmeticOrLogical => f.write_str("an arithmetic or logical operator"),
            Name::Token(Kind::Identifier) => f.write_str("an identifier that is no keyword"),
            Name::Token(Kind::Number) => f.write_str("a number"),
            Name::Token(Kind::Str) => f.write_str("a string"),
            Name::Token(kind) => {
                let token = sample(*kind);
                write!(f, "'{token}'")
            }
        }
    }
}

impl fmt::Display for Expected<'_> {
    ghost output = { λ e. Some (expected_text e) };

    fn fmt<W: fmt::Write>(&self, f: &mut fmt::Formatter<W>) -> fmt::Result {
        f.write_str("expected ")?;
        self.write_alternatives(f)?;
        f.write_str(", found ")?;
        self.write_found(f)
    }
}

impl Expected<'_> {
    // What could come there: `a`, `a or b`, `a, b or c` and so on.
    fn write_alternatives<W: fmt::Write>(&self, f: &mut fmt::Formatter<W>) -> fmt::Result
        ensures { DisplaysOnOk W.write_str_gives f.old result (Some (listed (alternatives self.now))) f.new }
    {
        let last = if self.end {
            self.names.len()
        } else {
            self.names.len().saturating_sub(1)
        };
        for (index, name) in self.names.iter().enumerate() {
            f.write_str(separator(index, last))?;
            write!(f, "{name}")?;
        }
        if self.end {
            f.write_str(separator(last, last))?;
            f.write_str(END)?;
        }
        Ok(())
    }

    // The token at the place, or that the text ends there.
    fn write_found<W: fmt::Write>(&self, f: &mut fmt::Formatter<W>) -> fmt::Result
        ensures { DisplaysOnOk W.write_str_gives f.old result (Some (found_text self.now.found)) f.new }
    {
        match self.found {
            Some(token) => write_token(f, token),
            None => f.write_str(END),
        }
    }
}

// What comes before the alternative with this index, given the index of the last one.
fn separator(index: usize, last: usize) -> &'static str
    ensures { result.now ≡ separator index last }
{
    if index == 0 {
        ""
    } else if index == last {
        " or "
    } else {
        ", "
    }
}

/// Writes a token between quotes, cut to its first 30 characters if it is longer.
pub fn write_token<W: fmt::Write>(f: &mut fmt::Formatter<W>, token: &str) -> fmt::Result
    ensures { DisplaysOnOk W.write_str_gives f.old result (Some (quoted (shown 30 (chars token.now)))) f.new }
{
    f.write_str("'")?;
    let mut left = SHOWN;
    for character in token.chars() {
        if left == 0 {
            return f.write_str("...'");
        }
        write_character(f, character)?;
        left -= 1;
    }
    f.write_str("'")
}

// A character; what would end the line, move the cursor, be invisible or reorder the text is escaped.
fn write_character<W: fmt::Write>(f: &mut fmt::Formatter<W>, character: char) -> fmt::Result
    ensures { DisplaysOnOk W.write_str_gives f.old result (Some (shown_character character)) f.new }
{
    match character {
        '\n' => f.write_str("\\n"),
        '\r' => f.write_str("\\r"),
        '\t' => f.write_str("\\t"),
        other if is_hidden(other) => write!(f, "\\u{{{:x}}}", other as u32),
        other => f.write_char(other),
    }
}

// Whether a character moves the cursor, is invisible, or changes the order of those around it.
fn is_hidden(character: char) -> bool
    ensures { result ≡ is_hidden character }
{
    character.is_control() || is_format(character)
}

// Whether it is a format character of Unicode.
fn is_format(character: char) -> bool
    ensures { result ≡ is_format character }
{
    matches!(
        character,
        '\u{61c}'
            | '\u{200b}'..='\u{200f}'
            | '\u{2028}'..='\u{202e}'
            | '\u{2060}'..='\u{2069}'
            | '\u{feff}'
    )
}
