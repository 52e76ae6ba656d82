//! The units of a text, one after the other.
ghost use Rattle.std.specs.Prelude.{◌≡◌};

use crate::lexer::{UnitKind, first_unit};

/// A unit of a text and its kind.
#[derive(Clone, Copy)]
pub struct Unit<'src> {
    pub kind: UnitKind,
    pub text: &'src str,
}

/// The remaining units of a text, up to its end or the first place where none begins.
#[derive(Clone, Copy)]
pub struct Units<'src> {
    rest: &'src str,
}

impl<'src> Units<'src> {
    ghost use Rattle.cedar_tokens.specs.UnitSteps.{text_left};

    /// The units of `text`.
    pub fn new(text: &'src str) -> Units<'src>
        ensures { text_left result ≡ text.now }
    {
        Units { rest: text }
    }
}

impl<'src> Iterator for Units<'src> {
    ghost use Rattle.cedar_tokens.specs.UnitSteps.{GivesUnit, count_left};

    type Item = Unit<'src>;

    ghost next_gives = { GivesUnit };

    ghost remaining = { count_left };

    fn next(&mut self) -> Option<Unit<'src>> {
        let (kind, len) = first_unit(self.rest)?;
        let (text, rest) = self.rest.split_at(len);
        self.rest = rest;
        Some(Unit { kind, text })
    }
}
