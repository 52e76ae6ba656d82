//! The parts of any text: its units, and characters where no unit begins.
ghost use Rattle.std.specs.Prelude.{◌≡◌, ◌≢◌, ◌<◌, ℕ, List, [], take};
ghost use Rattle.std.specs.Str.{IsCharBoundary};
ghost use Rattle.cedar_tokens.specs.Split.{HasKind};
ghost use Rattle.cedar_server.specs.Parts.{IsPart, HasPartKind};

use cedar_tokens::lexer::{UnitKind, first_unit};

/// What a part of a text is.
#[derive(Clone, Copy)]
pub enum PartKind {
    Token,
    Comment,
    /// A blank, or a character that no unit begins with.
    Other,
}

/// A unit, or a character that no unit begins with.
#[derive(Clone, Copy)]
pub struct Part<'src> {
    pub kind: PartKind,
    pub text: &'src str,
}

/// The remaining parts of a text, up to its end.
#[derive(Clone, Copy)]
pub struct Parts<'src> {
    rest: &'src str,
}

impl<'src> Parts<'src> {
    ghost use Rattle.cedar_server.specs.PartSteps.{parts_left};

    /// The parts of `text`.
    pub fn new(text: &'src str) -> Parts<'src>
        ensures { parts_left result ≡ text.now }
    {
        Parts { rest: text }
    }
}

impl<'src> Iterator for Parts<'src> {
    ghost use Rattle.cedar_server.specs.PartSteps.{GivesPart, count_left};

    type Item = Part<'src>;

    ghost next_gives = { GivesPart };

    ghost remaining = { count_left };

    fn next(&mut self) -> Option<Part<'src>> {
        if self.rest.is_empty() {
            return None;
        }
        let (kind, len) = first_part(self.rest);
        let (text, rest) = self.rest.split_at(len);
        self.rest = rest;
        Some(Part { kind, text })
    }
}

// The kind and the length in bytes of the part at the start of the text.
fn first_part(text: &str) -> (PartKind, usize)
    requires { text.now ≢ [] }
    ensures part { IsPart text.now (take result.1 text.now) }
    ensures kind { HasPartKind result.0 (take result.1 text.now) }
    ensures boundary { IsCharBoundary text.now result.1 }
    ensures nonempty { 0 < result.1 }
{
    match first_unit(text) {
        Some((kind, len)) => (part_kind(kind), len),
        None => (PartKind::Other, text.ceil_char_boundary(1)),
    }
}

// What a unit of this kind is among parts.
fn part_kind(kind: UnitKind) -> PartKind
    ensures { (u : List ℕ) → HasKind kind u → HasPartKind result u }
{
    match kind {
        UnitKind::Token => PartKind::Token,
        UnitKind::Comment => PartKind::Comment,
        UnitKind::Blank => PartKind::Other,
    }
}
