//! The bracket that is still open at a fault.
ghost use Rattle.std.specs.Prelude.{◌≡◌, IfOk, Some};
ghost use Rattle.cedar_tokens.specs.Split.{Splits};
ghost use Rattle.cedar_faults.specs.Brackets.{if_left_open, innermost, is_bracket, leaves_open, passes_over, told_open};
ghost use Rattle.cedar_faults.specs.Inside.Brackets.{AreBrackets, IsUnclosed};

use crate::samples::sample;
use cedar_tokens::kind::{Kind, kind_of};
use cedar_tokens::laws::fault_prevents_split;
use cedar_tokens::token::Span;
use cedar_tokens::units::Units;
use std::alloc::{AllocError, Global};
use std::fmt;

/// A bracket of a text. Its `Display` says that it isn't closed.
#[derive(Clone, Copy, Debug, PartialEq, Eq)]
pub struct Bracket {
    /// Its byte.
    pub part: Span,
    /// Which bracket it is.
    pub kind: Kind,
}

impl fmt::Display for Bracket {
    ghost output = { λ b. Some (told_open b) };

    fn fmt<W: fmt::Write>(&self, f: &mut fmt::Formatter<W>) -> fmt::Result {
        let bracket = sample(self.kind);
        write!(f, "this '{bracket}' is not closed")
    }
}

/// The innermost bracket that is open after the text, if what is found there leaves it open.
pub(crate) fn left_open(
    alloc: Global,
    text: &str,
    found: Option<&str>,
) -> Result<Option<Bracket>, AllocError>
    requires { Splits text.now }
    ensures { IfOk result (IsUnclosed text.now found.entry) }
{
    let brackets = brackets(alloc, text)?;
    Ok(if_left_open(found, innermost(&brackets)))
}

// The brackets of a text, in order.
fn brackets(alloc: Global, text: &str) -> Result<Vec<Bracket>, AllocError>
    requires { Splits text.now }
    ensures { IfOk result (λ brackets. AreBrackets text.now brackets.items) }
{
    fault_prevents_split();
    let mut brackets = Vec::new(alloc);
    let mut end = 0;
    for unit in Units::new(text) {
        let start = end;
        end += unit.text.len();
        let kind = kind_of(unit.text);
        if !is_bracket(kind) {
            continue;
        }
        let part = Span { start, end };
        brackets.push(Bracket { part, kind })?;
    }
    Ok(brackets)
}

// The innermost bracket that is open after these.
fn innermost(brackets: &[Bracket]) -> Option<Bracket>
    ensures { result ≡ innermost brackets.now }
{
    let mut closed: usize = 0;
    for i in (0..brackets.len()).rev() {
        let bracket = brackets[i];
        if bracket.kind.is_closing() {
            closed += 1;
            continue;
        }
        if !bracket.kind.is_opening() {
            continue;
        }
        if closed == 0 {
            return Some(bracket);
        }
        closed -= 1;
    }
    None
}

// The bracket, if what is found leaves it open.
fn if_left_open(found: Option<&str>, bracket: Option<Bracket>) -> Option<Bracket>
    ensures { result ≡ if_left_open found.entry bracket }
{
    match bracket {
        Some(bracket) if leaves_open(found, bracket.kind) => Some(bracket),
        _ => None,
    }
}

// Whether what is found leaves a bracket of this kind open: the end of the text does.
fn leaves_open(found: Option<&str>, kind: Kind) -> bool
    ensures { result ≡ leaves_open found.entry kind }
{
    match found {
        Some(found) => passes_over(kind, kind_of(found)),
        None => true,
    }
}

// Whether a token of the second kind leaves a bracket of the first open.
fn passes_over(bracket: Kind, kind: Kind) -> bool
    ensures { result ≡ passes_over bracket kind }
{
    matches!(kind, Kind::SemiColon) || (kind.is_closing() && !bracket.is_closed_by(kind))
}

// Whether it is the kind of a bracket.
fn is_bracket(kind: Kind) -> bool
    ensures { result ≡ is_bracket kind }
{
    kind.is_opening() || kind.is_closing()
}
