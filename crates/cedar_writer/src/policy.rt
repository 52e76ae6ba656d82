//! A policy, read and written.
ghost use Rattle.std.specs.Prelude.{◌≡◌, MatchResult, IfOk, vec_capacity};
ghost use Rattle.cedar_grammar.specs.Laws.{AreTokens};
ghost use Rattle.cedar_layout.specs.Layout.{Doc};
ghost use Rattle.cedar_print.specs.Marks.{marks_of};
ghost use Rattle.cedar_written.specs.Written as written;
ghost use Rattle.cedar_writer.specs.Outcomes.{IsOfTheGrammar, IsRead, IsRefused, ReadsAll, refusal_of};

use crate::node::{Line, write_line};
use crate::writer::Outcome;
use cedar_print::mark::{Indent, Mark};
use cedar_reading::token::Token;

/// Why a policy is not written; `left` counts the tokens from the refused one on.
#[derive(Clone, Copy)]
pub enum Refusal {
    /// No policy goes on with that token.
    Grammar { left: usize },
    /// A policy goes on with that token only if more ifs and brackets may be nested.
    TooDeep { left: usize },
    /// Memory for the marks was refused.
    OutOfMemory,
}

/// Reads the policy that the tokens begin with, and writes the marks of its document; returns how many tokens are left after
/// the policy. `indent` is the indentation; an expression may nest `depth` ifs and brackets. Refuses at the first
/// token through which no policy begins; a policy of the written grammar is read to its end, unless out of memory.
///
/// The former marks are dropped, and their memory is reused; more is asked for only if that is too little. After a refusal the
/// marks are unspecified.
pub fn write_policy<'src>(
    tokens: &[Token<'_, 'src>],
    marks: &mut Vec<Mark<'src>>,
    indent: Indent,
    depth: usize,
) -> Result<usize, Refusal>
    ensures outcome { MatchResult result (IsRead indent.columns depth tokens.now (marks_of marks.new.items)) (IsRefused indent.columns depth tokens.now (vec_capacity marks.old)) }
    ensures policies { (d : Doc) → written.Policy indent.columns depth tokens.now d → ReadsAll result }
    ensures grammar { AreTokens (λ t. t.text) tokens.now → IfOk result (IsOfTheGrammar indent.columns depth tokens.now (marks_of marks.new.items)) }
{
    let Ok(outcome) = write_line(tokens, marks, Line::Policy, false, indent, depth) else {
        return Err(Refusal::OutOfMemory);
    };
    match outcome {
        Outcome::Written { left } => Ok(left),
        Outcome::Refused { too_deep, left } => Err(refusal_of(too_deep, left)),
        Outcome::OutOfRoom => Err(Refusal::OutOfMemory),
    }
}

// A refusal before so many tokens, for the depth alone or not.
fn refusal_of(too_deep: bool, left: usize) -> Refusal
    ensures { result ≡ refusal_of too_deep left }
{
    if too_deep {
        Refusal::TooDeep { left }
    } else {
        Refusal::Grammar { left }
    }
}
