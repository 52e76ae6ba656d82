//! What a text begins with: an accepted policy or a fault.
ghost use Rattle.std.specs.Prelude.{IfOk, MatchOption};
ghost use Rattle.cedar_grammar.specs.Texts.{Accepted};
ghost use Rattle.cedar_reading.specs.Tokens.{HasTokens};
ghost use Rattle.cedar_grammar.specs.Refusals.{Refuses};
ghost use Rattle.cedar_faults.specs.Inside.Beginnings.{Is, IsTokenFault, RefusesInside};
ghost use Rattle.cedar_faults.specs.Inside.TokenBeginnings.{TokensBegin};

use cedar_cst::cst::parse_policies;
use cedar_grammar::error::FormatError;
use cedar_grammar::tree_laws::tree_is_of_accepted;
use cedar_reading::lexeme::{Lexeme, is_too_large};
use cedar_reading::pieces::read_piece;
use cedar_tokens::units::Units;
use std::alloc::{AllocError, Global};

/// What a text begins with.
#[derive(Clone, Copy)]
pub enum Beginning {
    /// An accepted policy and the rest of its line: so many bytes.
    Policy(usize),
    /// No policy: all of the text is accepted.
    End,
    /// A policy that isn't accepted. This is the first fault of the text.
    Faulty(FormatError),
}

// Where the first unit is missing, or the first number too large.
#[derive(Clone, Copy)]
struct TokenFault {
    at: usize,
    error: FormatError,
}

/// What `text` begins with. `room` is memory for the tokens of a policy, and its contents are unspecified afterwards.
pub fn read_beginning<'src>(
    alloc: Global,
    text: &'src str,
    room: &mut Vec<Lexeme<'src>>,
) -> Result<Beginning, AllocError>
    ensures { IfOk result (Is text.now) }
{
    let Some(len) = read_piece(text, room)? else {
        return last_beginning(alloc, text);
    };
    // (a policy ends at its `;`, so none is missing)
    match inner_refusal(alloc, &text[..len])? {
        Some(error) => Ok(Beginning::Faulty(error)),
        None => Ok(Beginning::Policy(len)),
    }
}

// The same where no `;` comes before the end of the text, or its first token fault.
fn last_beginning(alloc: Global, text: &str) -> Result<Beginning, AllocError>
    ensures { IfOk result (Is text.now) }
{
    let Some(fault) = token_fault(text) else {
        return match refusal(alloc, text)? {
            Some(error) => Ok(Beginning::Faulty(error)),
            None => Ok(Beginning::End),
        };
    };
    match inner_refusal(alloc, &text[..fault.at])? {
        Some(error) => Ok(Beginning::Faulty(error)),
        None => Ok(Beginning::Faulty(fault.error)),
    }
}

// Why the text is refused before its end, if it is; else some accepted list begins with its tokens.
fn inner_refusal(alloc: Global, text: &str) -> Result<Option<FormatError>, AllocError>
    requires { HasTokens text.now }
    ensures { IfOk result (λ refusal. MatchOption refusal (TokensBegin text.now) (RefusesInside text.now)) }
{
    match refusal(alloc, text)? {
        Some(FormatError::Grammar { at }) if at == text.len() => Ok(None),
        other => Ok(other),
    }
}

// Why the text is refused, if it is.
fn refusal(alloc: Global, text: &str) -> Result<Option<FormatError>, AllocError>
    ensures { IfOk result (λ refusal. MatchOption refusal (Accepted text.now) (Refuses text.now)) }
{
    tree_is_of_accepted();
    match parse_policies(alloc, text) {
        Ok(_) => Ok(None),
        Err(FormatError::OutOfMemory) => Err(AllocError),
        Err(error) => Ok(Some(error)),
    }
}

// The first place of the text where no unit begins, or a number that is too large.
fn token_fault(text: &str) -> Option<TokenFault>
    ensures { MatchOption result (HasTokens text.now) (IsTokenFault text.now) }
{
    let mut at = 0;
    for unit in Units::new(text) {
        if is_too_large(unit.text) {
            let error = FormatError::NumberTooLarge { at };
            return Some(TokenFault { at, error });
        }
        at += unit.text.len();
    }
    if at == text.len() {
        return None;
    }
    let error = if text.as_bytes()[at] == b'"' {
        FormatError::UnfinishedString { at }
    } else {
        FormatError::UnknownCharacter { at }
    };
    Some(TokenFault { at, error })
}
