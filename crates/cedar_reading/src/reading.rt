//! Steps over tokens that every parse function shares.
ghost use Rattle.std.specs.Prelude.{◌≡◌, ◌<◌, ◌≤◌, ◌||◌, true, false, length, IfOk, IfSome};
ghost use Rattle.cedar_tokens.specs.declared.kind.Kind.TheVariants as K;
ghost use Rattle.cedar_tokens.specs.Kinds.{is, begins};
ghost use Rattle.cedar_grammar.specs.Reader.Reading.{one, stuck};
ghost use Rattle.cedar_grammar.specs.Reader.Rules.{expr_first};
ghost use Rattle.cedar_reading.specs.Reading.{Keeps, Follows, kind, first_kind, GivesToken, GoesPast, Fails, FollowedBy, first_place, Skips};
ghost use Rattle.cedar_reading.specs.declared.reading.Refusal.TheVariants.{OutOfMemory};

use crate::lexeme::Lexeme;
use cedar_tokens::kind::Kind;
use std::alloc::AllocFailed;

/// Why tokens are refused; `left` counts the tokens from the refused one on.
#[derive(Clone, Copy)]
pub enum Refusal {
    Grammar { left: usize },
    TooDeep { left: usize },
    OutOfMemory,
}

impl<T: Drop> From<AllocFailed<T>> for Refusal {
    ghost from_gives = { λ _ e. e ≡ OutOfMemory };

    fn from(_failed: AllocFailed<T>) -> Refusal {
        Refusal::OutOfMemory
    }
}

/// What was read, and the tokens after it.
pub type Parsed<'t, 'src, T> = Result<(T, &'t [Lexeme<'src>]), Refusal>;

/// The refusal at the first of these tokens.
pub fn refuse(tokens: &[Lexeme]) -> Refusal
    ensures { Fails result (stuck false tokens.now) }
{
    Refusal::Grammar { left: tokens.len() }
}

/// The refusal at the first of these tokens, if only that one is nested too deeply.
pub fn too_deep(tokens: &[Lexeme]) -> Refusal
    ensures { Fails result (stuck true tokens.now) }
{
    Refusal::TooDeep { left: tokens.len() }
}

/// The kind of the first token.
pub fn first_kind(tokens: &[Lexeme]) -> Option<Kind>
    ensures { result ≡ first_kind tokens.now }
{
    let (first, _) = tokens.split_first()?;
    Some(first.kind)
}

/// Whether the first token is of this kind.
pub fn begins(tokens: &[Lexeme], wanted: Kind) -> bool
    ensures { result ≡ begins kind (is wanted) tokens.now }
{
    match tokens.split_first() {
        Some((first, _)) => wanted == first.kind,
        None => false,
    }
}

/// Whether an expression begins with the first token.
pub fn begins_expression(tokens: &[Lexeme]) -> bool
    ensures { result ≡ begins kind expr_first tokens.now }
{
    first_kind(tokens).is_some_and(cedar_grammar::kind::begins_expression)
}

/// Whether a parenthesis, a list or a record begins with the first token.
pub fn begins_bracket(tokens: &[Lexeme]) -> bool
    ensures { result ≡ (begins kind (is K.LParen) tokens.now || (begins kind (is K.LBracket) tokens.now || begins kind (is K.LBrace) tokens.now)) }
{
    begins(tokens, Kind::LParen) || begins(tokens, Kind::LBracket) || begins(tokens, Kind::LBrace)
}

/// The tokens after the first, if that is of this kind.
pub fn past<'t, 'src>(tokens: &'t [Lexeme<'src>], wanted: Kind) -> Option<&'t [Lexeme<'src>]>
    ensures shorter { IfSome result (λ rest. length rest.now < length tokens.now) }
    ensures token { GoesPast wanted tokens.now result }
{
    match tokens.split_first() {
        Some((first, rest)) => {
            if wanted == first.kind {
                Some(rest)
            } else {
                None
            }
        }
        None => None,
    }
}

/// Skips a token of this kind if it comes first, and says whether it did.
pub fn skip<'t, 'src>(rest: &mut &'t [Lexeme<'src>], wanted: Kind) -> bool
    ensures shorter { length rest.new.now ≤ length rest.old.now }
    ensures token { Skips wanted rest.old.now rest.new.now result }
{
    let tokens = *rest;
    *rest = past(tokens, wanted).unwrap_or(tokens);
    begins(tokens, wanted)
}

/// The token of this kind, and the tokens after it.
pub fn expect<'t, 'src>(tokens: &'t [Lexeme<'src>], wanted: Kind) -> Parsed<'t, 'src, Lexeme<'src>>
    ensures shorter { IfOk result (λ x. length x.1.now < length tokens.now) }
    ensures reads { GivesToken wanted result (one kind wanted tokens.now) }
{
    match tokens.split_first() {
        Some((first, rest)) => {
            if wanted == first.kind {
                Ok((*first, rest))
            } else {
                Err(refuse(tokens))
            }
        }
        None => Err(refuse(tokens)),
    }
}

/// Where the first token starts.
pub fn start_of(tokens: &[Lexeme]) -> usize
    ensures { result ≡ first_place tokens.now }
{
    match tokens.split_first() {
        Some((first, _)) => first.span.start,
        None => 0,
    }
}

/// Keeps an item that was read, and continues after it.
pub fn keep<'t, 'src, T: Drop>(
    read: Parsed<'t, 'src, T>,
    items: &mut Vec<T>,
    rest: &mut &'t [Lexeme<'src>],
) -> Result<(), Refusal>
    ensures { Keeps read.entry items.old.items items.new.items rest.new result }
{
    match read {
        Ok((item, after)) => {
            *rest = after;
            items.push(item)?;
            Ok(())
        }
        Err(refusal) => Err(refusal),
    }
}

/// What was read and the token of this kind after it, with that token's end as the answer.
pub fn followed_by<'t, 'src, T: Drop>(
    read: Parsed<'t, 'src, T>,
    wanted: Kind,
) -> Parsed<'t, 'src, (T, usize)>
    ensures shorter { Follows read.entry result }
    ensures reads { FollowedBy wanted read.entry result }
{
    match read {
        Ok((value, rest)) => match expect(rest, wanted) {
            Ok((close, rest)) => Ok(((value, close.span.end), rest)),
            Err(refusal) => Err(refusal),
        },
        Err(refusal) => Err(refusal),
    }
}
