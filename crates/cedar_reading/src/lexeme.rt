//! The tokens as the parser reads them: slices of the text, with their kinds and places.
ghost use Rattle.std.specs.Prelude.{◌≡◌, ◌≢◌, MatchResult, IfErr, if◌then◌else◌, is_some};
ghost use Rattle.std.specs.List.{list_all};
ghost use Rattle.std.specs.Char.{is_ascii_digit};
ghost use Rattle.cedar_tokens.specs.Units.{is_number};
ghost use Rattle.cedar_tokens.specs.Split.{IsFirstFault};
ghost use Rattle.cedar_grammar.specs.Numbers.{is_too_large};
ghost use Rattle.cedar_grammar.specs.Refusals.{RefusesTokens};
ghost use Rattle.cedar_grammar.specs.declared.error.FormatError.TheVariants.{OutOfMemory};
ghost use Rattle.cedar_reading.specs.Tokens.{HasTokens};

use cedar_grammar::error::FormatError;
use cedar_tokens::kind::Kind;
use cedar_tokens::token::Span;
use cedar_tokens::units::Units;

/// A token as the parser reads it.
#[derive(Clone, Copy)]
pub struct Lexeme<'src> {
    pub kind: Kind,
    pub text: &'src str,
    pub span: Span,
}

// Whether each byte is a digit.
fn all_digits(bytes: &[u8]) -> bool
    ensures { result ≡ list_all is_ascii_digit bytes.now }
{
    bytes.iter().all(|byte| byte.is_ascii_digit())
}

/// Whether the text is a number: digits, one or more.
pub fn is_number(text: &str) -> bool
    ensures { result ≡ is_number text.now }
{
    match text.as_bytes().split_first() {
        Some((first, rest)) => { first.is_ascii_digit() && all_digits(rest) }
        None => false,
    }
}

/// Whether the text is a number above 18446744073709551615.
pub fn is_too_large(text: &str) -> bool
    ensures { result ≡ is_too_large text.now }
{
    is_number(text) && text.parse::<u64>().is_err()
}

// The place of the first number above the limit, where `unit` stands at `at`, after the units so far.
fn first_too_large(found: Option<usize>, unit: &str, at: usize) -> Option<usize>
    ensures { result ≡ (if is_some found then found else (if is_too_large unit.now then Some at else None)) }
{
    if found.is_none() && is_too_large(unit) {
        Some(at)
    } else {
        found
    }
}

// Why no unit begins at the place `at`.
fn fault_at(text: &str, at: usize) -> FormatError
    requires { IsFirstFault text.now at }
    ensures fault { RefusesTokens text.now result }
    ensures memory { result ≢ OutOfMemory }
{
    if text.as_bytes()[at] == b'"' {
        FormatError::UnfinishedString { at }
    } else {
        FormatError::UnknownCharacter { at }
    }
}

/// Whether `text` has tokens that can be parsed. Refuses the first place where no unit begins; and where there is none, the
/// first number above 18446744073709551615. Allocates nothing.
pub fn check_tokens(text: &str) -> Result<(), FormatError>
    ensures tokens { MatchResult result (λ _. HasTokens text.now) (RefusesTokens text.now) }
    ensures memory { IfErr result (λ e. e ≢ OutOfMemory) }
{
    let mut too_large = None;
    let mut at = 0;
    for unit in Units::new(text) {
        too_large = first_too_large(too_large, unit.text, at);
        at += unit.text.len();
    }
    if at < text.len() {
        return Err(fault_at(text, at));
    }
    match too_large {
        Some(at) => Err(FormatError::NumberTooLarge { at }),
        None => Ok(()),
    }
}
