//! The tokens of a text with their comments, from its lexemes.
ghost use Rattle.std.specs.Prelude.{◌≡◌, ◌≤◌, length, map, IfOk};
ghost use Rattle.std.specs.List.{AllByRecursion};
ghost use Rattle.std.specs.Str.{IsCharBoundary};
ghost use Rattle.cedar_tokens.specs.Listing.{IsListing};
ghost use Rattle.cedar_tokens.specs.Places.{AreTokenSpans, InOrderFrom};
ghost use Rattle.cedar_tokens.specs.Tokens.{decorated, comments_left, StandsIn};
ghost use Rattle.cedar_tokens.specs.Inside.Between.{first_start, text_before};
ghost use Rattle.cedar_reading.specs.Lexemes.{AreLexemes};

use crate::lexeme::Lexeme;
use cedar_tokens::readers::{commented_token, split_gap};
use cedar_tokens::token::{Comments, WrappedToken, get_comment};
use std::alloc::{AllocError, Global};

// Where the first of these lexemes starts; `end` where there is none.
fn first_start(lexemes: &[Lexeme], end: usize) -> usize
    ensures { result ≡ first_start end (map (λ l. l.span) lexemes.now) }
{
    match lexemes.first() {
        Some(lexeme) => lexeme.span.start,
        None => end,
    }
}

// The text from the byte `at` to the first of these lexemes, or to its end.
fn text_before<'src>(text: &'src str, at: usize, lexemes: &[Lexeme]) -> &'src str
    requires from { IsCharBoundary text.now at }
    requires to { IsCharBoundary text.now (first_start (length text.now) (map (λ l. l.span) lexemes.now)) }
    requires order { at ≤ first_start (length text.now) (map (λ l. l.span) lexemes.now) }
    ensures { result.now ≡ text_before text.now at (map (λ l. l.span) lexemes.now) }
{
    &text[at..first_start(lexemes, text.len())]
}

/// Stores the tokens of a text with their comments in `tokens`, and returns the closing comments, from the text's lexemes:
/// those of `get_token_stream`. The former contents of `tokens` are dropped, and its memory is reused. After an error its contents
/// are unspecified.
pub fn commented_tokens<'src>(
    alloc: Global,
    text: &'src str,
    lexemes: &[Lexeme<'src>],
    tokens: &mut Vec<WrappedToken<'src>>,
) -> Result<Comments<'src>, AllocError>
    requires { AreLexemes text.now lexemes.now }
    ensures listing { IfOk result (λ closing. IsListing text.now (record { tokens = map decorated tokens.new.items; closing = comments_left closing })) }
    ensures spans { IfOk result (λ _. AreTokenSpans text.now (map (λ w. w.span) tokens.new.items)) }
    ensures order { IfOk result (λ _. InOrderFrom 0 (map (λ w. w.span) tokens.new.items)) }
    ensures slices { IfOk result (λ _. AllByRecursion (StandsIn text.now) tokens.new.items) }
{
    tokens.clear();
    tokens.reserve(lexemes.len())?;
    let mut leading = text_before(text, 0, lexemes);
    for (at, lexeme) in lexemes.iter().enumerate() {
        let gap = text_before(text, lexeme.span.end, &lexemes[at + 1..]);
        let (trailing, ahead) = split_gap(gap);
        let Lexeme { kind, text, span } = *lexeme;
        tokens.push(commented_token(alloc, kind, text, span, leading, trailing)?)?;
        leading = ahead;
    }
    Ok(get_comment(leading))
}
