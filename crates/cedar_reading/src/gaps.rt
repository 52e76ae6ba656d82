//! The texts between lexemes.
ghost use Rattle.std.specs.Prelude.{◌≡◌, ◌≤◌, ◌<◌, length, map, drop};
ghost use Rattle.std.specs.Str.{IsCharBoundary, trim};
ghost use Rattle.cedar_tokens.specs.Inside.Between.{first_start, text_before};
ghost use Rattle.cedar_tokens.specs.Inside.Newlines.{before_newline, after_newline};
ghost use Rattle.cedar_reading.specs.Lexemes.{AreLexemes};
ghost use Rattle.cedar_reading.specs.Inside.Lexed.{gap_after};

use crate::lexeme::Lexeme;
use cedar_tokens::readers::split_gap;

// Where the first of these lexemes starts; `end` where there is none.
fn first_start(lexemes: &[Lexeme<'_>], end: usize) -> usize
    ensures { result ≡ first_start end (map (λ l. l.span) lexemes.now) }
{
    match lexemes.first() {
        Some(lexeme) => lexeme.span.start,
        None => end,
    }
}

// The text from the byte `at` to the first of these lexemes, or to its end.
fn text_before<'src>(text: &'src str, at: usize, lexemes: &[Lexeme<'_>]) -> &'src str
    requires from { IsCharBoundary text.now at }
    requires to { IsCharBoundary text.now (first_start (length text.now) (map (λ l. l.span) lexemes.now)) }
    requires order { at ≤ first_start (length text.now) (map (λ l. l.span) lexemes.now) }
    ensures { result.now ≡ text_before text.now at (map (λ l. l.span) lexemes.now) }
{
    &text[at..first_start(lexemes, text.len())]
}

/// The text before the first of these lexemes, or all of it.
pub(crate) fn text_before_all<'src>(text: &'src str, lexemes: &[Lexeme<'_>]) -> &'src str
    requires { AreLexemes text.now lexemes.now }
    ensures { result.now ≡ text_before text.now 0 (map (λ l. l.span) lexemes.now) }
{
    text_before(text, 0, lexemes)
}

/// The trailing text of the lexeme at this index, and the leading text of what follows.
pub(crate) fn split_after<'src>(
    text: &'src str,
    lexemes: &[Lexeme<'_>],
    at: usize,
) -> (&'src str, &'src str)
    requires lexemes { AreLexemes text.now lexemes.now }
    requires at { at < length lexemes.now }
    ensures trailing { result.0.now ≡ trim (before_newline (gap_after text.now (map (λ l. l.span) (drop at lexemes.now)))) }
    ensures ahead { result.1.now ≡ after_newline (gap_after text.now (map (λ l. l.span) (drop at lexemes.now))) }
{
    let gap = text_before(text, lexemes[at].span.end, &lexemes[at + 1..]);
    let (trailing, ahead) = split_gap(gap);
    (trailing.trim(), ahead)
}
