//! The tokens of a text, from its lexemes, with their trailing commas or without them.
ghost use Rattle.std.specs.Prelude.{◌≡◌, IfOk, map, not, MatchBool};
ghost use Rattle.std.specs.Bool.{OnFalse};
ghost use Rattle.cedar_tokens.specs.declared.kind.Kind.TheVariants as K;
ghost use Rattle.cedar_tokens.specs.Kinds.{is};
ghost use Rattle.cedar_tokens.specs.Listing.{IsListing, comments, is_empty};
ghost use Rattle.cedar_tokens.specs.PlainList.{plain_list};
ghost use Rattle.cedar_reading.specs.Lexemes.{AreLexemes};
ghost use Rattle.cedar_reading.specs.PlainListing.{IsPlainListing, has_trailing_comma};
ghost use Rattle.cedar_reading.specs.Inside.Lexed.{begins_trailing};
ghost use Rattle.cedar_reading.specs.Inside.Commas.{comma, TakesOver, StaysApart};

use crate::gaps::{split_after, text_before_all};
use crate::lexeme::Lexeme;
use crate::token::Token;
use cedar_tokens::kind::Kind;
use cedar_tokens::token::get_comment;
use std::alloc::AllocError;

/// Stores the tokens of a text in `tokens`, trailing commas among them, and returns the text whose comments are the closing
/// ones. `lexemes` are the text's. The former contents of `tokens` are dropped, and its memory is reused. After an error its
/// contents are unspecified.
pub fn store_tokens<'src>(
    text: &'src str,
    lexemes: &[Lexeme<'src>],
    tokens: &mut Vec<Token<'src, 'src>>,
) -> Result<&'src str, AllocError>
    requires { AreLexemes text.now lexemes.now }
    ensures { IfOk result (λ closing. IsListing text.now (record { tokens = tokens.new.items; closing = comments closing.now })) }
{
    tokens.clear();
    tokens.reserve(lexemes.len())?;
    let mut leading = text_before_all(text, lexemes);
    for (at, lexeme) in lexemes.iter().enumerate() {
        let (trailing, ahead) = split_after(text, lexemes, at);
        tokens.push(Token::new(lexeme.kind, lexeme.text, leading, trailing))?;
        leading = ahead;
    }
    Ok(leading)
}

/// The same without the trailing commas: the commas whose next token is `)`, `]` or `}`.
///
/// Their comments stay between the same neighbours. If no comment is between the token before and the comma, that token gets
/// the comma's trailing text. Otherwise the comma's leading lines and the comments of its trailing text are added before the
/// bracket's lines.
pub fn store_plain_tokens<'src>(
    text: &'src str,
    lexemes: &[Lexeme<'src>],
    tokens: &mut Vec<Token<'src, 'src>>,
) -> Result<&'src str, AllocError>
    requires { AreLexemes text.now lexemes.now }
    ensures { IfOk result (λ closing. IsPlainListing text.now (record { tokens = tokens.new.items; closing = comments closing.now })) }
{
    tokens.clear();
    tokens.reserve(lexemes.len())?;
    let mut leading = text_before_all(text, lexemes);
    // The texts around a comma that leaves its comments to the next token.
    let mut comma_leading = "";
    let mut comma_trailing = "";
    for (at, lexeme) in lexemes.iter().enumerate() {
        let before = leading;
        let (trailing, ahead) = split_after(text, lexemes, at);
        leading = ahead;
        if !begins_trailing(&lexemes[at..]) {
            let Lexeme { kind, text, .. } = *lexeme;
            let token = Token::after_comma(
                kind,
                text,
                comma_leading,
                comma_trailing,
                before,
                trailing,
            );
            tokens.push(token)?;
            comma_leading = "";
            comma_trailing = "";
        } else if !leave_to_last(tokens, before, trailing) {
            comma_leading = before;
            comma_trailing = trailing;
        }
    }
    Ok(leading)
}

/// Whether one of the tokens is a trailing comma. If none is, the list without trailing commas is the list itself.
pub fn has_trailing_comma(tokens: &[Token<'_, '_>]) -> bool
    ensures value { result ≡ has_trailing_comma tokens.now }
    ensures plain { OnFalse result (plain_list tokens.now ≡ tokens.now) }
{
    let mut after_comma = false;
    for token in tokens {
        let kind = token.kind();
        if after_comma && kind.is_closing() {
            return true;
        }
        after_comma = is_comma(kind);
    }
    false
}

// Whether a comma is the first of these lexemes, and a closing bracket the next.
fn begins_trailing(lexemes: &[Lexeme<'_>]) -> bool
    ensures { result ≡ begins_trailing (map (λ l. l.kind) lexemes.now) }
{
    match lexemes {
        [first, next, ..] => is_comma(first.kind) && next.kind.is_closing(),
        _ => false,
    }
}

fn is_comma(kind: Kind) -> bool
    ensures { result ≡ is K.Comma kind }
{
    matches!(kind, Kind::Comma)
}

// Leaves the trailing text of a comma with these comments to the last token, if nothing is between them; and whether it did.
fn leave_to_last<'src>(
    tokens: &mut Vec<Token<'src, 'src>>,
    leading: &str,
    trailing: &'src str,
) -> bool
    ensures { let c = comma (comments leading.now) trailing.now in MatchBool result (TakesOver tokens.old.items tokens.new.items c) (StaysApart tokens.old.items tokens.new.items c) }
{
    let Some(at) = tokens.len().checked_sub(1) else {
        return false;
    };
    if !tokens[at].trailing().is_empty() || has_comments(leading) {
        return false;
    }
    let last = &mut tokens[at];
    last.set_trailing(trailing);
    true
}

// Whether the text has a comment.
fn has_comments(text: &str) -> bool
    ensures { result ≡ not (is_empty (comments text.now)) }
{
    get_comment(text).next().is_some()
}
