//! The tokens of a text one after the other, each with its comments.
ghost use Rattle.std.specs.Prelude.{◌≡◌, ◌+◌, ◌≤◌, ◌<◌, [], length, MatchOption, IfSome, IfNone, IfOk, OnErr, List, ℕ};
ghost use Rattle.std.specs.Str.{trim};
ghost use Rattle.cedar_tokens.specs.Units.{IsToken};
ghost use Rattle.cedar_tokens.specs.TokenKinds.{kind_of};
ghost use Rattle.cedar_tokens.specs.Split.{Splits};
ghost use Rattle.cedar_tokens.specs.Listing.{Listing, IsListing, comments};
ghost use Rattle.cedar_tokens.specs.Places.{AreTokenSpans};
ghost use Rattle.cedar_tokens.specs.Tokens.{token_text, leading_lines, trailing_text, comments_left, IsProper};
ghost use Rattle.cedar_tokens.specs.Inside.Gaps.{BeginsNoToken};
ghost use Rattle.cedar_tokens.specs.Inside.FirstTokens.{IsFirstToken};
ghost use Rattle.cedar_tokens.specs.declared.token.Span.{Span};

pub use crate::ahead::split_gap;
use crate::ahead::{Ahead, gap_len};
use crate::kind::{Kind, kind_of};
use crate::lexer::first_fault;
use crate::token::{Comment, Comments, Span, WrappedToken, get_comment, token_of};
use std::alloc::{AllocError, Global};

/// The token of this kind whose source text is `text`, at its place, with the comments of the text before it and its
/// trailing text.
pub fn commented_token<'src>(
    alloc: Global,
    kind: Kind,
    text: &'src str,
    span: Span,
    leading: &'src str,
    trailing: &'src str,
) -> Result<WrappedToken<'src>, AllocError>
    requires token { IsToken text.now }
    requires kind { kind ≡ kind_of text.now }
    ensures text { IfOk result (λ w. token_text w.token ≡ text.now) }
    ensures proper { IfOk result (λ w. IsProper w.token) }
    ensures span { IfOk result (λ w. w.span ≡ span) }
    ensures leading { IfOk result (λ w. leading_lines w.comment ≡ comments leading.now) }
    ensures trailing { IfOk result (λ w. trailing_text w.comment ≡ trim trailing.now) }
{
    let token = token_of(alloc, kind, text)?;
    let comment = Comment::new(alloc, leading, trailing)?;
    Ok(WrappedToken::new(token, span, comment))
}

// The token that a text begins with, its trailing text, the leading text of what comes next, and the text from there.
#[derive(Clone, Copy)]
struct FirstToken<'src> {
    text: &'src str,
    trailing: &'src str,
    leading: &'src str,
    rest: Ahead<'src>,
}

// The token at the start of what is ahead.
fn first_token<'src>(ahead: &Ahead<'src>) -> Option<FirstToken<'src>>
    ensures token { MatchOption result (BeginsNoToken ahead.now.text.now) (λ t. IsFirstToken ahead.now.text.now t) }
    ensures shorter { IfSome result (λ t. length t.rest.text.now < length ahead.now.text.now) }
    ensures fits { IfSome result (λ t. length t.text.now + length t.rest.text.now ≤ length ahead.now.text.now) }
{
    let len = ahead.token?;
    let (token, after) = ahead.text.split_at(len);
    let (gap, next) = gap_len(after);
    let (gap, rest) = after.split_at(gap);
    let (trailing, leading) = split_gap(gap);
    Some(FirstToken {
        text: token,
        trailing,
        leading,
        rest: Ahead {
            text: rest,
            token: next,
        },
    })
}

/// The tokens of a text with their comments, one after the other, and the closing comments: those of
/// `get_token_stream`, holding one token at a time.
#[derive(Drop)]
pub struct TokenReader<'src> {
    text: &'src str,
    // What leads the next token or, where none is left, closes the text.
    leading: &'src str,
    // The text from the next token on.
    ahead: Ahead<'src>,
    ghost within: { length ahead.text.now ≤ length text.now },
}

impl<'src> TokenReader<'src> {
    ghost use Rattle.cedar_tokens.specs.TokenReaders.{HasLeft, GivesFirst, bytes_left};

    /// A reader that has given nothing of `text`; `None` where `text` does not split into units. Allocates nothing.
    pub fn new(text: &'src str) -> Option<TokenReader<'src>>
        ensures splits { MatchOption result (¬ (Splits text.now)) (λ r. Splits text.now) }
        ensures whole { IfSome result (λ r. (l : Listing) (spans : List Span) → IsListing text.now l → AreTokenSpans text.now spans → HasLeft text.now r l spans) }
    {
        match first_fault(text) {
            Some(_) => None,
            None => Some(TokenReader::of_split(text)),
        }
    }

    // A reader that has given nothing of `text`, which splits.
    pub(crate) fn of_split(text: &'src str) -> TokenReader<'src>
        ensures { (l : Listing) (spans : List Span) → IsListing text.now l → AreTokenSpans text.now spans → HasLeft text.now result l spans }
    {
        let (gap, token) = gap_len(text);
        let (leading, ahead) = text.split_at(gap);
        TokenReader {
            text,
            leading,
            ahead: Ahead { text: ahead, token },
        }
    }

    /// The next token with its comments; `None` where none is left. When out of memory, the reader is left as
    /// before.
    pub fn next(&mut self, alloc: Global) -> Result<Option<WrappedToken<'src>>, AllocError>
        ensures next { IfOk result (λ o. (text : List ℕ) (l : Listing) (spans : List Span) → HasLeft text self.old l spans → MatchOption o ((l.tokens ≡ []) × (spans ≡ [])) (λ w. GivesFirst text w self.new l spans)) }
        ensures none { IfOk result (λ o. IfNone o (self.new ≡ self.old)) }
        ensures shorter { IfOk result (λ o. IfSome o (λ w. bytes_left self.new < bytes_left self.old)) }
        ensures err { OnErr result (self.new ≡ self.old) }
    {
        let Some(first) = first_token(&self.ahead) else {
            return Ok(None);
        };
        let start = self.text.len() - self.ahead.text.len();
        let end = start + first.text.len();
        let span = Span { start, end };
        let kind = kind_of(first.text);
        let token = commented_token(alloc, kind, first.text, span, self.leading, first.trailing)?;
        self.leading = first.leading;
        self.ahead = first.rest;
        Ok(Some(token))
    }

    /// The closing comments of the text, those after its last token; tokens that are left are skipped. Allocates
    /// nothing.
    pub fn closing(&self) -> Comments<'src>
        ensures { (text : List ℕ) (l : Listing) (spans : List Span) → HasLeft text self.now l spans → comments_left result ≡ l.closing }
    {
        let mut leading = self.leading;
        let mut ahead = self.ahead;
        'tokens: while let Some(first) = first_token(&ahead) {
            leading = first.leading;
            ahead = first.rest;
        }
        get_comment(leading)
    }
}
