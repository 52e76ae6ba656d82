//! A fault of a text.
use crate::brackets::Bracket;
use crate::expectation::Expected;
use cedar_grammar::error::FormatError;
use cedar_tokens::token::Span;

/// A fault of a text: the first byte of a policy at which no accepted text continues.
#[derive(Debug, Drop)]
pub struct Fault<'src> {
    /// The reason and the place, in bytes from the start of the text. `Grammar` or `TooDeep` if a token can't be there or one is
    /// missing, else the reason why no token is there.
    pub error: FormatError,
    /// The bytes that the fault is about: a character that begins no token, an unfinished string up to the end of its line, the
    /// number or token that can't be there, or the last byte of the last token where the text ends too early.
    pub part: Span,
    /// What is at the place, and what could be: the text of `part` and kinds of tokens.
    pub expected: Expected<'src>,
    /// The innermost bracket of the policy that is still open, if the fault is the end of the text, a `;` or a closing bracket
    /// of another kind.
    pub unclosed: Option<Bracket>,
}
