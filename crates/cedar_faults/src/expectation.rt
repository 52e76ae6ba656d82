//! What a text has at the place where it leaves the grammar, and what could come there.
use crate::kinds::{Kinds, Name};

/// What a text has at the place where it leaves the grammar, and what could come there. Its `Display` is for people.
#[derive(Debug, Drop)]
pub struct Expected<'src> {
    /// The place, in bytes from the start of the text: the start of the token that can't come there, or the text's length.
    pub at: usize,
    /// The text of the token at that place; `None` at the end of the text.
    pub found: Option<&'src str>,
    /// The kinds of the tokens that could come there: all that come next in some accepted list beginning with the tokens
    /// before the place.
    pub kinds: Kinds,
    /// The names of these kinds in a message: that of the first kind, then those of the kinds that it doesn't name, in the
    /// order of `Kind`.
    pub names: Vec<Name>,
    /// Whether the text could end there: whether the tokens before the place are an accepted list. Never true if no token is
    /// there.
    pub end: bool,
}
