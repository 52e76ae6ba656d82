//! The gaps between tokens, and what follows a gap.
ghost use Rattle.std.specs.Prelude.{◌≡◌, ◌==◌, drop, IfSome, IfNone};
ghost use Rattle.std.specs.List.{before_first, after_first};
ghost use Rattle.std.specs.Option.{ForSome, ForNone};
ghost use Rattle.std.specs.Str.{IsCharBoundary};
ghost use Rattle.cedar_tokens.specs.Bytes.{line_feed};
ghost use Rattle.cedar_tokens.specs.Inside.Gaps.{IsGap, BeginsToken, BeginsNoToken};

use crate::lexer::UnitKind;
use crate::units::Units;

/// The part of `gap` before its first line feed, or all of it; and the part after it, or nothing.
pub fn split_gap(gap: &str) -> (&str, &str)
    ensures trailing { result.0.now ≡ before_first (λ b. b == line_feed) gap.now }
    ensures leading { result.1.now ≡ after_first (λ b. b == line_feed) gap.now }
{
    match gap.split_once('\n') {
        Some((trailing, leading)) => (trailing, leading),
        None => (gap, ""),
    }
}

// How many bytes precede the first token of `text`, or the place where no unit begins; and the length of
// that token.
pub(crate) fn gap_len(text: &str) -> (usize, Option<usize>)
    ensures gap { IsGap text.now result.0 }
    ensures boundary { IsCharBoundary text.now result.0 }
    ensures some { IfSome result.1 (λ n. BeginsToken (drop result.0 text.now) n) }
    ensures none { IfNone result.1 (BeginsNoToken (drop result.0 text.now)) }
{
    let mut at = 0;
    for unit in Units::new(text) {
        if unit.kind == UnitKind::Token {
            return (at, Some(unit.text.len()));
        }
        at += unit.text.len();
    }
    (at, None)
}

// A text from its next token on.
#[derive(Clone, Copy)]
pub(crate) struct Ahead<'src> {
    pub(crate) text: &'src str,
    // The length of that token; `None` if no token begins there.
    pub(crate) token: Option<usize>,
    ghost some: { ForSome token (λ n. BeginsToken text.now n) },
    ghost none: { ForNone token (BeginsNoToken text.now) },
}
