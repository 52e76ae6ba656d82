//! A linter that rewrites and prints, and can't lose a comment.
ghost use Rattle.std.specs.Prelude.{◌≡◌, ◌↔◌, ◌++◌, IfErr, IfOk, IsTrue, MatchOption, OnOk, map, string_bytes};
ghost use Rattle.cedar_tokens.specs.Split.{Splits};
ghost use Rattle.cedar_tokens.specs.Tokens.{comments_left};
ghost use Rattle.cedar_grammar.specs.declared.error.FormatError.TheVariants.{OutOfMemory};
ghost use Rattle.cedar_examples.specs.Comments.{AreCommentsOf, HaveEqualComments};
ghost use Rattle.cedar_examples.specs.Keys.{IsKeyOf};
ghost use Rattle.cedar_examples.specs.Lints.{FailsLint};
ghost use Rattle.cedar_examples.specs.declared.linter.LintError.TheVariants.{Format};

use crate::policy_store::key;
use cedar_policy_formatter::FormatError;
use cedar_policy_formatter::fmt::outputs_are_canonical;
use cedar_policy_formatter::lexer::{get_token_stream, listing_is_unique};
use cedar_policy_formatter::token::{Comments, get_comment};
use std::alloc::{AllocError, Global};

/// Why a rewritten text isn't printed.
#[derive(Clone, Copy, Debug, PartialEq, Eq)]
pub enum LintError {
    /// Its comments aren't those of the original text.
    OtherComments,
    /// The formatter refuses it.
    Format(FormatError),
}

impl From<FormatError> for LintError {
    ghost from_gives = { λ error e. e ≡ Format error };

    fn from(error: FormatError) -> LintError {
        LintError::Format(error)
    }
}

/// Prints the result `after` of rewriting the text `before`, laid out. A rewrite that loses, adds or changes a
/// comment is refused.
pub fn print_rewritten(alloc: Global, before: &str, after: &str) -> Result<String, LintError>
    ensures output { IfOk result (λ out. IsKeyOf after.now (string_bytes out)) }
    ensures comments { IfOk result (λ out. HaveEqualComments before.now (string_bytes out)) }
    ensures fails { IfErr result (FailsLint before.now after.now) }
{
    outputs_are_canonical();
    listing_is_unique();
    if !have_equal_comments(alloc, before, after)? {
        return Err(LintError::OtherComments);
    }
    let out = key(alloc, after)?;
    Ok(out)
}

// Whether two texts split into tokens and have the same comments in the same order.
fn have_equal_comments(alloc: Global, a: &str, b: &str) -> Result<bool, FormatError>
    ensures told { IfOk result (λ r. IsTrue r ↔ HaveEqualComments a.now b.now) }
    ensures memory { IfErr result (λ e. e ≡ OutOfMemory) }
{
    listing_is_unique();
    let Some(first) = comments_of(alloc, a)? else {
        return Ok(false);
    };
    let Some(second) = comments_of(alloc, b)? else {
        return Ok(false);
    };
    Ok(first == second)
}

/// The comments of a text, in order, each trimmed of blanks; `None` if the text doesn't split into tokens.
pub fn comments_of(alloc: Global, text: &str) -> Result<Option<Vec<&str>>, AllocError>
    ensures { IfOk result (λ r. MatchOption r (¬ (Splits text.now)) (λ found. AreCommentsOf text.now (map (λ c. c.now) found.items))) }
{
    let Some((tokens, closing)) = get_token_stream(alloc, text)? else {
        return Ok(None);
    };
    let mut found = Vec::new(alloc);
    for token in &tokens {
        found.extend_from_slice(token.comment.leading_comment())?;
        push_comments(get_comment(token.comment.trailing_comment()), &mut found)?;
    }
    push_comments(closing, &mut found)?;
    Ok(Some(found))
}

// Moves the comments that are left to the end of those found.
fn push_comments<'src>(
    comments: Comments<'src>,
    found: &mut Vec<&'src str>,
) -> Result<(), AllocError>
    ensures { OnOk result (map (λ c. c.now) found.new.items ≡ map (λ c. c.now) found.old.items ++ comments_left comments.entry) }
{
    for comment in comments {
        found.push(comment)?;
    }
    Ok(())
}
