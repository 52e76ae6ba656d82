//! Whether two texts are laid out alike, without any layout: their lists are compared, policy by policy.
ghost use Rattle.std.specs.Prelude.{◌≡◌, ◌↔◌, IsTrue, MatchBool, MatchResult, IfOk, map};
ghost use Rattle.cedar_tokens.specs.Tokens.{decorated};
ghost use Rattle.cedar_grammar.specs.Texts.{Accepted as AcceptedByTree};
ghost use Rattle.cedar_grammar.specs.Refusals.{OutOfMemoryOr, Refuses as RefusesByTrees};
ghost use Rattle.cedar_layout.specs.Lookups.{AreInOrder};
ghost use Rattle.cedar_cst.specs.PolicyReaders.{AreTokensOf, HasEnded};
ghost use Rattle.cedar_written.specs.Lists.{HaveEqualLists};
ghost use Rattle.cedar_written.specs.Texts.{Accepted};
ghost use Rattle.cedar_policy_formatter.specs.Refused.{RefusesOne};
ghost use Rattle.cedar_policy_formatter.specs.Inside.Alike.{plain_value, GoesOnAlike, HasNext, HasOtherNext};

use cedar_cst::cst::laws::accepted_is_not_refused;
use cedar_cst::cst::{FormatError, PolicyReader};
use cedar_documents::config::Config;
use cedar_reading::check::{same_comments, same_values};
use cedar_tokens::lexer::drop_trailing_commas;
use cedar_tokens::token::WrappedToken;
use cedar_written::laws::written_texts_agree;
use std::alloc::{AllocError, Global};

/// Whether `a` and `b` are laid out alike, which is the same at every width and indentation: their lists without trailing
/// commas are equal by value. Accepted texts get an answer, unless out of memory. A refusal of `a` is returned before one
/// of `b`. Nothing is laid out, and the tokens of one policy of each text are held at a time.
pub fn same_layout(alloc: Global, a: &str, b: &str, _config: &Config) -> Result<bool, FormatError>
    ensures answer { MatchResult result (λ _. Accepted a.now × Accepted b.now) (OutOfMemoryOr (RefusesOne a.now b.now)) }
    ensures lists { IfOk result (λ r. IsTrue r ↔ HaveEqualLists a.now b.now) }
{
    written_texts_agree();
    accepted_is_not_refused();
    let mut first = PolicyReader::new(a);
    let mut second = PolicyReader::new(b);
    let mut first_tokens = Vec::new(alloc);
    let mut second_tokens = Vec::new(alloc);
    let mut same = true;
    'pieces: while let Some(text) = first.next_text(alloc, &mut first_tokens)? {
        if same {
            same = goes_on_alike(
                alloc,
                text,
                &mut first_tokens,
                &mut second,
                &mut second_tokens,
            )?;
        }
    }
    let more = has_more(alloc, &mut second, &mut second_tokens)?;
    if more {
        return Ok(false);
    }
    let closed = same_comments(first.rest(), second.rest());
    Ok(same && closed)
}

// Whether the reader's next policy has the tokens of `text`, without trailing commas and by value. A refusal is no error: it is
// met again.
fn goes_on_alike<'src>(
    alloc: Global,
    text: &str,
    tokens: &mut Vec<WrappedToken<'_>>,
    reader: &mut PolicyReader<'src>,
    room: &mut Vec<WrappedToken<'src>>,
) -> Result<bool, AllocError>
    requires { AreTokensOf text.now tokens.old.items }
    ensures text { reader.new.text ≡ reader.old.text }
    ensures next { IfOk result (λ is_alike. MatchBool is_alike (GoesOnAlike text.now reader.old reader.new) (HasOtherNext text.now reader.old)) }
{
    match reader.next_text(alloc, room) {
        Ok(Some(_)) => same_tokens(alloc, tokens, room),
        Err(FormatError::OutOfMemory) => Err(AllocError),
        _ => Ok(false),
    }
}

// Whether the tokens are equal by value, both without trailing commas, which are dropped.
fn same_tokens(
    alloc: Global,
    a: &mut Vec<WrappedToken<'_>>,
    b: &mut Vec<WrappedToken<'_>>,
) -> Result<bool, AllocError>
    requires first { AreInOrder a.old.items }
    requires second { AreInOrder b.old.items }
    ensures { IfOk result (λ same. IsTrue same ↔ (plain_value (map decorated a.old.items) ≡ plain_value (map decorated b.old.items))) }
{
    drop_trailing_commas(alloc, a)?;
    drop_trailing_commas(alloc, b)?;
    Ok(same_values(a, b))
}

// Whether the reader has a policy left. The rest of its text is read to the end.
fn has_more<'src>(
    alloc: Global,
    reader: &mut PolicyReader<'src>,
    room: &mut Vec<WrappedToken<'src>>,
) -> Result<bool, FormatError>
    ensures text { reader.new.text ≡ reader.old.text }
    ensures answer { MatchResult result (λ _. AcceptedByTree reader.old.text) (OutOfMemoryOr (RefusesByTrees reader.old.text)) }
    ensures more { IfOk result (λ more. MatchBool more (HasNext reader.old) (HasEnded reader.old × (reader.new ≡ reader.old))) }
{
    let mut more = false;
    'rest: while let Some(_) = reader.next_text(alloc, room)? {
        more = true;
    }
    Ok(more)
}
