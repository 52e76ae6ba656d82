//! The document of a node, from calls on a text.
ghost use Rattle.std.specs.Prelude.{IfErr, IfOk};
ghost use Rattle.cedar_grammar.specs.Refusals.{OutOfMemoryOr, Refuses};
ghost use Rattle.cedar_examples.specs.Documents.{IsFirstDocument};

use cedar_policy_formatter::cst::parse_policies;
use cedar_policy_formatter::doc::Doc;
use cedar_policy_formatter::fmt::own_tokens_are_met;
use cedar_policy_formatter::layout::Document;
use cedar_policy_formatter::lexer::{drop_trailing_commas, split_token_stream};
use cedar_policy_formatter::{Config, Context, FormatError};
use std::alloc::Global;

/// The document of a text's first policy, with its comments; `None` if an accepted text has no policy.
pub fn first_document<'src>(
    alloc: Global,
    text: &'src str,
    config: &Config,
) -> Result<Option<Document<'src>>, FormatError>
    ensures document { IfOk result (IsFirstDocument config.now.indent_width text.now) }
    ensures refused { IfErr result (OutOfMemoryOr (Refuses text.now)) }
{
    own_tokens_are_met();
    let tree = parse_policies(alloc, text)?;
    let (mut tokens, _) = split_token_stream(alloc, text)?;
    drop_trailing_commas(alloc, &mut tokens)?;
    let Some(policy) = tree.policies.first() else {
        return Ok(None);
    };
    let mut context = Context { config, tokens };
    Ok(policy.to_doc(alloc, &mut context)?)
}
