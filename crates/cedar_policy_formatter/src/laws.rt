//! The laws of whole texts.
ghost use Rattle.cedar_policy_formatter.specs.OutputPolicies.{OutputsKeepThePolicies, OutputsKeepTheTrees};
ghost use Rattle.cedar_policy_formatter.specs.Texts.{KeptPoliciesHaveTheSameTokens};

use cedar_cst::cst::laws::nodes_have_the_plain_texts;
use cedar_documents::laws::outputs_are_canonical;
use cedar_written::laws::written_outputs_agree;

/// Texts of the same policies have the same tokens, except for trailing commas and leading zeros of numbers. A law: its body
/// does nothing.
pub fn kept_policies_have_the_same_tokens()
    ensures { KeptPoliciesHaveTheSameTokens }
{}

/// An output of a text is a text of its policies: it is accepted, and its tree is that of the text except for spans, for
/// policies in memory and for texts alone. A law: its body does nothing.
pub fn outputs_keep_the_policies()
    ensures policies { OutputsKeepThePolicies }
    ensures trees { OutputsKeepTheTrees }
{
    nodes_have_the_plain_texts();
    outputs_are_canonical();
    written_outputs_agree();
}
