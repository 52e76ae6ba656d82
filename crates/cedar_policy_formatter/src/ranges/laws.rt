//! The laws of edits.
ghost use Rattle.cedar_policy_formatter.specs.RangeLaws.{EqualListsHaveOneOutput, EqualListsFollow};

/// Texts with equal lists have one output. So a text that is formatted range by range, and then as a whole, gives
/// its output. A law: its body does nothing.
pub fn edits_keep_the_output()
    ensures output { EqualListsHaveOneOutput }
    ensures follow { EqualListsFollow }
{}
