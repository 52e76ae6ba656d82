//! Laws of layouts and outputs. They only state facts about definitions, so their bodies are empty.
ghost use Rattle.cedar_laws.specs.Canonical.{AcceptedHasOutput, DocumentsGoByValue, OutputEndsInLineFeed, OutputExists, OutputHasTheList, OutputHasTheTrees, OutputIsAccepted, OutputIsItsOwn, OutputsGoByValue, OutputsTellLists, PolicyHasNoBlankLine, TextsReadBack};
ghost use Rattle.cedar_laws.specs.Gaps.{LawOfGaps};
ghost use Rattle.cedar_laws.specs.GrammarTrees.{AcceptedHasTree, ListHasOneTree, TreeFits};
ghost use Rattle.cedar_laws.specs.Laws.{ChoicesDifferInBlanks, RawLayoutsReadBack};
ghost use Rattle.cedar_laws.specs.Output.{EveryLayoutReadsBack};
ghost use Rattle.cedar_laws.specs.OutputLaws.{LastWidthDecides, PoliciesStandAlone, TokensTellPolicies};

/// Under every choice of flat and broken groups, only blanks, the trailing text of the first and the leading lines of the
/// second stand between two printed tokens, and no two tokens could be parts of one unit. A choice changes only blanks.
pub fn every_gap_holds()
    ensures gaps { LawOfGaps }
    ensures choices { ChoicesDifferInBlanks }
{}

/// Under every choice of flat and broken groups, a policy's layout has the list of its tokens before cleaning.
pub fn raw_layouts_read_back()
    ensures { RawLayoutsReadBack }
{}

/// Under every choice of flat and broken groups, an output reads back as the list it was made from, by value.
pub fn every_layout_reads_back()
    ensures trees { EveryLayoutReadsBack }
    ensures texts { TextsReadBack }
{}

/// At every width and indentation, trees and closing comments have one output. It ends with a line feed, no policy's text
/// has a blank line outside strings, and leading zeros of numbers make no difference.
pub fn outputs_are_determined()
    ensures some { OutputExists }
    ensures one { OutputsGoByValue }
    ensures end { OutputEndsInLineFeed }
    ensures lines { PolicyHasNoBlankLine }
    ensures documents { DocumentsGoByValue }
{}

/// An accepted text has one tree with its plain list as leaves, and these fit the table.
pub fn accepted_texts_have_trees()
    ensures some { AcceptedHasTree }
    ensures one { ListHasOneTree }
    ensures fits { TreeFits }
{}

/// An accepted text has an output, which is accepted, has the text's plain list by value, and is its own output. Two texts
/// have equal outputs if and only if their plain lists are equal by value.
pub fn outputs_are_canonical()
    ensures some { AcceptedHasOutput }
    ensures accepted { OutputIsAccepted }
    ensures list { OutputHasTheList }
    ensures equal { OutputsTellLists }
    ensures again { OutputIsItsOwn }
{}

/// The policies of an output, at any width and indentation, are those of its text, by value.
pub fn outputs_have_the_trees()
    ensures { OutputHasTheTrees }
{}

/// The text of a policy in an output is determined by its own tokens and their comments, the width and the indentation.
pub fn policies_stand_alone()
    ensures trees { PoliciesStandAlone }
    ensures texts { TokensTellPolicies }
{}

/// Laying out at one width and indentation and then at another gives the same as laying out at the other alone.
pub fn last_width_decides()
    ensures { LastWidthDecides }
{}
