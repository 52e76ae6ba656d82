//! Laws of the written grammar and its documents. They only state facts about definitions, so their bodies are empty.
ghost use Rattle.cedar_written.specs.Bounds.{OutputsAreBounded};
ghost use Rattle.cedar_written.specs.Canonical.{AcceptedHasOutput, LastWidthDecides, OutputHasTheList, OutputIsAccepted, OutputIsItsOwn, OutputsTellLists};
ghost use Rattle.cedar_written.specs.Cleaning.{CleaningsAgree};
ghost use Rattle.cedar_written.specs.Judged.{AcceptedIsNotRefused, RefusalIsUnique, TextIsJudged};
ghost use Rattle.cedar_written.specs.Laws.{AcceptedAgree, DocumentsAreTheTables, DocumentsAreUnique, ErrorsAgree, GrammarsAgree, LayoutsAgree, LeavesAgree, ListsAgree, OutputsAreTheTables, RefusalsAgree, TableOutputsAreOutputs, TablesAreDocuments};
ghost use Rattle.cedar_written.specs.Lists.{EqualListsHaveEqualOutputs, OutputKeepsTheList};

/// An output is at most so many times as long as its text, by the indentation alone: whatever the width, and however deeply the
/// text is nested.
pub fn outputs_are_bounded()
    ensures { OutputsAreBounded }
{}

/// The written grammar and the grammar of trees have the same lists, at each depth and with trailing commas or without.
pub fn lists_have_documents()
    ensures lists { ListsAgree }
    ensures texts { GrammarsAgree }
{}

/// The documents of a list without trailing commas are those of the table for the policies of its tree, and no others.
pub fn documents_are_the_tables()
    ensures there { DocumentsAreTheTables }
    ensures back { TablesAreDocuments }
    ensures one { DocumentsAreUnique }
{}

/// The layout of a document at a width is a function of both: the one layout whose groups follow the rule.
pub fn layout_is_a_function()
    ensures { LayoutsAgree }
{}

/// A text that splits has the same cleaned text by its units and by the pieces between its strings and comments.
pub fn cleaning_is_by_units()
    ensures { CleaningsAgree }
{}

/// The written grammar accepts the texts that the grammar of trees accepts, and refuses the others at the same place and for
/// the same reason.
pub fn written_texts_agree()
    ensures accepted { AcceptedAgree }
    ensures leaves { LeavesAgree }
    ensures refused { RefusalsAgree }
    ensures errors { ErrorsAgree }
{}

/// An accepted text has the same output by the written grammar and by trees and the table.
pub fn written_outputs_agree()
    ensures there { TableOutputsAreOutputs }
    ensures back { OutputsAreTheTables }
{}

/// An output has the list of its text, and texts with equal lists have equal outputs: so for each width and indentation the
/// formatter picks one text out of all those with the same tokens and comments.
pub fn outputs_keep_lists()
    ensures keeps { OutputKeepsTheList }
    ensures equal { EqualListsHaveEqualOutputs }
{}

/// An accepted text has an output, which is accepted, has the text's plain list by value, and is its own output. Two texts
/// have equal outputs if and only if their plain lists are equal by value.
pub fn outputs_are_canonical()
    ensures some { AcceptedHasOutput }
    ensures accepted { OutputIsAccepted }
    ensures list { OutputHasTheList }
    ensures equal { OutputsTellLists }
    ensures again { OutputIsItsOwn }
{}

/// Laying out at one width and indentation and then at another gives the same as laying out at the other alone.
pub fn last_width_decides()
    ensures { LastWidthDecides }
{}

/// A text that splits is accepted or refused, but not both, and it has at most one refusal: one place and one kind.
pub fn texts_are_judged()
    ensures some { TextIsJudged }
    ensures either { AcceptedIsNotRefused }
    ensures one { RefusalIsUnique }
{}
