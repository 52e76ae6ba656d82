//! Laws of texts. They only state facts about definitions, so their bodies are empty.
ghost use Rattle.cedar_laws.specs.CleaningLaws.{CleaningIsUnique, CleaningKeepsTheList, CleaningLeavesNoBlankLine, CleaningTakesBlanks, EveryTextIsCleaned};
ghost use Rattle.cedar_laws.specs.GoodLaws.{EveryListIsGood, PlainListStaysGood};
ghost use Rattle.cedar_laws.specs.Joining.{LawOfJoining};
ghost use Rattle.cedar_laws.specs.LostBlanks.{EveryTextLosesBlanks};

/// Two texts with a line feed between them have the list of the first followed by that of the second.
pub fn lists_join()
    ensures { LawOfJoining }
{}

/// A text has exactly one cleaned text.
pub fn cleaning_is_unique()
    ensures some { EveryTextIsCleaned }
    ensures one { CleaningIsUnique }
{}

/// A cleaned text has the decorated list of the text.
pub fn cleaning_keeps_the_list()
    ensures { CleaningKeepsTheList }
{}

/// Cleaning removes only White_Space, and none from a string, even if the text doesn't split. If it splits, no blank line
/// is left outside strings.
pub fn cleaning_takes_blanks()
    ensures every { EveryTextLosesBlanks }
    ensures blanks { CleaningTakesBlanks }
    ensures lines { CleaningLeavesNoBlankLine }
{}

/// The decorated list of a text has good decorations, and so does its plain list.
pub fn every_list_is_good()
    ensures list { EveryListIsGood }
    ensures plain { PlainListStaysGood }
{}
