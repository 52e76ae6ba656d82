//! The law of layouts without blank lines. It only states a fact about definitions, so its body is empty.
ghost use Rattle.cedar_print.specs.Laws.{CleanLayoutsAreCleaned};

/// A layout without blank lines is the cleaned text of the layout, where that splits into units as its pieces say.
pub fn clean_layouts_are_cleaned()
    ensures { CleanLayoutsAreCleaned }
{}
