//! Laws of the rules and their marks. They only state facts about definitions, so their bodies are empty.
ghost use Rattle.cedar_writer.specs.Laws.{ExpressionsAgree, MarksAreOfOne, PoliciesAgree, PoliciesHaveOneDocument, ReadPoliciesAreWritten, RefusedAtTheFurthest, SetsAreOfDocuments, SetsAreWritten, ReadingEndsAfterPolicies, WrittenPoliciesAreNotRefused, WrittenPoliciesAreRead};

/// Marks are those of one document.
pub fn marks_are_of_one_document()
    ensures { MarksAreOfOne }
{}

/// The rules of expressions and policies have the rows of the written grammar, and write the marks of their documents, at each
/// indentation and depth.
pub fn lines_are_written()
    ensures expressions { ExpressionsAgree }
    ensures policies { PoliciesAgree }
    ensures there { SetsAreWritten }
    ensures back { SetsAreOfDocuments }
{}

/// Reading from left to right, by the next token alone, accepts the policies of the written grammar, and writes the marks of
/// their documents; so a policy has one document. It refuses others at the first token through which no policy begins.
pub fn policies_are_read()
    ensures there { ReadPoliciesAreWritten }
    ensures back { WrittenPoliciesAreRead }
    ensures accepted { WrittenPoliciesAreNotRefused }
    ensures ends { ReadingEndsAfterPolicies }
    ensures one { PoliciesHaveOneDocument }
    ensures refused { RefusedAtTheFurthest }
{}
