//! The laws of the lexis, of the decorated list and of `==`. They only state facts about definitions, so their bodies
//! are empty.
ghost use Rattle.cedar_tokens.specs.Characters.{StringByCharacters};
ghost use Rattle.cedar_tokens.specs.Equality.{CommentClonesAreEqual, CommentEqualityIsByParts, TokenClonesAreEqual, TokenEqualityIsByParts, WrappedClonesAreEqual, WrappedEqualityIsByParts};
ghost use Rattle.cedar_tokens.specs.Listing.{ListingIsUnique};
ghost use Rattle.cedar_tokens.specs.PlainList.{PlainListIsPlain};
ghost use Rattle.cedar_tokens.specs.Split.{FaultIsUnique, FaultPreventsSplit, SplitIsUnique};

/// A text splits into units in at most one way.
pub fn split_is_unique()
    ensures { SplitIsUnique }
{}

/// A text has at most one decorated list.
pub fn listing_is_unique()
    ensures { ListingIsUnique }
{}

/// Whether a text is a string can be read off its bytes or its characters.
pub fn string_by_characters()
    ensures { StringByCharacters }
{}

/// There is at most one first fault.
pub fn fault_is_unique()
    ensures { FaultIsUnique }
{}

/// A text that splits has no fault.
pub fn fault_prevents_split()
    ensures { FaultPreventsSplit }
{}

/// Where no two commas are next to each other, removing the trailing commas twice is the same as removing them once.
pub fn plain_list_is_plain()
    ensures { PlainListIsPlain }
{}

/// Two `Token`s are equal if and only if they are of one kind and hold the same text, two `Comment`s if their leading lines and
/// their trailing texts are the same, and two `WrappedToken`s if their tokens, comments and spans are.
pub fn equality_is_by_parts()
    ensures tokens { TokenEqualityIsByParts }
    ensures comments { CommentEqualityIsByParts }
    ensures wrapped { WrappedEqualityIsByParts }
{}

/// A clone of a `Token`, a `Comment` or a `WrappedToken` is equal to its source.
pub fn clones_are_equal()
    ensures tokens { TokenClonesAreEqual }
    ensures comments { CommentClonesAreEqual }
    ensures wrapped { WrappedClonesAreEqual }
{}
