//! Laws of the grammar. They only state facts about definitions, so their bodies are empty.
ghost use Rattle.std.specs.Prelude.{ℕ, List};
ghost use Rattle.cedar_tokens.specs.Listing.{Decorated};
ghost use Rattle.cedar_tokens.specs.TokenKinds.{kind_of};
ghost use Rattle.cedar_grammar.specs.Placed.{Placed, kind_of_placed};
ghost use Rattle.cedar_grammar.specs.Laws.{GrammarsAgree, TextsAreTokens, ListHasOneTree, GrammarIsDecidable, DeeperHasMore, LeavesArePlain, PlainIsInTheGrammar, CommasStandAlone, PlainIsPlain, EveryTreeIsTyped, TypedTreeIsUnique, TypedLeavesAgree, PlainTextsAgree, kind_of_decorated};

/// A list of tokens has the same trees in the grammar over texts and in the grammar over kinds, at each depth.
pub fn grammars_agree()
    ensures texts { GrammarsAgree {A = List ℕ} (λ t. t) }
    ensures decorated { GrammarsAgree {A = Decorated} (λ t. t.text) }
    ensures placed { GrammarsAgree {A = Placed} (λ t. t.text) }
{}

/// A list of the grammar over texts consists of tokens.
pub fn texts_are_tokens()
    ensures texts { TextsAreTokens {A = List ℕ} (λ t. t) }
    ensures decorated { TextsAreTokens {A = Decorated} (λ t. t.text) }
    ensures placed { TextsAreTokens {A = Placed} (λ t. t.text) }
{}

/// A list of tokens has at most one tree, whatever the depth.
pub fn list_has_one_tree()
    ensures texts { ListHasOneTree kind_of }
    ensures decorated { ListHasOneTree kind_of_decorated }
    ensures placed { ListHasOneTree kind_of_placed }
{}

/// Whether a list of tokens has a tree is decidable.
pub fn grammar_is_decidable()
    ensures texts { GrammarIsDecidable kind_of }
    ensures decorated { GrammarIsDecidable kind_of_decorated }
    ensures placed { GrammarIsDecidable kind_of_placed }
{}

/// A tree of some depth is a tree of every greater depth.
pub fn deeper_has_more()
    ensures texts { DeeperHasMore kind_of }
    ensures decorated { DeeperHasMore kind_of_decorated }
    ensures placed { DeeperHasMore kind_of_placed }
{}

/// The leaves of a tree without trailing commas are its list without them.
pub fn leaves_are_plain()
    ensures texts { LeavesArePlain kind_of }
    ensures decorated { LeavesArePlain kind_of_decorated }
    ensures placed { LeavesArePlain kind_of_placed }
{}

/// A tree without its trailing commas is a tree of the list without them.
pub fn plain_is_in_the_grammar()
    ensures texts { PlainIsInTheGrammar kind_of }
    ensures decorated { PlainIsInTheGrammar kind_of_decorated }
    ensures placed { PlainIsInTheGrammar kind_of_placed }
{}

/// No two commas are next to each other in a list of the grammar.
pub fn commas_stand_alone()
    ensures texts { CommasStandAlone kind_of }
    ensures decorated { CommasStandAlone kind_of_decorated }
    ensures placed { CommasStandAlone kind_of_placed }
{}

/// A list of the grammar without its trailing commas has none left.
pub fn plain_is_plain()
    ensures texts { PlainIsPlain kind_of }
    ensures decorated { PlainIsPlain kind_of_decorated }
    ensures placed { PlainIsPlain kind_of_placed }
{}

/// Each tree without trailing commas is that of typed policies.
pub fn every_tree_is_typed()
    ensures texts { EveryTreeIsTyped kind_of }
    ensures decorated { EveryTreeIsTyped kind_of_decorated }
    ensures placed { EveryTreeIsTyped kind_of_placed }
{}

/// A tree is that of at most one list of typed policies.
pub fn typed_tree_is_unique()
    ensures texts { TypedTreeIsUnique kind_of }
    ensures decorated { TypedTreeIsUnique kind_of_decorated }
    ensures placed { TypedTreeIsUnique kind_of_placed }
{}

/// Typed policies have the leaves of their tree.
pub fn typed_leaves_agree()
    ensures texts { TypedLeavesAgree kind_of }
    ensures decorated { TypedLeavesAgree kind_of_decorated }
    ensures placed { TypedLeavesAgree kind_of_placed }
{}

/// The texts of the plain list are the texts without trailing commas.
pub fn plain_texts_agree()
    ensures { PlainTextsAgree }
{}
