//! The laws of documents and their layouts. They only state facts about definitions, so their bodies are empty.
ghost use Rattle.std.specs.Prelude.{◌≡◌, ℕ, List, false};
ghost use Rattle.std.specs.List.{flat_map};
ghost use Rattle.cedar_layout.specs.Layout.{AreMadeOf, Choice, Doc, IsChoiceAt, Piece, atoms, pieces, print, text_of_choice};
ghost use Rattle.cedar_layout.specs.Width.{KeepsWidth};

/// Under every choice each piece is made from the atom at its place: a text, or the flat or broken form of a line.
pub fn every_choice_prints_the_atoms()
    ensures { (d : Doc) (c : Choice d) → (ps : List Piece) × AreMadeOf ps (atoms d) × (text_of_choice d c ≡ flat_map print ps) }
{}

/// No line that is wider than the width of its layout holds a `Line` or a `LineOrNil` that is laid out flat.
pub fn wide_lines_are_broken()
    ensures { (w : ℕ) (d : Doc) (c : Choice d) → IsChoiceAt w d c → KeepsWidth w 0 (pieces d c false 0) }
{}

/// At each width exactly one choice follows the rule at each group.
pub fn one_layout_at_a_width()
    ensures { (w : ℕ) (d : Doc) → (c : Choice d) × IsChoiceAt w d c × ((b : Choice d) → IsChoiceAt w d b → b ≡ c) }
{}
