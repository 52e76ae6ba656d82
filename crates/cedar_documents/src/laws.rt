//! The laws of documents, cleaning and outputs.
ghost use Rattle.cedar_documents.specs.OwnTokens.{NodesMeetTheirTokens, PoliciesMeetTheirTokens};

pub use cedar_laws::laws::{
    accepted_texts_have_trees, every_gap_holds, every_layout_reads_back, last_width_decides,
    outputs_are_canonical, outputs_are_determined, outputs_have_the_trees, policies_stand_alone,
    raw_layouts_read_back,
};
pub use cedar_laws::text_laws::{
    cleaning_is_unique, cleaning_keeps_the_list, cleaning_takes_blanks, every_list_is_good,
    lists_join,
};

/// Among the tokens of an accepted text without trailing commas, whichever comments they still have, each policy of the
/// text's tree and every node inside one is made of consecutive tokens. So the clause `shows` of `to_doc` covers it.
/// A law: its body does nothing.
pub fn own_tokens_are_met()
    ensures policies { PoliciesMeetTheirTokens }
    ensures within { NodesMeetTheirTokens }
{}
