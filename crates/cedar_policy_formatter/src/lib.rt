//! A formatter for policies.
//!
//! `policies_str_to_pretty` lays out a policy text, and `ranges` gives the edits that lay out one, or a part of it. All modules it
//! depends on are re-exported here, so that a user depends on this crate alone.
#![tactic(auto)]

pub mod fmt;
pub mod laws;
pub mod layout;
mod lookup;
mod places;
pub mod ranges;

pub use cedar_cst::cst;
pub use cedar_cst::cst::FormatError;
pub use cedar_documents::config::{Config, Context};
pub use cedar_documents::{config, doc};
pub use cedar_faults::expectation::Expected;
pub use cedar_faults::expected::expected;
pub use cedar_faults::explain::explain;
pub use cedar_layout::utils;
pub use cedar_tokens::{lexer, token};
pub use fmt::{
    ReadFault, RunFault, Watched, check_stream, every_layout_reads_back, format_stream,
    is_formatted, kept_policies_have_the_same_tokens, outputs_keep_the_policies,
    policies_str_to_pretty, read_text, same_layout, soundness_check,
};
pub use lookup::place;
pub use places::Place;
