//! What a user of the formatter writes: five small callers, proved from its public contracts alone.
//!
//! A store that keys policies by their canonical text, a linter that can't lose a comment, a fingerprint for reviews,
//! formatting on save, and the document of a policy.
#![tactic(auto)]

mod documents;
mod format_on_save;
mod linter;
mod policy_store;
mod review;

pub use documents::first_document;
pub use format_on_save::save;
pub use linter::{LintError, comments_of, print_rewritten};
pub use policy_store::{Store, key, keys_tell_lists};
pub use review::{fingerprint, fingerprints_go_by_lists};
