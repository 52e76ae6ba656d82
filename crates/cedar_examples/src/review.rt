//! A fingerprint of policies, for reviews.
ghost use Rattle.std.specs.Prelude.{IfOk, MatchResult};
ghost use Rattle.cedar_grammar.specs.Refusals.{OutOfMemoryOr};
ghost use Rattle.cedar_written.specs.Refusals.{Refuses};
ghost use Rattle.cedar_written.specs.Texts.{Accepted};
ghost use Rattle.cedar_examples.specs.Fingerprints.{FingerprintsGoByLists, IsFingerprintOf};

use crate::policy_store::{key, keys_tell_lists};
use cedar_policy_formatter::FormatError;
use sha2::{Digest, Sha256};
use std::alloc::Global;

/// The SHA-256 digest of a policy text's key, so that a review that names it covers every text with the same layout.
pub fn fingerprint(alloc: Global, text: &str) -> Result<[u8; 32], FormatError>
    ensures answer { MatchResult result (λ _. Accepted text.now) (OutOfMemoryOr (Refuses text.now)) }
    ensures digest { IfOk result (IsFingerprintOf text.now) }
{
    let key = key(alloc, text)?;
    Ok(Sha256::digest(key.as_bytes()))
}

/// Texts whose decorated lists without trailing commas are equal by value have equal fingerprints. A law: its body does
/// nothing.
pub fn fingerprints_go_by_lists()
    ensures { FingerprintsGoByLists }
{
    keys_tell_lists();
}
