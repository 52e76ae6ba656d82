//! A store that keys policies by their canonical text.
ghost use Rattle.std.specs.Prelude.{◌≡◌, ◌↔◌, IfOk, IsTrue, MatchResult, OnErr, OnOk, [], string_bytes};
ghost use Rattle.cedar_grammar.specs.Refusals.{OutOfMemoryOr};
ghost use Rattle.cedar_written.specs.Refusals.{Refuses};
ghost use Rattle.cedar_written.specs.Texts.{Accepted};
ghost use Rattle.cedar_examples.specs.Keys.{Gains, HasKeyOf, IsKeyOf, KeysTellLists};

use cedar_policy_formatter::fmt::outputs_are_canonical;
use cedar_policy_formatter::lexer::listing_is_unique;
use cedar_policy_formatter::{Config, FormatError, policies_str_to_pretty};
use std::alloc::Global;
use std::collections::HashSet;
use std::marker::Model;

/// The key of a policy text: its layout at 80 columns per line and 2 per level.
pub fn key(alloc: Global, text: &str) -> Result<String, FormatError>
    ensures answer { MatchResult result (λ _. Accepted text.now) (OutOfMemoryOr (Refuses text.now)) }
    ensures key { IfOk result (λ k. IsKeyOf text.now (string_bytes k)) }
{
    policies_str_to_pretty(alloc, text, &Config::default())
}

/// Two texts have equal keys if and only if their decorated lists without trailing commas are equal by value. A law: its body
/// does nothing.
pub fn keys_tell_lists()
    ensures { KeysTellLists }
{
    outputs_are_canonical();
    listing_is_unique();
}

/// A set of policy texts, each under its key.
#[derive(Drop)]
pub struct Store {
    keys: HashSet<String>,
}

impl Model for Store {
    ghost use Rattle.std.specs.Prelude.{List, ℕ, map, string_bytes};

    ghost Value = { List (List ℕ) };

    ghost view = { λ s. map string_bytes s.keys.keys };
}

impl Store {
    /// A store without texts. It allocates no memory.
    pub fn new(alloc: Global) -> Store
        ensures { result ≡ [] }
    {
        Store {
            keys: HashSet::new(alloc),
        }
    }

    /// Whether a text with the same key is in the store.
    pub fn contains(&self, alloc: Global, text: &str) -> Result<bool, FormatError>
        ensures answer { MatchResult result (λ _. Accepted text.now) (OutOfMemoryOr (Refuses text.now)) }
        ensures held { IfOk result (λ r. IsTrue r ↔ HasKeyOf self.now text.now) }
    {
        keys_tell_lists();
        let key = key(alloc, text)?;
        Ok(self.keys.contains(key.as_str()))
    }

    /// Adds a text. A text that is refused leaves the store unchanged.
    pub fn insert(&mut self, alloc: Global, text: &str) -> Result<(), FormatError>
        ensures answer { MatchResult result (λ _. Accepted text.now) (OutOfMemoryOr (Refuses text.now)) }
        ensures gains { OnOk result (Gains self.old self.new text.now) }
        ensures kept { OnErr result (self.new ≡ self.old) }
    {
        outputs_are_canonical();
        keys_tell_lists();
        let key = key(alloc, text)?;
        self.keys.insert(key)?;
        Ok(())
    }
}
