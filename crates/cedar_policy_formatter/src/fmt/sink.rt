//! What takes an output piece by piece: a text that grows, or one that the output is compared with.
ghost use Rattle.std.specs.Prelude.{◌≡◌, ◌↔◌, ◌++◌, ℕ, List, [], Option, Some, IsTrue, OnOk, string_bytes};
ghost use Rattle.std.proofs.Common.{ap, sym, ◌∙◌, append_assoc, append-nil};
ghost use Rattle.cedar_policy_formatter.specs.Inside.Sinks.{left_in, passed_twice};

use std::alloc::AllocError;
use std::marker::Model;

/// Takes an output, piece by piece.
pub(crate) trait Sink {
    /// These bytes were taken between two states.
    ghost takes: { Self → List ℕ → Self → Type 0 };

    /// Takes a piece.
    fn put(&mut self, text: &str) -> Result<(), AllocError>
        ensures { OnOk result (takes self.old text.now self.new) };

    ghost takes_nothing: { (a : Self) → takes a [] a };

    ghost takes_both: { (a b c : Self) (x y : List ℕ) → takes a x b → takes b y c → takes a (x ++ y) c };
}

impl Sink for String {
    ghost takes = { λ a x b. string_bytes b ≡ string_bytes a ++ x };

    ghost takes_nothing = { λ a. sym (append-nil (string_bytes a)) };

    ghost takes_both = { λ a b c x y h k. k ∙ ap (λ z. z ++ y) h ∙ append_assoc (string_bytes a) x y };

    fn put(&mut self, text: &str) -> Result<(), AllocError> {
        self.push_str(text)?;
        Ok(())
    }
}

/// What is left of a text that an output is compared with; nothing, not even an empty rest, once the output differs.
#[derive(Drop)]
pub(crate) struct Rest<'a> {
    left: Option<&'a [u8]>,
}

impl<'a> Model for Rest<'a> {
    ghost Value = { Option (List ℕ) };

    ghost view = { λ r. left_in r.left };
}

impl<'a> Rest<'a> {
    /// The whole text is left.
    pub(crate) fn new(text: &'a str) -> Rest<'a>
        ensures { result ≡ Some text.now }
    {
        Rest {
            left: Some(text.as_bytes()),
        }
    }

    /// Whether the output was the text.
    pub(crate) fn is_used_up(&self) -> bool
        ensures { IsTrue result ↔ (self.now ≡ Some []) }
    {
        match self.left {
            Some(left) => left.is_empty(),
            None => false,
        }
    }
}

impl Sink for Rest<'_> {
    ghost takes = { λ a x b. (y : List ℕ) → (a ≡ Some (x ++ y)) ↔ (b ≡ Some y) };

    ghost takes_nothing = { λ a y. (λ h. h, λ h. h) };

    ghost takes_both = { λ a b c x y h k. passed_twice a b c x y h k };

    fn put(&mut self, text: &str) -> Result<(), AllocError> {
        if let Some(left) = self.left {
            self.left = left.strip_prefix(text.as_bytes());
        }
        Ok(())
    }
}
