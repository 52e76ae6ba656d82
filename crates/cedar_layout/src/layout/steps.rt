//! Counting steps.
ghost use Rattle.std.specs.Prelude.{◌≡◌, ℕ, ◌+◌, ◌<◌};

use std::marker::Model;
use std::sync::ledger::{Blank, Book, Ledger, Share};

/// How many steps were taken: an unbounded whole number that only contracts see. It takes no bytes, and only `tick`
/// changes it.
///
/// A function that counts begins with none, from a blank page of a ledger that its caller chooses:
///
///     fn found<L: Ledger>(span: Span, tokens: &mut [WrappedToken<'_>], blank: Blank)
///         requires order { AreInOrder tokens.old }
///         requires name { blank.name ≡ L.name }
///         requires parts { blank.parts ≡ L.parts }
///         requires some { 0 < L.parts }
///     {
///         let mut steps: Steps<L> = Steps::new(blank);
///         let comment = get_comment_at_start_counted(span, tokens, &mut steps);
///
/// and the caller writes `found::<Brand>(span, tokens, Blank::new(1))`. Which ledger that is, the caller's
/// `Invariants.antt` says, since the prover can't guess it:
///
///     abbrev pub ghosts-found : goal.ghosts-found
///     ghosts-found g a = record { name = a.blank.name; parts = a.blank.parts }
///
/// `answer_from` in `cedar_part_tests/src/tests/lookups.rt` is such a function, `answer` its caller; the contract of
/// `answer_among_few` says how many steps a search among one, seven or eight tokens takes.
#[derive(Drop)]
pub struct Steps<L: Ledger> {
    book: Book<L>,
    share: Share<L>,
}

impl<L: Ledger> Model for Steps<L> {
    ghost Value = { ℕ };

    ghost view = { λ s. s.book.total };

    ghost invariant = { λ s. 0 < s.share.parts };
}

impl<L: Ledger> Steps<L> {
    /// No steps yet. The blank is the ledger's own.
    pub fn new(blank: Blank) -> Steps<L>
        requires name { blank.name ≡ L.name }
        requires parts { blank.parts ≡ L.parts }
        requires some { 0 < L.parts }
        ensures { result ≡ 0 }
    {
        let (book, share) = blank.open();
        Steps { book, share }
    }

    /// One step more.
    pub fn tick(&mut self)
        ensures { self.new ≡ self.old + 1 }
    {
        self.book.add(&mut self.share, 1);
    }
}
