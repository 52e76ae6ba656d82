//! What became of the files of a run, in numbers, and its status.
ghost use Rattle.std.specs.Prelude.{◌≡◌, ◌++◌, ◌∷◌, [], ◌↔◌, IsTrue, List, length};
ghost use Rattle.cedar_program.specs.declared.folder.folder.Outcome.{Outcome};
ghost use Rattle.cedar_files.specs.Counts.{IsCountOf, IsStatus, WentWrong, limited};

use cedar_policy_formatter::FormatError;
use cedar_program::folder::Outcome;

/// The status after a fault other than one of the words.
pub const FAILED: u8 = 1;
/// The status if something isn't formatted, in a mode that changes nothing.
pub const UNFORMATTED: u8 = 3;

/// How many files there were of each kind, at most as many as a `usize` can tell.
#[derive(Clone, Copy)]
pub struct Counts {
    /// Not formatted, or replaced.
    pub changed: usize,
    /// Left as they are.
    pub same: usize,
    pub refused: usize,
    /// Not read or not replaced.
    pub failed: usize,
}

impl Counts {
    /// No file was done.
    pub fn new() -> Counts
        ensures { IsCountOf result [] }
    {
        Counts {
            changed: 0,
            same: 0,
            refused: 0,
            failed: 0,
        }
    }

    /// Counts one more file, of which this became.
    pub fn add(&mut self, outcome: &Outcome)
        ensures { (outcomes : List Outcome) → IsCountOf self.old outcomes → IsCountOf self.new (outcomes ++ (outcome.now ∷ [])) }
    {
        match outcome {
            Outcome::Unformatted { .. } | Outcome::Replaced => {
                self.changed = self.changed.saturating_add(1);
            }
            Outcome::Formatted | Outcome::Empty => {
                self.same = self.same.saturating_add(1);
            }
            Outcome::NotUtf8 => {
                self.refused = self.refused.saturating_add(1);
            }
            Outcome::Refused { error, .. } => match error {
                FormatError::OutOfMemory => {
                    self.failed = self.failed.saturating_add(1);
                }
                _ => {
                    self.refused = self.refused.saturating_add(1);
                }
            },
            Outcome::Unread(_) | Outcome::Unwritten(_) | Outcome::LeftBeside { .. } => {
                self.failed = self.failed.saturating_add(1);
            }
        }
    }

    /// How many files were done.
    pub fn done(&self) -> usize
        ensures { (outcomes : List Outcome) → IsCountOf self.now outcomes → result ≡ limited (length outcomes) }
    {
        self.changed
            .saturating_add(self.same)
            .saturating_add(self.refused)
            .saturating_add(self.failed)
    }

    /// The status of a run over so many files, with so many faults besides those of files.
    #[tactic(auto, using(crate::proofs::CountLemmas::some_counted))]
    pub fn status(&self, only_checks: bool, all: usize, faults: usize) -> u8
        ensures { (outcomes : List Outcome) → IsCountOf self.now outcomes → IsStatus only_checks outcomes all faults result }
    {
        if self.went_wrong(all, faults) {
            FAILED
        } else if only_checks && self.changed > 0 {
            UNFORMATTED
        } else {
            0
        }
    }

    // Whether something went wrong in such a run.
    #[tactic(auto, using(crate::proofs::CountLemmas::some_counted))]
    fn went_wrong(&self, all: usize, faults: usize) -> bool
        ensures { (outcomes : List Outcome) → IsCountOf self.now outcomes → (IsTrue result ↔ WentWrong outcomes all faults) }
    {
        self.refused > 0 || self.failed > 0 || faults > 0 || self.done() < all
    }
}
