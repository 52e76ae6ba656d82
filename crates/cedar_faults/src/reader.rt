//! The faults of a text, one after the other.
ghost use Rattle.std.specs.Prelude.{◌≡◌, ◌<◌, ◌≤◌, ◌+◌, [], length, drop, IfOk, IfSome, MatchOption, OnErr, Some};
ghost use Rattle.cedar_faults.specs.FirstFaults.{IsFirstOf};
ghost use Rattle.cedar_faults.specs.Inside.Searches.{Finds, IsInside};
ghost use Rattle.cedar_faults.specs.Faults.{AreFaultsFrom, BeginsWithPolicy, FindsNext, GoesOn, IsFault, IsInText, IsStep, IsStepInText};

use crate::beginnings::{Beginning, read_beginning};
use crate::brackets::left_open;
use crate::expectation::Expected;
use crate::fault::Fault;
use crate::kinds::names_of;
use crate::marks::marked;
use crate::moves::{moved, place};
use crate::probe::what_follows;
use crate::recovery::resume;
use cedar_grammar::error::FormatError;
use cedar_reading::lexeme::Lexeme;
use std::alloc::{AllocError, Global};
use std::marker::Model;

/// The faults of a text that are still to come. Memory is held for one policy at a time.
#[derive(Drop)]
pub struct FaultReader<'src> {
    text: &'src str,
    at: usize,
    // Room for the tokens of a policy.
    room: Vec<Lexeme<'src>>,
}

impl<'src> Model for FaultReader<'src> {
    ghost use Rattle.cedar_faults.specs.Faults.{Search};
    ghost use Rattle.cedar_faults.specs.Inside.Searches.{IsInside};

    ghost Value = { Search };

    ghost view = { λ f. record { text = f.text.now; at = f.at } };

    ghost invariant = { λ f. IsInside f.text.now f.at };
}

impl<'src> FaultReader<'src> {
    /// The faults of `text`. Reads nothing yet, and allocates nothing.
    pub fn new(alloc: Global, text: &'src str) -> FaultReader<'src>
        ensures text { result.text ≡ text.now }
        ensures at { result.at ≡ 0 }
    {
        FaultReader {
            text,
            at: 0,
            room: Vec::new(alloc),
        }
    }

    /// The byte at which the search for the next fault begins.
    pub fn at(&self) -> usize
        ensures { result ≡ self.now.at }
    {
        self.at
    }

    /// The text from the byte on at which the search for the next fault begins.
    pub fn rest(&self) -> &'src str
        ensures { result.now ≡ drop self.now.at self.now.text }
    {
        &self.text[self.at..]
    }

    /// The next fault of the text, with its places in the whole text; `None` if there is none, however often it is called.
    /// After an error it is unchanged.
    pub fn next(&mut self, alloc: Global) -> Result<Option<Fault<'src>>, AllocError>
        ensures faults { IfOk result (FindsNext self.old self.new) }
        ensures text { self.new.text ≡ self.old.text }
        ensures inside { IfOk result (λ next. IfSome next (IsInText self.old.text)) }
        ensures end { self.new.at ≤ length self.new.text }
        ensures further { IfOk result (λ next. MatchOption next (self.new ≡ self.old) (λ _. self.old.at < self.new.at)) }
        ensures refused { OnErr result (self.new ≡ self.old) }
    {
        let Some(found) = find(alloc, self.text, self.at, &mut self.room)? else {
            return Ok(None);
        };
        Ok(Some(self.take(alloc, found)?))
    }

    /// What comes next in the text: an accepted policy, after which the search continues; the next fault, as `next` gives it;
    /// or the end. After an error it is unchanged.
    pub fn step(&mut self, alloc: Global) -> Result<Step<'src>, AllocError>
        ensures step { IfOk result (IsStep self.old self.new) }
        ensures text { self.new.text ≡ self.old.text }
        ensures inside { IfOk result (IsStepInText self.old.text) }
        ensures further { IfOk result (GoesOn self.old.at self.new.at) }
        ensures end { self.new.at ≤ length self.new.text }
        ensures refused { OnErr result (self.new ≡ self.old) }
    {
        let from = self.at;
        match read_beginning(alloc, &self.text[from..], &mut self.room)? {
            Beginning::Policy(len) => {
                self.at = from + len;
                Ok(Step::Policy)
            }
            Beginning::End => Ok(Step::End),
            Beginning::Faulty(error) => {
                let fault = self.take(alloc, Found { from, error })?;
                Ok(Step::Fault(fault))
            }
        }
    }

    /// Passes over an accepted policy with the rest of its line, `len` bytes that the caller knows to come next.
    pub fn pass(&mut self, len: usize)
        requires { BeginsWithPolicy (drop self.old.at self.old.text) len }
        ensures text { self.new.text ≡ self.old.text }
        ensures at { self.new.at ≡ self.old.at + len }
    {
        self.at += len;
    }

    // The fault that was found, with its places in the whole text. The search continues after it. After an error it is
    // unchanged.
    fn take(&mut self, alloc: Global, found: Found) -> Result<Fault<'src>, AllocError>
        requires { Finds self.old.text self.old.at found }
        ensures fault { IfOk result (λ fault. FindsNext self.old self.new (Some fault)) }
        ensures text { self.new.text ≡ self.old.text }
        ensures inside { IfOk result (IsInText self.old.text) }
        ensures further { IfOk result (λ _. self.old.at < self.new.at) }
        ensures end { self.new.at ≤ length self.new.text }
        ensures refused { OnErr result (self.new ≡ self.old) }
    {
        let rest = &self.text[found.from..];
        let fault = describe(alloc, rest, found.error)?;
        self.at = found.from + resume(rest, fault.expected.at);
        Ok(moved(fault, found.from))
    }
}

/// What a search for faults meets next.
#[derive(Debug, Drop)]
pub enum Step<'src> {
    /// An accepted policy with the rest of its line.
    Policy,
    /// A fault.
    Fault(Fault<'src>),
    /// Nothing: all that is left is accepted.
    End,
}

// A policy that isn't accepted: where it begins, and its first fault, with its place counted from there.
#[derive(Clone, Copy)]
struct Found {
    from: usize,
    error: FormatError,
}

// The first policy from the byte `at` on that isn't accepted. `room` is memory for the tokens of a policy.
fn find<'src>(
    alloc: Global,
    text: &'src str,
    at: usize,
    room: &mut Vec<Lexeme<'src>>,
) -> Result<Option<Found>, AllocError>
    requires { IsInside text.now at }
    ensures { IfOk result (λ found. MatchOption found (AreFaultsFrom text.now at []) (Finds text.now at)) }
{
    let mut from = at;
    'policies: loop {
        match read_beginning(alloc, &text[from..], room)? {
            Beginning::Policy(len) => from += len,
            Beginning::End => return Ok(None),
            Beginning::Faulty(error) => return Ok(Some(Found { from, error })),
        }
    }
}

// The first fault of a text in full.
fn describe<'src>(
    alloc: Global,
    text: &'src str,
    error: FormatError,
) -> Result<Fault<'src>, AllocError>
    requires { IsFirstOf text.now error }
    ensures { IfOk result (IsFault text.now) }
{
    let part = marked(text, error);
    let at = place(error);
    let before = &text[..at];
    let next = what_follows(alloc, before)?;
    let names = names_of(alloc, &next.kinds)?;
    let found = if at < text.len() {
        Some(&text[part.start..part.end])
    } else {
        None
    };
    let unclosed = left_open(alloc, before, found)?;
    Ok(Fault {
        error,
        part,
        expected: Expected {
            at,
            found,
            kinds: next.kinds,
            names,
            end: next.end,
        },
        unclosed,
    })
}
