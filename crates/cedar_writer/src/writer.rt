//! A writer: the tokens of a policy that are left, and the marks that are written.
ghost use Rattle.std.specs.Prelude.{◌≡◌, IfOk, OnErr, ◌<◌, length, [], ◌∷◌, map, false, vec_capacity};
ghost use Rattle.cedar_tokens.specs.Listing.{token_value};
ghost use Rattle.cedar_print.specs.Marks.{mark_of, marks_of};
ghost use Rattle.cedar_print.specs.WrittenMarks as M;
ghost use Rattle.cedar_print.specs.WrittenMarks.{broken_lines, lead_of, trail_of};
ghost use Rattle.cedar_writer.specs.Writing.{going, begins, second, goes, looking, refuse, add, add_all, skip, take, add_lead, bare_first, lift};
ghost use Rattle.cedar_reading.specs.Lines.{lines_left};
ghost use Rattle.cedar_writer.specs.Languages.{looks};
ghost use Rattle.cedar_writer.specs.Sets.{contains};
ghost use Rattle.cedar_writer.specs.declared.sets.Set.TheVariants.{Only};
ghost use Rattle.cedar_tokens.specs.declared.kind.Kind.TheVariants.{LBrace};
ghost use Rattle.cedar_writer.specs.Outcomes.{HasEnded, outcome_of};
ghost use Rattle.cedar_writer.specs.States.{after_first, some_mark, tokens_left};

use crate::sets::Set;
use cedar_print::mark::{Indent, Mark};
use cedar_reading::lines::Lines;
use cedar_reading::token::{Token, value};
use cedar_tokens::kind::Kind;
use std::alloc::AllocError;
use std::marker::Model;

/// How reading ended.
#[derive(Clone, Copy)]
pub(crate) enum Outcome {
    /// A policy was read and written, and so many tokens are left.
    Written { left: usize },
    /// The first of so many tokens was refused, for its depth alone or not.
    Refused { too_deep: bool, left: usize },
    /// There was no room for a mark.
    OutOfRoom,
}

/// Why nothing more is read and written.
#[derive(Clone, Copy)]
pub(crate) enum Stop {
    /// The first token that is left was refused, for its depth alone or not.
    Refused(bool),
    /// There was no room for a mark.
    OutOfRoom,
}

/// The tokens that are left, and the marks so far, with room for some more. After a stop nothing is read or written.
#[derive(Drop)]
pub(crate) struct Writer<'t, 'l, 'src> {
    left: &'t [Token<'l, 'src>],
    led: bool,
    marks: Vec<Mark<'src>>,
    free: usize,
    stop: Option<Stop>,
}

impl<'t, 'l, 'src> Model for Writer<'t, 'l, 'src> {
    ghost use Rattle.std.specs.Prelude.{◌+◌, ◌≤◌, length, vec_capacity};
    ghost use Rattle.cedar_writer.specs.Writing.{State};
    ghost use Rattle.cedar_print.specs.Marks.{marks_of};
    ghost use Rattle.cedar_writer.specs.States.{state_of};

    ghost Value = { State };

    ghost view = { λ w. state_of w.led w.stop w.left.now (marks_of w.marks.items) w.free };

    ghost invariant = { λ w. length w.marks.items + w.free ≤ vec_capacity w.marks };
}

impl<'t, 'l, 'src> Writer<'t, 'l, 'src> {
    /// Nothing is written yet, and there is room for so many marks. The given ones are dropped, and their memory is used.
    pub(crate) fn new(
        mut marks: Vec<Mark<'src>>,
        left: &'t [Token<'l, 'src>],
        room: usize,
    ) -> Result<Writer<'t, 'l, 'src>, AllocError>
        ensures begun { IfOk result (λ w. w ≡ going (tokens_left false left.now) [] room) }
        ensures full { OnErr result (vec_capacity marks.entry < room) }
    {
        marks.clear();
        marks.reserve(room)?;
        Ok(Writer {
            left,
            led: false,
            marks,
            free: room,
            stop: None,
        })
    }

    /// The marks, and what has become of the tokens.
    pub(crate) fn finish(self) -> (Vec<Mark<'src>>, Outcome)
        ensures { HasEnded self.entry (marks_of result.0.items) result.1 }
    {
        let left = self.left.len();
        match self.stop {
            None => (self.marks, Outcome::Written { left }),
            Some(stop) => (self.marks, outcome_of(stop, left)),
        }
    }

    /// Writes a mark, if there is room.
    pub(crate) fn put(&mut self, mark: Mark<'src>)
        ensures { self.new ≡ add (mark_of mark.entry) self.old }
    {
        if self.stop.is_none() {
            if self.free == 0 {
                self.stop = Some(Stop::OutOfRoom);
            } else {
                self.free -= 1;
                let _ = self.marks.push(mark);
            }
        }
    }

    /// Whether the next token's kind is in the set.
    pub(crate) fn begins(&self, set: Set) -> bool
        ensures { result ≡ begins (contains set) self.now }
    {
        if self.stop.is_some() {
            return false;
        }
        match self.left.split_first() {
            Some((first, _)) => set.contains(first.kind()),
            None => false,
        }
    }

    /// Whether the kind of the token after it is in the set.
    pub(crate) fn second(&self, set: Set) -> bool
        ensures { result ≡ second (contains set) self.now }
    {
        if self.stop.is_some() {
            return false;
        }
        match self.left.split_first() {
            Some((_, rest)) => match rest.split_first() {
                Some((next, _)) => set.contains(next.kind()),
                None => false,
            },
            None => false,
        }
    }

    /// Whether a token of one set comes, and then one of the other.
    pub(crate) fn goes(&self, set: Set, next: Set) -> bool
        ensures { result ≡ goes (contains set) (contains next) self.now }
    {
        self.begins(set) && self.second(next)
    }

    /// Whether the kinds of the next tokens are in these sets.
    pub(crate) fn looking(&self, sets: &[Set]) -> bool
        ensures { result ≡ looking (map contains sets.now) self.now }
    {
        if self.stop.is_some() {
            return false;
        }
        looks(self.left, sets)
    }

    /// Refuses the next token; `too_deep` says whether only the depth is to blame.
    pub(crate) fn refuse(&mut self, too_deep: bool)
        ensures { self.new ≡ refuse too_deep self.old }
    {
        if self.stop.is_none() {
            self.stop = Some(Stop::Refused(too_deep));
        }
    }

    /// A token of the set, between its comments.
    pub(crate) fn take(&mut self, set: Set)
        ensures { self.new ≡ take (contains set) [] [] self.old }
    {
        self.take_with(set, None);
    }

    /// The same; the mark is written if it has no trailing text.
    pub(crate) fn take_then(&mut self, set: Set, next: Mark<'src>)
        ensures { self.new ≡ take (contains set) [] (mark_of next.entry ∷ []) self.old }
    {
        self.take_with(set, Some(next));
    }

    fn take_with(&mut self, set: Set, next: Option<Mark<'src>>)
        ensures { self.new ≡ take (contains set) [] (some_mark next.entry) self.old }
    {
        if !self.begins(set) {
            self.refuse(false);
            return;
        }
        if let Some((first, _)) = self.left.split_first() {
            self.lead_first();
            self.put(Mark::Text(value(first.text())));
            self.trail(first.trailing(), next);
            self.skip();
        }
    }

    /// A `{`; after its text a group and a nest begin, and a possible break follows if it has no trailing text.
    pub(crate) fn take_brace(&mut self, indent: Indent)
        ensures { self.new ≡ take (contains (Only LBrace)) (M.begin ∷ M.nest indent.columns ∷ []) (M.line ∷ []) self.old }
    {
        if !self.begins(Set::Only(Kind::LBrace)) {
            self.refuse(false);
            return;
        }
        if let Some((first, _)) = self.left.split_first() {
            self.lead_first();
            self.put(Mark::Text(value(first.text())));
            self.put(Mark::Begin);
            self.put(Mark::Nest(indent));
            self.trail(first.trailing(), Some(Mark::Line));
            self.skip();
        }
    }

    // A trailing text, or the mark if there is none.
    fn trail(&mut self, text: &'src str, next: Option<Mark<'src>>)
        ensures { self.new ≡ add_all (trail_of text.now (some_mark next.entry)) self.old }
    {
        if !text.is_empty() {
            self.put(Mark::Space);
            self.put(Mark::Text(text));
            self.put(Mark::Hard);
        } else if let Some(mark) = next {
            self.put(mark);
        }
    }

    fn skip(&mut self)
        ensures { self.new ≡ skip self.old }
    {
        if self.stop.is_some() {
            return;
        }
        match self.left.split_first() {
            Some(_) => {
                self.left = after_first(self.left);
                self.led = false;
            }
            None => {}
        }
    }

    /// The first token's leading lines are written, and not again.
    pub(crate) fn lift(&mut self)
        ensures { self.new ≡ lift self.old }
    {
        self.lead_first();
        self.bare();
    }

    fn lead_first(&mut self)
        ensures { self.new ≡ add_lead self.old }
    {
        if self.stop.is_some() {
            return;
        }
        if let Some((first, _)) = self.left.split_first() {
            if !self.led {
                self.lead(first.lines());
            }
        }
    }

    fn bare(&mut self)
        ensures { self.new ≡ bare_first self.old }
    {
        if self.stop.is_some() {
            return;
        }
        match self.left.split_first() {
            Some(_) => self.led = true,
            None => {}
        }
    }

    // Each line on a line of its own.
    fn lead(&mut self, lines: Lines<'_, 'src>)
        ensures { self.new ≡ add_all (lead_of (lines_left lines.entry)) self.old }
    {
        let mut is_first = true;
        for line in lines {
            if is_first {
                self.put(Mark::Hard);
                is_first = false;
            }
            self.put(Mark::Text(line));
            self.put(Mark::Hard);
        }
    }
}

// What has become of the tokens after a stop before so many of them.
fn outcome_of(stop: Stop, left: usize) -> Outcome
    ensures { result ≡ outcome_of stop left }
{
    match stop {
        Stop::Refused(too_deep) => Outcome::Refused { too_deep, left },
        Stop::OutOfRoom => Outcome::OutOfRoom,
    }
}

// The tokens after the first.
fn after_first<'t, 'l, 'src>(tokens: &'t [Token<'l, 'src>]) -> &'t [Token<'l, 'src>]
    requires { 0 < length tokens.now }
    ensures { result.now ≡ after_first tokens.now }
{
    &tokens[1..]
}

// Whether the kinds of the first tokens are in these sets.
fn looks(tokens: &[Token<'_, '_>], sets: &[Set]) -> bool
    ensures { result ≡ looks (map contains sets.now) tokens.now }
{
    let mut left = tokens;
    let mut wanted = sets;
    'sets: while let Some((set, others)) = wanted.split_first() {
        match left.split_first() {
            None => return false,
            Some((first, _)) => {
                if !set.contains(first.kind()) {
                    return false;
                }
                left = after_first(left);
                wanted = others;
            }
        }
    }
    true
}
