//! The policies of a text, one after the other.
ghost use Rattle.std.specs.Prelude.{◌≡◌, ◌≤◌, ◌<◌, ◌+◌, ◌^◌, List, [], ◌∷◌, ◌++◌, length, map, drop, IfOk, IfErr, IfSome, OnErr, MatchResult, MatchOption};
ghost use Rattle.std.specs.List.{All};
ghost use Rattle.cedar_grammar.specs.Refusals.{OutOfMemoryOr, Refuses, RefusesTokens};
ghost use Rattle.cedar_grammar.specs.Texts.{Accepted};
ghost use Rattle.cedar_reading.specs.Lexemes.{AreLexemes};
ghost use Rattle.cedar_reading.specs.Tokens.{HasTokens};
ghost use Rattle.cedar_cst.specs.Inside.Parts.{moved_lexeme, place_before, HasPoliciesFrom, AreLexemesFrom, RefusesFrom, IsNext, IsPolicyFrom};
ghost use Rattle.cedar_cst.specs.PolicyReaders.{HasPolicies, HasRead, HasEnded, GoesOn, IsPolicyOf, AreTokensOf};

use crate::cst::policies::parse_set;
use crate::laws::{tree_has_the_policies, tree_is_of_accepted};
use cedar_grammar::error::FormatError;
use cedar_grammar::tree::{Node, Policies, Policy};
use cedar_reading::commented::commented_tokens;
use cedar_reading::lexeme::{Lexeme, check_tokens};
use cedar_reading::pieces::read_piece;
use cedar_reading::reading::Refusal;
use cedar_tokens::token::WrappedToken;
use std::alloc::Global;
use std::marker::Model;

/// A policy and its part of a text.
#[derive(Drop)]
pub struct Piece<'src> {
    /// From the end of the policy before through this policy's `;` and the rest of its line.
    pub text: &'src str,
    /// The policy, with its places in `text`.
    pub policy: Node<Policy<'src>>,
}

// A policy, its part of a text, and the lexemes that it was parsed from.
#[derive(Drop)]
struct ParsedPiece<'src> {
    text: &'src str,
    policy: Node<Policy<'src>>,
    lexemes: Vec<Lexeme<'src>>,
}

/// The policies of a text that are still to come. Memory is held for one policy at a time.
#[derive(Drop)]
pub struct PolicyReader<'src> {
    text: &'src str,
    at: usize,
    // Room for the lexemes of the next policy.
    room: Option<Vec<Lexeme<'src>>>,
}

impl<'src> Model for PolicyReader<'src> {
    ghost use Rattle.cedar_cst.specs.PolicyReaders.{Position, IsAfterPolicies};

    ghost Value = { Position };

    ghost view = { λ r. record { text = r.text.now; at = r.at } };

    ghost invariant = { λ r. IsAfterPolicies r.text.now r.at };
}

impl<'src> PolicyReader<'src> {
    /// A reader of the policies of `text`, which has returned none. Reads nothing yet, and allocates nothing.
    pub fn new(text: &'src str) -> PolicyReader<'src>
        ensures { HasRead result text.now [] }
    {
        PolicyReader {
            text,
            at: 0,
            room: None,
        }
    }

    /// The next policy of the text, with its places in the whole text; `None` if there is none, however often it is called.
    /// The policies are those of `parse_policies`, in order, and so is a refusal. After a refusal or `None` the reader is
    /// unchanged.
    pub fn next(&mut self, alloc: Global) -> Result<Option<Node<Policy<'src>>>, FormatError>
        ensures answer { (text : List _) (ps : List _) → HasRead self.old text ps → IfOk result (λ next. MatchOption next (HasPolicies text ps) (λ p. HasRead self.new text (ps ++ p ∷ []))) }
        ensures refusal { IfErr result (OutOfMemoryOr (Refuses self.old.text)) }
        ensures place { IfOk result (λ next. MatchOption next (self.new ≡ self.old) (λ _. self.old.at < self.new.at)) }
        ensures refused { OnErr result (self.new ≡ self.old) }
    {
        let room = self.take_room(alloc);
        let at = self.at;
        let Some(piece) = self.read_piece(alloc, room, at)? else {
            return Ok(None);
        };
        self.at += piece.text.len();
        self.room = Some(piece.lexemes);
        Ok(Some(piece.policy))
    }

    /// The next policy with its part of the text, and with its places in that part; `None` if there is none, however often it
    /// is called. A refusal is that of `parse_policies`, with its place in the whole text. After a refusal or `None` the reader
    /// is unchanged.
    ///
    /// The tokens of that part are stored in `tokens`, with their comments and places, trailing commas among them. The former
    /// contents of `tokens` are dropped, and its memory is reused. Where there is no policy `tokens` is unchanged; after an error
    /// its contents are unspecified.
    pub fn next_piece(
        &mut self,
        alloc: Global,
        tokens: &mut Vec<WrappedToken<'src>>,
    ) -> Result<Option<Piece<'src>>, FormatError>
        ensures answer { IfOk result (λ next. MatchOption next (HasEnded self.old) (λ piece. GoesOn self.old self.new piece.text.now)) }
        ensures policy { IfOk result (λ next. MatchOption next (self.new ≡ self.old) (λ piece. IsPolicyOf piece.text.now piece.policy)) }
        ensures tokens { IfOk result (λ next. MatchOption next (tokens.new ≡ tokens.old) (λ piece. AreTokensOf piece.text.now tokens.new.items)) }
        ensures refusal { IfErr result (OutOfMemoryOr (Refuses self.old.text)) }
        ensures refused { OnErr result (self.new ≡ self.old) }
    {
        tree_has_the_policies();
        let room = self.take_room(alloc);
        let Some(piece) = self.read_piece(alloc, room, 0)? else {
            return Ok(None);
        };
        commented_tokens(alloc, piece.text, &piece.lexemes, tokens)?;
        self.at += piece.text.len();
        self.room = Some(piece.lexemes);
        Ok(Some(Piece {
            text: piece.text,
            policy: piece.policy,
        }))
    }

    /// The next policy's part of the text, without its tree; `None` if there is none, however often it is called. The tokens, the
    /// refusals and the reader are as `next_piece` has them.
    pub fn next_text(
        &mut self,
        alloc: Global,
        tokens: &mut Vec<WrappedToken<'src>>,
    ) -> Result<Option<&'src str>, FormatError>
        ensures answer { IfOk result (λ next. MatchOption next (HasEnded self.old) (λ text. GoesOn self.old self.new text.now)) }
        ensures accepted { IfOk result (λ next. MatchOption next (self.new ≡ self.old) (λ text. Accepted text.now)) }
        ensures tokens { IfOk result (λ next. MatchOption next (tokens.new ≡ tokens.old) (λ text. AreTokensOf text.now tokens.new.items)) }
        ensures refusal { IfErr result (OutOfMemoryOr (Refuses self.old.text)) }
        ensures refused { OnErr result (self.new ≡ self.old) }
    {
        tree_is_of_accepted();
        match self.next_piece(alloc, tokens)? {
            Some(piece) => Ok(Some(piece.text)),
            None => Ok(None),
        }
    }

    /// The part of the text that is not read yet.
    pub fn rest(&self) -> &'src str
        ensures { result.now ≡ drop self.now.at self.now.text }
    {
        &self.text[self.at..]
    }

    // The memory of the lexemes of the previous policy, if there was one.
    fn take_room(&mut self, alloc: Global) -> Vec<Lexeme<'src>>
        ensures { self.new ≡ self.old }
    {
        match self.room.take() {
            Some(room) => room,
            None => Vec::new(alloc),
        }
    }

    // The next policy with its part of the text and its lexemes, their places moved by `by` bytes. A refusal has its place in the
    // whole text. The lexemes are stored in `room`, whose former contents are dropped.
    fn read_piece(
        &self,
        alloc: Global,
        room: Vec<Lexeme<'src>>,
        by: usize,
    ) -> Result<Option<ParsedPiece<'src>>, FormatError>
        requires { by ≤ self.now.at }
        ensures answer { IfOk result (λ next. MatchOption next (HasEnded self.now) (λ piece. IsNext self.now piece.text.now × IsPolicyFrom by piece.text.now piece.policy)) }
        ensures lexemes { IfOk result (λ next. IfSome next (λ piece. AreLexemesFrom by piece.text.now piece.lexemes.items)) }
        ensures refusal { IfErr result (OutOfMemoryOr (Refuses self.now.text)) }
    {
        let at = self.at;
        let rest = self.rest();
        let mut lexemes = room;
        let Some(len) = read_piece(rest, &mut lexemes)? else {
            self.check_rest()?;
            let _ = parse_part(alloc, rest, &mut lexemes, at, by)?;
            return Ok(None);
        };
        let text = &rest[..len];
        let Policies { mut policies } = match parse_part(alloc, text, &mut lexemes, at, by) {
            Ok(policies) => policies,
            Err(refusal) => {
                // A fault of the text is reported first, wherever it is.
                check_tokens(self.text)?;
                return Err(refusal);
            }
        };
        match policies.pop() {
            Some(policy) => Ok(Some(ParsedPiece {
                text,
                policy,
                lexemes,
            })),
            None => Ok(None),
        }
    }

    // Refuses the text if the tokens of what is left can't be parsed.
    fn check_rest(&self) -> Result<(), FormatError>
        ensures { MatchResult result (λ _. HasTokens (drop self.now.at self.now.text)) (RefusesTokens self.now.text) }
    {
        match check_tokens(self.rest()) {
            Ok(()) => Ok(()),
            Err(_) => check_tokens(self.text),
        }
    }
}

// The policies of the part of a text that begins at the byte `at` and has these lexemes. Their places in the part, and so those
// of the policies, are moved by `by` bytes. A refusal has its place in the text.
fn parse_part<'src>(
    alloc: Global,
    part: &'src str,
    lexemes: &mut [Lexeme<'src>],
    at: usize,
    by: usize,
) -> Result<Policies<'src>, FormatError>
    requires lexemes { AreLexemes part.now lexemes.old }
    requires order { by ≤ at }
    requires room { at + length part.now < 2 ^ 64 }
    ensures policies { MatchResult result (λ p. HasPoliciesFrom by part.now p.policies.items) (RefusesFrom at part.now) }
    ensures moved { lexemes.new ≡ map (moved_lexeme by) lexemes.old }
{
    move_spans(lexemes, by);
    let end = by + part.len();
    let before = at - by;
    match parse_set(alloc, lexemes) {
        Ok(policies) => Ok(policies),
        Err(Refusal::Grammar { left }) => Err(FormatError::Grammar {
            at: before + place(end, lexemes, left),
        }),
        Err(Refusal::TooDeep { left }) => Err(FormatError::TooDeep {
            at: before + place(end, lexemes, left),
        }),
        Err(Refusal::OutOfMemory) => Err(FormatError::OutOfMemory),
    }
}

// Moves the places of lexemes by so many bytes.
fn move_spans(lexemes: &mut [Lexeme], by: usize)
    requires starts { All (λ l. by + l.span.start < 2 ^ 64) lexemes.old }
    requires ends { All (λ l. by + l.span.end < 2 ^ 64) lexemes.old }
    ensures { lexemes.new ≡ map (moved_lexeme by) lexemes.old }
{
    for lexeme in lexemes.iter_mut() {
        lexeme.span.start += by;
        lexeme.span.end += by;
    }
}

// The start of the token from which on so many are left; `end` if none is left.
fn place(end: usize, lexemes: &[Lexeme], left: usize) -> usize
    ensures { result ≡ place_before end lexemes.now left }
{
    match lexemes.get(lexemes.len().saturating_sub(left)) {
        Some(lexeme) => lexeme.span.start,
        None => end,
    }
}
