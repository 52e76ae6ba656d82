//! Sets of kinds of tokens, and how a message names them.
ghost use Rattle.std.specs.Prelude.{◌≡◌, ◌↔◌, Contains, IsTrue, IfOk};
ghost use Rattle.std.specs.List.{list_any};
ghost use Rattle.cedar_faults.specs.Naming.{names, groups, AreIn, AreNamed, IsNameOf, is_flat, is_arithmetic_or_logical, is_relational};

use crate::samples::all_kinds;
use cedar_grammar::kind::begins_expression;
use cedar_tokens::kind::Kind;
use std::alloc::{AllocError, Global};

/// A set of kinds of tokens.
#[derive(Debug, Drop)]
pub struct Kinds {
    /// The kinds of the set.
    pub items: Vec<Kind>,
}

/// What a message names: kinds of tokens that share a word, or one kind.
#[derive(Clone, Copy, Debug, PartialEq, Eq)]
pub enum Name {
    /// `@`, `permit` and `forbid`.
    Policy,
    /// `when` and `unless`.
    Condition,
    /// Every word.
    Word,
    /// Everything an expression can begin with.
    Expression,
    /// Everything an expression can begin with, except `if` and the signs.
    Operand,
    /// Everything an expression can begin with, except `if`, the signs and brackets.
    FlatOperand,
    /// Every word except `true false if then else in is like has`.
    Identifier,
    /// All operators: `+ - * && || < <= > >= != == in has like is`.
    Operator,
    /// `+ - * && ||`.
    ArithmeticOrLogical,
    /// Tokens of this kind.
    Token(Kind),
}

impl Name {
    /// Whether tokens of this kind are among those named.
    pub fn has(self, kind: Kind) -> bool
        ensures { result ≡ names self kind }
    {
        match self {
            Name::Policy => kind == Kind::At || kind.is_effect(),
            Name::Condition => kind.is_cond_word(),
            Name::Word => kind.is_word(),
            Name::Expression => begins_expression(kind),
            Name::Operand => is_flat(kind) || kind.is_opening(),
            Name::FlatOperand => is_flat(kind),
            Name::Identifier => kind.is_identifier(),
            Name::Operator => is_arithmetic_or_logical(kind) || is_relational(kind),
            Name::ArithmeticOrLogical => is_arithmetic_or_logical(kind),
            Name::Token(one) => kind == one,
        }
    }
}

impl Kinds {
    /// Whether the kind is in the set.
    pub fn contains(&self, kind: Kind) -> bool
        ensures { IsTrue result ↔ Contains self.now.items.items kind }
    {
        self.items.contains(&kind)
    }

    /// Whether all the named kinds are in the set.
    pub fn have_all(&self, name: Name) -> bool
        ensures { IsTrue result ↔ AreIn self.now.items.items name }
    {
        for kind in all_kinds() {
            if name.has(kind) && !self.contains(kind) {
                return false;
            }
        }
        true
    }

    /// The name that a message uses for a kind of the set: for several kinds all in the set, or for this kind alone.
    pub fn name(&self, kind: Kind) -> Name
        requires { Contains self.now.items.items kind }
        ensures { IsNameOf self.now.items.items kind result }
    {
        for group in groups() {
            if group.has(kind) && self.have_all(group) {
                return group;
            }
        }
        Name::Token(kind)
    }
}

/// The names of the kinds: each names only kinds of the set, and each kind of the set has one. A kind that a name before
/// names gets no other.
pub fn names_of(alloc: Global, kinds: &Kinds) -> Result<Vec<Name>, AllocError>
    ensures { IfOk result (λ names. AreNamed kinds.now.items.items names.items) }
{
    let mut names = Vec::new(alloc);
    for kind in &kinds.items {
        if !is_named(&names, *kind) {
            names.push(kinds.name(*kind))?;
        }
    }
    Ok(names)
}

// Whether one of the names names tokens of this kind.
fn is_named(all: &[Name], kind: Kind) -> bool
    ensures { result ≡ list_any (λ name. names name kind) all.now }
{
    for name in all {
        if name.has(kind) {
            return true;
        }
    }
    false
}

// The names of several kinds; of two that share kinds, the one with more of them comes first.
fn groups() -> [Name; 9]
    ensures { result ≡ groups }
{
    [
        Name::Word,
        Name::Expression,
        Name::Operand,
        Name::FlatOperand,
        Name::Operator,
        Name::ArithmeticOrLogical,
        Name::Identifier,
        Name::Policy,
        Name::Condition,
    ]
}

// Whether an expression without brackets, signs and `if` can begin with a token of this kind.
fn is_flat(kind: Kind) -> bool
    ensures { result ≡ is_flat kind }
{
    kind.is_identifier() || matches!(kind, Kind::True | Kind::False | Kind::Number | Kind::Str)
}

fn is_arithmetic_or_logical(kind: Kind) -> bool
    ensures { result ≡ is_arithmetic_or_logical kind }
{
    matches!(
        kind,
        Kind::Add | Kind::Dash | Kind::Mul | Kind::And | Kind::Or
    )
}

/// Whether it compares, or says what an operand has or is.
pub(crate) fn is_relational(kind: Kind) -> bool
    ensures { result ≡ is_relational kind }
{
    kind.is_comparison() || matches!(kind, Kind::Has | Kind::Like | Kind::Is)
}
