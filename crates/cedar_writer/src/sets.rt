//! Sets of kinds, by which the grammar's lines decide.
ghost use Rattle.std.specs.Prelude.{◌≡◌};
ghost use Rattle.cedar_writer.specs.Sets.{contains};
ghost use Rattle.cedar_writer.specs.declared.sets.Set.TheVariants.{Comparison, Literal};

use cedar_grammar::kind::begins_expression;
use cedar_tokens::kind::Kind;

/// A set of kinds.
#[derive(Clone, Copy)]
pub(crate) enum Set {
    Only(Kind),
    /// Words that can name something.
    Ident,
    AnyWord,
    Variable,
    /// Words that can name something, but no variable.
    Name,
    Boolean,
    Comparison,
    Effect,
    Condition,
    /// `+` and `-`.
    SumSign,
    /// What the field of a record begins with.
    Key,
    /// What an access begins with.
    Accessing,
    /// `has`, `like` and `is`.
    Testing,
    /// What a primary begins with, but for words that can name something.
    Literal,
    /// What comes after the first word of an entity or of the path of a call.
    Referring,
    /// What an expression begins with.
    Expression,
    /// `,` and `)`.
    AfterScope,
    /// What a template has in place of an entity.
    Slot,
    Any,
}

impl Set {
    /// Whether the kind is in the set.
    pub(crate) fn contains(self, kind: Kind) -> bool
        ensures { result ≡ contains self kind }
    {
        match self {
            Set::Only(wanted) => wanted == kind,
            Set::Ident => kind.is_identifier(),
            Set::AnyWord => kind.is_word(),
            Set::Variable => kind.is_variable(),
            Set::Name => kind.is_identifier() && !kind.is_variable(),
            Set::Boolean => matches!(kind, Kind::True | Kind::False),
            Set::Comparison => kind.is_comparison(),
            Set::Effect => kind.is_effect(),
            Set::Condition => kind.is_cond_word(),
            Set::SumSign => matches!(kind, Kind::Add | Kind::Dash),
            Set::Key => kind.is_identifier() || matches!(kind, Kind::Str),
            Set::Accessing => matches!(kind, Kind::Dot | Kind::LBracket),
            Set::Testing => matches!(kind, Kind::Has | Kind::Like | Kind::Is),
            Set::Literal => is_literal(kind),
            Set::Referring => matches!(kind, Kind::DoubleColon | Kind::LParen),
            Set::Expression => begins_expression(kind),
            Set::AfterScope => matches!(kind, Kind::Comma | Kind::RParen),
            Set::Slot => matches!(kind, Kind::PrincipalSlot | Kind::ResourceSlot),
            Set::Any => true,
        }
    }
}

fn is_literal(kind: Kind) -> bool
    ensures { result ≡ contains Literal kind }
{
    matches!(
        kind,
        Kind::True
            | Kind::False
            | Kind::Number
            | Kind::Str
            | Kind::LParen
            | Kind::LBracket
            | Kind::LBrace
    )
}
