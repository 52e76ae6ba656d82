//! The parts that the lines of the grammar are made of.
ghost use Rattle.cedar_tokens.specs.Kinds.{is, is_boolean};
ghost use Rattle.std.specs.Prelude.{◌≡◌, if◌then◌else◌};
ghost use Rattle.cedar_faults.specs.Inside.Turns.{is_optional, step_of, stopped, taken, turn};

use cedar_grammar::kind::begins_expression;
use cedar_tokens::kind::Kind;

/// A part of the grammar that is still to be read. Square brackets mean at most once, and braces any number of times.
#[derive(Clone, Copy)]
pub enum Part {
    /// A token of this kind.
    Token(Kind),
    /// A word.
    Word,
    /// An identifier.
    Identifier,
    /// `{Policy}`
    Policies,
    /// `{Annotation} ('permit' | 'forbid') '(' .. ';'`
    Policy,
    /// `permit` or `forbid`
    Effect,
    /// What follows `permit` or `forbid`.
    Signature,
    /// `['(' STR ')']`
    AnnotationText,
    /// `['==' .. | 'in' .. | 'is' ..]` after `principal`
    PrincipalTest,
    /// `('?principal' | Entity)`
    PrincipalEntity,
    /// `['in' ('?principal' | Entity)]`
    PrincipalIn,
    /// `['==' .. | 'in' ..]` after `action`
    ActionTest,
    /// `(Entity | '[' .. ']')`
    ActionSet,
    /// `['==' .. | 'in' .. | 'is' ..]` after `resource`
    ResourceTest,
    /// `('?resource' | Entity)`
    ResourceEntity,
    /// `['in' ('?resource' | Entity)]`
    ResourceIn,
    /// `IDENT '::' .. STR`
    Entity,
    /// `'::' {IDENT '::'} STR`
    EntityMarks,
    /// `{IDENT '::'} STR`
    EntityNext,
    /// `[Entity {',' Entity} [',']]`
    Entities,
    /// `{',' Entity} [',']`
    MoreEntities,
    /// `{'::' IDENT}`
    PathMarks,
    /// `[',']`
    Comma,
    /// `{('when' | 'unless') '{' Expr '}'}`
    Conditions,
    /// An expression inside brackets, braces or an `if`, one level deeper.
    Inner,
    /// `Expr`
    Expr,
    /// `Or`
    Or,
    /// `{'||' And}`
    MoreOr,
    /// `And`
    And,
    /// `{'&&' Relation}`
    MoreAnd,
    /// `Relation`
    Relation,
    /// What can follow the first operand of a relation.
    Comparison,
    /// `(STR | IDENT {'.' IDENT})`
    HasOperand,
    /// `{'.' IDENT}`
    Fields,
    /// `['in' Add]`
    InAdd,
    /// `Add`
    Add,
    /// `{('+' | '-') Mult}`
    MoreAdd,
    /// `Mult`
    Mult,
    /// `{'*' Unary}`
    MoreMult,
    /// `Unary`
    Unary,
    /// Up to three more `!`.
    ThreeNegs,
    /// Up to two more `!`.
    TwoNegs,
    /// At most one more `!`.
    OneNeg,
    /// Up to three more `-`.
    ThreeDashes,
    /// Up to two more `-`.
    TwoDashes,
    /// At most one more `-`.
    OneDash,
    /// `Member`
    Member,
    /// What a member begins with.
    Item,
    /// `['::' .. | '(' .. ')']` after a variable
    VariableMarks,
    /// `'::' .. | '(' .. ')'` after another name
    NameMarks,
    /// `IDENT ('::' .. | '(' .. ')') | STR`
    NameNext,
    /// `{'.' IDENT ['(' .. ')'] | '[' STR ']'}`
    Accesses,
    /// `['(' [Expr {',' Expr} [',']] ')']`
    Call,
    /// `[Expr {',' Expr} [',']]`
    Exprs,
    /// `{',' Expr} [',']`
    MoreExprs,
    /// `[(IDENT | STR) ':' Expr {',' ..} [',']]`
    Inits,
    /// `{',' (IDENT | STR) ':' Expr} [',']`
    MoreInits,
}

/// How a part is read on when a token comes.
#[derive(Clone, Copy)]
pub enum Turn {
    /// It begins with this token, and then these parts are left of it.
    Takes(&'static [Part]),
    /// It is made of these parts, and the token may begin the first of them.
    Opens(&'static [Part]),
    /// It can't begin with this token, and can't be empty.
    Stops,
}

use Turn::{Opens, Stops, Takes};

impl Part {
    /// How this part is read on when a token of this kind comes; brackets and `if` may be nested if there is room.
    pub fn turn(self, kind: Kind, has_room: bool) -> Turn
        ensures { step_of result ≡ turn self kind has_room }
    {
        match self {
            Part::Token(own) if is(own, kind) => Takes(&[]),
            Part::Token(_) => Stops,
            Part::Word if kind.is_word() => Takes(&[]),
            Part::Word => Stops,
            Part::Identifier if kind.is_identifier() => Takes(&[]),
            Part::Identifier => Stops,
            Part::Inner if has_room => Opens(&[Part::Expr]),
            Part::Inner => Stops,
            Part::Policies if kind == Kind::At => Takes(&[
                Part::Word,
                Part::AnnotationText,
                Part::Policy,
                Part::Policies,
            ]),
            Part::Policies if kind.is_effect() => Takes(&[Part::Signature, Part::Policies]),
            Part::Policies => Opens(&[]),
            Part::Policy if kind == Kind::At => Takes(&[
                Part::Word,
                Part::AnnotationText,
                Part::Policy,
            ]),
            Part::Policy => Opens(&[Part::Effect, Part::Signature]),
            Part::Effect if kind.is_effect() => Takes(&[]),
            Part::Effect => Stops,
            Part::Signature => Opens(&[
                Part::Token(Kind::LParen),
                Part::Token(Kind::Principal),
                Part::PrincipalTest,
                Part::Token(Kind::Comma),
                Part::Token(Kind::Action),
                Part::ActionTest,
                Part::Token(Kind::Comma),
                Part::Token(Kind::Resource),
                Part::ResourceTest,
                Part::Comma,
                Part::Token(Kind::RParen),
                Part::Conditions,
                Part::Token(Kind::SemiColon),
            ]),
            Part::AnnotationText if kind == Kind::LParen => Takes(&[
                Part::Token(Kind::Str),
                Part::Token(Kind::RParen),
            ]),
            Part::AnnotationText => Opens(&[]),
            Part::PrincipalTest if kind == Kind::Equal => Takes(&[Part::PrincipalEntity]),
            Part::PrincipalTest if kind == Kind::Is => Takes(&[
                Part::Identifier,
                Part::PathMarks,
                Part::PrincipalIn,
            ]),
            Part::PrincipalTest if kind == Kind::In => Takes(&[Part::PrincipalEntity]),
            Part::PrincipalTest => Opens(&[]),
            Part::PrincipalEntity if kind == Kind::PrincipalSlot => Takes(&[]),
            Part::PrincipalEntity if kind.is_identifier() => Takes(&[Part::EntityMarks]),
            Part::PrincipalEntity => Stops,
            Part::PrincipalIn if kind == Kind::In => Takes(&[Part::PrincipalEntity]),
            Part::PrincipalIn => Opens(&[]),
            Part::ActionTest if kind == Kind::Equal => Takes(&[Part::Entity]),
            Part::ActionTest if kind == Kind::In => Takes(&[Part::ActionSet]),
            Part::ActionTest => Opens(&[]),
            Part::ActionSet if kind == Kind::LBracket => Takes(&[
                Part::Entities,
                Part::Token(Kind::RBracket),
            ]),
            Part::ActionSet if kind.is_identifier() => Takes(&[Part::EntityMarks]),
            Part::ActionSet => Stops,
            Part::ResourceTest if kind == Kind::Equal => Takes(&[Part::ResourceEntity]),
            Part::ResourceTest if kind == Kind::Is => Takes(&[
                Part::Identifier,
                Part::PathMarks,
                Part::ResourceIn,
            ]),
            Part::ResourceTest if kind == Kind::In => Takes(&[Part::ResourceEntity]),
            Part::ResourceTest => Opens(&[]),
            Part::ResourceEntity if kind == Kind::ResourceSlot => Takes(&[]),
            Part::ResourceEntity if kind.is_identifier() => Takes(&[Part::EntityMarks]),
            Part::ResourceEntity => Stops,
            Part::ResourceIn if kind == Kind::In => Takes(&[Part::ResourceEntity]),
            Part::ResourceIn => Opens(&[]),
            Part::Entity if kind.is_identifier() => Takes(&[Part::EntityMarks]),
            Part::Entity => Stops,
            Part::EntityMarks if kind == Kind::DoubleColon => Takes(&[Part::EntityNext]),
            Part::EntityMarks => Stops,
            Part::EntityNext if kind.is_identifier() => Takes(&[Part::EntityMarks]),
            Part::EntityNext if kind == Kind::Str => Takes(&[]),
            Part::EntityNext => Stops,
            Part::Entities if kind.is_identifier() => Takes(&[
                Part::EntityMarks,
                Part::MoreEntities,
            ]),
            Part::Entities => Opens(&[]),
            Part::MoreEntities if kind == Kind::Comma => Takes(&[Part::Entities]),
            Part::MoreEntities => Opens(&[]),
            Part::PathMarks if kind == Kind::DoubleColon => Takes(&[
                Part::Identifier,
                Part::PathMarks,
            ]),
            Part::PathMarks => Opens(&[]),
            Part::Comma if kind == Kind::Comma => Takes(&[]),
            Part::Comma => Opens(&[]),
            Part::Conditions if kind.is_cond_word() => Takes(&[
                Part::Token(Kind::LBrace),
                Part::Inner,
                Part::Token(Kind::RBrace),
                Part::Conditions,
            ]),
            Part::Conditions => Opens(&[]),
            Part::Expr if kind == Kind::If => nested(
                has_room,
                &[
                    Part::Inner,
                    Part::Token(Kind::Then),
                    Part::Inner,
                    Part::Token(Kind::Else),
                    Part::Inner,
                ],
            ),
            Part::Expr => Opens(&[Part::Or]),
            Part::Or => Opens(&[Part::And, Part::MoreOr]),
            Part::MoreOr if kind == Kind::Or => Takes(&[Part::And, Part::MoreOr]),
            Part::MoreOr => Opens(&[]),
            Part::And => Opens(&[Part::Relation, Part::MoreAnd]),
            Part::MoreAnd if kind == Kind::And => Takes(&[Part::Relation, Part::MoreAnd]),
            Part::MoreAnd => Opens(&[]),
            Part::Relation => Opens(&[Part::Add, Part::Comparison]),
            Part::Comparison if kind.is_comparison() => Takes(&[Part::Add]),
            Part::Comparison if kind == Kind::Has => Takes(&[Part::HasOperand]),
            Part::Comparison if kind == Kind::Like => Takes(&[Part::Token(Kind::Str)]),
            Part::Comparison if kind == Kind::Is => Takes(&[
                Part::Identifier,
                Part::PathMarks,
                Part::InAdd,
            ]),
            Part::Comparison => Opens(&[]),
            Part::HasOperand if kind == Kind::Str => Takes(&[]),
            Part::HasOperand if kind.is_identifier() => Takes(&[Part::Fields]),
            Part::HasOperand => Stops,
            Part::Fields if kind == Kind::Dot => Takes(&[Part::Identifier, Part::Fields]),
            Part::Fields => Opens(&[]),
            Part::InAdd if kind == Kind::In => Takes(&[Part::Add]),
            Part::InAdd => Opens(&[]),
            Part::Add => Opens(&[Part::Mult, Part::MoreAdd]),
            Part::MoreAdd if kind == Kind::Add || kind == Kind::Dash => Takes(&[
                Part::Mult,
                Part::MoreAdd,
            ]),
            Part::MoreAdd => Opens(&[]),
            Part::Mult => Opens(&[Part::Unary, Part::MoreMult]),
            Part::MoreMult if kind == Kind::Mul => Takes(&[Part::Unary, Part::MoreMult]),
            Part::MoreMult => Opens(&[]),
            Part::Unary if kind == Kind::Neg => Takes(&[Part::ThreeNegs, Part::Member]),
            Part::Unary if kind == Kind::Dash => Takes(&[Part::ThreeDashes, Part::Member]),
            Part::Unary => Opens(&[Part::Member]),
            Part::ThreeNegs if kind == Kind::Neg => Takes(&[Part::TwoNegs]),
            Part::ThreeNegs => Opens(&[]),
            Part::TwoNegs if kind == Kind::Neg => Takes(&[Part::OneNeg]),
            Part::TwoNegs => Opens(&[]),
            Part::OneNeg if kind == Kind::Neg => Takes(&[]),
            Part::OneNeg => Opens(&[]),
            Part::ThreeDashes if kind == Kind::Dash => Takes(&[Part::TwoDashes]),
            Part::ThreeDashes => Opens(&[]),
            Part::TwoDashes if kind == Kind::Dash => Takes(&[Part::OneDash]),
            Part::TwoDashes => Opens(&[]),
            Part::OneDash if kind == Kind::Dash => Takes(&[]),
            Part::OneDash => Opens(&[]),
            Part::Member => Opens(&[Part::Item, Part::Accesses]),
            Part::Item if is_boolean(kind) => Takes(&[]),
            Part::Item if kind == Kind::Number => Takes(&[]),
            Part::Item if kind == Kind::Str => Takes(&[]),
            Part::Item if kind == Kind::LParen => nested(
                has_room,
                &[Part::Inner, Part::Token(Kind::RParen)],
            ),
            Part::Item if kind == Kind::LBracket => nested(
                has_room,
                &[Part::Exprs, Part::Token(Kind::RBracket)],
            ),
            Part::Item if kind == Kind::LBrace => nested(
                has_room,
                &[Part::Inits, Part::Token(Kind::RBrace)],
            ),
            Part::Item if kind.is_variable() => Takes(&[Part::VariableMarks]),
            Part::Item if kind.is_identifier() && !kind.is_variable() => Takes(&[Part::NameMarks]),
            Part::Item => Stops,
            Part::VariableMarks if kind == Kind::DoubleColon => Takes(&[Part::NameNext]),
            Part::VariableMarks if kind == Kind::LParen => nested(
                has_room,
                &[Part::Exprs, Part::Token(Kind::RParen)],
            ),
            Part::VariableMarks => Opens(&[]),
            Part::NameMarks if kind == Kind::DoubleColon => Takes(&[Part::NameNext]),
            Part::NameMarks if kind == Kind::LParen => nested(
                has_room,
                &[Part::Exprs, Part::Token(Kind::RParen)],
            ),
            Part::NameMarks => Stops,
            Part::NameNext if kind.is_identifier() => Takes(&[Part::NameMarks]),
            Part::NameNext if kind == Kind::Str => Takes(&[]),
            Part::NameNext => Stops,
            Part::Accesses if kind == Kind::Dot => Takes(&[
                Part::Identifier,
                Part::Call,
                Part::Accesses,
            ]),
            Part::Accesses if kind == Kind::LBracket => Takes(&[
                Part::Token(Kind::Str),
                Part::Token(Kind::RBracket),
                Part::Accesses,
            ]),
            Part::Accesses => Opens(&[]),
            Part::Call if kind == Kind::LParen => nested(
                has_room,
                &[Part::Exprs, Part::Token(Kind::RParen)],
            ),
            Part::Call => Opens(&[]),
            Part::Exprs if begins_expression(kind) => Opens(&[Part::Inner, Part::MoreExprs]),
            Part::Exprs => Opens(&[]),
            Part::MoreExprs if kind == Kind::Comma => Takes(&[Part::Exprs]),
            Part::MoreExprs => Opens(&[]),
            Part::Inits if kind.is_identifier() => Takes(&[
                Part::Token(Kind::Colon),
                Part::Inner,
                Part::MoreInits,
            ]),
            Part::Inits if kind == Kind::Str => Takes(&[
                Part::Token(Kind::Colon),
                Part::Inner,
                Part::MoreInits,
            ]),
            Part::Inits => Opens(&[]),
            Part::MoreInits if kind == Kind::Comma => Takes(&[Part::Inits]),
            Part::MoreInits => Opens(&[]),
        }
    }

    /// Whether this part can be empty.
    pub fn is_optional(self) -> bool
        ensures { result ≡ is_optional self }
    {
        matches!(
            self,
            Part::Policies
                | Part::AnnotationText
                | Part::PrincipalTest
                | Part::PrincipalIn
                | Part::ActionTest
                | Part::ResourceTest
                | Part::ResourceIn
                | Part::Entities
                | Part::MoreEntities
                | Part::PathMarks
                | Part::Comma
                | Part::Conditions
                | Part::MoreOr
                | Part::MoreAnd
                | Part::Comparison
                | Part::Fields
                | Part::InAdd
                | Part::MoreAdd
                | Part::MoreMult
                | Part::ThreeNegs
                | Part::TwoNegs
                | Part::OneNeg
                | Part::ThreeDashes
                | Part::TwoDashes
                | Part::OneDash
                | Part::VariableMarks
                | Part::Accesses
                | Part::Call
                | Part::Exprs
                | Part::MoreExprs
                | Part::Inits
                | Part::MoreInits
        )
    }
}

// The turn that takes a token after which brackets or an `if` are nested.
fn nested(has_room: bool, parts: &'static [Part]) -> Turn
    ensures { step_of result ≡ (if has_room then taken parts.now else stopped) }
{
    if has_room { Takes(parts) } else { Stops }
}

// Whether a kind is the one that is wanted.
fn is(wanted: Kind, kind: Kind) -> bool
    ensures { result ≡ is wanted kind }
{
    wanted == kind
}

fn is_boolean(kind: Kind) -> bool
    ensures { result ≡ is_boolean kind }
{
    matches!(kind, Kind::True | Kind::False)
}
