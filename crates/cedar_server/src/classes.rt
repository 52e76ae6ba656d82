//! The class of a token, from its kind and its neighbours.
ghost use Rattle.std.specs.Prelude.{◌≡◌};
ghost use Rattle.cedar_server.specs.Classes.{is_there, own_class, name_class, class_of};

use cedar_tokens::kind::Kind;

/// What a token or a comment is to a reader.
#[derive(Clone, Copy)]
pub enum Class {
    Comment,
    /// `@`, and the word after it.
    Annotation,
    Keyword,
    /// `principal`, `action`, `resource` or `context`.
    Variable,
    /// `?principal` or `?resource`.
    Slot,
    /// The last word of the path of an entity, or of a path after `is`.
    EntityType,
    /// A word of a path before the last.
    Namespace,
    Function,
    Method,
    /// A word after `.` or `has`, or the key of a record.
    Attribute,
    /// An identifier that is none of these.
    Name,
    String,
    Number,
    Operator,
    /// Brackets, `,` `;` `.` `:` and `::`.
    Punctuation,
}

/// The kinds of the tokens around a token.
#[derive(Clone, Copy)]
pub struct Neighbours {
    /// The kind of the token before it.
    pub before: Option<Kind>,
    /// The kind of the token after it.
    pub next: Option<Kind>,
    /// The kind of the token after that.
    pub second: Option<Kind>,
}

/// The class of a token of this kind between these neighbours.
pub fn class_of(around: Neighbours, kind: Kind) -> Class
    ensures { result ≡ class_of around kind }
{
    if kind.is_word() && is_there(around.before, Kind::At) {
        Class::Annotation
    } else if kind.is_identifier() {
        name_class(around, kind)
    } else {
        own_class(kind)
    }
}

// The class of a word that can name something.
fn name_class(around: Neighbours, kind: Kind) -> Class
    ensures { result ≡ name_class around kind }
{
    let is_called = is_there(around.next, Kind::LParen);
    if is_there(around.before, Kind::Dot) {
        return if is_called {
            Class::Method
        } else {
            Class::Attribute
        };
    }
    if is_there(around.before, Kind::Has) || is_there(around.next, Kind::Colon) {
        return Class::Attribute;
    }
    if is_there(around.next, Kind::DoubleColon) {
        return if is_there(around.second, Kind::Str) {
            Class::EntityType
        } else {
            Class::Namespace
        };
    }
    if is_there(around.before, Kind::DoubleColon) || is_there(around.before, Kind::Is) {
        return if is_called {
            Class::Function
        } else {
            Class::EntityType
        };
    }
    if Kind::Identifier == kind && is_called {
        Class::Function
    } else {
        own_class(kind)
    }
}

// The class of a token whose kind says it alone.
fn own_class(kind: Kind) -> Class
    ensures { result ≡ own_class kind }
{
    match kind {
        Kind::Str => Class::String,
        Kind::Number => Class::Number,
        Kind::PrincipalSlot | Kind::ResourceSlot => Class::Slot,
        Kind::Principal | Kind::Action | Kind::Resource | Kind::Context => Class::Variable,
        Kind::Identifier => Class::Name,
        Kind::Equal | Kind::NotEqual | Kind::Lt | Kind::Le | Kind::Gt | Kind::Ge => {
            Class::Operator
        }
        Kind::Or | Kind::And | Kind::Add | Kind::Dash | Kind::Mul | Kind::Div => Class::Operator,
        Kind::Modulo | Kind::Neg => Class::Operator,
        Kind::Dot | Kind::Comma | Kind::SemiColon | Kind::Colon | Kind::DoubleColon => {
            Class::Punctuation
        }
        Kind::LParen | Kind::RParen | Kind::LBrace | Kind::RBrace => Class::Punctuation,
        Kind::LBracket | Kind::RBracket => Class::Punctuation,
        Kind::At => Class::Annotation,
        Kind::True | Kind::False | Kind::If | Kind::Then | Kind::Else => Class::Keyword,
        Kind::In | Kind::Is | Kind::Like | Kind::Has => Class::Keyword,
        Kind::Permit | Kind::Forbid | Kind::When | Kind::Unless => Class::Keyword,
    }
}

// Whether a token is there, of this kind.
fn is_there(token: Option<Kind>, kind: Kind) -> bool
    ensures { result ≡ is_there token kind }
{
    match token {
        Some(found) => kind == found,
        None => false,
    }
}
