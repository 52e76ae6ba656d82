//! The kinds of tokens, and sets of words.
ghost use Rattle.std.specs.Prelude.{◌≡◌, length, [], ◌∷◌, IfSome, IfNone};
ghost use Rattle.cedar_tokens.specs.Kinds.{is_any_word, is_ident, is_variable, is_effect, is_cond_word, is_comparison, is_opening, is_closing, is_closed_by, set_of};
ghost use Rattle.cedar_tokens.specs.TokenKinds.{kind_of, other_kind};
ghost use Rattle.cedar_tokens.specs.Inside.Scanners.{IsNotFixed, HasMoreBytes};

/// What kind a token is.
#[derive(Clone, Copy, Debug, PartialEq, Eq)]
pub enum Kind {
    True,
    False,
    If,
    Then,
    Else,
    In,
    Is,
    Like,
    Has,
    Permit,
    Forbid,
    When,
    Unless,
    Principal,
    Action,
    Resource,
    Context,
    Identifier,
    PrincipalSlot,
    ResourceSlot,
    Number,
    Str,
    At,
    Dot,
    Comma,
    SemiColon,
    Colon,
    DoubleColon,
    LParen,
    RParen,
    LBrace,
    RBrace,
    LBracket,
    RBracket,
    Equal,
    NotEqual,
    Lt,
    Le,
    Gt,
    Ge,
    Or,
    And,
    Add,
    Dash,
    Mul,
    Div,
    Modulo,
    Neg,
}

/// Words that may stand at a place.
#[derive(Clone, Copy)]
pub enum Words {
    /// Words that can name something: all but `true false if then else in is like has`.
    Identifier,
    /// All words.
    Any,
    /// `permit` and `forbid`.
    Effect,
    /// `when` and `unless`.
    Condition,
}

impl Kind {
    /// Whether this is the kind of a word.
    pub fn is_word(self) -> bool
        ensures { result ≡ is_any_word self }
    {
        self.is_identifier()
            || matches!(
                self,
                Kind::True
                    | Kind::False
                    | Kind::If
                    | Kind::Then
                    | Kind::Else
                    | Kind::In
                    | Kind::Is
                    | Kind::Like
                    | Kind::Has
            )
    }

    /// Whether this is the kind of a word that can name something: of every word but `true false if then else in is like has`.
    pub fn is_identifier(self) -> bool
        ensures { result ≡ is_ident self }
    {
        self.is_variable()
            || self.is_effect()
            || self.is_cond_word()
            || matches!(self, Kind::Identifier)
    }

    /// Whether this is the kind of one of the four variables.
    pub fn is_variable(self) -> bool
        ensures { result ≡ is_variable self }
    {
        matches!(
            self,
            Kind::Principal | Kind::Action | Kind::Resource | Kind::Context
        )
    }

    /// Whether this is the kind of `permit` or `forbid`.
    pub fn is_effect(self) -> bool
        ensures { result ≡ is_effect self }
    {
        matches!(self, Kind::Permit | Kind::Forbid)
    }

    /// Whether this is the kind of `when` or `unless`.
    pub fn is_cond_word(self) -> bool
        ensures { result ≡ is_cond_word self }
    {
        matches!(self, Kind::When | Kind::Unless)
    }

    /// Whether this is the kind of a comparison: of `<`, `<=`, `>`, `>=`, `!=`, `==` or `in`.
    pub fn is_comparison(self) -> bool
        ensures { result ≡ is_comparison self }
    {
        matches!(
            self,
            Kind::Lt | Kind::Le | Kind::Gt | Kind::Ge | Kind::NotEqual | Kind::Equal | Kind::In
        )
    }

    /// Whether this is the kind of an opening bracket.
    pub fn is_opening(self) -> bool
        ensures { result ≡ is_opening self }
    {
        matches!(self, Kind::LParen | Kind::LBracket | Kind::LBrace)
    }

    /// Whether this is the kind of a closing bracket.
    pub fn is_closing(self) -> bool
        ensures { result ≡ is_closing self }
    {
        matches!(self, Kind::RParen | Kind::RBracket | Kind::RBrace)
    }

    /// Whether this is the kind of an opening bracket, and `kind` that of the bracket that closes it.
    pub fn is_closed_by(self, kind: Kind) -> bool
        ensures { result ≡ is_closed_by self kind }
    {
        match self {
            Kind::LParen => matches!(kind, Kind::RParen),
            Kind::LBracket => matches!(kind, Kind::RBracket),
            Kind::LBrace => matches!(kind, Kind::RBrace),
            _ => false,
        }
    }

    /// Whether this is the kind of one of these words.
    pub fn is_one_of(self, words: Words) -> bool
        ensures { result ≡ set_of words self }
    {
        match words {
            Words::Identifier => self.is_identifier(),
            Words::Any => self.is_word(),
            Words::Effect => self.is_effect(),
            Words::Condition => self.is_cond_word(),
        }
    }
}

/// The kind of the token whose source text is `text`.
pub fn kind_of(text: &str) -> Kind
    ensures { result ≡ kind_of text.now }
{
    match fixed_kind(text) {
        Some(kind) => kind,
        None => kind_by_first_byte(text),
    }
}

// The kind of the keyword, slot or punctuator whose source text is `text`. Its length is looked at first.
#[tactic(auto, unfolding(crate::specs::Units::keywords, crate::specs::Units::slots, crate::specs::Units::punctuators))]
fn fixed_kind(text: &str) -> Option<Kind>
    ensures fixed { IfSome result (λ k. k ≡ kind_of text.now) }
    ensures other { IfNone result (IsNotFixed text.now) }
{
    match text.as_bytes() {
        [byte] => kind_of_byte(*byte),
        [first, second] => kind_of_two_bytes(*first, *second),
        [_, _, _, _] => kind_of_four_bytes(text),
        [_, _, _, _, _, _] => kind_of_six_bytes(text),
        [_, _, _] => kind_of_more_bytes(text),
        [_, _, _, _, _] => kind_of_more_bytes(text),
        [_, _, _, _, _, _, _, ..] => kind_of_more_bytes(text),
        [] => None,
    }
}

#[tactic(auto, unfolding(crate::specs::Units::keywords, crate::specs::Units::slots, crate::specs::Units::punctuators))]
fn kind_of_byte(byte: u8) -> Option<Kind>
    ensures fixed { IfSome result (λ k. k ≡ kind_of (byte ∷ [])) }
    ensures other { IfNone result (IsNotFixed (byte ∷ [])) }
{
    match byte {
        b'@' => Some(Kind::At),
        b'.' => Some(Kind::Dot),
        b',' => Some(Kind::Comma),
        b';' => Some(Kind::SemiColon),
        b':' => Some(Kind::Colon),
        b'(' => Some(Kind::LParen),
        b')' => Some(Kind::RParen),
        b'{' => Some(Kind::LBrace),
        b'}' => Some(Kind::RBrace),
        b'[' => Some(Kind::LBracket),
        b']' => Some(Kind::RBracket),
        b'<' => Some(Kind::Lt),
        b'>' => Some(Kind::Gt),
        b'+' => Some(Kind::Add),
        b'-' => Some(Kind::Dash),
        b'*' => Some(Kind::Mul),
        b'/' => Some(Kind::Div),
        b'%' => Some(Kind::Modulo),
        b'!' => Some(Kind::Neg),
        _ => None,
    }
}

#[tactic(auto, unfolding(crate::specs::Units::keywords, crate::specs::Units::slots, crate::specs::Units::punctuators))]
fn kind_of_two_bytes(first: u8, second: u8) -> Option<Kind>
    ensures fixed { IfSome result (λ k. k ≡ kind_of (first ∷ second ∷ [])) }
    ensures other { IfNone result (IsNotFixed (first ∷ second ∷ [])) }
{
    match (first, second) {
        (b'i', b'f') => Some(Kind::If),
        (b'i', b'n') => Some(Kind::In),
        (b'i', b's') => Some(Kind::Is),
        (b':', b':') => Some(Kind::DoubleColon),
        (b'=', b'=') => Some(Kind::Equal),
        (b'!', b'=') => Some(Kind::NotEqual),
        (b'<', b'=') => Some(Kind::Le),
        (b'>', b'=') => Some(Kind::Ge),
        (b'|', b'|') => Some(Kind::Or),
        (b'&', b'&') => Some(Kind::And),
        _ => None,
    }
}

fn kind_of_four_bytes(text: &str) -> Option<Kind>
    requires { length text.now ≡ 4 }
    ensures fixed { IfSome result (λ k. k ≡ kind_of text.now) }
    ensures other { IfNone result (IsNotFixed text.now) }
{
    match text {
        "when" => Some(Kind::When),
        "true" => Some(Kind::True),
        "then" => Some(Kind::Then),
        "like" => Some(Kind::Like),
        "else" => Some(Kind::Else),
        _ => None,
    }
}

fn kind_of_six_bytes(text: &str) -> Option<Kind>
    requires { length text.now ≡ 6 }
    ensures fixed { IfSome result (λ k. k ≡ kind_of text.now) }
    ensures other { IfNone result (IsNotFixed text.now) }
{
    match text {
        "action" => Some(Kind::Action),
        "permit" => Some(Kind::Permit),
        "forbid" => Some(Kind::Forbid),
        "unless" => Some(Kind::Unless),
        _ => None,
    }
}

// Of three, five, or seven bytes or more.
fn kind_of_more_bytes(text: &str) -> Option<Kind>
    requires { HasMoreBytes text.now }
    ensures fixed { IfSome result (λ k. k ≡ kind_of text.now) }
    ensures other { IfNone result (IsNotFixed text.now) }
{
    match text {
        "principal" => Some(Kind::Principal),
        "resource" => Some(Kind::Resource),
        "context" => Some(Kind::Context),
        "has" => Some(Kind::Has),
        "false" => Some(Kind::False),
        "?principal" => Some(Kind::PrincipalSlot),
        "?resource" => Some(Kind::ResourceSlot),
        _ => None,
    }
}

// The kind of a string, a number or an identifier.
fn kind_by_first_byte(text: &str) -> Kind
    ensures { result ≡ other_kind text.now }
{
    match text.as_bytes().first() {
        Some(b'"') => Kind::Str,
        Some(b'0'..=b'9') => Kind::Number,
        _ => Kind::Identifier,
    }
}
