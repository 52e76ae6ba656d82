//! Which kinds of tokens an expression can begin with.
ghost use Rattle.std.specs.Prelude.{◌≡◌};
ghost use Rattle.cedar_grammar.specs.Reader.Rules.{expr_first};

use cedar_tokens::kind::Kind;

/// Whether an expression can begin with a token of this kind.
pub fn begins_expression(kind: Kind) -> bool
    ensures { result ≡ expr_first kind }
{
    kind.is_identifier()
        || matches!(
            kind,
            Kind::If
                | Kind::Neg
                | Kind::Dash
                | Kind::True
                | Kind::False
                | Kind::Number
                | Kind::Str
                | Kind::LParen
                | Kind::LBracket
                | Kind::LBrace
        )
}
