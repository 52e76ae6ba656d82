//! Tokens between their comments, as slices of a text.
ghost use Rattle.std.specs.Prelude.{◌≡◌, ◌++◌, map};
ghost use Rattle.cedar_tokens.specs.TokenKinds.{kind_of};
ghost use Rattle.cedar_tokens.specs.Listing.{comments, token_value};
ghost use Rattle.cedar_grammar.specs.Laws.{kind_of_decorated};
ghost use Rattle.cedar_reading.specs.Lines.{lines_left};

use crate::lexeme::is_number;
use crate::lines::Lines;
use crate::literals::without_zeros;
use cedar_tokens::kind::Kind;
use std::marker::Model;

/// A token between its comments. Holds slices alone, so it allocates nothing.
#[derive(Drop)]
pub struct Token<'t, 'src> {
    kind: Kind,
    text: &'src str,
    leading: Leading<'t, 'src>,
    trailing: &'src str,
}

// Where the leading lines of a token are.
#[derive(Drop)]
enum Leading<'t, 'src> {
    // The comments of its own text, and before them of the texts around a trailing comma that stood before the token and
    // left its comments to it.
    Texts {
        comma_leading: &'src str,
        comma_trailing: &'src str,
        own: &'src str,
    },
    // These are they.
    Given(&'t [&'src str]),
}

impl<'t, 'src> Model for Token<'t, 'src> {
    ghost use Rattle.std.specs.Prelude.{◌≡◌};
    ghost use Rattle.cedar_tokens.specs.Listing.{Decorated};
    ghost use Rattle.cedar_tokens.specs.TokenKinds.{kind_of};
    ghost use Rattle.cedar_reading.specs.Inside.Leadings.{lines_of};

    ghost Value = { Decorated };

    ghost view = { λ t. record { text = t.text.now; leading = lines_of t.leading; trailing = t.trailing.now } };

    ghost invariant = { λ t. t.kind ≡ kind_of t.text.now };
}

impl<'t, 'src> Token<'t, 'src> {
    /// The token with this source text, the comments of the text `leading`, and the trailing text `trailing`. `kind` is the
    /// kind of its text.
    pub fn new(
        kind: Kind,
        text: &'src str,
        leading: &'src str,
        trailing: &'src str,
    ) -> Token<'t, 'src>
        requires { kind ≡ kind_of text.now }
        ensures { result ≡ record { text = text.now; leading = comments leading.now; trailing = trailing.now } }
    {
        Token::after_comma(kind, text, "", "", leading, trailing)
    }

    // The token with the comments of two more texts, those around a trailing comma, before its own.
    pub(crate) fn after_comma(
        kind: Kind,
        text: &'src str,
        comma_leading: &'src str,
        comma_trailing: &'src str,
        leading: &'src str,
        trailing: &'src str,
    ) -> Token<'t, 'src>
        requires { kind ≡ kind_of text.now }
        ensures { result ≡ record { text = text.now; leading = comments comma_leading.now ++ (comments comma_trailing.now ++ comments leading.now); trailing = trailing.now } }
    {
        Token {
            kind,
            text,
            leading: Leading::Texts {
                comma_leading,
                comma_trailing,
                own: leading,
            },
            trailing,
        }
    }

    /// The token with this source text, these leading lines and this trailing text. `kind` is the kind of its text.
    pub fn with_lines(
        kind: Kind,
        text: &'src str,
        lines: &'t [&'src str],
        trailing: &'src str,
    ) -> Token<'t, 'src>
        requires { kind ≡ kind_of text.now }
        ensures { result ≡ record { text = text.now; leading = map (λ l. l.now) lines.now; trailing = trailing.now } }
    {
        Token {
            kind,
            text,
            leading: Leading::Given(lines),
            trailing,
        }
    }

    /// The kind of its text.
    pub fn kind(&self) -> Kind
        ensures { result ≡ kind_of_decorated self.now }
    {
        self.kind
    }

    /// Its source text.
    pub fn text(&self) -> &'src str
        ensures { result.now ≡ self.now.text }
    {
        self.text
    }

    /// Its leading lines.
    pub fn lines(&self) -> Lines<'t, 'src>
        ensures { lines_left result ≡ self.now.leading }
    {
        match self.leading {
            Leading::Texts {
                comma_leading,
                comma_trailing,
                own,
            } => Lines::of_texts(comma_leading, comma_trailing, own),
            Leading::Given(lines) => Lines::given(lines),
        }
    }

    /// Its trailing text.
    pub fn trailing(&self) -> &'src str
        ensures { result.now ≡ self.now.trailing }
    {
        self.trailing
    }

    // Puts this trailing text in place of its own.
    pub(crate) fn set_trailing(&mut self, trailing: &'src str)
        ensures { self.new ≡ record { text = self.old.text; leading = self.old.leading; trailing = trailing.now } }
    {
        self.trailing = trailing;
    }
}

/// A token by value: a number without its leading zeros, any other unchanged.
pub fn value(text: &str) -> &str
    ensures { result.now ≡ token_value text.now }
{
    if is_number(text) {
        without_zeros(text)
    } else {
        text
    }
}
