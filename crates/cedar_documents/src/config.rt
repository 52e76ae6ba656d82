//! How policies are laid out, and what their documents are made from.
ghost use Rattle.std.specs.Prelude.{◌≡◌, pos};

use cedar_tokens::token::WrappedToken;

/// The width of a line and the indentation of a level, in columns. Every value of these types is accepted: a negative
/// indentation moves to the left, and stops at the margin.
#[derive(Clone, Debug, Drop)]
pub struct Config {
    pub line_width: usize,
    pub indent_width: isize,
}

impl Default for Config {
    ghost is_default = { λ c. (c.line_width ≡ 80) × (c.indent_width ≡ pos 2) };

    /// 80 columns per line, and 2 per level.
    fn default() -> Config {
        Config {
            line_width: 80,
            indent_width: 2,
        }
    }
}

/// The configuration, and the tokens of a text with the comments that no document has taken yet.
#[derive(Debug, Drop)]
pub struct Context<'a, 'src> {
    pub config: &'a Config,
    pub tokens: Vec<WrappedToken<'src>>,
}
