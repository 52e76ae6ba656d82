//! The leading lines of a token, one after the other.
ghost use Rattle.std.specs.Prelude.{◌≡◌, ◌<◌, ◌∷◌, ◌++◌, ℕ, List, length, map};
ghost use Rattle.std.specs.Borrow.{Bor};
ghost use Rattle.std.specs.Iterator.{YieldsFirstRef, item_count};
ghost use Rattle.cedar_tokens.specs.Listing.{comments};
ghost use Rattle.cedar_reading.specs.Lines.{comments_of, given_lines, lines_left};

use cedar_tokens::token::{Comments, get_comment};

/// The leading lines of a token that are still to come.
#[derive(Drop)]
pub struct Lines<'t, 'src> {
    source: Source<'t, 'src>,
}

// Where they come from.
#[derive(Drop)]
enum Source<'t, 'src> {
    Texts(Texts<'src>),
    Given(Given<'t, 'src>),
}

// These lines.
#[derive(Drop)]
struct Given<'t, 'src> {
    lines: &'t [&'src str],
}

// The comments of three texts, one after the other.
#[derive(Drop)]
struct Texts<'src> {
    first: Comments<'src>,
    second: Comments<'src>,
    last: Comments<'src>,
}

impl<'t, 'src> Lines<'t, 'src> {
    // The comments of three texts, one after the other.
    pub(crate) fn of_texts(first: &'src str, second: &'src str, last: &'src str) -> Lines<'t, 'src>
        ensures { lines_left result ≡ comments first.now ++ (comments second.now ++ comments last.now) }
    {
        Lines {
            source: Source::Texts(Texts {
                first: get_comment(first),
                second: get_comment(second),
                last: get_comment(last),
            }),
        }
    }

    // These lines.
    pub(crate) fn given(lines: &'t [&'src str]) -> Lines<'t, 'src>
        ensures { lines_left result ≡ map (λ l. l.now) lines.now }
    {
        Lines {
            source: Source::Given(Given { lines }),
        }
    }
}

impl<'src> Iterator for Lines<'_, 'src> {
    type Item = &'src str;

    ghost next_gives = { YieldsFirstRef lines_left };

    ghost remaining = { item_count lines_left };

    fn next(&mut self) -> Option<&'src str> {
        match &mut self.source {
            Source::Texts(texts) => texts.next(),
            Source::Given(given) => given.next(),
        }
    }
}

impl<'src> Iterator for Texts<'src> {
    type Item = &'src str;

    ghost next_gives = { YieldsFirstRef comments_of };

    ghost remaining = { item_count comments_of };

    fn next(&mut self) -> Option<&'src str> {
        if let Some(line) = self.first.next() {
            return Some(line);
        }
        if let Some(line) = self.second.next() {
            return Some(line);
        }
        self.last.next()
    }
}

impl<'src> Iterator for Given<'_, 'src> {
    type Item = &'src str;

    ghost next_gives = { YieldsFirstRef given_lines };

    ghost remaining = { item_count given_lines };

    fn next(&mut self) -> Option<&'src str> {
        let (line, _) = self.lines.split_first()?;
        self.lines = after_first(self.lines);
        Some(line)
    }
}

// The lines after the first.
fn after_first<'t, 'src>(lines: &'t [&'src str]) -> &'t [&'src str]
    requires { 0 < length lines.now }
    ensures { (first : Bor (List ℕ)) × (lines.now ≡ first ∷ result.now) }
{
    &lines[1..]
}
