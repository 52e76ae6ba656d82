//! Globs, as `.editorconfig` has them.
ghost use Rattle.std.specs.Prelude.{◌≡◌, ◌<◌, IfOk, IsErrOf, length};
ghost use Rattle.cedar_settings.specs.Settings.{matches};

use crate::translation::regex_of;
use regex::{Regex, RegexBuilder};
use std::alloc::{AllocError, Global};

// The most bytes of a glob.
const LONGEST: usize = 4096;

/// Which paths of files are meant.
///
/// `*` stands for any characters but `/`, `**` for any characters, `?` for one that isn't `/`, `[abc]` for one of these and
/// `[!abc]` for any other one, `[a-z]` for one in this range, `{a,b}` for one of these texts, which may have braces again, and
/// `{1..9}` for a whole number in this range. A backslash makes the next character stand for itself. A glob without `/` matches
/// a name in any folder; any other one matches a path from the glob's own folder on.
#[derive(Drop)]
pub struct Glob {
    regex: Regex,
}

/// Why a glob isn't read.
#[derive(Clone, Copy)]
pub enum GlobError {
    /// It has more than 4096 bytes, or what it is translated to takes too much memory.
    TooLarge,
    /// There is no memory for it.
    OutOfMemory,
}

impl From<AllocError> for GlobError {
    ghost use Rattle.cedar_settings.specs.declared.globs.GlobError.TheVariants.{OutOfMemory};

    ghost from_gives = { λ _ error. error ≡ OutOfMemory };

    fn from(_: AllocError) -> GlobError {
        GlobError::OutOfMemory
    }
}

impl Glob {
    /// Reads a glob. Every text that isn't too large is one.
    pub fn new(alloc: Global, glob: &str) -> Result<Glob, GlobError>
        ensures { 4096 < length glob.now → IsErrOf result GlobError.TooLarge }
    {
        if glob.len() > LONGEST {
            return Err(GlobError::TooLarge);
        }
        let source = regex_of(alloc, glob)?;
        let builder = RegexBuilder::new(source.as_str()).dot_matches_new_line(true);
        match builder.build(alloc) {
            Ok(regex) => Ok(Glob { regex }),
            Err(regex::Error::OutOfMemory) => Err(GlobError::OutOfMemory),
            Err(_) => Err(GlobError::TooLarge),
        }
    }

    /// Whether the glob matches a path. It begins with a slash, for the glob's folder. The only error is out of memory.
    pub fn matches(&self, alloc: Global, path: &str) -> Result<bool, AllocError>
        ensures { IfOk result (λ found. found ≡ matches self.now path.now) }
    {
        let mut matcher = self.regex.matcher(alloc)?;
        Ok(matcher.is_match(path))
    }
}
