//! Which files and folders are left alone.
ghost use Rattle.std.specs.Prelude.{◌≡◌, ◌↔◌, IfOk, IsTrue, false, map};
ghost use Rattle.cedar_files.specs.Excludes.{AsksTheSame, IsMeant, IsMeantFrom, LeavesAbove, LeavesAlone, LeavesNamed, Meets, absolutes, begins_with_slash, unmet_words, working_folder};

use cedar_settings::{Glob, GlobError};
use std::alloc::{AllocError, Global};

/// The files and folders that are left alone.
#[derive(Drop)]
pub struct Excludes<'a> {
    rules: Vec<Rule<'a>>,
    // The absolute path of the working folder.
    folder: &'a str,
}

// A word of the command line.
#[derive(Drop)]
struct Rule<'a> {
    word: &'a str,
    glob: Glob,
    is_absolute: bool,
    is_met: bool,
}

impl<'a> Excludes<'a> {
    /// What these words leave alone. The working folder is given by its absolute path, without a slash at the end.
    pub fn new(alloc: Global, words: &[&'a str], folder: &'a str) -> Result<Excludes<'a>, GlobError>
        ensures folder { IfOk result (λ excludes. working_folder excludes ≡ folder.now) }
        ensures unmet { IfOk result (λ excludes. unmet_words excludes ≡ map (λ x. x.now) words.now) }
        ensures absolute { IfOk result (λ excludes. absolutes excludes ≡ map (λ x. begins_with_slash x.now) words.now) }
    {
        let mut rules = Vec::new(alloc);
        for word in words {
            let rule = Rule::new(alloc, word)?;
            if rules.push(rule).is_err() {
                return Err(GlobError::OutOfMemory);
            }
        }
        Ok(Excludes { rules, folder })
    }

    /// Whether a path that was met below a folder is left alone. Both are absolute.
    pub fn leaves(&mut self, alloc: Global, path: &str, below: &str) -> Result<bool, AllocError>
        ensures left { IfOk result (λ is_left. IsTrue is_left ↔ LeavesAlone self.old path.now below.now) }
        ensures same { AsksTheSame self.old self.new }
        ensures met { IfOk result (λ _. Meets self.old path.now below.now self.new) }
    {
        let mut is_left = false;
        for rule in self.rules.iter_mut() {
            if rule.matches(alloc, path, below, self.folder)? {
                rule.is_met = true;
                is_left = true;
            }
        }
        Ok(is_left)
    }

    /// Whether an absolute path, or a folder that it is in, is left alone.
    pub fn leaves_named(&mut self, alloc: Global, path: &str) -> Result<bool, AllocError>
        ensures left { IfOk result (λ is_left. IsTrue is_left ↔ LeavesNamed self.old path.now) }
        ensures same { AsksTheSame self.old self.new }
    {
        for at in 0..path.len() {
            if self.leaves_above(alloc, path, at)? {
                return Ok(true);
            }
        }
        let folder = self.folder;
        self.leaves(alloc, path, folder)
    }

    // Whether a folder's path ends at this byte of a path, and is left alone.
    fn leaves_above(&mut self, alloc: Global, path: &str, at: usize) -> Result<bool, AllocError>
        ensures left { IfOk result (λ is_left. IsTrue is_left ↔ LeavesAbove self.old path.now at) }
        ensures same { AsksTheSame self.old self.new }
    {
        let Some((above, rest)) = path.split_at_checked(at) else {
            return Ok(false);
        };
        if !rest.starts_with('/') {
            return Ok(false);
        }
        let folder = self.folder;
        self.leaves(alloc, above, folder)
    }

    /// The words that nothing was met for.
    pub fn unmet(&self, alloc: Global) -> Result<Vec<&'a str>, AllocError>
        ensures { IfOk result (λ words. map (λ x. x.now) words.items ≡ unmet_words self.now) }
    {
        let mut words = Vec::new(alloc);
        for rule in &self.rules {
            if !rule.is_met {
                words.push(rule.word)?;
            }
        }
        Ok(words)
    }
}

impl<'a> Rule<'a> {
    fn new(alloc: Global, word: &'a str) -> Result<Rule<'a>, GlobError>
        ensures word { IfOk result (λ rule. rule.word.now ≡ word.now) }
        ensures unmet { IfOk result (λ rule. rule.is_met ≡ false) }
        ensures absolute { IfOk result (λ rule. rule.is_absolute ≡ begins_with_slash word.now) }
    {
        let glob = word.trim_start_matches("./").trim_end_matches('/');
        Ok(Rule {
            word,
            glob: Glob::new(alloc, glob)?,
            is_absolute: word.starts_with('/'),
            is_met: false,
        })
    }

    // Whether the rule is for a path, as it is seen from one of these folders.
    fn matches(
        &self,
        alloc: Global,
        path: &str,
        below: &str,
        folder: &str,
    ) -> Result<bool, AllocError>
        ensures { IfOk result (λ found. IsTrue found ↔ IsMeant self.now.glob self.now.is_absolute path.now below.now folder.now) }
    {
        if self.is_absolute {
            return self.glob.matches(alloc, path);
        }
        if self.matches_from(alloc, path, below)? {
            return Ok(true);
        }
        self.matches_from(alloc, path, folder)
    }

    // Whether the glob matches a path, as it is seen from a folder.
    fn matches_from(&self, alloc: Global, path: &str, folder: &str) -> Result<bool, AllocError>
        ensures { IfOk result (λ found. IsTrue found ↔ IsMeantFrom self.now.glob path.now folder.now) }
    {
        match path.strip_prefix(folder) {
            Some(rest) if rest.starts_with('/') => self.glob.matches(alloc, rest),
            _ => Ok(false),
        }
    }
}
