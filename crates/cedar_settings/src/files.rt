//! Files `.editorconfig`.
ghost use Rattle.std.specs.Prelude.{◌≡◌, IfOk, string_bytes};
ghost use Rattle.cedar_settings.specs.Settings.{folder_of};

use crate::globs::{Glob, GlobError};
use crate::lines::{Entry, Fault, Line, key_of, read_line};
use std::alloc::{AllocError, Global};

const BYTE_ORDER_MARK: char = '\u{feff}';

/// A file `.editorconfig`.
#[derive(Drop)]
pub struct ConfigFile {
    /// The folder that it is in, without a slash at the end.
    pub folder: String,
    /// Whether the files of the folders above don't count.
    pub is_root: bool,
    /// Its sections, in order.
    pub sections: Vec<Section>,
    /// The lines that can't be used and are in no section, and the sections whose globs can't: each with its number, from 1, or
    /// 0 for the file.
    pub faults: Vec<(usize, Fault)>,
    // What the file holds.
    text: String,
}

/// A section of a file.
#[derive(Drop)]
pub struct Section {
    /// The files that it is for.
    pub glob: Glob,
    /// Its settings, in order.
    pub entries: Vec<Entry>,
}

impl ConfigFile {
    /// The file of a folder that has none. The folder is given without a slash at the end. The only error is out of memory.
    pub fn missing(alloc: Global, folder: &str) -> Result<ConfigFile, AllocError>
        ensures { IfOk result (λ file. folder_of file ≡ folder.now) }
    {
        Ok(ConfigFile {
            folder: String::from_str(alloc, folder)?,
            is_root: false,
            sections: Vec::new(alloc),
            faults: Vec::new(alloc),
            text: String::new(alloc),
        })
    }

    /// A file that isn't UTF-8, which is as none. The only error is out of memory.
    pub fn not_utf8(alloc: Global, folder: &str) -> Result<ConfigFile, AllocError>
        ensures { IfOk result (λ file. folder_of file ≡ folder.now) }
    {
        let mut file = ConfigFile::missing(alloc, folder)?;
        file.faults.push((0, Fault::NotUtf8))?;
        Ok(file)
    }

    /// Reads the text of a file in this folder, which is given without a slash at the end. The only error is out of memory.
    pub fn new(alloc: Global, folder: &str, text: &str) -> Result<ConfigFile, AllocError>
        ensures { IfOk result (λ file. folder_of file ≡ folder.now) }
    {
        let text = text.strip_prefix(BYTE_ORDER_MARK).unwrap_or(text);
        let mut file = ConfigFile::missing(alloc, folder)?;
        file.text = String::from_str(alloc, text)?;
        let mut state = State::Preamble;
        for (n, line) in text.lines().enumerate() {
            state = file.take(alloc, state, n.saturating_add(1), read_line(line))?;
        }
        Ok(file)
    }

    // Takes the line with this number.
    fn take(
        &mut self,
        alloc: Global,
        state: State,
        number: usize,
        line: Line<'_>,
    ) -> Result<State, AllocError>
        ensures { folder_of self.new ≡ folder_of self.old }
    {
        match line {
            Line::Blank => Ok(state),
            Line::Other => {
                self.faults.push((number, Fault::NoSetting))?;
                Ok(state)
            }
            Line::Section(glob) => match Glob::new(alloc, glob) {
                Ok(glob) => {
                    let entries = Vec::new(alloc);
                    self.sections.push(Section { glob, entries })?;
                    Ok(State::Section)
                }
                Err(GlobError::TooLarge) => {
                    self.faults.push((number, Fault::TooLarge))?;
                    Ok(State::Skipped)
                }
                Err(GlobError::OutOfMemory) => Err(AllocError),
            },
            Line::Pair { key, value } => {
                self.set(state, number, key, value)?;
                Ok(state)
            }
        }
    }

    // Takes a setting, where it counts.
    fn set(&mut self, state: State, line: usize, name: &str, value: &str) -> Result<(), AllocError>
        ensures { folder_of self.new ≡ folder_of self.old }
    {
        match state {
            State::Preamble => {
                if name.eq_ignore_ascii_case("root") {
                    self.is_root = value.eq_ignore_ascii_case("true");
                }
            }
            State::Section => {
                if let (Some(key), Some(section)) = (key_of(name), self.sections.last_mut()) {
                    let value = key.read(value);
                    section.entries.push(Entry { key, value, line })?;
                }
            }
            State::Skipped => {}
        }
        Ok(())
    }

    /// What a fault is, in words, on a line of this file. The only error is out of memory.
    pub fn explain(&self, alloc: Global, line: usize, fault: Fault) -> Result<String, AllocError> {
        let text = match line.checked_sub(1) {
            Some(before) => self.text.as_str().lines().nth(before).unwrap_or(""),
            None => "",
        };
        let (name, value) = match read_line(text) {
            Line::Pair { key, value } => (key, value),
            _ => ("", ""),
        };
        let least = match key_of(name) {
            Some(key) => key.least(),
            None => 0,
        };
        match fault {
            Fault::NotUtf8 => String::from_str(alloc, "not UTF-8, so it is ignored"),
            Fault::NoSetting => String::from_str(alloc, "no section, setting or comment"),
            Fault::TooLarge => String::from_str(alloc, "this pattern is too large"),
            Fault::NoNumber => format!(in alloc; "{name} is no number: {value}"),
            Fault::OutOfRange => {
                format!(in alloc; "{name} is not from {least} to 65535: {value}")
            }
        }
    }
}

// Where a line is.
#[derive(Clone, Copy)]
enum State {
    // Before all sections.
    Preamble,
    // In the last section.
    Section,
    // In a section whose glob can't be used.
    Skipped,
}
