//! The words of the command line, which need not be UTF-8.
ghost use Rattle.std.specs.Prelude.{◌≡◌, ◌↔◌, IsTrue, OnOk, map, option_map, string_bytes};
ghost use Rattle.cedar_files.specs.Words.{AddsWord, IsText, StandsFor, first_odd_option, odd_bytes, texts_of};

use crate::names::ShownBytes;
use std::alloc::{AllocError, Global};
use std::collections::BTreeMap;
use std::env::{Env, FillError};
use std::io;
use std::io::ErrorKind;

/// A word of the command line.
#[derive(Clone, Copy)]
pub enum Word<'a> {
    Text(&'a str),
    /// One that isn't UTF-8.
    Bytes(&'a [u8]),
}

impl Word<'_> {
    /// Whether it is this text.
    pub fn is(self, text: &str) -> bool
        ensures { IsTrue result ↔ IsText self.entry text.now }
    {
        match self {
            Word::Text(own) => own == text,
            Word::Bytes(_) => false,
        }
    }
}

/// The words that the program was given, after its name.
///
/// `clap` takes only texts. So it gets a stand-in for a word that isn't UTF-8, and finds out whether that is a path or the value
/// of an option. The stand-in is a zero byte, which no word has, and then the word as it is shown.
#[derive(Drop)]
pub struct Words {
    texts: Vec<String>,
    // The words that aren't UTF-8, by their stand-ins.
    odd: BTreeMap<String, Vec<u8>>,
}

impl Words {
    /// Reads the words.
    pub fn read(rt: &HostRuntime) -> io::Result<Words> {
        let alloc = rt.alloc();
        let mut words = Words {
            texts: Vec::new(alloc),
            odd: BTreeMap::new(alloc),
        };
        for i in 1..usize::MAX {
            let Some(bytes) = word_at(rt, i)? else {
                break;
            };
            words.add(alloc, bytes)?;
        }
        Ok(words)
    }

    // Adds a word.
    fn add(&mut self, alloc: Global, bytes: Vec<u8>) -> Result<(), AllocError>
        ensures { OnOk result (AddsWord self.old bytes.items self.new) }
    {
        if let Ok(text) = str::from_utf8(&bytes) {
            self.texts.push(String::from_str(alloc, text)?)?;
            return Ok(());
        }
        let shown = format!(in alloc; "{}", ShownBytes(&bytes))?;
        let mut stand_in = String::from_str(alloc, "\0")?;
        stand_in.push_str(shown.as_str())?;
        self.texts.push(stand_in.clone()?)?;
        let _ = self.odd.insert(stand_in, bytes)?;
        Ok(())
    }

    /// The words as texts.
    pub fn texts(&self) -> &[String]
        ensures { map string_bytes result.now ≡ texts_of self.now }
    {
        &self.texts
    }

    /// The word that this text is, or stands for.
    pub fn word_of<'a>(&'a self, text: &'a str) -> Word<'a>
        ensures { StandsFor self.now text.now result }
    {
        match self.odd_word(text) {
            Some(bytes) => Word::Bytes(bytes),
            None => Word::Text(text),
        }
    }

    /// The word that this text stands for, if it is a stand-in.
    pub fn odd_word(&self, text: &str) -> Option<&[u8]>
        ensures { option_map (λ bytes. bytes.now) result ≡ odd_bytes self.now text.now }
    {
        match self.odd.get(text) {
            Some(bytes) => Some(bytes.as_slice()),
            None => None,
        }
    }

    /// The first option that isn't UTF-8: a word that begins with `-`, with no word `--` before it.
    pub fn odd_option(&self) -> Option<&[u8]>
        ensures { option_map (λ bytes. bytes.now) result ≡ first_odd_option self.now }
    {
        for text in &self.texts {
            match self.word_of(text.as_str()) {
                Word::Text(own) => {
                    if own == "--" {
                        return None;
                    }
                }
                Word::Bytes(bytes) => {
                    if bytes.starts_with(b"-") {
                        return Some(bytes);
                    }
                }
            }
        }
        None
    }
}

// The bytes of the word with this number, if there are so many. The first one is the name of the program.
fn word_at(rt: &HostRuntime, i: usize) -> io::Result<Option<Vec<u8>>> {
    let mut bytes = Vec::new(rt.alloc());
    let mut room = 256usize;
    for _ in 0..usize::BITS {
        bytes.resize(room, 0)?;
        match rt.arg(i, &mut bytes) {
            Ok(len) => {
                bytes.truncate(len);
                return Ok(Some(bytes));
            }
            Err(FillError::NotPresent) => return Ok(None),
            Err(FillError::TooLong) => room = room.saturating_mul(2),
        }
    }
    Err(io::Error::from(ErrorKind::OutOfMemory))
}
