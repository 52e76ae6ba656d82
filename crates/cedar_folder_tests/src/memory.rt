//! A folder in memory, all of which is known.
ghost use Rattle.std.specs.Prelude.{◌≡◌, ◌++◌, ◌∷◌, [], Some, MatchResult, OnErr, if◌then◌else◌, is_ok};
ghost use Rattle.std.specs.Option.{option_copied, option_map};
ghost use Rattle.cedar_program.specs.Folders.{stored};
ghost use Rattle.cedar_folder_tests.specs.Logs.{MakesFile, Says, picture_of};

use cedar_program::folder::{Access, File, Folder, NotCreated, Outcome, Version};
use std::alloc::{AllocError, Global};
use std::io;
use std::io::ErrorKind;

/// Something that was done with a folder.
#[derive(Drop)]
pub enum Entry {
    /// The name holds this file from then on.
    Put {
        name: String,
        file: File,
    },
    /// The name holds nothing from then on.
    Removed {
        name: String,
    },
    /// `to` holds from then on what `from` held, which holds nothing.
    Renamed {
        from: String,
        to: String,
    },
    /// This became of the file, and the run was to go on or to stop.
    Reported {
        name: String,
        outcome: Outcome,
        goes_on: bool,
    },
}

/// What goes wrong in a folder.
#[derive(Clone, Copy, PartialEq, Eq)]
pub enum Trouble {
    Nothing,
    /// The call with this number fails, counted from 1.
    Fails(usize),
    /// The same, and a file that can't be created is left in part.
    LeavesPart(usize),
    /// Each report asks to stop.
    Stops,
}

/// A folder that keeps all that was done with it.
#[derive(Drop)]
pub struct Memory {
    /// What was done, the first thing first.
    pub log: Vec<Entry>,
    alloc: Global,
    trouble: Trouble,
    calls: usize,
}

impl Memory {
    /// An empty folder.
    pub fn new(alloc: Global, trouble: Trouble) -> Memory
        ensures { result.log.items ≡ [] }
    {
        Memory {
            log: Vec::new(alloc),
            alloc,
            trouble,
            calls: 0,
        }
    }

    /// How often a method of the trait was called.
    pub fn calls(&self) -> usize {
        self.calls
    }

    /// The file that the name holds.
    pub fn file_of(&self, name: &str) -> Option<&File>
        ensures { option_map stored (option_copied result) ≡ (picture_of self.now.log.items).holds name.now }
    {
        held(self.log.as_slice(), name)
    }

    /// Lets the name hold a file with these bytes, in a version of its own.
    pub fn put(&mut self, name: &str, bytes: &[u8], access: Access) -> Result<(), AllocError>
        ensures { MakesFile name.now bytes.now access result self.old.log.items self.new.log.items }
    {
        let name = String::from_str(self.alloc, name)?;
        let bytes = bytes.to_vec(self.alloc)?;
        let version = Version {
            device: 0,
            inode: self.log.len() as u64,
            size: 0,
            modified: (0, 0),
            changed: (0, 0),
        };
        let file = File {
            bytes,
            access,
            version,
        };
        self.add(Entry::Put { name, file })
    }

    // Adds an entry to the log.
    fn add(&mut self, entry: Entry) -> Result<(), AllocError>
        ensures { self.new.log.items ≡ (if is_ok result then self.old.log.items ++ entry ∷ [] else self.old.log.items) }
    {
        match self.log.push(entry) {
            Ok(()) => Ok(()),
            Err(_) => Err(AllocError),
        }
    }

    // Counts a call, which fails if it is the one that is to fail.
    fn call(&mut self) -> io::Result<()>
        ensures { self.new.log ≡ self.old.log }
    {
        self.calls = self.calls.saturating_add(1);
        match self.trouble {
            Trouble::Fails(n) | Trouble::LeavesPart(n) if n == self.calls => {
                Err(io::Error::from(ErrorKind::Other))
            }
            _ => Ok(()),
        }
    }
}

// What an entry says of a name.
enum Saying<'a, 'b> {
    // It holds this file.
    Holds(&'a File),
    // It holds nothing.
    HoldsNothing,
    // It holds what this name held before.
    HoldsAs(&'b str),
}

// What an entry says of a name.
fn said<'b, 'a: 'b>(entry: &'a Entry, name: &'b str) -> Saying<'a, 'b>
    ensures { Says entry.now name.now result }
{
    match entry {
        Entry::Put { name: new, file } if new.as_str() == name => Saying::Holds(file),
        Entry::Removed { name: gone } if gone.as_str() == name => Saying::HoldsNothing,
        Entry::Renamed { from, to } => {
            if to.as_str() == name {
                Saying::HoldsAs(from.as_str())
            } else if from.as_str() == name {
                Saying::HoldsNothing
            } else {
                Saying::HoldsAs(name)
            }
        }
        _ => Saying::HoldsAs(name),
    }
}

// The file that the name holds after these entries.
fn held<'a>(log: &'a [Entry], name: &str) -> Option<&'a File>
    ensures { option_map stored (option_copied result) ≡ (picture_of log.now).holds name.now }
{
    let mut asked = name;
    let mut entries = log;
    while let Some((last, earlier)) = entries.split_last() {
        match said(last, asked) {
            Saying::Holds(file) => return Some(file),
            Saying::HoldsNothing => return None,
            Saying::HoldsAs(other) => {
                asked = other;
                entries = earlier;
            }
        }
    }
    None
}

impl Folder for Memory {
    ghost picture = { λ m. Some (picture_of m.log.items) };

    fn read(&mut self, alloc: Global, name: &str) -> io::Result<File> {
        self.call()?;
        match self.file_of(name) {
            Some(file) => Ok(File {
                bytes: file.bytes.to_vec(alloc)?,
                access: file.access,
                version: file.version,
            }),
            None => Err(io::Error::from(ErrorKind::NotFound)),
        }
    }

    fn unused_name(&mut self, alloc: Global, name: &str) -> io::Result<String> {
        self.call()?;
        let beside = format!(in alloc; ".{name}")?;
        match self.file_of(beside.as_str()) {
            Some(_) => Err(io::Error::from(ErrorKind::AlreadyExists)),
            None => Ok(beside),
        }
    }

    fn create(&mut self, name: &str, bytes: &[u8], access: Access) -> Result<(), NotCreated> {
        if let Err(error) = self.call() {
            let is_left = matches!(self.trouble, Trouble::LeavesPart(_))
                && self.put(name, b"", access).is_ok();
            return Err(NotCreated { error, is_left });
        }
        match self.put(name, bytes, access) {
            Ok(()) => Ok(()),
            Err(error) => Err(NotCreated {
                error: io::Error::from(error),
                is_left: false,
            }),
        }
    }

    fn replace(&mut self, from: &str, to: &str, version: Version) -> io::Result<()> {
        self.call()?;
        match self.file_of(to) {
            Some(file) if file.version == version => {}
            Some(_) => return Err(io::Error::from(ErrorKind::ResourceBusy)),
            None => return Err(io::Error::from(ErrorKind::NotFound)),
        }
        let from = String::from_str(self.alloc, from)?;
        let to = String::from_str(self.alloc, to)?;
        Ok(self.add(Entry::Renamed { from, to })?)
    }

    fn remove(&mut self, name: &str) -> io::Result<()> {
        self.call()?;
        let name = String::from_str(self.alloc, name)?;
        Ok(self.add(Entry::Removed { name })?)
    }

    fn report(&mut self, name: &str, outcome: Outcome) -> bool {
        if self.call().is_err() {
            return false;
        }
        let goes_on = self.trouble != Trouble::Stops;
        match String::from_str(self.alloc, name) {
            Ok(name) => {
                let entry = Entry::Reported {
                    name,
                    outcome,
                    goes_on,
                };
                self.add(entry).is_ok() && goes_on
            }
            Err(_) => false,
        }
    }
}
