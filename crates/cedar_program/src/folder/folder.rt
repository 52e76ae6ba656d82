//! What a run does with a folder.
ghost use Rattle.std.specs.Prelude.{List, Option, string_bytes};
ghost use Rattle.cedar_program.specs.Folders.{Creates, FindsUnused, Follows, Picture, PutsInPlace, Reads, Removes, Reports};

use cedar_policy_formatter::FormatError;
use std::alloc::Global;
use std::io;

/// The access to a file: its permissions and its owner.
#[derive(Clone, Copy, PartialEq, Eq)]
pub struct Access {
    /// The permission bits.
    pub mode: u32,
    /// The number of the user who owns it.
    pub owner: u32,
    /// The number of its group.
    pub group: u32,
}

/// Which file a name held, and in which state: two states of one file differ in it.
#[derive(Clone, Copy, PartialEq, Eq)]
pub struct Version {
    /// The number of the device.
    pub device: u64,
    /// The number of the file on its device.
    pub inode: u64,
    /// The number of bytes.
    pub size: u64,
    /// When the bytes were changed last: seconds and nanoseconds.
    pub modified: (i64, i64),
    /// When the bytes, the access or the links were changed last.
    pub changed: (i64, i64),
}

/// What a name holds.
#[derive(Drop)]
pub struct File {
    /// The bytes of the file.
    pub bytes: Vec<u8>,
    /// Its access.
    pub access: Access,
    /// Which state of which file it is.
    pub version: Version,
}

/// What became of a file.
#[derive(Drop)]
pub enum Outcome {
    /// It is its own output, and wasn't touched.
    Formatted,
    /// It is empty, and wasn't touched.
    Empty,
    /// It is accepted and isn't its own output. The run only checks, and it wasn't touched. `bytes` are those of the file.
    Unformatted { bytes: Vec<u8>, output: String },
    /// It was accepted and not its own output, and was replaced by its output.
    Replaced,
    /// It isn't UTF-8, and wasn't touched.
    NotUtf8,
    /// It is refused, and wasn't touched. `bytes` are those of the file.
    Refused { error: FormatError, bytes: Vec<u8> },
    /// It couldn't be read, and wasn't touched.
    Unread(io::Error),
    /// It couldn't be replaced, and wasn't touched.
    Unwritten(io::Error),
    /// It couldn't be replaced, and wasn't touched. A new file is still there as `beside`, which couldn't be removed.
    LeftBeside { error: io::Error, beside: String },
}

/// Why a file couldn't be created.
#[derive(Drop)]
pub struct NotCreated {
    pub error: io::Error,
    /// Whether a part of it is still there, and couldn't be removed.
    pub is_left: bool,
}

/// Files by name, and a report of what was done with them.
///
/// `picture` is what is known about it: what each name holds, what each name held at every moment so far, and the report.
/// `None` claims nothing. No call does anything that its clause doesn't say, so a stop in the middle of a call leaves one of
/// the moments that the clause allows.
pub trait Folder {
    /// What is known about the folder.
    ghost picture: { Self → Option Picture };

    /// What the name holds.
    fn read(&mut self, alloc: Global, name: &str) -> io::Result<File>
        ensures { Follows (Reads name.now result) (picture self.old) (picture self.new) };

    /// A name beside this one, in the same folder of the disk, that holds nothing.
    fn unused_name(&mut self, alloc: Global, name: &str) -> io::Result<String>
        ensures { Follows (FindsUnused result) (picture self.old) (picture self.new) };

    /// Creates a file, with this access or a narrower one. After an error each name holds what it held, unless a part is left.
    fn create(&mut self, name: &str, bytes: &[u8], access: Access) -> Result<(), NotCreated>
        ensures { Follows (Creates name.now bytes.now access result) (picture self.old) (picture self.new) };

    /// Renames a file, in one step, if the new name holds this version. What it held is gone. After an error each name holds
    /// what it held.
    fn replace(&mut self, from: &str, to: &str, version: Version) -> io::Result<()>
        ensures { Follows (PutsInPlace from.now to.now version result) (picture self.old) (picture self.new) };

    /// Removes a file. After an error each name holds what it held.
    fn remove(&mut self, name: &str) -> io::Result<()>
        ensures { Follows (Removes name.now result) (picture self.old) (picture self.new) };

    /// Reports what became of a file, and returns whether to continue with the next. A report that can't be made asks to stop.
    fn report(&mut self, name: &str, outcome: Outcome) -> bool
        ensures { Follows (Reports name.now outcome result) (picture self.old) (picture self.new) };
}
