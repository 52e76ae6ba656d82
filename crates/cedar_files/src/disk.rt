//! The folder of the disk.
//!
//! No contract can say what a disk holds, so `picture` claims nothing about it; the code does what the trait says as far as
//! the system does.
ghost use Rattle.std.specs.Prelude.{None};

use crate::beside::name_beside;
use crate::counts::Counts;
use crate::options::{Mode, Options};
use crate::places::first_difference;
use crate::reports::{Kind, Remark, Reports};
use crate::room::Room;
use cedar_program::folder::{Access, File, Folder, NotCreated, Outcome, Version, narrowed_mode};
use std::alloc::Global;
use std::fs::{Metadata, OpenOptions, Permissions};
use std::io::{ErrorKind, Read, Write};
use std::os::unix::fs::{MetadataExt, OpenOptionsExt, PermissionsExt, fchown};
use std::random::RandomSource;
use std::time::Duration;
use std::{fs, io, thread};

// The most names tried for a file beside another.
const MOST_NAMES: u32 = 1000;

// How often a file that is just being replaced is looked at.
const MOST_TRIES: u32 = 100;

/// The folder of the disk, as a run sees it.
#[derive(Drop)]
pub struct Disk<'a, 'r> {
    rt: &'a HostRuntime,
    mode: Mode,
    room: Room,
    reports: &'r mut Reports<'a>,
    // How many files the run has.
    all: usize,
    counts: Counts,
    // What tells the file beside the next one from those of other runs.
    bits: u64,
}

impl<'a, 'r> Disk<'a, 'r> {
    /// The folder for a run over so many files.
    pub fn new(
        rt: &'a HostRuntime,
        options: &Options<'_>,
        reports: &'r mut Reports<'a>,
        all: usize,
    ) -> io::Result<Disk<'a, 'r>> {
        Ok(Disk {
            rt,
            mode: options.mode,
            room: Room::new(rt)?,
            reports,
            all,
            counts: Counts::new(),
            bits: random_bits(rt)?,
        })
    }

    /// What became of the files.
    pub fn counts(&self) -> Counts {
        self.counts
    }

    // The target of a name, if it is a link.
    fn real_name(&self, name: &str) -> io::Result<String> {
        let alloc = self.rt.alloc();
        if fs::symlink_metadata(self.rt, name)?.is_symlink() {
            let real = fs::canonicalize(self.rt, name)?;
            return Ok(String::from_str(alloc, real.as_path().as_str())?);
        }
        Ok(String::from_str(alloc, name)?)
    }

    // Prints what became of a file.
    fn print(&mut self, name: &str, outcome: &Outcome) {
        match outcome {
            Outcome::Formatted | Outcome::Empty => {}
            Outcome::Replaced => self.reports.tell(Kind::Replaced, name, "replaced"),
            Outcome::Unformatted { bytes, output } => {
                self.print_unformatted(name, bytes, output.as_str());
            }
            Outcome::NotUtf8 => self.reports.tell(Kind::Refused, name, "input is not UTF-8"),
            Outcome::Refused { error, bytes } => {
                if let Ok(text) = str::from_utf8(bytes) {
                    self.reports.refuse(name, text, *error);
                }
            }
            Outcome::Unread(error) => self.reports.fail(name, "cannot be read: ", error),
            Outcome::Unwritten(error) => self.reports.fail(name, "cannot be written: ", error),
            Outcome::LeftBeside { error, beside } => {
                self.reports.fail(name, "cannot be written: ", error);
                self.reports
                    .tell(Kind::Failed, beside.as_str(), "cannot be removed");
            }
        }
    }

    // Prints that a file isn't formatted, or what would change.
    fn print_unformatted(&mut self, name: &str, bytes: &[u8], output: &str) {
        let Ok(text) = str::from_utf8(bytes) else {
            return;
        };
        if self.mode == Mode::Diff {
            self.reports.diff(name, text, output);
            return;
        }
        self.reports.add(&Remark {
            kind: Kind::Unformatted,
            file: name,
            place: Some(first_difference(bytes, output.as_bytes())),
            message: "not formatted",
        });
    }
}

impl Folder for Disk<'_, '_> {
    ghost picture = { λ _. None };

    fn read(&mut self, alloc: Global, name: &str) -> io::Result<File> {
        // (opening a pipe would wait)
        expect_file(&fs::metadata(self.rt, name)?)?;
        let mut file = fs::open(self.rt, name)?;
        let metadata = file.metadata()?;
        expect_file(&metadata)?;
        let mut bytes = Vec::new(alloc);
        let _ = file.read_to_end(&mut bytes)?;
        Ok(File {
            bytes,
            access: Access {
                mode: metadata.mode() & 0o7777,
                owner: metadata.uid(),
                group: metadata.gid(),
            },
            version: version_of(&metadata),
        })
    }

    fn unused_name(&mut self, alloc: Global, name: &str) -> io::Result<String> {
        let real = self.real_name(name)?;
        // (a file that isn't writable isn't replaced either)
        let file = OpenOptions::new().write(true).open(self.rt, real.as_str())?;
        if let Some(obstacle) = self.room.obstacle_of(file.metadata()?.ino()) {
            return Err(io::Error::other(obstacle));
        }
        for _ in 0..MOST_NAMES {
            let beside = name_beside(alloc, self.rt, real.as_str(), self.bits)?;
            self.bits = self.bits.wrapping_add(1);
            match fs::symlink_metadata(self.rt, beside.as_str()) {
                Ok(_) => {}
                Err(error) if error.kind() == ErrorKind::NotFound => return Ok(beside),
                Err(error) => return Err(error),
            }
        }
        Err(io::Error::from(ErrorKind::AlreadyExists))
    }

    fn create(&mut self, name: &str, bytes: &[u8], access: Access) -> Result<(), NotCreated> {
        let opened = OpenOptions::new()
            .write(true)
            .create_new(true)
            .mode(0o600)
            .open(self.rt, name);
        let filled = match opened {
            Ok(file) => fill(file, bytes, access),
            Err(error) => {
                return Err(NotCreated {
                    error,
                    is_left: false,
                });
            }
        };
        match filled {
            Ok(()) => Ok(()),
            Err(error) => Err(NotCreated {
                error,
                is_left: fs::remove_file(self.rt, name).is_err(),
            }),
        }
    }

    fn replace(&mut self, from: &str, to: &str, version: Version) -> io::Result<()> {
        let real = self.real_name(to)?;
        for _ in 0..MOST_TRIES {
            let metadata = fs::symlink_metadata(self.rt, real.as_str())?;
            if version_of(&metadata) == version {
                return fs::rename(self.rt, from, real.as_str());
            }
            // (another run may have done the same)
            if fs::read(self.rt, real.as_str())? == fs::read(self.rt, from)? {
                return fs::remove_file(self.rt, from);
            }
            // (a file without a name is still found while another one takes its place)
            if metadata.nlink() > 0 {
                break;
            }
            thread::sleep(self.rt, Duration::from_millis(10));
        }
        Err(io::Error::other("it was changed in the meantime"))
    }

    fn remove(&mut self, name: &str) -> io::Result<()> {
        fs::remove_file(self.rt, name)
    }

    fn report(&mut self, name: &str, outcome: Outcome) -> bool {
        self.counts.add(&outcome);
        self.print(name, &outcome);
        self.reports.show_progress(self.counts.done(), self.all);
        !self.reports.is_broken() && !self.room.is_stopped(self.rt)
    }
}

// Refuses what isn't a file.
fn expect_file(metadata: &Metadata) -> io::Result<()> {
    if metadata.is_dir() {
        Err(io::Error::from(ErrorKind::IsADirectory))
    } else if metadata.is_file() {
        Ok(())
    } else {
        Err(io::Error::other("it is not a file"))
    }
}

// Which state of which file it is.
fn version_of(metadata: &Metadata) -> Version {
    Version {
        device: metadata.dev(),
        inode: metadata.ino(),
        size: metadata.size(),
        modified: (metadata.mtime(), metadata.mtime_nsec()),
        changed: (metadata.ctime(), metadata.ctime_nsec()),
    }
}

// Gives a new file its bytes and its access, and waits until they are on the disk.
fn fill(mut file: fs::File, bytes: &[u8], access: Access) -> io::Result<()> {
    file.write_all(bytes)?;
    let made = file.metadata()?;
    let keeps_owner = made.uid() == access.owner || fchown(&file, Some(access.owner), None).is_ok();
    let keeps_group = made.gid() == access.group || fchown(&file, None, Some(access.group)).is_ok();
    let mode = narrowed_mode(access.mode, keeps_owner, keeps_group);
    file.set_permissions(Permissions::from_mode(mode))?;
    file.sync_all()
}

// Bits that tell this run from others.
fn random_bits(rt: &HostRuntime) -> io::Result<u64> {
    let mut bytes = [0; 8];
    rt.fill_bytes(&mut bytes)?;
    Ok(u64::from_le_bytes(bytes))
}
