//! The files that the words name.
use crate::beside::is_left;
use crate::entries::{is_hidden, is_taken};
use crate::excludes::Excludes;
use crate::names::ShownBytes;
use crate::options::Options;
use crate::paths::{leads_out, resolved};
use crate::reports::{Kind, Reports};
use crate::words::Word;
use std::alloc::Global;
use std::collections::BTreeSet;
use std::fs::Files;
use std::io::{BufRead, BufReader, ErrorKind};
use std::{fs, io};

/// The files to do, in order, each name once, and how many faults were reported on the way.
#[derive(Drop)]
pub struct Found {
    pub files: Vec<String>,
    pub faults: usize,
}

impl Found {
    fn new(alloc: Global) -> Found {
        Found {
            files: Vec::new(alloc),
            faults: 0,
        }
    }
}

/// The files of all paths: each that is named itself, and the files `*.cedar` below each folder, ordered by their bytes.
/// Hidden files and folders below one are skipped, and so are links that lead out of it and what is excluded.
pub fn find_files(
    rt: &HostRuntime,
    options: &Options<'_>,
    folder: &str,
    excludes: &mut Excludes<'_>,
    reports: &mut Reports<'_>,
) -> io::Result<Found> {
    let alloc = rt.alloc();
    let mut seen = BTreeSet::new(alloc);
    let mut found = Found::new(alloc);
    for word in &options.paths {
        let one = named_by(rt, options, folder, word, excludes, reports)?;
        found.faults = found.faults.saturating_add(one.faults);
        for file in one.files {
            if seen.insert(file.clone()?)? {
                found.files.push(file)?;
            }
        }
    }
    Ok(found)
}

// The files of one path.
fn named_by(
    rt: &HostRuntime,
    options: &Options<'_>,
    folder: &str,
    word: &Word<'_>,
    excludes: &mut Excludes<'_>,
    reports: &mut Reports<'_>,
) -> io::Result<Found> {
    let alloc = rt.alloc();
    let (path, name) = match *word {
        Word::Text(path) => (path, None),
        Word::Bytes(path) => {
            let (folder, name) = split_path(path);
            (folder, Some(name))
        }
    };
    let absolute = resolved(alloc, folder, path)?;
    if options.excludes_named && excludes.leaves_named(alloc, absolute.as_str())? {
        return Ok(Found::new(alloc));
    }
    let mut walk = Walk::new(rt, absolute.as_str(), excludes, reports);
    match name {
        Some(name) => walk.leave_named(path, name)?,
        None => walk.take(path)?,
    }
    Ok(Found {
        files: walk.files,
        faults: walk.faults,
    })
}

// A walk through one path.
#[derive(Drop)]
struct Walk<'a, 'e, 'r> {
    rt: &'a HostRuntime,
    // The absolute path of the folder, and the same with no link in it.
    absolute: &'a str,
    real: Option<String>,
    // How many bytes the path of the folder has, as it was named.
    named: usize,
    excludes: &'a mut Excludes<'e>,
    reports: &'a mut Reports<'r>,
    // Folders that are still to be listed.
    folders: Vec<String>,
    files: Vec<String>,
    faults: usize,
}

impl<'a, 'e, 'r> Walk<'a, 'e, 'r> {
    fn new(
        rt: &'a HostRuntime,
        absolute: &'a str,
        excludes: &'a mut Excludes<'e>,
        reports: &'a mut Reports<'r>,
    ) -> Walk<'a, 'e, 'r> {
        Walk {
            rt,
            absolute,
            real: None,
            named: 0,
            excludes,
            reports,
            folders: Vec::new(rt.alloc()),
            files: Vec::new(rt.alloc()),
            faults: 0,
        }
    }

    // Walks through a path that was named.
    fn take(&mut self, path: &str) -> io::Result<()> {
        let alloc = self.rt.alloc();
        let is_folder = match fs::metadata(self.rt, path) {
            Ok(metadata) => metadata.is_dir(),
            Err(_) => false,
        };
        if !is_folder {
            self.files.push(String::from_str(alloc, path)?)?;
            return Ok(());
        }
        let folder = path.trim_end_matches('/');
        self.named = folder.len();
        self.real = real_path(self.rt, path)?;
        self.folders.push(String::from_str(alloc, folder)?)?;
        for _ in 0..u64::MAX {
            let Some(folder) = self.folders.pop() else {
                break;
            };
            if let Err(error) = self.list(folder.as_str()) {
                self.fail(folder.as_str(), &error)?;
            }
        }
        self.files.sort()?;
        Ok(())
    }

    // Adds what a folder contains. Its name has no slash at the end, and is empty for the root.
    fn list(&mut self, folder: &str) -> io::Result<()> {
        let alloc = self.rt.alloc();
        // (not by `read_dir`, which doesn't show names that aren't UTF-8)
        let path = format!(in alloc; "{folder}/")?;
        let mut names = BufReader::new(alloc, self.rt.open_dir(path.as_str())?)?;
        let mut name = Vec::new(alloc);
        for _ in 0..u64::MAX {
            name.clear();
            if names.read_until(0, &mut name)? == 0 {
                break;
            }
            let name = name.strip_suffix(b"\0").unwrap_or(&name);
            match str::from_utf8(name) {
                Ok("." | "..") => {}
                Ok(name) => self.enter(folder, name)?,
                Err(_) => self.leave_name(folder, name)?,
            }
        }
        Ok(())
    }

    // Adds what has this name in a folder, unless it is hidden or excluded.
    fn enter(&mut self, folder: &str, name: &str) -> io::Result<()> {
        let alloc = self.rt.alloc();
        let path = format!(in alloc; "{folder}/{name}")?;
        if is_hidden(name.as_bytes()) {
            if is_left(self.rt, alloc, name)? {
                self.note(
                    path.as_str(),
                    "left by a run that was killed; it can be removed",
                );
            }
            return Ok(());
        }
        let (_, below) = path
            .as_str()
            .split_at(path.as_str().floor_char_boundary(self.named));
        let absolute = format!(in alloc; "{}{below}", self.absolute)?;
        if self
            .excludes
            .leaves(alloc, absolute.as_str(), self.absolute)?
        {
            return Ok(());
        }
        match fs::symlink_metadata(self.rt, path.as_str()) {
            Ok(found) if found.is_dir() => self.folders.push(path)?,
            Ok(found) if is_taken(name, found.is_file(), found.is_symlink()) => {
                self.take_file(path, found.is_symlink())?;
            }
            Ok(_) => {}
            Err(error) if error.kind() == ErrorKind::NotFound => {
                self.note(path.as_str(), "vanished in the meantime");
            }
            Err(error) => self.fail(path.as_str(), &error)?,
        }
        Ok(())
    }

    // Adds a file, or a link to one in the same folder.
    fn take_file(&mut self, path: String, is_link: bool) -> io::Result<()> {
        if is_link {
            if let Ok(metadata) = fs::metadata(self.rt, path.as_str()) {
                if metadata.is_dir() {
                    return Ok(());
                }
            }
            if self.leads_out(path.as_str())? {
                self.note(
                    path.as_str(),
                    "a link that leads out of the folder, which is left alone",
                );
                return Ok(());
            }
        }
        self.files.push(path)?;
        Ok(())
    }

    // Whether a link leads out of the folder that is walked through.
    fn leads_out(&self, path: &str) -> io::Result<bool> {
        let (Some(target), Some(folder)) = (real_path(self.rt, path)?, &self.real) else {
            return Ok(false);
        };
        Ok(leads_out(target.as_str(), folder.as_str()))
    }

    fn note(&mut self, path: &str, message: &str) {
        self.reports.tell(Kind::Note, path, message);
    }

    // Reports that a folder, or a name in it, couldn't be read.
    fn fail(&mut self, path: &str, error: &io::Error) -> io::Result<()> {
        // (the memory for a name, and not the folder)
        if error.kind() == ErrorKind::OutOfMemory {
            return Err(*error);
        }
        self.faults = self.faults.saturating_add(1);
        self.reports.fail(path, "cannot be read: ", error);
        Ok(())
    }

    // Reports a name in a folder that isn't UTF-8, unless it is hidden.
    fn leave_name(&mut self, folder: &str, name: &[u8]) -> io::Result<()> {
        if is_hidden(name) {
            return Ok(());
        }
        let message = format!(in self.rt.alloc();
            "holds {}, which is left alone: its name is not UTF-8",
            ShownBytes(name)
        )?;
        self.leave(folder, message.as_str());
        Ok(())
    }

    // Reports a path that was named and isn't UTF-8, by what it names in a folder.
    fn leave_named(&mut self, folder: &str, name: &[u8]) -> io::Result<()> {
        // (whether there is such a file can't be found out)
        let message = format!(in self.rt.alloc();
            "{} is left alone: its name is not UTF-8",
            ShownBytes(name)
        )?;
        self.leave(folder, message.as_str());
        Ok(())
    }

    // Reports what is left alone in a folder, as a fault.
    fn leave(&mut self, folder: &str, message: &str) {
        self.faults = self.faults.saturating_add(1);
        let folder = if folder.is_empty() { "/" } else { folder };
        self.reports.tell(Kind::Failed, folder, message);
    }
}

// The folder of a path that isn't UTF-8, as far as that is, and what the path names in it.
fn split_path(path: &[u8]) -> (&str, &[u8]) {
    let valid = match path.utf8_chunks().next() {
        Some(chunk) => chunk.valid(),
        None => "",
    };
    let Some((folder, _)) = valid.rsplit_once('/') else {
        return (".", path);
    };
    let name = path.get(folder.len().saturating_add(1)..).unwrap_or(path);
    let folder = folder.trim_end_matches('/');
    (if folder.is_empty() { "/" } else { folder }, name)
}

// The path with no link in it, if it leads to something.
fn real_path(rt: &HostRuntime, path: &str) -> io::Result<Option<String>> {
    match fs::canonicalize(rt, path) {
        Ok(real) => Ok(Some(String::from_str(rt.alloc(), real.as_path().as_str())?)),
        Err(error) if error.kind() == ErrorKind::OutOfMemory => Err(error),
        Err(_) => Ok(None),
    }
}
