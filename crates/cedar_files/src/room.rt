//! What the script tells a run.
use std::alloc::{AllocError, Global};
use std::collections::BTreeSet;
use std::{env, fs, io};

// The variable that names the folder for it.
const VARIABLE: &str = "NOBLESILK_ROOM";

/// What the script tells a run, in files of a folder: `stop` exists as soon as a signal has come, `rights` has the numbers of
/// files for which a new one would have another access control list, and `attributes` of files with extended attributes.
#[derive(Drop)]
pub struct Room {
    stop: Option<String>,
    rights: BTreeSet<u64>,
    attributes: BTreeSet<u64>,
}

impl Room {
    /// What the script has told, if there is one.
    pub fn new(rt: &HostRuntime) -> io::Result<Room> {
        let alloc = rt.alloc();
        let mut room = Room {
            stop: None,
            rights: BTreeSet::new(alloc),
            attributes: BTreeSet::new(alloc),
        };
        let Ok(folder) = env::var(rt, VARIABLE) else {
            return Ok(room);
        };
        room.stop = Some(format!(in alloc; "{folder}/stop")?);
        let rights = format!(in alloc; "{folder}/rights")?;
        read_numbers(rt, rights.as_str(), &mut room.rights)?;
        let attributes = format!(in alloc; "{folder}/attributes")?;
        read_numbers(rt, attributes.as_str(), &mut room.attributes)?;
        Ok(room)
    }

    /// Why no new file may take the place of the one with this number.
    pub fn obstacle_of(&self, number: u64) -> Option<&'static str> {
        if self.rights.contains(&number) {
            Some("a new file would have another access control list")
        } else if self.attributes.contains(&number) {
            Some("it has extended attributes, which a new file would lose")
        } else {
            None
        }
    }

    /// Whether the run is to end.
    pub fn is_stopped(&self, rt: &HostRuntime) -> bool {
        match &self.stop {
            Some(stop) => fs::symlink_metadata(rt, stop.as_str()).is_ok(),
            None => false,
        }
    }
}

// Reads the numbers in a file, one a line.
fn read_numbers(rt: &HostRuntime, path: &str, numbers: &mut BTreeSet<u64>) -> io::Result<()> {
    for line in fs::read_to_string(rt, path)?.as_str().lines() {
        if let Ok(number) = line.parse::<u64>() {
            let _ = numbers.insert(number)?;
        }
    }
    Ok(())
}
