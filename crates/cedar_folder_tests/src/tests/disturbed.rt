//! A folder that somebody else writes to as well.
ghost use Rattle.std.specs.Prelude.{None};

use crate::memory::Memory;
use cedar_program::folder::{Access, File, Folder, NotCreated, Outcome, Version};
use std::alloc::Global;
use std::io;

/// A folder in memory, each of whose files is saved by somebody else after it was read. No call of the trait does that, so
/// nothing is claimed of it.
#[derive(Drop)]
pub struct Disturbed(pub Memory);

impl Folder for Disturbed {
    ghost picture = { λ _. None };

    fn read(&mut self, alloc: Global, name: &str) -> io::Result<File> {
        let file = self.0.read(alloc, name)?;
        self.0.put(name, file.bytes.as_slice(), file.access)?;
        Ok(file)
    }

    fn unused_name(&mut self, alloc: Global, name: &str) -> io::Result<String> {
        self.0.unused_name(alloc, name)
    }

    fn create(&mut self, name: &str, bytes: &[u8], access: Access) -> Result<(), NotCreated> {
        self.0.create(name, bytes, access)
    }

    fn replace(&mut self, from: &str, to: &str, version: Version) -> io::Result<()> {
        self.0.replace(from, to, version)
    }

    fn remove(&mut self, name: &str) -> io::Result<()> {
        self.0.remove(name)
    }

    fn report(&mut self, name: &str, outcome: Outcome) -> bool {
        self.0.report(name, outcome)
    }
}
