//! A watched reader or writer.
ghost use Rattle.std.specs.Prelude.{◌≡◌, IsTrue, IsFalse, OnOk, OnErr};
ghost use Rattle.std.specs.Io.{ReadsAtMost, WritesAtMost};
ghost use Rattle.std.specs.Io.KnownBytes.{Keeps, ReadConsumes, WriteAppends};
ghost use Rattle.cedar_streams.specs.Devices.{device_of, has_failed, is_flushed, IsFailedWrite, TakesSome};

use std::io;
use std::io::{Read, Write};

/// A reader or a writer that remembers whether it failed, and whether everything it took is flushed.
///
/// It is flushed while it has taken nothing since the last flush, and that flush succeeded.
#[derive(Debug, Drop)]
pub struct Watched<D> {
    device: D,
    has_failed: bool,
    is_flushed: bool,
}

impl<D> Watched<D> {
    /// The device, which has not failed yet and has nothing to flush.
    pub fn new(device: D) -> Watched<D>
        ensures device { device_of result ≡ device }
        ensures fresh { IsFalse (has_failed result) }
        ensures flushed { IsTrue (is_flushed result) }
    {
        Watched {
            device,
            has_failed: false,
            is_flushed: true,
        }
    }

    /// Whether a read or a write through this failed. A write of one byte or more that takes nothing counts as failed.
    pub fn failed(&self) -> bool
        ensures { result ≡ has_failed self.now }
    {
        self.has_failed
    }
}

impl<R: Read> Read for Watched<R> {
    ghost remaining = { λ w. R.remaining w.device };

    fn read(&mut self, buf: &mut [u8]) -> io::Result<usize>
        ensures bound { ReadsAtMost result buf.new }
        ensures bytes { ReadConsumes (R.remaining (device_of self.old)) (R.remaining (device_of self.new)) result buf.new }
        ensures ok { OnOk result (has_failed self.new ≡ has_failed self.old) }
        ensures err { OnErr result (IsTrue (has_failed self.new)) }
        ensures flushed { is_flushed self.new ≡ is_flushed self.old }
    {
        let result = self.device.read(buf);
        if result.is_err() {
            self.has_failed = true;
        }
        result
    }
}

impl<W: Write> Write for Watched<W> {
    ghost contents = { λ w. W.contents w.device };

    fn write(&mut self, buf: &[u8]) -> io::Result<usize>
        ensures bound { WritesAtMost result buf.now }
        ensures bytes { WriteAppends (W.contents (device_of self.old)) (W.contents (device_of self.new)) result buf.now }
        ensures fails { IsFailedWrite result buf.now → IsTrue (has_failed self.new) }
        ensures succeeds { ¬ (IsFailedWrite result buf.now) → has_failed self.new ≡ has_failed self.old }
        ensures taken { TakesSome result → IsFalse (is_flushed self.new) }
        ensures untaken { ¬ (TakesSome result) → is_flushed self.new ≡ is_flushed self.old }
    {
        let result = self.device.write(buf);
        match &result {
            Ok(0) if !buf.is_empty() => self.has_failed = true,
            Ok(0) => {}
            Ok(_) => self.is_flushed = false,
            Err(_) => self.has_failed = true,
        }
        result
    }

    fn flush(&mut self) -> io::Result<()>
        ensures bytes { Keeps (W.contents (device_of self.old)) (W.contents (device_of self.new)) }
        ensures fault { has_failed self.new ≡ has_failed self.old }
        ensures ok { OnOk result (IsTrue (is_flushed self.new)) }
        ensures err { OnErr result (IsFalse (is_flushed self.new)) }
    {
        let result = self.device.flush();
        self.is_flushed = result.is_ok();
        result
    }
}
