//! Writing bytes to their end.
ghost use Rattle.std.specs.Prelude.{◌≡◌, ◌++◌, IsTrue, OnOk, OnErr};
ghost use Rattle.std.specs.Io.KnownBytes.{Appends};
ghost use Rattle.cedar_streams.specs.Devices.{device_of, has_failed};
ghost use Rattle.cedar_streams.specs.Texts.{AppendsPart};

use crate::watched::Watched;
use std::io;
use std::io::{ErrorKind, Write};

/// Writes these bytes. The first failed write ends it, even if it was only interrupted; then only a beginning is written.
pub fn write_until_failure<W: Write>(bytes: &[u8], output: &mut Watched<W>) -> io::Result<()>
    ensures ok { OnOk result (has_failed output.new ≡ has_failed output.old) }
    ensures err { OnErr result (IsTrue (has_failed output.new)) }
    ensures whole { OnOk result (Appends (W.contents (device_of output.old)) (W.contents (device_of output.new)) bytes.now) }
    ensures part { OnErr result (AppendsPart (W.contents (device_of output.old)) (W.contents (device_of output.new)) bytes.now) }
{
    let mut rest = bytes;
    while !rest.is_empty() {
        match output.write(rest) {
            Ok(0) => return Err(io::Error::from(ErrorKind::WriteZero)),
            Ok(count) => rest = &rest[count..],
            Err(error) => return Err(error),
        }
    }
    Ok(())
}
