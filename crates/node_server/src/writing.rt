// A text is written whole, or a front of it where a write fails.
ghost use Rattle.std.specs.Prelude.{OnErr, OnOk};
ghost use Rattle.std.specs.Io.{WritesAtMost};
ghost use Rattle.std.specs.Io.KnownBytes.{Appends, WriteAppends};
ghost use Rattle.node_server.specs.Served.{AppendsFront};

use std::io;
use std::io::{ErrorKind, Write};

/// Writes a text, and goes on where a write takes a front of it or is interrupted.
pub(crate) fn write_whole<W: Write>(output: &mut W, text: &[u8]) -> io::Result<()>
    ensures whole { OnOk result (Appends (W.contents output.old) (W.contents output.new) text.now) }
    // Promise: Where a write fails, a front of what was to be written was, and no more.
    // Refuses: written_behind_a_failed_write.
    ensures front { OnErr result (AppendsFront text.now (W.contents output.old) (W.contents output.new)) }
{
    let mut left = text;
    for _write in 0..u64::MAX {
        if left.is_empty() {
            return Ok(());
        }
        let count = write_some(output, left)?;
        let (_, behind) = left.split_at(count);
        left = behind;
    }
    Err(io::Error::from(ErrorKind::TimedOut))
}

/// Writes a front of a text, or nothing where it is interrupted.
#[tactic(auto, using(crate::proofs::Writes::nothing_appended, crate::proofs::Writes::kept_appends))]
fn write_some<W: Write>(output: &mut W, text: &[u8]) -> io::Result<usize>
    ensures bound { WritesAtMost result text.now }
    ensures bytes { WriteAppends (W.contents output.old) (W.contents output.new) result text.now }
{
    match output.write(text) {
        Ok(0) => Err(io::Error::from(ErrorKind::WriteZero)),
        Err(error) if error.kind() == ErrorKind::Interrupted => Ok(0),
        written => written,
    }
}
