// Zeros, written a piece at a time.
ghost use Rattle.std.specs.Prelude.{OnOk, replicate};
ghost use Rattle.std.specs.Io.KnownBytes.{Appends};

use std::io;
use std::io::Write;

// How many zeros are in memory at once.
const PIECE: usize = 65536;

// Writes so many zeros.
pub fn write_zeros<W: Write>(writer: &mut W, count: u64) -> io::Result<()>
    ensures { OnOk result (Appends (W.contents writer.old) (W.contents writer.new) (replicate count 0)) }
{
    let piece = [0u8; PIECE];
    let mut left = count;
    while left > 0 {
        let next = left.min(PIECE as u64);
        writer.write_all(&piece[..next as usize])?;
        left -= next;
    }
    Ok(())
}
