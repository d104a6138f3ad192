// Whether the file of a node is still the one at its path, and is what the node wrote, before that is acknowledged.
ghost use Rattle.std.specs.Prelude.{◌≡◌, ◌+◌, ◌==◌};
ghost use Rattle.command_line.specs.Watched.{is_count};

use crate::status::{Status, stopped};
use file_disk::FileWatch;
use node_server::DiskWatch;
use std::fs::{File, Files};
use std::io;
use std::io::ErrorKind;
use std::path::AsPath;

/// The first byte of the gate of a slot that is sealed.
const SEALED: u8 = 0xa5;

/// The file of a node, and the path that it was opened at.
#[derive(Drop)]
pub(crate) struct Watched<'a, F, P> {
    rt: &'a F,
    path: &'a P,
    file: FileWatch,
}

impl<'a, F: Files<File = File>, P: AsPath> Watched<'a, F, P> {
    pub(crate) fn new(rt: &'a F, path: &'a P, file: FileWatch) -> Watched<'a, F, P> {
        Watched { rt, path, file }
    }

    fn expect_own(&self, count: u64) -> io::Result<()> {
        self.file.expect_in_place(self.rt, self.path)?;
        if is_count(self.number(0)?, self.number(2)?, count) {
            return Ok(());
        }
        Err(io::Error::new(
            ErrorKind::UnexpectedEof,
            "the file was written over, and its counter isn't what the node gave",
        ))
    }

    /// The number in a slot of the counter, where it is sealed.
    fn number(&self, slot: u64) -> io::Result<Option<u64>> {
        let mut sector = [0u8; 512];
        self.file.read(slot.saturating_add(1), &mut sector)?;
        if sector[0] != SEALED {
            return Ok(None);
        }
        self.file.read(slot, &mut sector)?;
        Ok(Some(u64::from_be_bytes([
            sector[0], sector[1], sector[2], sector[3], sector[4], sector[5], sector[6], sector[7],
        ])))
    }
}

impl<F: Files<File = File>, P: AsPath> DiskWatch for Watched<'_, F, P> {
    /// What became of the file, where it isn't any more the one at its path, whole, with this count. Where the system doesn't tell, nothing did.
    fn loss(&self, count: u64) -> Option<io::Error> {
        let error = self.expect_own(count).err()?;
        match stopped(Some(error)) {
            Status::Lost(error) => Some(error),
            _ => None,
        }
    }
}

/// Whether the numbers in the sealed slots of a counter are those of this count.
fn is_count(first: Option<u64>, second: Option<u64>, count: u64) -> bool
    // Promise: A count stands in a file where one slot alone has it, or the other one has the number before it.
    // Refuses: older_counter_taken.
    ensures { result ≡ is_count first second count }
{
    match (first, second) {
        (None, None) => false,
        (Some(only), None) | (None, Some(only)) => only == count,
        (Some(a), Some(b)) => {
            (a == count && is_before(b, count)) || (b == count && is_before(a, count))
        }
    }
}

/// Whether a number is the one before this count.
fn is_before(number: u64, count: u64) -> bool
    ensures { result ≡ (number + 1 == count) }
{
    number < count && count - number == 1
}
