// The label of a file, behind its last sector.
ghost use Rattle.std.specs.Prelude.{◌≡◌, ◌↔◌, IfOk, IsOk, IsErrOf, IsOkUnless, IsTrue, true};
ghost use Rattle.sector_disk.specs.Memory.{risen};
ghost use Rattle.sector_disk.specs.declared.fault.DiskFault.TheVariants.{Device};
ghost use Rattle.file_disk.specs.File.{unfailed};
ghost use Rattle.file_disk.specs.Label.{IsOfANode, IsSpaced, mark_in, marked_label, slots_in};
ghost use Rattle.file_disk.specs.declared.stride.Stride.TheVariants.{Spaced};

use crate::disk::{FileDisk, over};
use crate::fault::OpenFault;
use crate::making::opened;
use crate::places::{read_at, write_at};
use crate::stride::Stride;
use sector_disk::DiskFault;
use std::fs::{File, Files};
use std::io;
use std::path::AsPath;

/// How many bytes a label has. They are fewer than a sector's, so the file has as many sectors with it as without.
pub const LABEL: usize = 32;

/// How many bytes one of version 1 has: it is read as these and zeros.
pub const OLDER_LABEL: usize = 16;

/// How many bytes the mark of a cluster has.
pub const MARK: usize = 4;

/// What the label of a node's file begins with.
pub const NAME: [u8; 8] = *b"dumgerok";

/// Whether a label, or none, is that of a node's file.
pub fn is_of_a_node(label: Option<[u8; LABEL]>) -> bool
    ensures { IsTrue result ↔ IsOfANode label }
{
    match label {
        Some(label) => label[..8] == NAME[..],
        None => false,
    }
}

/// What stands behind the last sector of the file of a node of so many, with so many slots, in the cluster of this mark.
pub fn marked_label(id: u8, nodes: u8, stride: Stride, mark: [u8; MARK], slots: u16) -> [u8; LABEL]
    ensures { result ≡ marked_label id nodes stride mark slots }
{
    let apart = stride.byte();
    let (high, low) = ((slots / 256) as u8, (slots % 256) as u8);
    [
        b'd', b'u', b'm', b'g', b'e', b'r', b'o', b'k', 2, id, nodes, apart, mark[0], mark[1],
        mark[2], mark[3], high, low, 0, 0, 0, 0, 0, 0, 0, 0, 0, 0, 0, 0, 0, 0,
    ]
}

/// The mark of the cluster in a label of version 2.
pub fn mark_in(label: [u8; LABEL]) -> [u8; MARK]
    ensures { result ≡ mark_in label }
{
    [label[12], label[13], label[14], label[15]]
}

/// The number of slots in a label of version 2.
pub fn slots_in(label: [u8; LABEL]) -> u16
    ensures { result ≡ slots_in label }
{
    256 * (label[16] as u16) + (label[17] as u16)
}

/// How far apart the sectors of a file with this label, or with none, lie: packed, where it isn't a node's.
pub fn stride_in(label: Option<[u8; LABEL]>) -> Stride
    // Promise: A file's sectors lie as far apart as its label says: each in a block of its own exactly where it is a node's that says so.
    // Refuses: any_label_spaces.
    ensures { (result ≡ Spaced) ↔ IsSpaced label }
{
    let Some(bytes) = label else {
        return Stride::Packed;
    };
    if is_of_a_node(label) && bytes[11] == 1 {
        Stride::Spaced
    } else {
        Stride::Packed
    }
}

// How far apart the sectors of a file of this length lie, by the label at its end.
fn stride_of(file: &File, length: u64) -> io::Result<Stride> {
    let behind = length % Stride::Spaced.bytes();
    let label = read_label(file, length.saturating_sub(behind), behind)?;
    Ok(stride_in(label))
}

/// The label of so many bytes that stands there, with zeros behind one of version 1; none where a label has more or fewer.
pub fn read_label(file: &File, place: u64, behind: u64) -> io::Result<Option<[u8; LABEL]>> {
    let mut label = [0u8; LABEL];
    if behind == LABEL as u64 {
        read_at(file, place, &mut label)?;
    } else if behind == OLDER_LABEL as u64 {
        read_at(file, place, &mut label[..OLDER_LABEL])?;
    } else {
        return Ok(None);
    }
    Ok(Some(label))
}

impl FileDisk {
    /// As [`FileDisk::open`], with the sectors as far apart as the file's label says.
    pub fn open_labelled<P: AsPath>(
        rt: &impl Files<File = File>,
        path: P,
    ) -> Result<FileDisk, OpenFault>
        ensures ok { IfOk result (λ disk. disk ≡ unfailed disk.sectors disk.stride) }
    {
        let file = opened(rt, path)?;
        let length = file.metadata()?.len();
        let stride = stride_of(&file, length)?;
        Ok(over(file, length, stride))
    }

    /// Writes the label behind the last sector, and syncs the file with its new length.
    pub fn set_label(&mut self, label: &[u8; LABEL]) -> Result<(), DiskFault>
        ensures device { IsOkUnless result Device }
        ensures ok { IsOk result → self.new ≡ self.old }
        ensures failed { IsErrOf result Device → self.new ≡ record self.old { spent = true; failures = risen self.old.failures } }
    {
        if self.spent {
            return self.fail();
        }
        let done = write_label(&self.file, self.end(), label);
        if done.is_ok() {
            self.length = self.end().saturating_add(LABEL as u64);
        }
        self.answer(done)
    }

    /// The label of the file; none where there aren't just as many bytes behind the last sector as one has.
    pub fn label(&self) -> io::Result<Option<[u8; LABEL]>> {
        let length = self.file.metadata()?.len();
        read_label(&self.file, self.end(), length.saturating_sub(self.end()))
    }
}

fn write_label(file: &File, place: u64, label: &[u8]) -> io::Result<()> {
    write_at(file, place, label)?;
    file.sync_all()
}
