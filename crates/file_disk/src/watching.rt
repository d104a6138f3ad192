// Whether a path still leads to the file of a disk, and whether that is whole.
use crate::disk::FileDisk;
use crate::label::{LABEL, read_label};
use crate::places::read_at;
use crate::stride::Stride;
use sector_disk::Sector;
use std::fs::{File, Files};
use std::io::ErrorKind;
use std::os::unix::fs::MetadataExt;
use std::path::AsPath;
use std::{fs, io};

/// The file of a disk as it was when it was opened: what stands at its path later is compared with it. No contract says what a file system does.
#[derive(Debug, Drop)]
pub struct FileWatch {
    file: File,
    device: u64,
    number: u64,
    length: u64,
    // Where the last sector ends.
    end: u64,
    label: Option<[u8; LABEL]>,
    stride: Stride,
}

impl FileDisk {
    /// What becomes of the file is watched from now on.
    pub fn watch(&self) -> io::Result<FileWatch> {
        let about = self.file.metadata()?;
        Ok(FileWatch {
            file: self.file.try_clone()?,
            device: about.dev(),
            number: about.ino(),
            length: about.len(),
            end: self.end(),
            label: self.label()?,
            stride: self.stride(),
        })
    }
}

impl FileWatch {
    /// Refuses a file that this path doesn't lead to any more as `NotFound`, and one that was cut off or written over, as its length and its label
    /// tell, as `UnexpectedEof`. Where the system doesn't tell, that is the error.
    pub fn expect_in_place<P: AsPath>(
        &self,
        rt: &impl Files<File = File>,
        path: P,
    ) -> io::Result<()> {
        let found = match fs::metadata(rt, path) {
            Ok(found) => found,
            Err(error) if error.kind() == ErrorKind::NotFound => return Err(replaced()),
            Err(error) => return Err(error),
        };
        if found.dev() != self.device || found.ino() != self.number {
            return Err(replaced());
        }
        if found.len() != self.length {
            return Err(written_over());
        }
        let label = read_label(&self.file, self.end, self.length.saturating_sub(self.end))?;
        if label != self.label {
            return Err(written_over());
        }
        Ok(())
    }

    /// Reads a sector of the file, as the disk would.
    pub fn read(&self, at: u64, into: &mut Sector) -> io::Result<()> {
        read_at(&self.file, at.saturating_mul(self.stride.bytes()), into)
    }
}

fn replaced() -> io::Error {
    io::Error::new(
        ErrorKind::NotFound,
        "the file was removed or another file took its name",
    )
}

fn written_over() -> io::Error {
    io::Error::new(
        ErrorKind::UnexpectedEof,
        "the file was cut off or written over",
    )
}
