use crate::label::{LabelOwner, owner_of};
use crate::status::Status;
use file_disk::{open_to_read, read_label};
use std::fs::{File, Files};
use std::io;
use std::path::AsPath;

/// Opens a file that is read and not written, also while a node has it open.
pub fn file_to_read<P: AsPath>(rt: &impl Files<File = File>, path: P) -> Result<File, Status> {
    open_to_read(rt, path).map_err(Status::File)
}

/// Whose the regular file of this path is, by what stands behind its last sector. None where it can't be looked at.
pub fn owner_at<P: AsPath>(rt: &impl Files<File = File>, path: P) -> Option<LabelOwner> {
    let file = open_to_read(rt, path).ok()?;
    owner_in(&file).ok()
}

/// Whose this file is.
pub fn owner_in(file: &File) -> io::Result<LabelOwner> {
    let length = file.metadata()?.len();
    let behind = length % 512;
    let label = read_label(file, length.saturating_sub(behind), behind)?;
    Ok(owner_of(label))
}
