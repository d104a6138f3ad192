// A file that is read and not written.
use crate::fault::OpenFault;
use std::fs;
use std::fs::{File, Files};
use std::path::AsPath;

/// Opens a regular file to read it. It takes no lock, so a file that a disk has open is read as it is just then.
pub fn open_to_read<P: AsPath>(rt: &impl Files<File = File>, path: P) -> Result<File, OpenFault> {
    // To open a pipe would wait for one that writes to it.
    if !fs::metadata(rt, &path)?.is_file() {
        return Err(OpenFault::NotAFile);
    }
    Ok(File::open(rt, &path)?)
}
