// How a file is made and opened.
ghost use Rattle.std.specs.Prelude.{◌≡◌, ◌≤◌, ◌^◌, IsErrAnd};
ghost use Rattle.file_disk.specs.Open.{IsNoRoom};

use crate::fault::OpenFault;
use crate::zeros::write_zeros;
use std::fs::{File, Files};
use std::io::ErrorKind;
use std::os::unix::fs::OpenOptionsExt;
use std::path::{AsPath, Path};
use std::{fs, io};

/// What is done where something of the name is there already.
#[derive(Clone, Copy, PartialEq, Eq)]
pub enum Existing {
    Replaced,
    Refused,
}

// A length that no file can have.
pub fn too_long() -> OpenFault
    ensures { IsNoRoom result }
{
    OpenFault::NoRoom(io::Error::from(ErrorKind::FileTooLarge))
}

// A file of so many zeros, locked, synced and kept in its folder. A length that no file can have is refused before anything is changed, and
// one that this file system can't give leaves a file that was there as it was: the length is set first, and nothing is cut off before. The
// zeros then take the room for later writes. What was made here is removed where that fails.
pub fn made<P: AsPath>(
    rt: &impl Files<File = File>,
    path: P,
    length: u64,
    existing: Existing,
) -> Result<File, OpenFault>
    ensures too_long { 2 ^ 63 ≤ length → IsErrAnd result IsNoRoom }
{
    if length > i64::MAX as u64 {
        return Err(too_long());
    }
    let (file, is_new) = begun(rt, &path, existing)?;
    let made = filled(rt, &path, file, length);
    // what another process has locked meanwhile is left to it
    if is_new && made.is_err() && !matches!(made, Err(OpenFault::Locked)) {
        let _ = fs::remove_file(rt, &path);
    }
    made
}

// The file to be made, and whether it is new. Nobody but its owner may read or write it.
fn begun<P: AsPath>(
    rt: &impl Files<File = File>,
    path: &P,
    existing: Existing,
) -> io::Result<(File, bool)> {
    let mut options = File::options();
    options.read(true).write(true).create_new(true).mode(0o600);
    match options.open(rt, path) {
        Ok(file) => Ok((file, true)),
        Err(error) if existing == Existing::Refused || error.kind() != ErrorKind::AlreadyExists => {
            Err(error)
        }
        Err(_) => {
            options.create_new(false).create(true);
            Ok((options.open(rt, path)?, false))
        }
    }
}

// The file locked, with its zeros, synced with its folder.
fn filled<P: AsPath>(
    rt: &impl Files<File = File>,
    path: &P,
    file: File,
    length: u64,
) -> Result<File, OpenFault> {
    let mut file = locked(file)?;
    file.set_len(length)?;
    write_zeros(&mut file, length)?;
    file.sync_all()?;
    sync_folder(rt, path)?;
    Ok(file)
}

// A file that is there, to read and write, locked.
pub fn opened<P: AsPath>(rt: &impl Files<File = File>, path: P) -> Result<File, OpenFault> {
    let file = File::options().read(true).write(true).open(rt, path)?;
    locked(file)
}

// Takes the lock of a regular file, which lasts as long as the file is open.
fn locked(file: File) -> Result<File, OpenFault> {
    if !file.metadata()?.is_file() {
        return Err(OpenFault::NotAFile);
    }
    file.try_lock()?;
    Ok(file)
}

/// Gives a file another name, in place of the file that has it, and syncs the folder of that name.
pub fn put_in_place<P: AsPath, Q: AsPath>(
    rt: &impl Files<File = File>,
    from: P,
    to: Q,
) -> io::Result<()> {
    fs::rename(rt, &from, &to)?;
    sync_folder(rt, &to)
}

// Syncs the folder that the path names the file in: after it, a crash leaves the file under its name.
fn sync_folder<P: AsPath>(rt: &impl Files<File = File>, path: &P) -> io::Result<()> {
    let folder = match Path::new(path.path_text()).parent() {
        Some(folder) if !folder.as_str().is_empty() => folder,
        _ => Path::new("."),
    };
    File::open(rt, folder)?.sync_all()
}
