// Why a file isn't opened as a disk.
ghost use Rattle.std.specs.Prelude.{◌≡◌};
ghost use Rattle.file_disk.specs.Open.{fault_for};

use std::fs::TryLockError;
use std::io;
use std::io::ErrorKind;
use thiserror::Error;

/// Why a file wasn't made or opened as a disk, in most cases with the system's words.
#[derive(Clone, Copy, Debug, Error)]
pub enum OpenFault {
    /// Another disk holds the file's lock, in this process or in another one.
    #[error("another process has it open")]
    Locked,
    /// Something of this name is there, where `create_new` was asked for.
    #[error("there is something of this name: {0}")]
    Exists(io::Error),
    /// There is no file of this name, or no folder to make it in.
    #[error("there is no such file or folder: {0}")]
    NotFound(io::Error),
    /// The file may not be read and written, the folder not be written or opened, or the file system is read-only.
    #[error("it may not be read and written: {0}")]
    Denied(io::Error),
    #[error("it is a folder: {0}")]
    Folder(io::Error),
    /// A pipe, a terminal or another device.
    #[error("it is no regular file")]
    NotAFile,
    /// The path leads to no file, is too long or has a byte 0, or the file is a program that runs or is held otherwise.
    #[error("it can't be opened: {0}")]
    Unusable(io::Error),
    /// The file system is full, the user may take no more of it, or no file may be so long.
    #[error("there is no room for it: {0}")]
    NoRoom(io::Error),
    /// Whatever else the system answers: it counts as an error of the device.
    #[error("the device failed: {0}")]
    Device(io::Error),
}

impl From<io::Error> for OpenFault {
    ghost from_gives = { λ error fault. fault ≡ fault_for error };

    fn from(error: io::Error) -> OpenFault {
        match error.kind() {
            ErrorKind::AlreadyExists => OpenFault::Exists(error),
            ErrorKind::NotFound => OpenFault::NotFound(error),
            ErrorKind::PermissionDenied | ErrorKind::ReadOnlyFilesystem => OpenFault::Denied(error),
            ErrorKind::IsADirectory => OpenFault::Folder(error),
            ErrorKind::StorageFull | ErrorKind::QuotaExceeded | ErrorKind::FileTooLarge =>
                OpenFault::NoRoom(error),
            ErrorKind::NotADirectory
            | ErrorKind::FilesystemLoop
            | ErrorKind::InvalidFilename
            | ErrorKind::InvalidInput
            | ErrorKind::ExecutableFileBusy
            | ErrorKind::ResourceBusy
            | ErrorKind::WouldBlock => OpenFault::Unusable(error),
            _ => OpenFault::Device(error),
        }
    }
}

impl From<TryLockError> for OpenFault {
    fn from(error: TryLockError) -> OpenFault {
        match error {
            TryLockError::WouldBlock => OpenFault::Locked,
            TryLockError::Error(error) => OpenFault::from(error),
        }
    }
}
