ghost use Rattle.std.specs.Prelude.{◌≡◌};
ghost use Rattle.command_line.specs.Ends.{code_for, stopped};
ghost use Rattle.command_line.specs.Served.{IsStopped};

use crate::label::LabelOwner;
use file_disk::OpenFault;
use lease_file::LeaseFault;
use std::fmt::{Display, Formatter};
use std::io::ErrorKind;
use std::{fmt, io};

/// The exit status of a command line that can't be read, or asks for help.
pub(crate) const UNREADABLE: u8 = 2;

/// How a command ended.
#[derive(Clone, Copy, Debug)]
pub enum Status {
    /// The file was made, or the input ended.
    Done,
    /// Reading the input or writing the output failed, or there was no memory.
    Failed(io::Error),
    /// The file can't be made or opened.
    File(OpenFault),
    /// The file isn't this node's, but another one's or nobody's.
    Foreign(LabelOwner),
    /// The device failed, and this is what the system said of it. Nothing is asked of the file any more.
    Device(Option<io::Error>),
    /// The file of keys can't be read, isn't one of keys, or others than its owner may read it.
    Key,
    /// The file of leases can't be read, or no epochs are left in it.
    Spent(LeaseFault),
    /// While it was open, the file was removed or became shorter.
    Lost(io::Error),
}

impl Status {
    ghost use Rattle.command_line.specs.Ends.{code_of};

    /// The exit status of the program.
    pub fn code(self) -> u8
        // Promise: The exit statuses.
        // Refuses: device_ends_well.
        ensures { result ≡ code_of self }
    {
        match self {
            Status::Done => 0,
            Status::Failed(_) => 1,
            Status::File(fault) => code_for(fault),
            Status::Foreign(_) | Status::Spent(_) => 5,
            Status::Device(_) => 3,
            Status::Key => 6,
            Status::Lost(_) => 7,
        }
    }
}

fn code_for(fault: OpenFault) -> u8
    ensures { result ≡ code_for fault }
{
    match fault {
        OpenFault::Exists(_) => 1,
        OpenFault::Device(_) => 3,
        OpenFault::Locked => 4,
        OpenFault::NotFound(_)
        | OpenFault::Denied(_)
        | OpenFault::Folder(_)
        | OpenFault::NotAFile
        | OpenFault::Unusable(_) => 7,
        OpenFault::NoRoom(_) => 8,
    }
}

/// How a node ends that can't go on over its file, by what was said of that.
pub(crate) fn stopped(why: Option<io::Error>) -> Status
    // Promise: A file that was removed or became shorter, and a file system without room for a write, are no failed device.
    // Refuses: full_file_system_is_a_failed_device.
    ensures as_said { result ≡ stopped why }
    ensures ended { IsStopped result }
{
    match why {
        None => Status::Device(None),
        Some(error) => match error.kind() {
            ErrorKind::NotFound | ErrorKind::UnexpectedEof => Status::Lost(error),
            // no failed device: there may be room again
            ErrorKind::StorageFull | ErrorKind::QuotaExceeded => {
                Status::File(OpenFault::NoRoom(error))
            }
            _ => Status::Device(Some(error)),
        },
    }
}

/// What a person reads of it, behind the name of the file.
impl Display for Status {
    fn fmt<W: fmt::Write>(&self, f: &mut Formatter<W>) -> fmt::Result {
        match self {
            Status::Done => f.write_str("done"),
            Status::Failed(error) => write!(f, "reading or writing failed: {error}"),
            Status::File(fault) => write!(f, "{fault}"),
            Status::Foreign(owner) => write!(f, "{owner}"),
            Status::Device(Some(error)) => write!(f, "the device failed: {error}"),
            Status::Device(None) => f.write_str("the device failed"),
            Status::Key => f.write_str(
                "it can't be read, isn't one or two lines of 64 hex digits, or others than its owner may read it",
            ),
            Status::Spent(fault) => write!(f, "{fault}"),
            Status::Lost(error) => write!(f, "{error} while it was open"),
        }
    }
}

impl Display for LabelOwner {
    fn fmt<W: fmt::Write>(&self, f: &mut Formatter<W>) -> fmt::Result {
        match self {
            LabelOwner::Nobody => f.write_str(
                "it is no node's file: it was never formatted, or its end was cut off",
            ),
            LabelOwner::Unread(version) => {
                write!(
                    f,
                    "its format is of version {version}, which isn't read here"
                )
            }
            LabelOwner::Node { id, nodes } | LabelOwner::Marked { id, nodes, .. } => {
                write!(f, "it is the file of node {id} of {nodes}")
            }
            LabelOwner::OtherLength { slots } => {
                write!(
                    f,
                    "it was made with {slots} slots, and isn't as long as that: bytes of it are missing, or were put in"
                )
            }
            LabelOwner::OtherCluster { id, nodes } => {
                write!(
                    f,
                    "it is the file of node {id} of {nodes} of another cluster"
                )
            }
            LabelOwner::Leases { machine } => {
                write!(f, "it is the file of the leases of machine {machine}")
            }
            LabelOwner::NoLeases => f.write_str(
                "it is no file of leases: it was never formatted, or its end was cut off",
            ),
        }
    }
}
