//! What is answered where a file can't be had.

ghost use Rattle.std.specs.Prelude.{◌≡◌};
ghost use Rattle.store_console.specs.Barring.{IsBarBy, barred};
ghost use Rattle.store_console.specs.Replies.{HasFailed};

use crate::reply::Reply;
use file_disk::{LABEL, OpenFault, is_of_a_node};
use node_store::StoreFault;
use std::io;

/// What is answered where the file isn't made, opened or read.
pub fn barred(fault: OpenFault) -> Reply
    // Promise: Where the opening or the making of a file was refused as locked, and only there, it is answered as `Locked`; where it was
    // refused otherwise it is answered as `Device`.
    // Also: mount_opened, make_over, finish.
    // Refuses: locked_is_a_failed_device, every_bar_is_locked, old_file_is_locked, unmade_file_is_locked.
    ensures { result ≡ barred fault }
{
    match fault {
        OpenFault::Locked => Reply::Locked,
        OpenFault::Exists(_)
        | OpenFault::NotFound(_)
        | OpenFault::Denied(_)
        | OpenFault::Folder(_)
        | OpenFault::NotAFile
        | OpenFault::Unusable(_)
        | OpenFault::NoRoom(_)
        | OpenFault::Device(_) => Reply::Barred(fault),
    }
}

/// Why a file with this label, or with none, is no store's: it is a node's, or its label can't be read.
pub fn bar_by(label: io::Result<Option<[u8; LABEL]>>) -> Option<Reply>
    // Promise: A file is answered as `Foreign` exactly where its label is that of a node's file.
    // Refuses: any_file_is_foreign.
    ensures { IsBarBy label result }
{
    match label {
        Ok(label) if is_of_a_node(label) => Some(Reply::Foreign),
        Ok(_) => None,
        Err(error) => Some(barred(OpenFault::from(error))),
    }
}

/// What is answered where the device failed, and the system said this, if anything.
pub fn failed(why: Option<io::Error>) -> Reply
    ensures { HasFailed result }
{
    match why {
        Some(error) => Reply::Barred(OpenFault::Device(error)),
        None => Reply::Unmounted(StoreFault::Device),
    }
}
