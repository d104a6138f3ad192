//! The file of a machine that keeps leases: how many blocks of epochs its processes have taken, and for how long they kept grants at most. A
//! stop at any moment leaves it as it was, or as it is after the call.
//!
//! ```
//! let mut disk = MemDisk::new(alloc, SECTORS)?;
//! format(&mut disk, 0)?;
//! let mut file = LeaseFile::mount(disk)?;
//! let begun = file.begin(2000)?;                                  // process 1: epochs above begun.floor, up to begun.bound
//! file.reserve(begun.bound + 1)?;                                 // one block more
//! ```
#![tactic(auto)]

mod blocks;
mod fault;
mod file;
mod formatting;
mod laws;
mod mounting;

pub use fault::LeaseFault;
pub use file::{Begun, LeaseFile};
pub use formatting::format;
pub use laws::{FileCall, begin_after, begin_after_stop};
pub use mounting::{MountFault, SECTORS};
