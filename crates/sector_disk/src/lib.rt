//! Disks of sectors of 512 bytes, what a crash may leave of one, and a disk in memory that fails
//! and crashes on demand.
//!
//! ```
//! let mut disk = MemDisk::new(alloc, 8)?;
//! disk.write(3, &sector)?;                                        // read back at once, and not yet safe
//! disk.sync()?;                                                   // now it is
//! disk.crash(&[]);                                                // what was not synced may be lost, kept or torn
//! ```
#![tactic(auto)]

mod crash_fill;
mod disk;
mod fault;
mod front;
mod memory;
mod notes;
mod overwritten;
mod sector;
mod sectors;

pub use crash_fill::CrashFill;
pub use disk::SectorDisk;
pub use disk_layout::Sector;
pub use fault::DiskFault;
pub use memory::MemDisk;
