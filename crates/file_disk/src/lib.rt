//! A disk of sectors over a real file.
//!
//! ```
//! let mut disk = FileDisk::create(rt, "node.disk", 24)?;          // locked for as long as it is open
//! disk.write(3, &sector)?;
//! disk.sync()?;                                                   // the file's bytes are on the device
//! ```
#![tactic(auto)]

mod disk;
mod fault;
mod label;
mod making;
mod places;
mod reading;
mod stride;
mod watching;
mod zeros;

pub use disk::FileDisk;
pub use fault::OpenFault;
pub use label::{
    LABEL, MARK, NAME, OLDER_LABEL, is_of_a_node, mark_in, marked_label, read_label, slots_in,
    stride_in,
};
pub use making::put_in_place;
pub use reading::open_to_read;
pub use stride::Stride;
pub use watching::FileWatch;
