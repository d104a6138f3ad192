//! A number on a disk that only grows: a raise that is cut at any moment leaves it as it was before
//! or one greater.
//!
//! ```
//! let mut disk = MemDisk::new(alloc, 8)?;
//! format(&mut disk, 4, 0)?;                                       // sectors 4 to 7 hold 0
//! let mut cell = mount(&mut disk, 4)?;
//! let value = cell.raise(&mut disk)?;                             // 1, and on the disk; a mounting after a crash gives 0 or 1 till then
//! ```
#![tactic(auto)]

mod beginning;
mod body;
mod cell;
mod fault;
mod formatting;
mod mounting;

pub use beginning::begin;
pub use cell::SafeCell;
pub use fault::CellFault;
pub use formatting::format;
pub use mounting::mount;
