//! A sector of a disk as bytes, and how many sectors a store takes.
//!
//! ```
//! let sectors = sectors_for(64);                                  // 264, where each of the two areas has 64 slots
//! let is_short = is_blank(&sector, 32);                           // whether its bytes from 32 on are zeros
//! ```
#![tactic(auto)]

mod block;
mod laws;
mod layout;

pub use block::{Sector, is_blank, is_zero_block};
pub use laws::limits;
pub use layout::{LEAST_SLOTS, MOST_SLOTS, sectors_for};
