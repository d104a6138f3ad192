//! Schedules as text: a line for each act.
//!
//! ```
//! let schedule = read_schedule(alloc, b"cluster 3 8\ncheck 0\ndeliver 1\n")?;
//! let size = schedule.size;                                       // 3 nodes over areas of 8 slots
//! for act in &schedule.acts {}                                    // the timer `check` at node 0, and message 1 comes
//! ```
#![tactic(auto)]

mod act;
pub mod fields;
mod flaw;
mod laws;
mod parsing;
mod reading;
mod size;
mod verb;

pub use act::{Act, Submitted};
pub use disk_layout::{LEAST_SLOTS, MOST_SLOTS};
pub use flaw::{Flaw, flaw_in};
pub use laws::limits;
pub use reading::{cluster_size, read_schedule};
pub use size::{LEAST_CAPACITY, MOST_ACTS, MOST_CAPACITY, Schedule, Size};
pub use verb::Verb;
