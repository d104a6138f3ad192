//! When a node's timers fire: a policy that is told the time and what is seen of a node, and names the event that is due.
//!
//! The protocol bears any firing, so nothing that is promised of nodes rests on a policy. How soon nodes become one group
//! does, and how seldom they give one up without need. Nothing here reads a clock: the caller does, and makes the events.
//!
//! ```
//! let mut policy = TimerPolicy::new(TimerSettings::measured(50), id, seed);
//! policy.pass(now);                                                // milliseconds of any clock that doesn't fall back
//! if let Some(event) = policy.tick(&NodeSnapshot::of(id, &vector, merge_wait, &table.pending())) {
//!     node.step(&event)?;
//! }
//! ```
#![tactic(auto)]

mod deadline;
mod hearing;
mod laws;
mod questions;
mod repeat;
mod retransmission;
mod snapshot;
mod timer_policy;
mod timer_settings;
mod wait;

pub use deadline::Deadline;
pub use laws::{falls_back, fires_once, put_off_once, scales, sent_again_seldom};
pub use questions::{Question, Questions};
pub use retransmission::{MOST_AT_ONCE, Retransmission};
pub use snapshot::NodeSnapshot;
pub use timer_policy::TimerPolicy;
pub use timer_settings::TimerSettings;
pub use wait::Wait;
