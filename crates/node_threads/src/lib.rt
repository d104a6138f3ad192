//! Runs the nodes of a cluster in threads: three workers for each node, a lock for each node, a ring for each link.
//!
//! No fact goes from thread to thread. What each lock gives back once all workers have ended is true of its node alone;
//! [`run_threads`] compares that with what the run began with, gathers the links, and so answers for the whole run.
//!
//! ```
//! let run = run_threads(rt, alloc, size, &plans, &gate)?;          // three threads a node, which all have ended then
//! for history in &run.histories {
//!     judge(history);
//! }
//! ```
#![tactic(auto)]

mod ended;
mod ends;
mod fault;
mod gathering;
mod laws;
mod plans;
mod run;
mod size;
mod wiring;
mod workers;

pub use fault::ThreadsFault;
pub use laws::faults_have_failures;
pub use plans::poll_others;
pub use run::{Gathered, run_threads};
pub use size::RunSize;
