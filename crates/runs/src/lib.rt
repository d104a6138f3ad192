//! Runs of a whole cluster, as one list of steps of its nodes and its network, what a run reports, and the laws of all runs.
//!
//! The definitions stand in `specs/`, over the histories of nodes, and speak of no disk and of no code. The laws are contracts of
//! functions that do nothing. [`Outcome`] is what comes of an act, and [`AttemptAt`] a command in a report, as code has them.
//!
//! ```
//! left_by_a_run();                                                // from here on a proof has the laws of the run behind a cluster
//! match cluster.step(act)? {
//!     Outcome::Done { first, many, .. } => {}                     // the messages of the numbers from first on were sent, so many
//!     Outcome::Refused(why) => eprintln!(rt; "refused: {why}")?,  // nothing changed
//!     Outcome::Faulted => {}                                      // the device failed in it: the node is down
//! }
//! ```
#![tactic(auto)]

mod attempt_at;
mod laws;
mod outcome;

pub use attempt_at::AttemptAt;
pub use laws::{
    acknowledged_is_kept, acts_are_exact, acts_are_reported, acts_do_as_answered,
    answered_is_acknowledged, every_schedule, goes_on, groups_given, ids_are_new,
    jobs_have_one_worker, kept, left_by_a_run, no_strangers, number_is_a_fence,
    number_names_the_leader, numbers_are_new,
};
pub use outcome::{ActRefusal, Outcome};
