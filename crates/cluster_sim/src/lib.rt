//! A whole cluster in one process, act by act: nodes with their disks and the network between them, and a report.
//!
//! Each act is a step of a run, as the crate `runs` defines it. The laws of all runs, which stand there, so hold of every report. What came
//! of a schedule's acts is also written as a trace that a checker can judge: `specs/Traced` says which entry stands for what came.
//!
//! ```
//! let schedule = read_schedule(alloc, b"cluster 2 8\ncheck 1\ndeliver 0\n")?;
//! let size = schedule.size;
//! let (report, net) = run(alloc, size.nodes, size.slots, schedule.acts)?;
//! for moment in &report.moments {}                                // one for each act: its node, its outcome, what that node knows then
//! ```
#![tactic(auto)]

mod act_report;
mod actions;
mod acts;
mod bringing;
mod cluster;
mod member;
mod naming;
mod nodes;
mod recording;
mod report;
mod tracing;
mod world;

pub use act_report::ActReport;
pub use cluster::{Cluster, run};
pub use report::{Moment, Mounted, Report};
pub use runs::{ActRefusal, AttemptAt, Outcome};
pub use tracing::{Recorded, record_of, trace_of};
pub use world::World;
