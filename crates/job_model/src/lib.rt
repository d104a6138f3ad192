//! Jobs, the commands that make them pending and done, and the table of those that are pending.
//!
//! What a node keeps where failures don't erase it is the fold of its commands: `specs/` has that
//! definition, and [`JobTable::apply`] is one step of it.
//!
//! ```
//! let mut table = JobTable::with_room(alloc, 4)?;
//! let id = table.apply(Command::Put(work));                       // 0, and pending
//! table.apply(Command::Done(id));                                 // pending no more; no later job gets its id
//! ```
#![tactic(auto)]

mod command;
mod gap;
mod job;
mod job_list;
mod job_ref;
mod kept_job;
mod laws;
mod new_job;
mod node_command;
mod payload;
mod pending;
mod queue;
mod record;
mod table;
mod work;

pub use command::Command;
pub use job::Job;
pub use job_list::{JobList, KeptIter};
pub use job_ref::JobRef;
pub use kept_job::KeptJob;
pub use laws::limits;
pub use new_job::NewJob;
pub use node_command::NodeCommand;
pub use payload::{PAYLOAD_CAPACITY, Payload};
pub use pending::{PendingIter, PendingJobs};
pub use queue::{QUEUES, Queue};
pub use record::{Record, old_records, one_sector};
pub use table::JobTable;
pub use work::Work;
