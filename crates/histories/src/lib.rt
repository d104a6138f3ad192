//! What may come of the events of a node with its disk, the histories of nodes, and the laws of all histories.
//!
//! A history lists what came of a node's events, crashes and recoveries. The definitions stand in `specs/`, over the table of
//! the node's state machine, and speak of no disk: which command was kept is part of an entry. The laws are contracts of
//! functions that do nothing. [`HistoryEvent`] is what came of an event, as code has it; [`EventOutcome`] and [`CommandKind`] say it to who has
//! the event, in a few bytes.
//!
//! ```
//! let came = node.step(&event)?;                                  // a `StepReport` of `durable_node`
//! let entry = came.event_outcome.what(&event);                    // the entry of the node's history
//! if let Some(kind) = came.tried {
//!     let command = kind.command(submitted(&event));              // the whole command that was tried on the disk
//! }
//! ```
#![tactic(auto)]

mod attempt;
mod command_kind;
mod event_outcome;
mod history_event;
mod laws;

pub use attempt::Attempt;
pub use command_kind::{CommandKind, submitted};
pub use event_outcome::EventOutcome;
pub use history_event::{HistoryEvent, NoOpKind};
pub use job_model::NodeCommand as Command;
pub use laws::{
    counts_rise, few_counts, goes_on, kept, one_book, one_coordinator_and_task, owner_finishes,
    senders,
};
pub use node_core::Refusal;
