//! Traces of a cluster, and whether some order of their entries is a run.
//!
//! ```
//! let trace = trace_text::read(alloc, text)?;
//! match check(alloc, &trace)? {
//!     Verdict::Run(order) => {}                                   // the nodes in the order in which their entries were taken
//!     Verdict::NotARun(node, index) => {}                         // the least node with entries left, and its next; `examine` says why
//! }
//! ```
#![tactic(auto)]

mod checking;
mod contradiction;
mod durable_state;
mod following;
mod history;
mod kept;
mod laws;
mod lazy_node;
mod leaving;
mod leftover;
mod lent_action;
mod node_model;
mod order;
mod search;
mod sent_messages;
mod stored;
mod trace;

pub use checking::{Examined, check, examine};
pub use contradiction::{Contradiction, MOST_ENTRIES, contradiction_at, core_at};
pub use following::is_order;
pub use history::{EntryView, History, Sent, keep_messages};
pub use kept::{PackedEvent, event_said, keep_event, read_event};
pub use laws::{
    holdups_hold, leftovers_stop, none_complete, none_goes_further, orders_are_bundles,
    turns_go_on, verdicts_decide,
};
pub use leftover::{Holdup, Leftover};
pub use lent_action::{ActionRef, EventRef};
pub use node_model::NodeModel;
pub use order::Order;
pub use trace::{RecoverFault, Trace, TraceAction, Verdict};
