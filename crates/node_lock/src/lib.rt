//! A node with the ends of its links, the plans of its workers and its history, and the lock round it.
//!
//! Three workers take turns at a node: one polls the links, one fires timers, one is the operator. Each turn adds one entry to
//! the history, and the history is always that of the node: replayed from the opening it gives what the node and its disk stand
//! for.
//!
//! ```
//! let held = Held::new(alloc, run, puts, takes, plans, numbers)?;
//! let lock = NodeLock::new(held);
//! while lock.turn(rt, Worker::Clock, &gate)? {}                    // each turn in its thread, until the plan is used up
//! let parts = lock.into_held().into_parts();                       // the history, and the ends of the links
//! ```
#![tactic(auto)]

mod event_list;
mod held;
mod laws;
mod line;
mod links;
mod lock;
mod order;
mod perform;
mod plans;
mod run;
mod turn;
mod turn_log;
mod turn_numbers;
mod worker;

pub use held::{Held, HeldFault, HeldParts, MOST_ENTRIES};
pub use laws::limits;
pub use line::Quiet;
pub use lock::{Gate, NodeLock, TurnFault};
pub use order::OperatorOrder;
pub use plans::Plans;
pub use run::Run;
pub use trace_check::Sent;
pub use turn_log::{Entry, Loss, TurnLog};
pub use turn_numbers::TurnNumbers;
pub use worker::{Turns, Worker};
