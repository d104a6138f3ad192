//! The command `threads`: plans in, the trace of a run in threads out.
//!
//! Plans are lines, each a turn of one worker of one node (`specs/Scripts`). They are run by `node_threads`, and the histories of that run
//! are printed as a trace, entry by entry (`specs/Texts`), and where that is asked for with the order in which they came (`specs/Ordering`).
//!
//! ```
//! let setup = read_plans(alloc, &input)?;                          // cluster 3 8, links 16, 0 operator submit 3 6869 ..
//! let run = run_threads(rt, alloc, setup.size, &setup.plans, &gate)?;
//! let trace = trace_of(alloc, &run)?;
//! let order = order_of(alloc, &run)?;                              // the order in which its turns were taken
//! ```
#![tactic(auto)]

mod fields;
mod kind;
mod lines;
mod ordering;
mod parsing;
mod planning;
mod reading;
mod reasons;
mod running;
mod tracing;
mod turn;
mod writing;

pub use kind::TraceKind;
pub use ordering::order_of;
pub use reading::{Setup, read_plans};
pub use running::threads;
pub use tracing::trace_of;
pub use turn::PlanTurn;
