//! The commands of traces. `trace`: a trace in, or several files that make one, the verdict on it out, and why no order takes all entries where none
//! does. `turns`: a trace in, the turns of the run out, and how the node of each stands then. `judge_prefixes`: entries in as they come, and the
//! verdict on all of them out where that is asked for.
//!
//! ```
//! let ended = trace(alloc, Stage::Over, &mut input, &mut output); // a line: Run, or NotARun with the place of an entry
//! ```
#![tactic(auto)]

mod answers;
mod appending;
mod comparing;
mod contradicting;
mod files;
mod judging;
mod node_answers;
mod node_states;
mod ongoing;
mod prefixes;
mod reporting;
mod told;
mod turn;
mod turning;
mod walk;

pub use answers::{FalseAnswer, answers_decide};
pub use contradicting::contradiction;
pub use files::{TraceFile, trace_files};
pub use judging::{Stage, trace, untold_is_judged_alone};
pub use prefixes::judge_prefixes;
pub use turn::{Stand, Turn};
pub use turning::turns;
