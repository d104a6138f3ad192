//! Traces as JSON text.
//!
//! A trace is an object with `nodes` and `histories`, and an entry an object with `do`, `sent` and the fields that its `do` names:
//! docs/SIMULATION.md has them all. The definitions in `specs/` say which trace a text is, as functions of the value that `serde_json`
//! reads in it.
//!
//! ```
//! let trace = read(alloc, text)?;                                 // or which entry is the first that can't be read
//! let verdict = check(alloc, &trace)?;                            // trace_check's
//! let text = write(alloc, &trace)?;                               // compact JSON, which reads back as this trace
//! ```
#![tactic(auto)]

mod fault;
mod fields;
mod ordered;
mod parts;
mod reading;
mod stream;
mod telling;
mod told;
mod values;
mod writable;
mod writing;

pub use fault::{Location, TraceFault, WriteFault};
pub use ordered::{end_ordered, read_order, write_ordered};
pub use parts::{begin_items, begin_trace, end_items, end_trace, push_item};
pub use stream::read;
pub use telling::{Said, Telling, Tellings};
pub use told::read_tellings;
pub use writing::{
    action_name, begin_entry, begin_handled, end_entry, write, write_spelled, write_text,
};
