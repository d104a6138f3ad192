//! How a command of the program reads its whole input, prints its text in one go, ends, and says why; and the words that texts are made of.
//!
//! ```
//! let mut input = Source::new(rt.stdin());
//! let mut output = Sink::new(rt.stdout());
//! let outcome = outcome_of(alloc, &mut input, |bytes| answer_to(alloc, &bytes));
//! let ending = print(&mut output, outcome);                        // one write; input.fault() and output.fault() say what failed
//! ExitCode::from(ending.status())
//! ```
#![tactic(auto)]

mod ends;
mod input;
mod pages;
mod printing;
mod progress;
mod reasons;
mod sink;
mod source;
mod words;

pub use ends::{CommandError, Ended, ExitKind, IoTrouble, Output};
pub use input::{outcome_of, read_source};
pub use pages::{Unprinted, new_page, print_full, print_page, print_part};
pub use printing::{bad_line, print, print_explained};
pub use reasons::{line_reason, push_unknown};
pub use sink::Sink;
pub use source::{MAX_READS, Source};
pub use words::{push_bytes_text, push_hex, push_named_number, push_number, push_text, push_work};
