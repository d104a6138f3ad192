//! The commands `answer`, `show`, `sim` and `record` of the program `invite`, each a function over a reader and a writer.
//!
//! A command reads its whole input first, then works out what to print, and then prints it in one go: what is written is a
//! stated function of what was read, and an input that can't be read, or for which memory runs out, prints nothing else.
//! A further command is one file with two functions, as [`answer`] and [`show`] are, and one file of `specs/` with its text.
//!
//! ```
//! let ended = sim(alloc, details, &mut input, &mut output);       // a schedule in, a line for each act and the nodes out
//! ```
#![tactic(auto)]

mod acts;
mod answers;
mod details;
mod digits;
mod lines;
mod printing;
mod reasons;
mod recording;
mod rows;
mod running;
mod session;
mod showing;
mod simulating;

pub use answers::{answer, needs_no_disk};
pub use console_text::ExitKind;
pub use details::Details;
pub use recording::record;
pub use showing::show;
pub use simulating::sim;
