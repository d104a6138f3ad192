//! The commands over files. `store`: lines that ask something of a store over a file in, what each was answered out. `inspect` and `export`: what
//! the bytes of a file hold, whether a node's or a store's; nothing is locked, and nothing is written. And the jobs that a file is made with,
//! from the lines that `export` prints.
//!
//! ```
//! let ended = store(rt, alloc, path, &mut input, &mut output);     // mount, put 3 6869, list ..; each is answered
//! let ending = inspect(alloc, Shown::Jobs, &mut file, &mut output);
//! let ended = salvage(alloc, &mut file, &mut output);              // the jobs of a file that is damaged, and what can't be read of it
//! let table = read_jobs(alloc, slots, next, &bytes)?;              // the lines that were printed, for a file that is made with them
//! ```
#![tactic(auto)]

mod acting;
mod barring;
mod copying;
mod explaining;
mod finding_text;
mod findings;
mod flaw;
mod found;
mod found_text;
mod inspecting;
mod laws;
mod looking;
mod making;
mod near_record;
mod parsing;
mod reading;
mod reasons;
mod reply;
mod request;
mod restoring;
mod running;
mod salvage_reading;
mod salvaging;
mod slot_content;
mod text;
mod unheard;
mod verifying;

pub use flaw::{JobFlaw, job_flaw};
pub use inspecting::{Shown, inspect};
pub use laws::sound_is_silent;
pub use restoring::{no_jobs, read_jobs};
pub use running::store;
pub use salvaging::salvage;
pub use unheard::has_unsealed_number;
