//! A process that votes for leases and asks for them, fed with lines of text and answering by lines. A session is a value: it is fed with
//! bytes, however they are cut, and its text is what is to be written.
//!
//! ```
//! let terms = LeaseTerms::new(machine, 3, list, keeps_for(20))?;
//! let mut session = LeaseSession::begin(alloc, terms, 20, Start { process, floor, waits }, file)?;
//! session.feed(b"acquire 5000 backup 7\n")?;
//! output.write_all(session.text())?;                              // send 1 .., send 2 .., next 5080
//! session.clear();
//! ```
#![tactic(auto, using(crate::proofs::Turns::stay, crate::proofs::Turns::stayed, crate::proofs::Turns::fell, crate::proofs::Bounds::bound_kept, crate::proofs::Bounds::bound_quiet, crate::proofs::Bounds::within_still, crate::proofs::Bounds::within_quiet))]

mod acting;
mod asked;
mod asking;
mod beginning;
mod key;
mod laws;
mod participant;
mod pause;
mod process;
mod refusing;
mod seals;
mod sending;
mod serving;
mod session;
mod store;
mod told;
mod voting;
mod want;
mod writing;

pub use key::{lease_key, leases_are_apart};
pub use laws::{any_clearing, any_cutting, lines_are_steps, turns_are_steps};
pub use pause::keeps_for;
pub use process::{LeaseProcess, Start};
pub use refusing::{Halt, Refusal};
pub use seals::LeaseSeal;
pub use serving::{LeaseEnd, serve_leases};
pub use session::LeaseSession;
pub use store::{EpochStore, ReserveFault};
