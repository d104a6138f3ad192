//! A machine that keeps leases of many names: how it votes on each name, and who asks here.
//! Each call takes a step of the voter or of the client of one name, as `lease_runs` has it, and leaves every other name as it was,
//! but that an ended grant may be forgotten.
//!
//! ```
//! let terms = LeaseTerms::new(machine, 3, 1, 2_000)?;                       // None: no margin for clocks, or no such machine
//! let mut machine = LeaseMachine::begin(alloc, terms, process, now, floor, bound)?;
//! machine.vote(now, &name, client, epoch);                                  // Granted, Refused or Full
//! ```
#![tactic(auto)]

mod claiming;
mod entries;
mod laws;
mod machine;
mod name_entry;
mod standing;
mod state;
mod terms;
mod voting;

pub use claiming::ClaimRefusal;
pub use laws::names_stand;
pub use name_entry::{Claim, NAMES, NameEntry};
pub use standing::Standing;
pub use state::LeaseMachine;
pub use terms::LeaseTerms;
pub use voting::Vote;
