//! Laws of the processes of leases of a cluster: what holds of all that `invite lease` prints, of any number of processes of each
//! machine, one after another over its file.
//!
//! The definitions stand in `specs/`: `Processes` has the premises, `Printed` the laws. These are contracts of functions that do nothing.
#![tactic(auto)]

mod laws;
mod witness;

pub use laws::{leases_are_one_network, lines_are_told};
pub use witness::one_holds;
