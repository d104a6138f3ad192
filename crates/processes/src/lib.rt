//! Laws of the processes of a cluster: what holds of all that `invite node` prints, of any number of processes of each node, one
//! after another over its file.
//!
//! The definitions stand in `specs/`: `Processes` and `Files` have the premises, `Printed`, `Answers`, `Groups` and `Jobs` the laws. These are
//! contracts of functions that do nothing.
#![tactic(auto)]

mod laws;

pub use laws::{
    files_have_one_book, files_keep_jobs, processes_are_a_cluster, processes_happen,
    sessions_are_processes,
};
