//! A node's process without its file: its disk is made, and it is served over an input and an output. What is read is fed to its session, and
//! what is answered is written.
#![tactic(auto)]

mod formatting;
mod serving;
mod writing;

pub use formatting::format_node;
pub use serving::{DiskWatch, ServingEnd, serve_node};
