//! The nodes of a cluster, the groups that they form, and the task that a group shares.
//!
//! A group is named by its number, its members are a set of nodes, and each queue of jobs belongs
//! to one of them. The names follow Garcia-Molina, "Elections in a distributed computing system"
//! (1982).
//!
//! ```
//! let group = GroupNo::new(leader, 3).unwrap();
//! let task = share(group, Members::below(4));                     // nodes 0 to 3 share the queues
//! let owner = owner(&task, queue);                                // the one of them that works on the jobs of this queue
//! ```
#![tactic(auto)]

mod group;
mod laws;
mod members;
mod node;
mod shares;
mod task;

pub use group::GroupNo;
pub use laws::limits;
pub use members::{Iter, Members};
pub use node::{NODES, NodeId};
pub use shares::{even_shares, one_owner};
pub use task::{Task, owner, share};
