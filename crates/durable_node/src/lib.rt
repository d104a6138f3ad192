//! A node over its disk.
//!
//! [`DurableNode`] joins the state machine of a node with the store on its disk. Each call answers one entry of the node's history,
//! as the crate `histories` defines it: the list of what came of a node's events, crashes and recoveries. The laws of all
//! histories, which stand there, so hold of every node.
//!
//! ```
//! let mut node = DurableNode::down(alloc, id, nodes, disk);
//! let came = node.recover()?;                                     // mounts the disk; alone in a new group now, unless came.fault() says why not
//! let event = Event::Timer(Timer::Check);
//! let seen = node.seen_before(&event)?;                           // the jobs in hand alone that the event may drop
//! let came = node.step(&event)?;                                  // plans the event, writes and syncs its command, commits it
//! send_all(&came.sent);                                           // only now are there messages
//! let changes = node.changes_since(&seen)?;                       // what is told of its group anew, the jobs taken and those dropped
//! node.reuse(came.sent);                                          // the next step's messages are written into the same memory
//! ```
#![tactic(auto)]

mod advance;
mod carry;
mod changes;
mod compacting;
mod fault;
mod group_view;
mod hand_move;
mod handle;
mod ignore;
mod memory;
mod node;
mod node_disk;
mod remount;
mod setting;
mod step_report;

pub use changes::{Changes, Seen};
pub use fault::NodeFault;
pub use group_view::GroupView;
pub use memory::formatted_disk;
pub use node::DurableNode;
pub use step_report::StepReport;
