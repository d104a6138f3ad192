//! Links between nodes.
//!
//! A link carries messages one way, from one node to another. Its sender holds one end of a ring and its receiver the other:
//! neither waits for the other, and a message for which the ring has no free slot is handed back. Each end lists what went
//! through it; once both are in one thread again, `gather` compares the two lists.
//!
//! ```
//! let (mut put_end, mut take_end) = link(alloc, sender, receiver, 16)?;
//! put_end.reserve(1)?;                                             // room in its list: a put takes no memory
//! let lost = put_end.put(message);                                 // Some(message): the ring is full
//! take_end.reserve(1)?;
//! let taken = take_end.take();                                     // None: nothing is there
//! let link = gather(put_end, take_end)?;                           // Unpaired: they are the ends of two links
//! ```
#![tactic(auto)]

mod carried;
mod gathering;
mod link_log;
mod opening;
mod passed;
mod put_end;
mod slot;
mod take_end;

pub use gathering::{LinkEnd, Unpaired, gather};
pub use link_log::LinkLog;
pub use opening::link;
pub use put_end::PutEnd;
pub use take_end::TakeEnd;
