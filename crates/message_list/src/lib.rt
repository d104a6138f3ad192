//! Lists of messages.
//!
//! A message has 464 bytes in memory, whatever it says, since the longest one has to fit in it. Whoever keeps many of them, as
//! the network of a simulation and the two ends of a link do, keeps them in a list of this crate: 16 bytes for each, and what is
//! longer (the task of a Ready, a Work with its payload) in lists beside. A message that is asked for is made once more.
//!
//! ```
//! let mut list = MessageList::new(alloc);
//! list.reserve(1)?;
//! list.push(&message);                                            // 16 bytes, and what is longer beside
//! let again = list.get(0);                                        // the same message, made once more
//! ```
#![tactic(auto)]

mod lent;
mod list;
mod opened;
mod packed_message;
mod spelling;

pub use lent::LentMessage;
pub use list::MessageList;
