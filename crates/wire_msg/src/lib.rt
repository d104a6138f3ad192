//! Messages between nodes, and their bytes: each message has one spelling (docs/FORMATS.md), and a stream of them
//! may be cut into pieces anywhere.
//!
//! ```
//! let ask = Message::new(alice, bob, Body::AreYouCoordinator)?;   // None: a message has two ends
//! let bytes = encode(alloc, &ask)?;
//! assert!(decode(&bytes) == Ok(ask));
//!
//! let mut stream = Stream::new(alloc);
//! stream.feed(&piece, &mut messages)?;                            // adds the messages that are whole by now, and keeps the rest
//! ```
#![tactic(auto)]

mod body;
mod cutting;
mod fault;
mod laws;
mod message;
mod reading;
mod short;
mod stream;
mod version;
mod writing;

pub use body::{BODY_CAPACITY, Body, Form, LentWork};
pub use cutting::decode_front;
pub use fault::WireFault;
pub use laws::{any_cutting, limits, message_of_spelling, one_reading, one_spelling};
pub use message::Message;
pub use reading::{decode, decode_into};
pub use short::{Kind, Short};
pub use stream::Stream;
pub use version::NARROW_NODES;
pub use writing::{encode, encode_into, encode_short_into};
