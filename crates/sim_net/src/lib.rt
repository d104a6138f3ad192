//! The network of a simulated cluster: every message that was ever sent stays and may come again, or be lost, and pairs
//! of nodes may be cut from one another.
//!
//! ```
//! let mut net = Net::new(alloc);
//! let number = net.send(&message)?;                               // 0: it stays, and may come any number of times
//! net.cut(a, b);
//! let came = net.deliver(number);                                 // an error while its ends are cut from one another
//! ```
#![tactic(auto)]

mod fault;
mod laws;
mod net;

pub use fault::NetFault;
pub use laws::delivered_by_changes;
pub use net::Net;
