//! Messages between the machines that keep leases: each message has one spelling (docs/FORMATS.md).
//!
//! ```
//! let bytes = encode(alloc, &message)?;
//! assert!(decode(&bytes) == Some(message));
//! ```
#![tactic(auto)]

mod laws;
mod lease_name;
mod message;
mod reading;
mod writing;

pub use laws::one_spelling;
pub use lease_name::{LeaseName, NAME_CAPACITY};
pub use message::{LeaseBody, LeaseClient, LeaseMessage, Reason};
pub use reading::decode;
pub use writing::encode;
