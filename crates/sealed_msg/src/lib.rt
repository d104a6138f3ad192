//! Messages that only those can make who know the key of their cluster: each goes with a stamp and its HMAC-SHA256 behind it. It doesn't hide what
//! a message says. Who has taken a message keeps its stamp, and takes no other of that sender that isn't above it.
//!
//! ```
//! let key = cluster_key(alloc, secret, nodes, b"orders")?;
//! key.seal(&mut message, Stamp { life, number })?;                // the stamp and a tag are behind the bytes now
//! let opened = key.open(&message)?;                               // None: not sealed under this key, or spoiled
//! let is_new = opened.stamp.is_above(last);                       // else it was recorded, and is sent again
//! ```
#![tactic(auto)]

mod cluster;
mod hmac;
mod laws;
mod life;
mod number;
mod sealing;
mod stamp;

pub use cluster::cluster_key;
pub use hmac::{Key, TAG};
pub use laws::{clusters_are_apart, lives_are_apart, opened_as_sealed};
pub use life::LIFE;
pub use sealing::OpenedMessage;
pub use stamp::{STAMP, Stamp};
