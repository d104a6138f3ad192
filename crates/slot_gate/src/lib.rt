//! Slots of a disk: a body sector, and behind it a gate sector that says whether the slot is
//! sealed.
//!
//! A body that is torn by a crash is never taken for one that was stored: the gate is opened before
//! the body is written, and sealed by a write of its own once the body is synced.
//!
//! ```
//! store(&mut disk, 2, sealed, &body)?;                            // unseals, writes the body, syncs, and seals by a write of its own
//! let body = look(&mut disk, 2)?;                                 // after a crash: the whole body or None, never a torn one
//! ```
#![tactic(auto)]

mod change;
mod left;
mod row;
mod slot;

pub use change::store;
pub use left::{fill_later, seal_later, unseal_later};
pub use row::unseal_all;
pub use slot::{fill, look, seal, unseal};
