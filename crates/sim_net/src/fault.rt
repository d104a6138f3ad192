//! Why the network did not do what was asked for.

use thiserror::Error;

/// Why a call of the network was refused. A refusal changes nothing.
#[derive(Clone, Copy, Debug, PartialEq, Eq, Error)]
pub enum NetFault {
    /// No message has this number yet.
    #[error("NoSuch")]
    NoSuch,
    /// The message was lost earlier.
    #[error("Lost")]
    Lost,
    /// The message's two nodes are cut from one another.
    #[error("Cut")]
    Cut,
    /// Memory ran out.
    #[error("no memory")]
    NoMemory,
}
