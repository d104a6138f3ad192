// What comes of the events of a node with its disk.
use node_core::{Event, Refusal};

/// What came of an event, of a crash or of a recovery.
#[derive(Clone, Copy, Debug, PartialEq, Eq)]
pub enum HistoryEvent {
    /// The event was handled.
    Did(Event),
    /// The event was refused, for this reason.
    Refused(Event, Refusal),
    /// The device failed in the command that the event wants.
    Faulted(Event),
    /// Nothing came of it.
    NoOp(NoOpKind),
    /// The node crashed, or the device failed in a compaction.
    Crashed,
    /// A node that was Down mounted its disk and recovered. Whether the command in doubt was on it.
    Recovered(bool),
    /// A node that was Down couldn't mount its disk, since the device failed.
    MountFailed,
    /// A node that was Down mounted its disk, and the device failed in the raise. Whether the command in doubt was on
    /// there, as in what follows.
    RaiseFailed(bool),
    /// A node that was Down mounted its disk, which had the greatest counter there is.
    RaiseRefused(bool),
}

/// What leaves a node and its disk as they are.
#[derive(Clone, Copy, Debug, PartialEq, Eq)]
pub enum NoOpKind {
    /// The device was armed, or a poll found nothing.
    Nothing,
    /// The journal was compacted.
    Compacted,
    /// A compaction was refused, since the node is Down.
    CompactDown,
    /// A compaction was refused, since the journal has changed its area as often as it can.
    CompactAreaExhausted,
}
