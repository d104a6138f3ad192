//! The workers of a node.

/// Who takes a turn at a node.
#[derive(Clone, Copy, PartialEq, Eq, Debug)]
pub enum Worker {
    /// Polls one link a turn.
    Intake,
    /// Fires timers.
    Clock,
    /// Submits and finishes jobs, arms the disk, crashes and recovers the node.
    Operator,
}

/// How many turns each worker has taken.
#[derive(Clone, Copy, PartialEq, Eq, Debug)]
pub struct Turns {
    pub intake: usize,
    pub clock: usize,
    pub operator: usize,
}
