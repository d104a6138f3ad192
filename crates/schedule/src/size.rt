use crate::act::Act;

/// For how many messages a link between two nodes that run in threads has room at least.
pub const LEAST_CAPACITY: u64 = 1;

/// For how many messages such a link has room at most.
pub const MOST_CAPACITY: u64 = 65_536;

/// How many acts a schedule has at most.
pub const MOST_ACTS: u64 = 65_536;

/// The size of a cluster.
#[derive(Clone, Copy, Debug, PartialEq, Eq)]
pub struct Size {
    /// How many nodes it has: 1 to 128.
    pub nodes: u8,
    /// How many slots each node's journal has: from `LEAST_SLOTS` to `MOST_SLOTS`.
    pub slots: u64,
}

/// A cluster, and what happens in it.
#[derive(Debug, Drop)]
pub struct Schedule {
    pub size: Size,
    pub acts: Vec<Act>,
}
