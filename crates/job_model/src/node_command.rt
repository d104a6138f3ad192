use crate::work::Work;

/// What a node asks of its disk.
#[derive(Clone, Copy, Debug, PartialEq, Eq)]
pub enum NodeCommand {
    /// The counter of groups rises by one.
    Raise,
    /// A job becomes pending.
    Put(Work),
    /// The job of this id, which is pending, is done.
    Done(u64),
}
