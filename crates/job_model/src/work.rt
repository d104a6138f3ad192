use crate::payload::Payload;
use crate::queue::Queue;

/// What a job asks to be done, and by whom: all of it but its id.
#[derive(Clone, Copy, Debug, PartialEq, Eq)]
pub struct Work {
    /// The queue whose owner works on it.
    pub queue: Queue,
    /// Of the jobs that are pending those of the highest priority are sent first; 0 is the lowest.
    pub priority: u8,
    /// What there is to do, which nothing here looks into.
    pub payload: Payload,
}
