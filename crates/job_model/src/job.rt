use crate::work::Work;

/// A job that is kept until it is done.
#[derive(Clone, Copy, Debug, PartialEq, Eq)]
pub struct Job {
    /// What tells it from all other jobs that its node ever kept.
    pub id: u64,
    /// What there is to do.
    pub work: Work,
}
