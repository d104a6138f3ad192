use crate::job_ref::JobRef;

/// A job of a list, lent.
#[derive(Debug, Drop)]
pub struct KeptJob<'a> {
    /// The number of the node that keeps the job until it is done.
    pub origin: u8,
    pub job: JobRef<'a>,
}
