use crate::work::Work;

/// A change of the table of jobs.
///
/// A node hands one to its disk, which answers with the id, and applies it to the table once it is
/// kept there.
#[derive(Clone, Copy, Debug, PartialEq, Eq)]
pub enum Command {
    /// A job with this work becomes pending, under the next id.
    Put(Work),
    /// The job of this id is done.
    Done(u64),
}
