use job_model::Work;

/// The durable command that a plan wants. The caller carries it out, on its disk, before the plan is committed.
#[derive(Clone, Copy, Debug, PartialEq, Eq)]
pub enum Wanted {
    /// No command: the answer handed to the commit is not used.
    None,
    /// The counter of groups rises by one. The answer is the new count.
    Raise,
    /// A job becomes pending. The answer is its id.
    Put(Work),
    /// The job of this id, which is pending, is done.
    Done(u64),
}

/// The command that a plan wants, named as [`Wanted`] does, with a job that stays where it is: a job takes over 400 bytes.
#[derive(Clone, Copy, Debug)]
pub enum WantedRef<'a> {
    /// No command.
    None,
    /// The counter of groups rises by one.
    Raise,
    /// This job becomes pending.
    Put(&'a Work),
    /// The job of this id, which is pending, is done.
    Done(u64),
}
