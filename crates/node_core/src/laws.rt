//! The order in which pending jobs are dispatched: the contract of a function that does nothing.

ghost use Rattle.std.specs.Prelude.{◌≡◌, ◌<◌, ℕ, List, length, All};
ghost use Rattle.std.specs.List.{AllPairs, Contains};
ghost use Rattle.job_model.specs.declared.job.Job.{Job};
ghost use Rattle.job_model.specs.Order.{IsInOrder};
ghost use Rattle.node_core.specs.Priorities.{by_priority, GoesBefore};

/// The jobs by priority are the pending jobs, each once, since a priority is a byte. Of two jobs that of the greater priority comes
/// first, and of equal ones that of the lower id.
pub fn dispatch_order()
    // Promise: The pending jobs are dispatched each once, of two jobs first that of the greater priority, and of equal ones that of
    // the lower id.
    // Refuses: equal_priorities_by_falling_id.
    ensures pending { (jobs : List Job) → All (Contains jobs) (by_priority jobs) }
    ensures all { (jobs : List Job) → All (λ job. job.work.priority < 256) jobs → All (Contains (by_priority jobs)) jobs }
    ensures as_many { (jobs : List Job) → All (λ job. job.work.priority < 256) jobs → length (by_priority jobs) ≡ length jobs }
    ensures order { (jobs : List Job) (next : ℕ) → IsInOrder jobs next → AllPairs GoesBefore (by_priority jobs) }
{}
