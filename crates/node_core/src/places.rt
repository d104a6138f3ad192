ghost use Rattle.std.specs.Prelude.{IfOk};
ghost use Rattle.node_core.specs.Places.{ArePlacesFrom};

use job_model::PendingJobs;
use std::alloc::{AllocError, Global};

/// Where the pending jobs of each priority stand in their list. Where there is no such job, the place is the list's end.
#[derive(Drop)]
pub struct Places {
    /// For each priority the place of its first job.
    pub first: [usize; 256],
    /// For each job the place of the next one of its priority.
    pub next: Vec<usize>,
}

/// Goes over the jobs once, from the last to the first.
pub fn places_of(alloc: Global, jobs: &PendingJobs<'_>) -> Result<Places, AllocError>
    ensures { IfOk result (λ places. ArePlacesFrom jobs.now 0 places.first places.next.items) }
{
    let end = jobs.len();
    let mut first = [end; 256];
    let mut next = vec![in alloc; end; end]?;
    for at in (0..end).rev() {
        let priority = usize::from(jobs.get(at).unwrap().priority());
        next[at] = first[priority];
        first[priority] = at;
    }
    Ok(Places { first, next })
}
