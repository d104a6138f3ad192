//! Pending jobs, lent as they are kept.

ghost use Rattle.std.specs.Prelude.{◌≡◌, ◌↔◌, [], length, slice_get, IsTrue};
ghost use Rattle.std.specs.Iterator.{YieldsFirst, item_count};

use crate::job_list::{JobList, KeptIter};
use crate::job_ref::JobRef;
use std::marker::Model;

/// The pending jobs of a table, in order of id, lent.
#[derive(Debug, Drop)]
pub struct PendingJobs<'a> {
    pub(crate) list: &'a JobList,
}

impl<'a> Model for PendingJobs<'a> {
    ghost use Rattle.std.specs.Prelude.{List};
    ghost use Rattle.job_model.specs.JobLists.{jobs_of};
    ghost use Rattle.job_model.specs.declared.job.Job.{Job};

    ghost Value = { List Job };

    ghost view = { λ a. jobs_of a.list.now.jobs };
}

impl<'a> PendingJobs<'a> {
    /// How many jobs there are.
    #[inline]
    pub fn len(&self) -> usize
        ensures { result ≡ length self.now }
    {
        self.list.len()
    }

    /// Whether there is none.
    #[inline]
    pub fn is_empty(&self) -> bool
        ensures { IsTrue result ↔ (self.now ≡ []) }
    {
        self.list.len() == 0
    }

    /// The job at a place, counted from 0.
    #[inline]
    pub fn get(&self, place: usize) -> Option<JobRef<'a>>
        // Promise: A list of jobs that is lent is the list: how many there are, each of them at its place, and one after another.
        // Also: PendingJobs::len, PendingJobs::is_empty, PendingJobs::iter.
        // Refuses: next_pending_job_lent, one_pending_job_is_none.
        ensures { result ≡ slice_get self.now place }
    {
        Some(self.list.get(place)?.job)
    }

    /// The jobs one after another.
    #[inline]
    pub fn iter(&self) -> PendingIter<'a>
        ensures { result ≡ self.now }
    {
        PendingIter {
            left: self.list.iter(),
        }
    }
}

impl<'a> IntoIterator for PendingJobs<'a> {
    type Item = JobRef<'a>;

    type IntoIter = PendingIter<'a>;

    ghost into_iter_gives = { λ s r. r ≡ s };

    #[inline]
    fn into_iter(self) -> PendingIter<'a> {
        self.iter()
    }
}

/// The pending jobs, from the first on.
#[derive(Debug, Drop)]
pub struct PendingIter<'a> {
    left: KeptIter<'a>,
}

impl<'a> Model for PendingIter<'a> {
    ghost use Rattle.std.specs.Prelude.{List};
    ghost use Rattle.job_model.specs.JobLists.{jobs_of};
    ghost use Rattle.job_model.specs.declared.job.Job.{Job};

    ghost Value = { List Job };

    ghost view = { λ a. jobs_of a.left };
}

impl<'a> Iterator for PendingIter<'a> {
    type Item = JobRef<'a>;

    ghost next_gives = { YieldsFirst (λ s. s) };

    ghost remaining = { item_count (λ s. s) };

    #[inline]
    fn next(&mut self) -> Option<JobRef<'a>> {
        Some(self.left.next()?.job)
    }
}
