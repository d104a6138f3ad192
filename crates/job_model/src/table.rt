ghost use Rattle.std.specs.Prelude.{◌≡◌, ℕ, ◌+◌, ◌-◌, ◌^◌, ◌<◌, ◌≤◌, ◌↔◌, [], ◌∷◌, ◌++◌, length, is_some, IsTrue, IfOk, OnOk, OnErr};
ghost use Rattle.job_model.specs.Answer.{answer_of};
ghost use Rattle.job_model.specs.Fold.{after_command, is_pending, without_job};
ghost use Rattle.job_model.specs.Order.{IsInOrder};
ghost use Rattle.job_model.specs.Table.{CanApply, CanKeep, command_of, durable_of};

use crate::command::Command;
use crate::job::Job;
use crate::job_list::JobList;
use crate::pending::PendingJobs;
use crate::work::Work;
use std::alloc::{AllocError, Global};
use std::marker::Model;

/// The jobs that are pending, in order of id, and the id of the next one.
///
/// Ids begin at 0 and rise by one with each job that is put, so none ever comes again, unless
/// [`JobTable::restart`] begins anew; the greatest is 18446744073709551614. No call but [`JobTable::with_room`] and [`JobTable::reserve`]
/// takes memory.
#[derive(Debug, Drop)]
pub struct JobTable {
    next: u64,
    jobs: JobList,
}

impl Model for JobTable {
    ghost use Rattle.job_model.specs.JobLists.{jobs_of};
    ghost use Rattle.job_model.specs.Order.{IsInOrder};
    ghost use Rattle.job_model.specs.Table.{Table};

    ghost Value = { Table };

    ghost view = { λ a. record { next = a.next; pending = jobs_of a.jobs.jobs; room = a.jobs.room } };

    ghost invariant = { λ a. IsInOrder (jobs_of a.jobs.jobs) a.next };
}

impl JobTable {
    /// An empty table with room for so many pending jobs.
    pub fn with_room(alloc: Global, room: usize) -> Result<JobTable, AllocError>
        // Promise: A new table has no job, begins with id 0, and has the room that was asked for.
        // Refuses: ids_from_1_on, no_room_made.
        ensures { IfOk result (λ table. table ≡ record { next = 0; pending = []; room = room }) }
    {
        Ok(JobTable {
            next: 0,
            jobs: JobList::with_room(alloc, room)?,
        })
    }

    /// An empty table without room, which takes no memory.
    pub fn empty(alloc: Global) -> JobTable
        ensures { result ≡ record { next = 0; pending = []; room = 0 } }
    {
        let first = 0;
        JobTable {
            next: first,
            jobs: JobList::new(alloc),
        }
    }

    /// The id that the next job gets; 18446744073709551615 where no id is left.
    #[inline]
    pub fn next(&self) -> u64
        ensures value { result ≡ self.now.next }
        ensures fits { self.now.next < 2 ^ 64 }
    {
        self.next
    }

    /// The jobs that are pending, in order of id.
    #[inline]
    pub fn pending(&self) -> PendingJobs<'_>
        // Promise: The jobs that are pending stand in order of id, each id once and below the next one; the next id is shown.
        // Also: JobTable::next.
        // Refuses: last_jobs_hidden, next_halved.
        ensures value { result ≡ self.now.pending }
        ensures in_order { IsInOrder self.now.pending self.now.next }
    {
        PendingJobs { list: &self.jobs }
    }

    /// Makes room for so many pending jobs more.
    pub fn reserve(&mut self, more: usize) -> Result<(), AllocError>
        // Promise: A table is given room for more pending jobs, and keeps those that it has; that is refused only where there isn't so
        // much yet, and changes nothing then.
        // Refuses: room_for_half_of_the_pending_jobs.
        ensures jobs { (self.new.next ≡ self.old.next) × (self.new.pending ≡ self.old.pending) }
        ensures kept { self.old.room ≤ self.new.room }
        ensures room { OnOk result (length self.old.pending + more ≤ self.new.room) }
        ensures refused { OnErr result ((0 < more) × (self.old.room < length self.old.pending + more)) }
        ensures unchanged { OnErr result (self.new ≡ self.old) }
    {
        self.jobs.reserve(more)
    }

    /// Whether a job of this id is pending.
    pub fn contains(&self, id: u64) -> bool
        // Promise: A job of an id is pending.
        // Refuses: later_id_contained.
        ensures { result ≡ is_pending self.now.pending id }
    {
        self.jobs.place_of(id).is_some()
    }

    /// Whether [`JobTable::apply`] takes the command: a job finds room and an id, or is pending.
    pub fn can_apply(&self, command: &Command) -> bool
        // Promise: A command can be applied: a job finds room and an id (the greatest is 18446744073709551614), or is pending.
        // Also: JobTable::has_room.
        // Refuses: put_without_room.
        ensures { IsTrue result ↔ CanApply self.now command.now }
    {
        match command {
            Command::Put(..) => self.has_room() && self.next < u64::MAX,
            Command::Done(id) => self.contains(*id),
        }
    }

    /// Whether there is room for one job more.
    pub fn has_room(&self) -> bool
        ensures { IsTrue result ↔ (length self.now.pending < self.now.room) }
    {
        self.jobs.len() < self.jobs.room()
    }

    /// Applies a command in the room that is there, and gives the id that it makes or ends.
    ///
    /// The count of groups, which is kept beside the jobs, stays whatever it is.
    pub fn apply(&mut self, command: Command) -> u64
        requires { CanApply self.old command }
        // Promise: Applying a command is one step of the fold of commands, beside any count of groups; its answer is the id; the
        // room stays; no memory is taken.
        // Also: JobTable::put.
        // Refuses: put_dropped, another_id_given, another_job_done, done_dropped, later_jobs_done_too, id_given_again,
        // place_counted_from_the_gap.
        ensures answer { (counter : ℕ) → result ≡ answer_of (durable_of counter self.old) (command_of command) }
        ensures step { (counter : ℕ) → durable_of counter self.new ≡ after_command (durable_of counter self.old) (command_of command) }
        ensures room { self.new.room ≡ self.old.room }
    {
        match command {
            Command::Put(work) => self.put(&work),
            Command::Done(id) => {
                self.done(id);
                id
            }
        }
    }

    /// Begins anew with no job, and with ids from this one on.
    ///
    /// Compaction writes the next id first: reading it back is this call.
    pub fn restart(&mut self, next: u64)
        // Promise: After a compaction the table begins anew with the next id that was written, and takes the kept jobs over, in
        // order of id and under their ids.
        // Also: JobTable::can_keep, JobTable::keep.
        // Refuses: jobs_outlive_restart, restart_keeps_ids, kept_past_next, kept_twice, kept_job_dropped,
        // jobs_behind_the_gap_not_compared.
        ensures { self.new ≡ record { next = next; pending = []; room = self.old.room } }
    {
        self.jobs.clear();
        self.next = next;
    }

    /// Whether a job that compaction kept may come next: its id is above those that are pending,
    /// and below the next one.
    pub fn can_keep(&self, id: u64) -> bool
        ensures { IsTrue result ↔ CanKeep self.now id }
    {
        id < self.next && self.jobs.is_above(id)
    }

    /// Takes over a job that compaction kept, under its old id, in the room that is there: ask
    /// [`JobTable::has_room`] and [`JobTable::can_keep`] first.
    pub fn keep(&mut self, job: Job)
        requires room { length self.old.pending < self.old.room }
        requires in_order { CanKeep self.old job.id }
        ensures { self.new ≡ record self.old { pending = self.old.pending ++ job ∷ [] } }
    {
        self.jobs.push(0, job.id, &job.work);
    }

    /// Makes a job pending in the room that is there, and gives its id, as [`JobTable::apply`] does.
    pub fn put(&mut self, work: &Work) -> u64
        requires room { length self.old.pending < self.old.room }
        requires id_left { self.old.next < 2 ^ 64 - 1 }
        ensures id { result ≡ self.old.next }
        ensures table { self.new ≡ record self.old { next = self.old.next + 1; pending = self.old.pending ++ (record { id = self.old.next; work = work.now }) ∷ [] } }
    {
        let id = self.next;
        self.jobs.push(0, id, work);
        self.next += 1;
        id
    }

    // Takes the job of this id out.
    fn done(&mut self, id: u64)
        ensures { self.new ≡ record self.old { pending = without_job self.old.pending id } }
    {
        if let Some(place) = self.jobs.place_of(id) {
            self.jobs.remove(place);
        }
    }
}
