ghost use Rattle.std.specs.Prelude.{◌≡◌, ◌≤◌, length};
ghost use Rattle.job_model.specs.declared.payload.TheConstants.{PAYLOAD_CAPACITY};

use crate::job::Job;
use crate::payload::Payload;
use crate::queue::Queue;
use crate::work::Work;
use std::marker::Model;

/// A job, lent: its payload stays where it is kept, since a `Job` takes over 400 bytes.
#[derive(Debug, Drop)]
pub struct JobRef<'a> {
    pub(crate) id: u64,
    pub(crate) queue: Queue,
    pub(crate) priority: u8,
    pub(crate) payload: &'a [u8],
}

impl<'a> Model for JobRef<'a> {
    ghost use Rattle.std.specs.Prelude.{◌≤◌, length};
    ghost use Rattle.job_model.specs.declared.payload.TheConstants.{PAYLOAD_CAPACITY};
    ghost use Rattle.job_model.specs.declared.job.Job.{Job};

    ghost Value = { Job };

    ghost view = { λ a. record { id = a.id; work = record { queue = a.queue; priority = a.priority; payload = a.payload.now } } };

    ghost invariant = { λ a. length a.payload.now ≤ PAYLOAD_CAPACITY };
}

impl<'a> JobRef<'a> {
    /// What tells it from all other jobs that its node ever kept.
    #[inline]
    pub fn id(&self) -> u64
        ensures { result ≡ self.now.id }
    {
        self.id
    }

    /// The queue whose owner works on it.
    #[inline]
    pub fn queue(&self) -> Queue
        ensures { result ≡ self.now.work.queue }
    {
        self.queue
    }

    /// The lowest is 0.
    #[inline]
    pub fn priority(&self) -> u8
        ensures { result ≡ self.now.work.priority }
    {
        self.priority
    }

    /// The bytes of its payload.
    #[inline]
    pub fn payload(&self) -> &'a [u8]
        ensures value { result.now ≡ self.now.work.payload }
        ensures fits { length self.now.work.payload ≤ PAYLOAD_CAPACITY }
    {
        self.payload
    }

    /// What it asks to be done, made once more.
    pub fn work(&self) -> Work
        ensures { result ≡ self.now.work }
    {
        Work {
            queue: self.queue,
            priority: self.priority,
            payload: Payload::new(self.payload).unwrap(),
        }
    }

    /// The job, made once more.
    pub fn to_job(&self) -> Job
        // Promise: A job that is lent is the job: each of its parts, and all of it made once more.
        // Also: JobRef::id, JobRef::queue, JobRef::priority, JobRef::payload, JobRef::work.
        // Refuses: lent_with_the_lowest_priority, half_a_payload_lent, work_of_half_a_payload.
        ensures { result ≡ self.now }
    {
        Job {
            id: self.id,
            work: self.work(),
        }
    }
}
