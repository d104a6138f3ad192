// Jobs as the operator submits them.
ghost use Rattle.std.specs.Prelude.{◌≡◌, ◌<◌, ◌↔◌, IfOk, IfSome, IsNone, length};
ghost use Rattle.job_model.specs.declared.payload.TheConstants.{PAYLOAD_CAPACITY};

use crate::payload::{PAYLOAD_CAPACITY, Payload};
use crate::queue::Queue;
use crate::work::Work;
use std::alloc::{AllocError, Global};
use std::marker::Model;

/// The work of a new job. It takes 32 bytes and those of its payload, where a `Work` takes over 400: most of an operator's orders
/// submit nothing.
#[derive(Debug, Drop)]
pub struct NewJob {
    queue: Queue,
    priority: u8,
    payload: Vec<u8>,
}

impl Model for NewJob {
    ghost use Rattle.std.specs.Prelude.{◌≤◌, length};
    ghost use Rattle.job_model.specs.declared.payload.TheConstants.{PAYLOAD_CAPACITY};
    ghost use Rattle.job_model.specs.declared.work.Work.{Work};

    ghost Value = { Work };

    ghost view = { λ a. record { queue = a.queue; priority = a.priority; payload = a.payload.items } };

    ghost invariant = { λ a. length a.payload.items ≤ PAYLOAD_CAPACITY };
}

impl NewJob {
    /// A job with a payload of these bytes, which input may have made too many.
    pub fn new(queue: Queue, priority: u8, payload: Vec<u8>) -> Option<NewJob>
        // Promise: A new job has the queue, the priority and the bytes that it was made of, and is none exactly where there are
        // more than 400; it is cloned as it is, and compared by what it asks for.
        // Also: NewJob::work, NewJob::try_clone, NewJob::eq.
        // Refuses: payload_not_kept, payload_of_any_length, priority_not_compared.
        ensures value { IfSome result (λ job. job ≡ record { queue = queue; priority = priority; payload = payload.items }) }
        ensures none { IsNone result ↔ (PAYLOAD_CAPACITY < length payload.items) }
    {
        if payload.len() > PAYLOAD_CAPACITY {
            return None;
        }
        Some(NewJob {
            queue,
            priority,
            payload,
        })
    }

    /// What it asks for.
    pub fn work(&self) -> Work
        ensures { result ≡ self.now }
    {
        Work {
            queue: self.queue,
            priority: self.priority,
            payload: Payload::new(&self.payload).unwrap(),
        }
    }

    /// The same job once more.
    pub fn try_clone(&self, alloc: Global) -> Result<NewJob, AllocError>
        ensures { IfOk result (λ job. job ≡ self.now) }
    {
        let payload = Vec::from_slice(alloc, &self.payload)?;
        Ok(NewJob {
            queue: self.queue,
            priority: self.priority,
            payload,
        })
    }
}

impl PartialEq for NewJob {
    ghost use Rattle.std.proofs.Common.{rules};
    ghost use Rattle.std.specs.Cmp.Rules.{comparing};
    ghost use Rattle.job_model.specs.NewJobs.{same_work};

    ghost eq = { same_work };

    ghost laws = { Prim.search (comparing, rules) };

    fn eq(&self, other: &NewJob) -> bool {
        self.queue == other.queue
            && self.priority == other.priority
            && self.payload == other.payload
    }
}

impl Eq for NewJob {
    ghost use Rattle.std.proofs.Common.{rules};
    ghost use Rattle.std.specs.Cmp.Rules.{comparing};

    ghost laws = { Prim.search (comparing, rules) };
}
