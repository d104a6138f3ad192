//! The limits of the crate as numbers: the contract of a function that does nothing.

ghost use Rattle.std.specs.Prelude.{◌≡◌, ◌≤◌};
ghost use Rattle.job_model.specs.declared.payload.TheConstants.{PAYLOAD_CAPACITY};
ghost use Rattle.job_model.specs.declared.queue.TheConstants.{QUEUES};

use crate::work::Work;

/// There are 16 queues, a payload has at most 400 bytes, and a priority is at most 255.
pub fn limits(work: Work)
    // Promise: There are 16 queues, a payload has at most 400 bytes, and a priority is at most 255.
    // Refuses: queues_off_by_one, payload_off_by_one.
    ensures queues { QUEUES ≡ 16 }
    ensures payload { PAYLOAD_CAPACITY ≡ 400 }
    ensures priority { work.priority ≤ 255 }
{}
