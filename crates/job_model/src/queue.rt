ghost use Rattle.std.specs.Prelude.{◌≡◌, ◌<◌, ◌≤◌, ◌↔◌, IsNone, IfSome};
ghost use Rattle.job_model.specs.declared.queue.TheConstants.{QUEUES};

use std::marker::Model;

/// How many queues there are; they are the numbers below it.
pub const QUEUES: u8 = 16;

/// A queue of jobs: the members of a group share the work queue by queue.
#[derive(Clone, Copy, Debug, PartialEq, Eq, PartialOrd, Ord)]
pub struct Queue {
    number: u8,
}

impl Model for Queue {
    ghost use Rattle.std.specs.Prelude.{ℕ, ◌<◌};
    ghost use Rattle.job_model.specs.declared.queue.TheConstants.{QUEUES};

    ghost Value = { ℕ };

    ghost view = { λ a. a.number };

    ghost invariant = { λ a. a.number < QUEUES };

    ghost inverse = { λ n. record { number = n } };
}

impl Queue {
    /// The queue of this number, from input that may hold any byte.
    #[inline]
    pub fn new(number: u8) -> Option<Queue>
        // Promise: The queues are the numbers 0 to 15.
        // Also: Queue::number.
        // Refuses: last_queue_refused, queue_past_limit_taken, number_halved.
        ensures value { IfSome result (λ queue. queue ≡ number) }
        ensures none { IsNone result ↔ (QUEUES ≤ number) }
    {
        if number < QUEUES {
            Some(Queue { number })
        } else {
            None
        }
    }

    /// The byte by which messages, records and texts name the queue.
    #[inline]
    pub fn number(self) -> u8
        ensures value { result ≡ self }
        ensures below { self < QUEUES }
    {
        self.number
    }
}
