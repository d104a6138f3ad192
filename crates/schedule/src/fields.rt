//! The fields of lines, by their words.

ghost use Rattle.std.specs.Prelude.{◌≡◌, ◌≤◌, IfOk, IfSome};
ghost use Rattle.schedule.specs.Acts.{work_of};
ghost use Rattle.schedule.specs.Fields.{node_of, queue_of, priority_of, number_between};

use group_task::NodeId;
use job_model::{NewJob, Queue};
use line_words::{bytes, number};
use std::alloc::{AllocError, Global};

/// The node that a word names.
pub fn node(word: &[u8]) -> Option<NodeId>
    ensures { result ≡ node_of word.now }
{
    NodeId::new(u8::try_from(number(word)?).ok()?)
}

/// The queue that a word names.
pub fn queue(word: &[u8]) -> Option<Queue>
    ensures { result ≡ queue_of word.now }
{
    Queue::new(u8::try_from(number(word)?).ok()?)
}

/// The priority that a word names: it isn't 0, which is left out.
pub fn priority(word: &[u8]) -> Option<u8>
    ensures { result ≡ priority_of word.now }
{
    Some(between(1, u64::from(u8::MAX), word)? as u8)
}

/// The new job with the queue and the payload that words name, and with this priority.
pub fn new_job(
    alloc: Global,
    first: &[u8],
    second: &[u8],
    priority: Option<u8>,
) -> Result<Option<NewJob>, AllocError>
    ensures { IfOk result (λ job. job ≡ work_of first.now second.now priority) }
{
    let (Some(queue), Some(priority)) = (queue(first), priority) else {
        return Ok(None);
    };
    match bytes(alloc, second)? {
        Some(payload) => Ok(NewJob::new(queue, priority, payload)),
        None => Ok(None),
    }
}

/// The number that a word spells, where it is from `least` to `most`.
pub fn between(least: u64, most: u64, word: &[u8]) -> Option<u64>
    ensures value { result ≡ number_between least most word.now }
    ensures within { IfSome result (λ number. (least ≤ number) × (number ≤ most)) }
{
    let number = number(word)?;
    if least <= number && number <= most {
        Some(number)
    } else {
        None
    }
}
