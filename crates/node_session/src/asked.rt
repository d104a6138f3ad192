// What a line asks for.
ghost use Rattle.std.specs.Prelude.{◌≡◌, IfOk};
ghost use Rattle.line_words.specs.Words.{words_of};
ghost use Rattle.wire_msg.specs.Reading.{message_of};
ghost use Rattle.node_session.specs.Asked.{alone_asked, asked_of, asked_words, completion, delivered, delivery, loss, one_field, submission, three_fields, ticking, timing, two_fields};

use group_task::NodeId;
use line_words::{bytes, cut_word, is_word, number};
use node_core::{Event, Timer};
use schedule::fields;
use std::alloc::{AllocError, Global};
use thiserror::Error;
use wire_msg::decode;

/// What a line asks for.
#[derive(Clone, Copy, Debug, PartialEq, Eq)]
pub enum Asked {
    /// The line is empty: it is no request.
    Nothing,
    /// An event at the node.
    Event(Event),
    /// The journal is to be compacted.
    Compact,
    /// The timers that are due at this time, in milliseconds of any clock that doesn't fall back.
    Tick(u64),
    /// The transport gave this node up.
    Lost(NodeId),
    /// The node's state is to be written.
    State,
    /// The jobs that the node keeps, and those that it works on, are to be written.
    Jobs,
    /// The line can't be read.
    Bad,
    /// The line brings a message that isn't taken.
    Refused(Unsealed),
}

/// Why a message isn't taken under a key.
#[derive(Clone, Copy, Debug, PartialEq, Eq, Error)]
pub enum Unsealed {
    /// No member of the cluster sealed it for this process.
    #[error("no member of the cluster sealed the message")]
    Forged,
    /// As late or later a message of its sender was taken.
    #[error("as late or later a message of its sender was taken")]
    Stale,
}

/// What a line asks for.
pub fn read_line(alloc: Global, line: &[u8]) -> Result<Asked, AllocError>
    // Promise: What a line asks is a function of its bytes.
    // Refuses: merge_checks.
    ensures { IfOk result (λ asked. asked ≡ asked_of line.now) }
{
    match line {
        [] => Ok(Asked::Nothing),
        _ => words(alloc, line),
    }
}

#[tactic(auto, using(crate::proofs::Reading::too_many))]
fn words(alloc: Global, line: &[u8]) -> Result<Asked, AllocError>
    ensures { IfOk result (λ asked. asked ≡ asked_words (words_of line.now)) }
{
    let Some((name, fields)) = cut_word(line) else {
        return Ok(alone(line));
    };
    let Some((first, more)) = cut_word(fields) else {
        return one_field(alloc, name, fields);
    };
    let Some((second, rest)) = cut_word(more) else {
        return two_fields(alloc, name, first, more);
    };
    match cut_word(rest) {
        None => three_fields(alloc, name, first, second, rest),
        Some(_) => Ok(Asked::Bad),
    }
}

fn alone(word: &[u8]) -> Asked
    ensures { result ≡ alone_asked word.now }
{
    if is_word(word, "state") {
        Asked::State
    } else if is_word(word, "jobs") {
        Asked::Jobs
    } else if is_word(word, "compact") {
        Asked::Compact
    } else if is_word(word, "recover") {
        Asked::Event(Event::Recover)
    } else {
        timing(word)
    }
}

fn timing(word: &[u8]) -> Asked
    ensures { result ≡ timing word.now }
{
    match Timer::from_word(word) {
        Some(timer) => Asked::Event(Event::Timer(timer)),
        None => Asked::Bad,
    }
}

fn one_field(alloc: Global, name: &[u8], field: &[u8]) -> Result<Asked, AllocError>
    ensures { IfOk result (λ asked. asked ≡ one_field name.now field.now) }
{
    if is_word(name, "deliver") {
        delivery(alloc, field)
    } else if is_word(name, "tick") {
        Ok(ticking(field))
    } else if is_word(name, "lost") {
        Ok(loss(field))
    } else {
        Ok(Asked::Bad)
    }
}

fn two_fields(alloc: Global, name: &[u8], first: &[u8], second: &[u8]) -> Result<Asked, AllocError>
    ensures { IfOk result (λ asked. asked ≡ two_fields name.now first.now second.now) }
{
    if is_word(name, "submit") {
        submission(alloc, first, second, Some(0))
    } else if is_word(name, "finish") {
        Ok(completion(first, second))
    } else {
        Ok(Asked::Bad)
    }
}

fn three_fields(
    alloc: Global,
    name: &[u8],
    first: &[u8],
    second: &[u8],
    third: &[u8],
) -> Result<Asked, AllocError>
    ensures { IfOk result (λ asked. asked ≡ three_fields name.now first.now second.now third.now) }
{
    if is_word(name, "submit") {
        submission(alloc, first, second, fields::priority(third))
    } else {
        Ok(Asked::Bad)
    }
}

fn delivery(alloc: Global, field: &[u8]) -> Result<Asked, AllocError>
    ensures { IfOk result (λ asked. asked ≡ delivery field.now) }
{
    let Some(bytes) = bytes(alloc, field)? else {
        return Ok(Asked::Bad);
    };
    Ok(message(&bytes))
}

fn message(bytes: &[u8]) -> Asked
    ensures { result ≡ delivered (message_of bytes.now) }
{
    match decode(bytes) {
        Ok(message) => Asked::Event(Event::Deliver(message)),
        Err(_) => Asked::Bad,
    }
}

fn ticking(field: &[u8]) -> Asked
    ensures { result ≡ ticking field.now }
{
    match number(field) {
        Some(now) => Asked::Tick(now),
        None => Asked::Bad,
    }
}

fn loss(field: &[u8]) -> Asked
    ensures { result ≡ loss field.now }
{
    match fields::node(field) {
        Some(node) => Asked::Lost(node),
        None => Asked::Bad,
    }
}

fn submission(
    alloc: Global,
    queue: &[u8],
    payload: &[u8],
    priority: Option<u8>,
) -> Result<Asked, AllocError>
    ensures { IfOk result (λ asked. asked ≡ submission queue.now payload.now priority) }
{
    match fields::new_job(alloc, queue, payload, priority)? {
        Some(job) => Ok(Asked::Event(Event::Submit(job.work()))),
        None => Ok(Asked::Bad),
    }
}

fn completion(origin: &[u8], id: &[u8]) -> Asked
    ensures { result ≡ completion origin.now id.now }
{
    match (fields::node(origin), number(id)) {
        (Some(origin), Some(id)) => Asked::Event(Event::Finish(origin, id)),
        _ => Asked::Bad,
    }
}
