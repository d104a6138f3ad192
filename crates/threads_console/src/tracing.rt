//! The trace of a run in threads, for who judges it without a text.

ghost use Rattle.std.specs.Prelude.{◌≡◌, ◌≤◌, IfOk, vec_len};
ghost use Rattle.group_task.specs.declared.node.TheConstants.{NODES};
ghost use Rattle.threads_console.specs.Texts.{log_claims, run_claims};

use crate::writing::action_of;
use node_lock::{Sent, TurnLog};
use node_threads::Gathered;
use std::alloc::{AllocError, Global};
use trace_check::{History, Trace};
use wire_msg::Message;

/// The trace of a run that was gathered: an entry for each turn, in its place.
pub fn trace_of(alloc: Global, run: &Gathered) -> Result<Trace, AllocError>
    requires { vec_len run.now.histories ≤ NODES }
    // Promise: The trace of a run in threads has an entry for each turn, in its place: what came of it, and all that it sent.
    // Refuses: first_turn_left_out_of_the_trace.
    ensures { IfOk result (λ trace. trace ≡ run_claims run.now.histories.items) }
{
    let mut histories = Vec::with_capacity(alloc, run.histories.len())?;
    for turns in &run.histories {
        histories.push(history_of(alloc, turns)?)?;
    }
    Ok(Trace::new(histories))
}

/// The entries of the turns of a node.
fn history_of(alloc: Global, turns: &TurnLog) -> Result<History, AllocError>
    ensures { IfOk result (λ history. history ≡ log_claims turns.now) }
{
    let mut history = History::new(alloc);
    for place in 0..turns.len() {
        let Some(turn) = turns.entry(place) else {
            unreachable!()
        };
        let sent = messages_of(alloc, &turn.sent)?;
        history.push(&action_of(&turn.what), &sent)?;
    }
    Ok(history)
}

/// The messages that a turn sent.
fn messages_of(alloc: Global, sent: &Sent<'_>) -> Result<Vec<Message>, AllocError>
    ensures { IfOk result (λ messages. messages.items ≡ sent.now) }
{
    let mut messages = Vec::new(alloc);
    for place in 0..sent.len() {
        let Some(message) = sent.get(place) else {
            unreachable!()
        };
        messages.push(message)?;
    }
    Ok(messages)
}
