//! The histories of a run as the text of its trace: an entry for each turn, a poll that took nothing among them.

ghost use Rattle.std.specs.Prelude.{◌≡◌, ◌≤◌, ◌<◌, ◌++◌, [], ◌∷◌, IfOk, OnOk, false, length, vec_len};
ghost use Rattle.group_task.specs.declared.node.TheConstants.{NODES};
ghost use Rattle.serde_json.specs.Written.{comma_if, compact_text};
ghost use Rattle.node_lock.specs.Kept.{what_quiet};
ghost use Rattle.cluster_sim.specs.Traced.{action_of, done};
ghost use Rattle.trace_text.specs.Tokens.{Adds, head_tokens, message_tokens};
ghost use Rattle.trace_text.specs.Written.{entry_data, history_data};
ghost use Rattle.threads_console.specs.Printed.{IsPlainText, IsRunText};
ghost use Rattle.threads_console.specs.declared.kind.TraceKind.TheVariants.{Ordered};
ghost use Rattle.threads_console.specs.Texts.{AreKnown, IsMostText, IsTextAt, entries_text, histories_text, log_claims, quiet_claim};

use crate::kind::TraceKind;
use crate::ordering::{count_of, order_of};
use histories::HistoryEvent;
use json::Writer;
use node_core::Event;
use node_lock::{Quiet, Sent, TurnLog};
use node_threads::Gathered;
use std::alloc::{AllocError, Global};
use trace_check::{RecoverFault, TraceAction};
use trace_text::{
    begin_entry, begin_handled, begin_items, begin_trace, end_entry, end_items, end_ordered,
    end_trace, push_item, write_spelled,
};

/// An entry takes about so many bytes where most turns are polls that took nothing.
const ROOM: usize = 44;

/// The texts of the entries of quiet turns. Most turns are such, so that their texts are made once.
#[derive(Drop)]
struct Known {
    rested: Vec<u8>,
    crashed: Vec<u8>,
}

/// The text of the trace of a run, alone or with its order.
pub(crate) fn write_trace(
    alloc: Global,
    kind: TraceKind,
    run: Gathered,
) -> Result<Vec<u8>, AllocError>
    requires { vec_len run.histories ≤ NODES }
    ensures { IfOk result (λ text. IsRunText kind run.histories.items text.items) }
{
    match kind {
        TraceKind::Plain => write_run(alloc, run),
        TraceKind::Ordered => write_ordered(alloc, run),
    }
}

/// The text of the trace of a run.
fn write_run(alloc: Global, run: Gathered) -> Result<Vec<u8>, AllocError>
    requires { vec_len run.histories ≤ NODES }
    ensures { IfOk result (λ text. IsPlainText run.histories.items text.items) }
{
    let nodes = run.histories.len() as u8;
    let text = write_most(alloc, run)?;
    end_trace(text, nodes)
}

/// The text of the trace of a run, with its order.
fn write_ordered(alloc: Global, run: Gathered) -> Result<Vec<u8>, AllocError>
    requires { vec_len run.histories ≤ NODES }
    ensures { IfOk result (λ text. IsRunText Ordered run.histories.items text.items) }
{
    let order = order_of(alloc, &run)?;
    let nodes = run.histories.len() as u8;
    let text = write_most(alloc, run)?;
    match order {
        Some(order) => end_ordered(alloc, text, nodes, &order),
        None => end_trace(text, nodes),
    }
}

/// The text of the trace of a run, but for what stands behind its histories. Room for most of it is taken at once. What was written is let go
/// at once, so that no two copies of it all stand in memory.
fn write_most(alloc: Global, run: Gathered) -> Result<Vec<u8>, AllocError>
    requires { vec_len run.histories ≤ NODES }
    ensures { IfOk result (λ text. IsMostText run.histories.items text.items) }
{
    let Gathered { histories, links } = run;
    drop(links);
    let known = make_known(alloc)?;
    let mut text = begin_trace(alloc)?;
    text.reserve(ROOM.saturating_mul(count_of(&histories)?))?;
    write_histories(alloc, &known, &mut text, histories)?;
    Ok(text)
}

/// Makes the texts of the entries of quiet turns.
fn make_known(alloc: Global) -> Result<Known, AllocError>
    ensures { IfOk result AreKnown }
{
    Ok(Known {
        rested: quiet_text(alloc, Quiet::Rested)?,
        crashed: quiet_text(alloc, Quiet::Crashed)?,
    })
}

/// The text of the entry of a quiet turn.
fn quiet_text(alloc: Global, quiet: Quiet) -> Result<Vec<u8>, AllocError>
    ensures { IfOk result (λ text. text.items ≡ compact_text (entry_data (quiet_claim quiet))) }
{
    let mut out = Writer::new(Vec::new(alloc));
    begin_entry(alloc, &mut out, &quiet_action(quiet))?;
    end_entry(&mut out)?;
    Ok(out.into_inner())
}

/// How a trace has what came of a turn that handed no event to its node.
fn quiet_action(quiet: Quiet) -> TraceAction
    ensures { result ≡ action_of (what_quiet quiet) }
{
    match quiet {
        Quiet::Rested => TraceAction::Nothing,
        Quiet::Crashed => TraceAction::Crashed,
    }
}

/// Adds the histories of all these nodes, but for the bracket behind them.
#[tactic(auto, using(crate::proofs::Texts::history_more))]
fn write_histories(
    alloc: Global,
    known: &Known,
    text: &mut Vec<u8>,
    left: Vec<TurnLog>,
) -> Result<(), AllocError>
    requires { AreKnown known.now }
    ensures { OnOk result (text.new.items ++ 93 ∷ [] ≡ text.old.items ++ histories_text false left.items) }
{
    let mut left = left.into_iter();
    let mut later = false;
    while let Some(history) = left.next() {
        write_history(alloc, known, text, later, &history)?;
        later = true;
    }
    Ok(())
}

/// Adds the history of a node, and says whether others stand before it.
fn write_history(
    alloc: Global,
    known: &Known,
    text: &mut Vec<u8>,
    later: bool,
    history: &TurnLog,
) -> Result<(), AllocError>
    requires { AreKnown known.now }
    ensures { OnOk result (text.new.items ≡ text.old.items ++ (comma_if later ++ compact_text (history_data (log_claims history.now)))) }
{
    begin_items(text, later)?;
    write_turns(alloc, known, text, history)?;
    end_items(text)
}

/// Adds the entries of a node, but for the bracket behind them.
#[tactic(auto, using(crate::proofs::Texts::quiet_more, crate::proofs::Texts::turn_more, crate::proofs::Texts::turns_all))]
fn write_turns(
    alloc: Global,
    known: &Known,
    text: &mut Vec<u8>,
    history: &TurnLog,
) -> Result<(), AllocError>
    requires { AreKnown known.now }
    ensures { OnOk result (text.new.items ++ 93 ∷ [] ≡ text.old.items ++ entries_text false history.now.turns) }
{
    let mut entry = Vec::new(alloc);
    let mut event = Event::Recover;
    let mut spelled = Vec::new(alloc);
    let mut later = false;
    for place in 0..history.len() {
        match history.quiet(place) {
            Some(quiet) => push_item(text, later, text_of(known, quiet))?,
            None => {
                entry = entry_text(alloc, history, place, entry, &mut event, &mut spelled)?;
                push_item(text, later, &entry)?;
            }
        }
        later = true;
    }
    Ok(())
}

/// The text of the entry of a quiet turn, as it was made.
fn text_of(known: &Known, quiet: Quiet) -> &[u8]
    requires { AreKnown known.now }
    ensures { result.now ≡ compact_text (entry_data (quiet_claim quiet)) }
{
    match quiet {
        Quiet::Rested => &known.rested,
        Quiet::Crashed => &known.crashed,
    }
}

/// The text of the entry of the turn at this place, in the room of another. It stands apart, since each call of a function pays for
/// the size of its locals, and here a whole event is one.
#[inline(never)]
fn entry_text(
    alloc: Global,
    history: &TurnLog,
    place: usize,
    mut room: Vec<u8>,
    event: &mut Event,
    spelled: &mut Vec<u8>,
) -> Result<Vec<u8>, AllocError>
    requires { place < length history.now.turns }
    ensures { IfOk result (λ text. IsTextAt place history.now.turns text.items) }
{
    room.clear();
    let Some(sent) = history.handled(place, event) else {
        return other_text(alloc, history, place, room, spelled);
    };
    let mut out = Writer::new(room);
    begin_done(alloc, &mut out, event)?;
    write_sent(alloc, &mut out, &sent, spelled)?;
    end_entry(&mut out)?;
    Ok(out.into_inner())
}

/// Begins the entry of an event that was handled.
fn begin_done(alloc: Global, out: &mut Writer, event: &Event) -> Result<(), AllocError>
    ensures { OnOk result (Adds out.old out.new (head_tokens (done event.now))) }
{
    match event {
        Event::Recover => begin_entry(alloc, out, &TraceAction::Recovered(false)),
        _ => begin_handled(alloc, out, event),
    }
}

/// The text of an entry in which an event wasn't handled.
#[inline(never)]
fn other_text(
    alloc: Global,
    history: &TurnLog,
    place: usize,
    mut room: Vec<u8>,
    spelled: &mut Vec<u8>,
) -> Result<Vec<u8>, AllocError>
    requires { place < length history.now.turns }
    ensures { IfOk result (λ text. IsTextAt place history.now.turns text.items) }
{
    let Some(entry) = history.entry(place) else {
        unreachable!()
    };
    room.clear();
    let mut out = Writer::new(room);
    begin_entry(alloc, &mut out, &action_of(&entry.what))?;
    write_sent(alloc, &mut out, &entry.sent, spelled)?;
    end_entry(&mut out)?;
    Ok(out.into_inner())
}

/// Writes the messages that a turn sent.
#[tactic(auto, using(crate::proofs::Texts::message_more))]
fn write_sent(
    alloc: Global,
    out: &mut Writer,
    messages: &Sent<'_>,
    spelled: &mut Vec<u8>,
) -> Result<(), AllocError>
    ensures { OnOk result (Adds out.old out.new (message_tokens messages.now)) }
{
    for place in 0..messages.len() {
        messages.spell(place, spelled)?;
        write_spelled(alloc, out, spelled)?;
    }
    Ok(())
}

/// How a trace has what came of a turn.
pub(crate) fn action_of(what: &HistoryEvent) -> TraceAction
    ensures { result ≡ action_of what.now }
{
    match what {
        HistoryEvent::Did(Event::Recover) => TraceAction::Recovered(false),
        HistoryEvent::Did(event) => TraceAction::Done(*event),
        HistoryEvent::Faulted(Event::Recover) => {
            TraceAction::NotRecovered(false, RecoverFault::Raise)
        }
        HistoryEvent::Faulted(event) => TraceAction::Faulted(*event),
        HistoryEvent::Refused(_, _) | HistoryEvent::NoOp(_) | HistoryEvent::RaiseRefused(_) =>
            TraceAction::Nothing,
        HistoryEvent::Crashed => TraceAction::Crashed,
        HistoryEvent::Recovered(kept) => TraceAction::Recovered(*kept),
        HistoryEvent::MountFailed => TraceAction::NotRecovered(false, RecoverFault::Mount),
        HistoryEvent::RaiseFailed(kept) => TraceAction::NotRecovered(*kept, RecoverFault::Raise),
    }
}
