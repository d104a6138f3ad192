ghost use Rattle.std.specs.Prelude.{◌≡◌, [], ◌∷◌, length, ◌≤◌, codes, decimal, IfOk, OnOk, Ok, ◌↔◌, ◌<◌, ◌^◌};
ghost use Rattle.hex.specs.Hex.{encode_lower};
ghost use Rattle.json.specs.Token.{begin_array, begin_object, end_array, end_object, key, string, number};
ghost use Rattle.serde_json.specs.Written.{compact_text};
ghost use Rattle.trace_check.specs.Traces.{claim_seen};
ghost use Rattle.trace_text.specs.Tokens.{Adds, action_tokens, event_tokens, priority_tokens, rank_tokens, work_tokens, message_tokens, head_tokens, end_tokens, entry_tokens, history_tokens, histories_tokens, trace_tokens};
ghost use Rattle.trace_text.specs.Fits.{WorkFits, EventFits, ActionFits, ClaimFits, TraceFits, IsUnwritable, IsWritable};
ghost use Rattle.trace_text.specs.Wholes.{trace_of};
ghost use Rattle.trace_text.specs.Written.{trace_data, action_name, fault_name};
ghost use Rattle.wire_msg.specs.Spelling.{spelling, AreBytes, IsMessage};
ghost use Rattle.job_model.specs.declared.queue.TheConstants.{QUEUES};
ghost use Rattle.histories.specs.Lists.{Each};
ghost use Rattle.group_task.specs.declared.node.TheConstants.{NODES};

use crate::fault::WriteFault;
use crate::writable::is_writable;
use job_model::Work;
use json::Writer;
use node_core::Event;
use node_words::event_word;
use std::alloc::{AllocError, Global};
use trace_check::{EntryView, History, RecoverFault, Sent, Trace, TraceAction};
use wire_msg::{Message, encode};

/// The text of a trace: the compact text of its JSON value, in which the members of an object stand in the order of their keys.
pub fn write(alloc: Global, trace: &Trace) -> Result<Vec<u8>, WriteFault>
    // Promise: A trace is written as the compact text of the JSON value that the definitions give it, the keys of each object in
    // order.
    // Refuses: kept_written_the_wrong_way, message_written_as_its_payload.
    ensures text { IfOk result (λ text. text.items ≡ compact_text (trace_data trace.now)) }
    // Promise: What is written is read back as the same trace.
    // Also: write_text.
    ensures reads_back { IfOk result (λ text. trace_of text.items ≡ Ok trace.now) }
    // Promise: A trace is refused exactly where it has no node, or writes a recovery as an event.
    // Also: write_ordered.
    // Refuses: recovery_written_as_an_event, no_node_written.
    ensures refused { IsUnwritable result ↔ (IsWritable trace.now → ⊥) }
{
    if !is_writable(trace) {
        return Err(WriteFault::Unwritable);
    }
    let text = write_text(alloc, trace)?;
    Ok(text)
}

/// The text of any trace. One that has no node, or a recovery as an event, isn't read back.
pub fn write_text(alloc: Global, trace: &Trace) -> Result<Vec<u8>, AllocError>
    ensures text { IfOk result (λ text. text.items ≡ compact_text (trace_data trace.now)) }
    ensures reads_back { IfOk result (λ text. IsWritable trace.now → trace_of text.items ≡ Ok trace.now) }
{
    let mut out = Writer::new(Vec::new(alloc));
    write_trace(alloc, &mut out, trace)?;
    Ok(out.into_inner())
}

fn write_trace(alloc: Global, out: &mut Writer, trace: &Trace) -> Result<(), AllocError>
    ensures text { OnOk result (Adds out.old out.new (trace_tokens trace.now)) }
    ensures most { length trace.now ≤ NODES }
    ensures fits { OnOk result (TraceFits trace.now) }
{
    let nodes = trace.nodes();
    write_head(out)?;
    write_histories(alloc, out, trace.histories())?;
    write_nodes(out, nodes)
}

/// Begins the histories.
pub(crate) fn write_head(out: &mut Writer) -> Result<(), AllocError>
    ensures { OnOk result (Adds out.old out.new (begin_object ∷ key (codes "histories") ∷ begin_array ∷ [])) }
{
    out.begin_object()?;
    begin_list(out, "histories")
}

fn begin_list(out: &mut Writer, name: &str) -> Result<(), AllocError>
    ensures { OnOk result (Adds out.old out.new (key name.now ∷ begin_array ∷ [])) }
{
    out.key(name)?;
    out.begin_array()
}

/// Ends the histories, and writes how many nodes there are.
pub(crate) fn write_nodes(out: &mut Writer, nodes: u8) -> Result<(), AllocError>
    ensures { OnOk result (Adds out.old out.new (end_array ∷ key (codes "nodes") ∷ number (decimal nodes) ∷ end_object ∷ [])) }
{
    end_histories(out, nodes)?;
    out.end_object()
}

/// Ends the histories, and writes how many nodes there are, with the whole left open.
pub(crate) fn end_histories(out: &mut Writer, nodes: u8) -> Result<(), AllocError>
    ensures { OnOk result (Adds out.old out.new (end_array ∷ key (codes "nodes") ∷ number (decimal nodes) ∷ [])) }
{
    out.end_array()?;
    write_number(out, "nodes", u64::from(nodes))
}

pub(crate) fn write_histories(
    alloc: Global,
    out: &mut Writer,
    histories: &[History],
) -> Result<(), AllocError>
    ensures text { OnOk result (Adds out.old out.new (histories_tokens histories.now)) }
    ensures fits { OnOk result (TraceFits histories.now) }
{
    for history in histories {
        write_history(alloc, out, history)?;
    }
    Ok(())
}

fn write_history(alloc: Global, out: &mut Writer, history: &History) -> Result<(), AllocError>
    ensures text { OnOk result (Adds out.old out.new (history_tokens history.now)) }
    ensures fits { OnOk result (Each ClaimFits history.now) }
{
    out.begin_array()?;
    for place in 0..history.len() {
        let Some(entry) = history.entry(place) else {
            unreachable!()
        };
        write_entry(alloc, out, &entry)?;
    }
    out.end_array()
}

fn write_entry(alloc: Global, out: &mut Writer, entry: &EntryView<'_>) -> Result<(), AllocError>
    ensures text { OnOk result (Adds out.old out.new (entry_tokens (claim_seen entry.now))) }
    ensures fits { OnOk result (ClaimFits (claim_seen entry.now)) }
{
    begin_entry(alloc, out, &entry.action)?;
    write_messages(alloc, out, &entry.sent)?;
    end_entry(out)
}

/// Begins an entry: the messages that it sent follow.
pub fn begin_entry(alloc: Global, out: &mut Writer, action: &TraceAction) -> Result<(), AllocError>
    ensures text { OnOk result (Adds out.old out.new (head_tokens action.now)) }
    ensures fits { OnOk result (ActionFits action.now) }
{
    out.begin_object()?;
    out.key("do")?;
    out.string(action_name(action))?;
    write_action(alloc, out, action)?;
    begin_list(out, "sent")
}

/// Begins the entry of an event that was handled, as [`begin_entry`] does, without a [`TraceAction`] that holds it.
pub fn begin_handled(alloc: Global, out: &mut Writer, event: &Event) -> Result<(), AllocError>
    ensures text { OnOk result (Adds out.old out.new (head_tokens (TraceAction.Done event.now))) }
    ensures fits { OnOk result (EventFits event.now) }
{
    out.begin_object()?;
    out.key("do")?;
    out.string(event_word(event))?;
    write_event(alloc, out, event)?;
    begin_list(out, "sent")
}

/// Ends an entry behind its messages.
pub fn end_entry(out: &mut Writer) -> Result<(), AllocError>
    ensures { OnOk result (Adds out.old out.new end_tokens) }
{
    out.end_array()?;
    out.end_object()
}

/// The name of a action, as an entry has it.
pub fn action_name(action: &TraceAction) -> &'static str
    ensures { result.now ≡ action_name action.now }
{
    match action {
        TraceAction::Nothing => "none",
        TraceAction::Done(event) => event_word(event),
        TraceAction::Faulted(event) => event_word(event),
        TraceAction::Crashed => "crash",
        TraceAction::Recovered(_) => "recover",
        TraceAction::NotRecovered(_, _) => "recover",
    }
}

#[tactic(auto, using(crate::proofs::Printing::ok_then))]
/// Writes the fields that a action names, but for its own name.
fn write_action(alloc: Global, out: &mut Writer, action: &TraceAction) -> Result<(), AllocError>
    ensures text { OnOk result (Adds out.old out.new (action_tokens action.now)) }
    ensures fits { OnOk result (ActionFits action.now) }
{
    match action {
        TraceAction::Nothing | TraceAction::Crashed => Ok(()),
        TraceAction::Done(event) => write_event(alloc, out, event),
        TraceAction::Faulted(event) => {
            write_fault(out, "device")?;
            write_event(alloc, out, event)
        }
        TraceAction::Recovered(kept) => write_kept(out, *kept),
        TraceAction::NotRecovered(kept, fault) => {
            write_fault(out, fault_name(*fault))?;
            write_kept(out, *kept)
        }
    }
}

fn write_fault(out: &mut Writer, name: &str) -> Result<(), AllocError>
    ensures { OnOk result (Adds out.old out.new (key (codes "fault") ∷ string name.now ∷ [])) }
{
    out.key("fault")?;
    out.string(name)
}

fn fault_name(fault: RecoverFault) -> &'static str
    ensures { result.now ≡ fault_name fault }
{
    match fault {
        RecoverFault::Mount => "mount",
        RecoverFault::Raise => "raise",
    }
}

fn write_kept(out: &mut Writer, kept: bool) -> Result<(), AllocError>
    ensures { OnOk result (Adds out.old out.new (action_tokens (TraceAction.Recovered kept))) }
{
    out.key("kept")?;
    out.boolean(kept)
}

fn write_event(alloc: Global, out: &mut Writer, event: &Event) -> Result<(), AllocError>
    ensures text { OnOk result (Adds out.old out.new (event_tokens event.now)) }
    ensures fits { OnOk result (EventFits event.now) }
{
    match event {
        Event::Deliver(message) => {
            out.key("msg")?;
            write_message(alloc, out, message)
        }
        Event::Submit(work) => write_work(alloc, out, work),
        Event::Finish(origin, id) => {
            write_number(out, "id", *id)?;
            write_number(out, "origin", u64::from(origin.number()))
        }
        _ => Ok(()),
    }
}

fn write_work(alloc: Global, out: &mut Writer, work: &Work) -> Result<(), AllocError>
    ensures text { OnOk result (Adds out.old out.new (work_tokens work.now)) }
    ensures fits { OnOk result (WorkFits work.now) }
{
    write_bytes(alloc, out, "payload", work.payload.as_slice())?;
    write_rank(out, work)
}

fn write_rank(out: &mut Writer, work: &Work) -> Result<(), AllocError>
    ensures text { OnOk result (Adds out.old out.new (rank_tokens work.now)) }
    ensures fits { OnOk result ((work.now.queue < QUEUES) × (work.now.priority < 2 ^ 8)) }
{
    write_priority(out, work.priority)?;
    write_number(out, "queue", u64::from(work.queue.number()))
}

// A priority is left out where it is 0.
fn write_priority(out: &mut Writer, priority: u8) -> Result<(), AllocError>
    ensures { OnOk result (Adds out.old out.new (priority_tokens priority)) }
{
    if priority == 0 {
        return Ok(());
    }
    write_number(out, "priority", u64::from(priority))
}

fn write_number(out: &mut Writer, name: &str, value: u64) -> Result<(), AllocError>
    ensures { OnOk result (Adds out.old out.new (key name.now ∷ number (decimal value) ∷ [])) }
{
    out.key(name)?;
    out.u64(value)
}

fn write_bytes(alloc: Global, out: &mut Writer, name: &str, bytes: &[u8]) -> Result<(), AllocError>
    ensures text { OnOk result (Adds out.old out.new (key name.now ∷ string (encode_lower bytes.now) ∷ [])) }
    ensures fits { OnOk result (AreBytes bytes.now) }
{
    out.key(name)?;
    let text = hex::encode(alloc, bytes)?;
    out.string(&text)
}

fn write_messages(alloc: Global, out: &mut Writer, messages: &Sent<'_>) -> Result<(), AllocError>
    ensures text { OnOk result (Adds out.old out.new (message_tokens messages.now)) }
    ensures fits { OnOk result (Each IsMessage messages.now) }
{
    let mut spelled = Vec::new(alloc);
    for place in 0..messages.len() {
        messages.spell(place, &mut spelled)?;
        write_spelled(alloc, out, &spelled)?;
    }
    Ok(())
}

fn write_message(alloc: Global, out: &mut Writer, message: &Message) -> Result<(), AllocError>
    ensures text { OnOk result (Adds out.old out.new (string (encode_lower (spelling message.now)) ∷ [])) }
    ensures fits { OnOk result (IsMessage message.now) }
{
    let Ok(bytes) = encode(alloc, message) else {
        return Err(AllocError);
    };
    write_spelled(alloc, out, &bytes)
}

/// Writes a message that is spelled.
pub fn write_spelled(alloc: Global, out: &mut Writer, spelled: &[u8]) -> Result<(), AllocError>
    ensures { OnOk result (Adds out.old out.new (string (encode_lower spelled.now) ∷ [])) }
{
    let text = hex::encode(alloc, spelled)?;
    out.string(&text)
}
