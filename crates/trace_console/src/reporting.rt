//! Why entries are no run, as standard error says it.
ghost use Rattle.std.specs.Prelude.{◌≡◌, ◌++◌, IfOk, OnOk, map};
ghost use Rattle.std.specs.List.{flat_map};
ghost use Rattle.wire_msg.specs.Envelope.{Envelope};
ghost use Rattle.trace_console.specs.Judged.{words};
ghost use Rattle.trace_console.specs.Reported.{cannot_text, first_text, holdup_text, leftover_text, look_text, message_text, messages_text, place_text, report, sent_text, waits};
ghost use Rattle.trace_check.specs.Traces.{claim_seen};
ghost use Rattle.trace_check.specs.Claims.{brought_by};

use crate::judging::push_word;
use console_text::{push_hex, push_number, push_text};
use group_task::NodeId;
use node_words::phase_word;
use std::alloc::{AllocError, Global};
use trace_check::{EntryView, Holdup, Leftover, Trace, TraceAction};
use trace_text::action_name;
use wire_msg::{Message, encode};

/// What is said of entries that are left, with the first of them that isn't waiting: a line for each, without the last line feed.
pub(crate) fn report(alloc: Global, trace: &Trace, left: &[Leftover]) -> Result<Vec<u8>, AllocError>
    ensures { IfOk result (λ text. text.items ≡ report trace.now left.now) }
{
    let mut text = Vec::new(alloc);
    if left.is_empty() {
        return Ok(text);
    }
    push_look(&mut text, left)?;
    push_leftovers(alloc, &mut text, trace, left)?;
    Ok(text)
}

/// Adds where to look first.
#[tactic(auto, using(crate::proofs::Looks::look_more))]
fn push_look(text: &mut Vec<u8>, left: &[Leftover]) -> Result<(), AllocError>
    ensures { OnOk result (text.new.items ≡ text.old.items ++ look_text left.now) }
{
    for leftover in left {
        if !waits(&leftover.holdup) {
            return push_first(text, leftover.node, leftover.index);
        }
    }
    push_text(
        text,
        "no order takes all entries: each that is left waits for a message that none sent",
    )
}

/// Whether an entry waits.
pub(crate) fn waits(holdup: &Holdup) -> bool
    ensures { result ≡ waits holdup.now }
{
    match holdup {
        Holdup::Waits => true,
        Holdup::Misaddressed => false,
        Holdup::Refused(_) => false,
        Holdup::Sends(_) => false,
    }
}

#[tactic(auto, unfolding(crate::specs::Reported::first_text))]
fn push_first(text: &mut Vec<u8>, node: NodeId, index: usize) -> Result<(), AllocError>
    ensures { OnOk result (text.new.items ≡ text.old.items ++ first_text node index) }
{
    push_text(text, "no order takes all entries: look first at node ")?;
    push_place(text, node, ", entry ", index)
}

/// Adds a node and an index.
#[tactic(auto, unfolding(crate::specs::Reported::place_text))]
pub(crate) fn push_place(
    text: &mut Vec<u8>,
    node: NodeId,
    between: &str,
    index: usize,
) -> Result<(), AllocError>
    ensures { OnOk result (text.new.items ≡ text.old.items ++ place_text between.now node index) }
{
    push_number(text, u64::from(node.number()))?;
    push_text(text, between)?;
    push_number(text, index as u64)
}

pub(crate) fn push_leftovers(
    alloc: Global,
    text: &mut Vec<u8>,
    trace: &Trace,
    left: &[Leftover],
) -> Result<(), AllocError>
    ensures { OnOk result (text.new.items ≡ text.old.items ++ flat_map (leftover_text trace.now) left.now) }
{
    for leftover in left {
        push_leftover(alloc, text, trace, leftover)?;
    }
    Ok(())
}

/// Adds the line of an entry that is left, behind the end of the line before.
#[tactic(auto, unfolding(crate::specs::Reported::line_text))]
fn push_leftover(
    alloc: Global,
    text: &mut Vec<u8>,
    trace: &Trace,
    left: &Leftover,
) -> Result<(), AllocError>
    ensures { OnOk result (text.new.items ≡ text.old.items ++ leftover_text trace.now left.now) }
{
    let Some(entry) = trace.entry(left.node, left.index) else {
        return Ok(());
    };
    push_text(text, "\nnode ")?;
    push_place(text, left.node, ": entry ", left.index)?;
    push_holdup(alloc, text, &entry, &left.holdup)
}

/// Adds what holds an entry up.
fn push_holdup(
    alloc: Global,
    text: &mut Vec<u8>,
    entry: &EntryView<'_>,
    holdup: &Holdup,
) -> Result<(), AllocError>
    ensures { OnOk result (text.new.items ≡ text.old.items ++ holdup_text (claim_seen entry.now) holdup.now) }
{
    let action = &entry.action;
    match holdup {
        Holdup::Waits => {
            push_text(text, " waits for")?;
            push_brought(alloc, text, action)
        }
        Holdup::Misaddressed => {
            push_cannot(text, action)?;
            push_text(text, "it is for node")?;
            push_receiver(text, action)
        }
        Holdup::Refused(phase) => {
            push_cannot(text, action)?;
            push_text(text, "its node refuses it, being ")?;
            push_text(text, phase_word(*phase))
        }
        Holdup::Sends(messages) => {
            push_cannot(text, action)?;
            push_text(text, "it would send")?;
            push_sent(alloc, text, messages)
        }
    }
}

fn push_cannot(text: &mut Vec<u8>, action: &TraceAction) -> Result<(), AllocError>
    ensures { OnOk result (text.new.items ≡ text.old.items ++ cannot_text action.now) }
{
    push_text(text, " (")?;
    push_text(text, action_name(action))?;
    push_text(text, ") can't be: ")
}

/// Adds the message that an entry was brought.
fn push_brought(alloc: Global, text: &mut Vec<u8>, action: &TraceAction) -> Result<(), AllocError>
    ensures { OnOk result (text.new.items ≡ text.old.items ++ messages_text (brought_by action.now)) }
{
    match action.brought() {
        Some(message) => push_message(alloc, text, message),
        None => Ok(()),
    }
}

/// Adds the node that it is for.
fn push_receiver(text: &mut Vec<u8>, action: &TraceAction) -> Result<(), AllocError>
    ensures { OnOk result (text.new.items ≡ text.old.items ++ words (map (λ (m : Envelope). m.receiver) (brought_by action.now))) }
{
    match action.brought() {
        Some(message) => push_word(text, u64::from(message.receiver().number())),
        None => Ok(()),
    }
}

/// Adds what would be sent.
fn push_sent(alloc: Global, text: &mut Vec<u8>, messages: &[Message]) -> Result<(), AllocError>
    ensures { OnOk result (text.new.items ≡ text.old.items ++ sent_text messages.now) }
{
    if messages.is_empty() {
        return push_text(text, " nothing");
    }
    push_messages(alloc, text, messages)
}

fn push_messages(alloc: Global, text: &mut Vec<u8>, messages: &[Message]) -> Result<(), AllocError>
    ensures { OnOk result (text.new.items ≡ text.old.items ++ messages_text messages.now) }
{
    for message in messages {
        push_message(alloc, text, message)?;
    }
    Ok(())
}

/// Adds a message in hex digits, behind a space.
fn push_message(alloc: Global, text: &mut Vec<u8>, message: &Message) -> Result<(), AllocError>
    ensures { OnOk result (text.new.items ≡ text.old.items ++ message_text message.now) }
{
    let Ok(bytes) = encode(alloc, message) else {
        return Err(AllocError);
    };
    push_text(text, " ")?;
    push_hex(text, &bytes)
}
