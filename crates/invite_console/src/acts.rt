//! The words of the lines of a simulation, of which each act has one.

ghost use Rattle.std.specs.Prelude.{◌≡◌, ◌++◌, ◌<◌, IfSome, OnOk, length, slice_get, true};
ghost use Rattle.invite_console.specs.Acts.{answer_text, fault_name, message_text, refusal_name};
ghost use Rattle.invite_console.specs.Kept.{act_head, outcome_head};

use crate::showing::push_shown;
use cluster_sim::{ActRefusal, Outcome};
use console_text::{push_hex, push_named_number, push_number, push_text};
use message_list::MessageList;
use node_core::Refusal;
use node_words::{push_core_fault, push_id};
use schedule::Act;
use sim_net::NetFault;
use std::alloc::AllocError;

/// Adds the line of an act in front of its messages, by its number from 0 on.
pub(crate) fn push_head(
    text: &mut Vec<u8>,
    number: u64,
    act: &Act,
    outcome: Outcome,
) -> Result<(), AllocError>
    ensures { OnOk result (text.new.items ≡ text.old.items ++ act_head number act.now outcome) }
{
    push_number(text, number)?;
    push_text(text, " ")?;
    push_outcome(text, act, outcome)
}

fn push_outcome(text: &mut Vec<u8>, act: &Act, outcome: Outcome) -> Result<(), AllocError>
    ensures { OnOk result (text.new.items ≡ text.old.items ++ outcome_head act.now outcome) }
{
    match outcome {
        Outcome::Done { answer, .. } => {
            push_text(text, "ok")?;
            push_answer(text, act, answer)
        }
        Outcome::Refused(why) => {
            push_text(text, "refused ")?;
            push_refusal(text, why)
        }
        Outcome::Faulted => push_text(text, "fault Device"),
    }
}

/// Adds the id of a submitted job, which no other act has.
fn push_answer(text: &mut Vec<u8>, act: &Act, answer: Option<u64>) -> Result<(), AllocError>
    ensures { OnOk result (text.new.items ≡ text.old.items ++ answer_text act.now answer) }
{
    match (act, answer) {
        (Act::Submit(_, _), id) => push_id(text, id),
        _ => Ok(()),
    }
}

fn push_refusal(text: &mut Vec<u8>, why: ActRefusal) -> Result<(), AllocError>
    ensures { OnOk result (text.new.items ≡ text.old.items ++ refusal_name why) }
{
    match why {
        ActRefusal::Node(why) => push_fault(text, why),
        ActRefusal::Net(NetFault::NoSuch) => push_text(text, "NoSuch"),
        ActRefusal::Net(NetFault::Lost) => push_text(text, "Lost"),
        ActRefusal::Net(NetFault::Cut) => push_text(text, "Cut"),
        ActRefusal::Net(NetFault::NoMemory) => push_text(text, "NoMemory"),
        ActRefusal::Stranger => push_text(text, "Stranger"),
    }
}

fn push_fault(text: &mut Vec<u8>, why: Refusal) -> Result<(), AllocError>
    ensures { OnOk result (text.new.items ≡ text.old.items ++ fault_name why) }
{
    match why {
        Refusal::Core(fault) => push_core_fault(text, fault),
        Refusal::Full => push_text(text, "Full"),
        Refusal::Exhausted | Refusal::AreaExhausted => push_text(text, "Exhausted"),
    }
}

/// Adds the message at a place, by name or as bytes. Its spelling is written in place of what `bytes` held.
pub(crate) fn push_message(
    text: &mut Vec<u8>,
    bytes: &mut Vec<u8>,
    messages: &MessageList,
    place: usize,
    names: bool,
) -> Result<(), AllocError>
    requires { place < length messages.now.messages }
    ensures { IfSome (slice_get messages.now.messages place) (λ message. OnOk result (text.new.items ≡ text.old.items ++ message_text names place message)) }
{
    if names {
        return push_named(text, messages, place);
    }
    push_named_number(text, " ", place as u64)?;
    push_text(text, ":")?;
    messages.spell(place, bytes)?;
    push_hex(text, bytes)
}

/// Adds what the message at a place says, on a line of its own.
fn push_named(text: &mut Vec<u8>, messages: &MessageList, place: usize) -> Result<(), AllocError>
    ensures { IfSome (slice_get messages.now.messages place) (λ message. OnOk result (text.new.items ≡ text.old.items ++ message_text true place message)) }
{
    let Some(message) = messages.get(place) else {
        return Ok(());
    };
    push_named_number(text, "\n    ", place as u64)?;
    push_text(text, ": ")?;
    push_shown(text, &message)
}
