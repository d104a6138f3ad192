// The line that closes the answer to a request.
ghost use Rattle.std.specs.Prelude.{◌≡◌, ◌++◌, [], OnOk};
ghost use Rattle.node_session.specs.Text.{answer_text, bad_line, closing, denial_line, denial_word, event_closing, fault_name, ok_line, refused_line, unsealed_name};

use crate::asked::Unsealed;
use crate::call_outcome::CallOutcome;
use console_text::{push_named_number, push_text};
use durable_node::NodeFault;
use node_core::Event;
use node_words::{push_core_fault, push_id};
use std::alloc::AllocError;

/// Adds how request `number` ended, which asked this event.
pub(crate) fn push_event_closing(
    text: &mut Vec<u8>,
    number: u64,
    event: &Event,
    ended: &CallOutcome,
) -> Result<(), AllocError>
    ensures { OnOk result (text.new.items ≡ text.old.items ++ event_closing number event.now ended.now) }
{
    match ended {
        Ok(answer) => {
            push_named_number(text, "ok ", number)?;
            push_answer(text, event, *answer)?;
            push_text(text, "\n")
        }
        Err(fault) => push_denial(text, number, fault),
    }
}

/// Adds how request `number` ended, which asked something else of the node.
pub(crate) fn push_closing(
    text: &mut Vec<u8>,
    number: u64,
    ended: &CallOutcome,
) -> Result<(), AllocError>
    ensures { OnOk result (text.new.items ≡ text.old.items ++ closing number ended.now) }
{
    match ended {
        Ok(_) => push_ok(text, number),
        Err(fault) => push_denial(text, number, fault),
    }
}

/// Adds that request `number` was made, of which nothing else is written.
pub(crate) fn push_ok(text: &mut Vec<u8>, number: u64) -> Result<(), AllocError>
    ensures { OnOk result (text.new.items ≡ text.old.items ++ ok_line number []) }
{
    push_named_number(text, "ok ", number)?;
    push_text(text, "\n")
}

/// Adds that request `number` can't be read.
pub(crate) fn push_bad(text: &mut Vec<u8>, number: u64) -> Result<(), AllocError>
    ensures { OnOk result (text.new.items ≡ text.old.items ++ bad_line number) }
{
    push_named_number(text, "bad ", number)?;
    push_text(text, "\n")
}

/// Adds that request `number` brings a message that isn't taken.
pub(crate) fn push_refused(text: &mut Vec<u8>, number: u64, why: Unsealed) -> Result<(), AllocError>
    ensures { OnOk result (text.new.items ≡ text.old.items ++ refused_line number why) }
{
    push_named_number(text, "refused ", number)?;
    push_text(text, " ")?;
    push_text(text, unsealed_name(why))?;
    push_text(text, "\n")
}

fn unsealed_name(why: Unsealed) -> &'static str
    ensures { result.now ≡ unsealed_name why }
{
    match why {
        Unsealed::Forged => "Forged",
        Unsealed::Stale => "Stale",
    }
}

/// Adds the id of a submitted job.
fn push_answer(text: &mut Vec<u8>, event: &Event, answer: Option<u64>) -> Result<(), AllocError>
    ensures { OnOk result (text.new.items ≡ text.old.items ++ answer_text event.now answer) }
{
    match (event, answer) {
        (Event::Submit(_), id) => push_id(text, id),
        _ => Ok(()),
    }
}

fn push_denial(text: &mut Vec<u8>, number: u64, fault: &NodeFault) -> Result<(), AllocError>
    ensures { OnOk result (text.new.items ≡ text.old.items ++ denial_line number fault.now) }
{
    push_named_number(text, denial_word(fault), number)?;
    push_text(text, " ")?;
    push_fault(text, *fault)?;
    push_text(text, "\n")
}

fn denial_word(fault: &NodeFault) -> &'static str
    ensures { result.now ≡ denial_word fault.now }
{
    match fault {
        NodeFault::Device => "fault ",
        _ => "refused ",
    }
}

fn push_fault(text: &mut Vec<u8>, fault: NodeFault) -> Result<(), AllocError>
    ensures { OnOk result (text.new.items ≡ text.old.items ++ fault_name fault) }
{
    match fault {
        NodeFault::Core(fault) => push_core_fault(text, fault),
        NodeFault::Full => push_text(text, "Full"),
        NodeFault::Exhausted => push_text(text, "Exhausted"),
        NodeFault::Device => push_text(text, "Device"),
        NodeFault::NotFormatted => push_text(text, "NotFormatted"),
        NodeFault::Damaged(sector) => push_named_number(text, "Damaged ", sector),
        NodeFault::TooSmall => push_text(text, "TooSmall"),
    }
}
