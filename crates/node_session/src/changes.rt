// What changes at a node in a call, as lines.
ghost use Rattle.std.specs.Prelude.{◌≡◌, ◌++◌, OnOk, Some};
ghost use Rattle.std.specs.List.{flat_map};
ghost use Rattle.node_session.specs.Changes.{drops_by, gone_by, gone_line, gone_news, group_line, group_news, is_finish, news, take_line};

use crate::call_outcome::CallOutcome;
use crate::showing::push_held;
use console_text::{push_named_number, push_text};
use durable_node::{Changes, GroupView};
use group_task::NodeId;
use node_core::{Event, InHandRef, Phase};
use node_words::{phase_word, push_group, push_ids};
use std::alloc::AllocError;
use wire_msg::Body;

/// Adds what changed at the node. The jobs that left the hand are written unless one was finished.
pub(crate) fn push_changes(
    text: &mut Vec<u8>,
    is_finished: bool,
    changes: &Changes<'_>,
) -> Result<(), AllocError>
    ensures { OnOk result (text.new.items ≡ text.old.items ++ news is_finished changes.now.group changes.now.taken.items changes.now.dropped.items) }
{
    push_group_news(text, &changes.group)?;
    push_takes(text, &changes.taken)?;
    push_drops(text, is_finished, &changes.dropped)
}

fn push_group_news(text: &mut Vec<u8>, group: &Option<GroupView>) -> Result<(), AllocError>
    ensures { OnOk result (text.new.items ≡ text.old.items ++ group_news group.now) }
{
    match group {
        Some(view) => push_group_line(text, view),
        None => Ok(()),
    }
}

fn push_group_line(text: &mut Vec<u8>, view: &GroupView) -> Result<(), AllocError>
    ensures { OnOk result (text.new.items ≡ text.old.items ++ group_line view.now) }
{
    if matches!(view.phase, Phase::Down) {
        return push_text(text, "group Down\n");
    }
    push_text(text, "group ")?;
    push_text(text, phase_word(view.phase))?;
    push_named_number(text, " ", u64::from(view.coordinator.number()))?;
    push_text(text, " ")?;
    push_group(text, view.group)?;
    push_text(text, " ")?;
    push_ids(text, view.members)?;
    push_text(text, "\n")
}

fn push_takes(text: &mut Vec<u8>, jobs: &[InHandRef<'_>]) -> Result<(), AllocError>
    ensures { OnOk result (text.new.items ≡ text.old.items ++ flat_map take_line jobs.now) }
{
    for job in jobs {
        push_text(text, "take ")?;
        push_held(text, job)?;
        push_text(text, "\n")?;
    }
    Ok(())
}

fn push_drops(
    text: &mut Vec<u8>,
    is_finished: bool,
    pairs: &[(NodeId, u64)],
) -> Result<(), AllocError>
    ensures { OnOk result (text.new.items ≡ text.old.items ++ drops_by is_finished pairs.now) }
{
    if is_finished {
        return Ok(());
    }
    for pair in pairs {
        push_named_number(text, "drop ", u64::from(pair.0.number()))?;
        push_named_number(text, " ", pair.1)?;
        push_text(text, "\n")?;
    }
    Ok(())
}

/// Whether the event says that the work on a job is finished.
pub(crate) fn is_finish(event: &Event) -> bool
    ensures { result ≡ is_finish (Some event.now) }
{
    matches!(event, Event::Finish(_, _))
}

/// Adds the own job that left the table in this event.
pub(crate) fn push_gone(
    text: &mut Vec<u8>,
    event: &Event,
    ended: &CallOutcome,
) -> Result<(), AllocError>
    ensures { OnOk result (text.new.items ≡ text.old.items ++ gone_news (Some event.now) ended.now) }
{
    match (event, ended) {
        (Event::Finish(_, _), Ok(Some(id))) => push_gone_line(text, *id),
        (Event::Deliver(message), Ok(Some(id))) => push_gone_by(text, message.body(), *id),
        _ => Ok(()),
    }
}

fn push_gone_by(text: &mut Vec<u8>, body: &Body, id: u64) -> Result<(), AllocError>
    ensures { OnOk result (text.new.items ≡ text.old.items ++ gone_by body.now id) }
{
    match body {
        Body::Done(_) => push_gone_line(text, id),
        _ => Ok(()),
    }
}

fn push_gone_line(text: &mut Vec<u8>, id: u64) -> Result<(), AllocError>
    ensures { OnOk result (text.new.items ≡ text.old.items ++ gone_line id) }
{
    push_named_number(text, "gone ", id)?;
    push_text(text, "\n")
}
