//! What a node tells of an entry, by how it stood before it and stands behind it, as texts.
ghost use Rattle.std.specs.Prelude.{◌≡◌, ◌++◌, IfOk, OnOk, option_map};
ghost use Rattle.std.specs.List.{flat_map};
ghost use Rattle.node_core.specs.State.{state_of};
ghost use Rattle.trace_check.specs.Traces.{claim_seen};
ghost use Rattle.trace_console.specs.NodeAnswers.{dropped_answer, dropped_text, gone_answer, gone_text, group_answer, id_answer, is_finish, kept_answer, own_id, took_answer, took_text};

use crate::walk::members_of;
use console_text::{push_named_number, push_number, push_text, push_work};
use job_model::{JobTable, PendingJobs};
use node_core::{Event, Hand, HandJobs, InHandRef, Phase, Vector};
use node_words::{phase_word, push_group, push_ids};
use std::alloc::{AllocError, Global};
use trace_check::{EntryView, NodeModel, TraceAction};

/// Its phase, its coordinator, the number of its group and the members; of a node that is down its phase alone.
#[tactic(auto, unfolding(crate::specs::NodeAnswers::group_answer))]
pub(crate) fn group_answer(alloc: Global, vector: &Vector) -> Result<Vec<u8>, AllocError>
    ensures { IfOk result (λ text. text.items ≡ group_answer (state_of vector.now)) }
{
    let mut text = Vec::new(alloc);
    let group_state = &vector.group_state;
    if matches!(group_state.phase, Phase::Down) {
        push_text(&mut text, "Down")?;
        return Ok(text);
    }
    push_text(&mut text, phase_word(group_state.phase))?;
    push_named_number(&mut text, " ", u64::from(group_state.coordinator.number()))?;
    push_text(&mut text, " ")?;
    push_group(&mut text, group_state.group)?;
    push_text(&mut text, " ")?;
    push_ids(&mut text, members_of(&group_state.task))?;
    Ok(text)
}

/// The jobs that came into its hand.
pub(crate) fn took_answer(alloc: Global, old: &Vector, new: &Vector) -> Result<Vec<u8>, AllocError>
    ensures { IfOk result (λ text. text.items ≡ took_answer (state_of old.now) (state_of new.now)) }
{
    let mut text = Vec::new(alloc);
    push_took(&mut text, &old.hand, &new.hand.jobs())?;
    Ok(text)
}

fn push_took(text: &mut Vec<u8>, old: &Hand, jobs: &HandJobs<'_>) -> Result<(), AllocError>
    ensures { OnOk result (text.new.items ≡ text.old.items ++ flat_map (took_text old.now.jobs) jobs.now) }
{
    for job in jobs.iter() {
        push_taken(text, old, &job)?;
    }
    Ok(())
}

#[tactic(auto, unfolding(crate::specs::NodeAnswers::job_text))]
fn push_taken(text: &mut Vec<u8>, old: &Hand, job: &InHandRef<'_>) -> Result<(), AllocError>
    ensures { OnOk result (text.new.items ≡ text.old.items ++ took_text old.now.jobs job.now) }
{
    if old.contains(job.origin(), job.id()) {
        return Ok(());
    }
    push_number(text, u64::from(job.origin().number()))?;
    push_named_number(text, " ", job.id())?;
    push_text(text, " ")?;
    push_work(text, job.queue().number(), job.payload(), job.priority())?;
    push_text(text, ";")
}

/// The jobs that left its hand, unless one was finished.
pub(crate) fn dropped_answer(
    alloc: Global,
    is_finished: bool,
    old: &Vector,
    new: &Vector,
) -> Result<Vec<u8>, AllocError>
    ensures { IfOk result (λ text. text.items ≡ dropped_answer is_finished (state_of old.now) (state_of new.now)) }
{
    let mut text = Vec::new(alloc);
    if !is_finished {
        push_dropped(&mut text, &new.hand, &old.hand.jobs())?;
    }
    Ok(text)
}

fn push_dropped(text: &mut Vec<u8>, new: &Hand, jobs: &HandJobs<'_>) -> Result<(), AllocError>
    ensures { OnOk result (text.new.items ≡ text.old.items ++ flat_map (dropped_text new.now.jobs) jobs.now) }
{
    for job in jobs.iter() {
        push_left(text, new, &job)?;
    }
    Ok(())
}

#[tactic(auto, unfolding(crate::specs::NodeAnswers::pair_text))]
fn push_left(text: &mut Vec<u8>, new: &Hand, job: &InHandRef<'_>) -> Result<(), AllocError>
    ensures { OnOk result (text.new.items ≡ text.old.items ++ dropped_text new.now.jobs job.now) }
{
    if new.contains(job.origin(), job.id()) {
        return Ok(());
    }
    push_number(text, u64::from(job.origin().number()))?;
    push_named_number(text, " ", job.id())?;
    push_text(text, ";")
}

/// The ids of its own jobs that are done.
pub(crate) fn gone_answer(
    alloc: Global,
    old: &NodeModel,
    new: &NodeModel,
) -> Result<Vec<u8>, AllocError>
    ensures { IfOk result (λ text. text.items ≡ gone_answer old.now.node.durable new.now.node.durable) }
{
    let mut text = Vec::new(alloc);
    push_gone(&mut text, new.table(), &old.table().pending())?;
    Ok(text)
}

fn push_gone(text: &mut Vec<u8>, new: &JobTable, jobs: &PendingJobs<'_>) -> Result<(), AllocError>
    ensures { OnOk result (text.new.items ≡ text.old.items ++ flat_map (gone_text new.now.pending) jobs.now) }
{
    for job in jobs.iter() {
        push_done(text, new, job.id())?;
    }
    Ok(())
}

#[tactic(auto, unfolding(crate::specs::NodeAnswers::own_text))]
fn push_done(text: &mut Vec<u8>, new: &JobTable, id: u64) -> Result<(), AllocError>
    ensures { OnOk result (text.new.items ≡ text.old.items ++ own_id new.now.pending id) }
{
    if new.contains(id) {
        return Ok(());
    }
    push_number(text, id)?;
    push_text(text, ";")
}

/// The id that it gave to a job, if it gave one.
pub(crate) fn id_answer(
    alloc: Global,
    old: &NodeModel,
    new: &NodeModel,
) -> Result<Vec<u8>, AllocError>
    ensures { IfOk result (λ text. text.items ≡ id_answer old.now.node.durable new.now.node.durable) }
{
    let mut text = Vec::new(alloc);
    let id = old.table().next();
    if new.table().next() != id {
        push_number(&mut text, id)?;
    }
    Ok(text)
}

/// Its counter, the id of its next job, and how many jobs it keeps.
#[tactic(auto, unfolding(crate::specs::NodeAnswers::kept_answer))]
pub(crate) fn kept_answer(alloc: Global, node: &NodeModel) -> Result<Vec<u8>, AllocError>
    ensures { IfOk result (λ text. text.items ≡ kept_answer node.now.node.durable) }
{
    let mut text = Vec::new(alloc);
    push_number(&mut text, node.counter())?;
    push_named_number(&mut text, " ", node.table().next())?;
    push_named_number(&mut text, " ", node.table().pending().len() as u64)?;
    Ok(text)
}

/// Whether an entry says that a job was finished.
pub(crate) fn is_finish(entry: &Option<EntryView<'_>>) -> bool
    ensures { result ≡ is_finish (option_map claim_seen entry.now) }
{
    match entry {
        Some(entry) => matches!(entry.action, TraceAction::Done(Event::Finish(_, _))),
        None => false,
    }
}
