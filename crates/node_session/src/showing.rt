// What a node shows of itself, as lines.
ghost use Rattle.std.specs.Prelude.{◌≡◌, ◌++◌, OnOk, codes, decimal};
ghost use Rattle.std.specs.List.{flat_map};
ghost use Rattle.job_model.specs.Table.{durable_of};
ghost use Rattle.node_core.specs.State.{is_down, state_of};
ghost use Rattle.durable_node.specs.Node.{Stands};
ghost use Rattle.histories.specs.NodeState.{NodeState};
ghost use Rattle.node_session.specs.Changes.{held_text};
ghost use Rattle.node_session.specs.Text.{answer_at_once, asks_part, hand_line, jobs_lines, keeps_by, keeps_line, keeps_news, pending_line, sets_part, state_line, up_line};

use crate::asked::Asked;
use crate::call_outcome::CallOutcome;
use crate::closing::{push_bad, push_ok, push_refused};
use console_text::{push_named_number, push_number, push_text, push_work};
use durable_node::DurableNode;
use job_model::{JobRef, JobTable, PendingJobs};
use node_core::{Event, HandJobs, InHandRef, Vector};
use node_words::{phase_word, push_group_part, push_ids, push_truth};
use sector_disk::SectorDisk;
use std::alloc::AllocError;

/// Adds the answer to request `number`, which makes no call of the node.
pub(crate) fn push_at_once<D: SectorDisk>(
    text: &mut Vec<u8>,
    node: &DurableNode<D>,
    number: u64,
    asked: &Asked,
) -> Result<(), AllocError>
    ensures { (s : NodeState) → Stands D.state node.now s → OnOk result (text.new.items ≡ text.old.items ++ answer_at_once number s asked.now) }
{
    match asked {
        Asked::State => push_state(text, node)?,
        Asked::Jobs => push_all_jobs(text, node)?,
        Asked::Refused(why) => return push_refused(text, number, *why),
        _ => return push_bad(text, number),
    }
    push_ok(text, number)
}

/// Adds the node's state as a line.
fn push_state<D: SectorDisk>(text: &mut Vec<u8>, node: &DurableNode<D>) -> Result<(), AllocError>
    ensures { (s : NodeState) → Stands D.state node.now s → OnOk result (text.new.items ≡ text.old.items ++ state_line s) }
{
    match node.durable() {
        Some((count, table)) if !node.is_down() => push_up(text, node.vector(), count, table),
        _ => push_text(text, "state Down\n"),
    }
}

/// Adds a line for each job that the node keeps, and for each that it works on. Of a node that is Down, nothing.
fn push_all_jobs<D: SectorDisk>(text: &mut Vec<u8>, node: &DurableNode<D>) -> Result<(), AllocError>
    ensures { (s : NodeState) → Stands D.state node.now s → OnOk result (text.new.items ≡ text.old.items ++ jobs_lines s) }
{
    match node.durable() {
        Some((_count, table)) if !node.is_down() => {
            push_pending(text, &table.pending())?;
            push_hand(text, &node.vector().hand.jobs())
        }
        _ => Ok(()),
    }
}

/// Adds what the node keeps, behind a recovery that was done.
pub(crate) fn push_keeps_news<D: SectorDisk>(
    text: &mut Vec<u8>,
    event: &Event,
    ended: &CallOutcome,
    node: &DurableNode<D>,
) -> Result<(), AllocError>
    ensures { (s : NodeState) → Stands D.state node.now s → OnOk result (text.new.items ≡ text.old.items ++ keeps_news event.now ended.now s) }
{
    match (event, ended) {
        (Event::Recover, Ok(_)) => push_keeps(text, node),
        _ => Ok(()),
    }
}

fn push_keeps<D: SectorDisk>(text: &mut Vec<u8>, node: &DurableNode<D>) -> Result<(), AllocError>
    ensures { (s : NodeState) → Stands D.state node.now s → OnOk result (text.new.items ≡ text.old.items ++ keeps_by (is_down s.state.phase) s.durable) }
{
    match node.durable() {
        Some((count, table)) if !node.is_down() => push_durable(text, count, table),
        _ => Ok(()),
    }
}

fn push_durable(text: &mut Vec<u8>, count: u64, table: &JobTable) -> Result<(), AllocError>
    ensures { OnOk result (text.new.items ≡ text.old.items ++ keeps_line (durable_of count table.now)) }
{
    push_named_number(text, "keeps ", count)?;
    push_named_number(text, " ", table.next())?;
    push_named_number(text, " ", table.pending().len() as u64)?;
    push_text(text, "\n")
}

fn push_pending(text: &mut Vec<u8>, jobs: &PendingJobs<'_>) -> Result<(), AllocError>
    ensures { OnOk result (text.new.items ≡ text.old.items ++ flat_map pending_line jobs.now) }
{
    for job in jobs.iter() {
        push_kept(text, &job)?;
    }
    Ok(())
}

fn push_kept(text: &mut Vec<u8>, job: &JobRef<'_>) -> Result<(), AllocError>
    ensures { OnOk result (text.new.items ≡ text.old.items ++ pending_line job.now) }
{
    push_named_number(text, "pending ", job.id())?;
    push_text(text, " ")?;
    push_work(text, job.queue().number(), job.payload(), job.priority())?;
    push_text(text, "\n")
}

fn push_hand(text: &mut Vec<u8>, jobs: &HandJobs<'_>) -> Result<(), AllocError>
    ensures { OnOk result (text.new.items ≡ text.old.items ++ flat_map hand_line jobs.now) }
{
    for job in jobs.iter() {
        push_text(text, "hand ")?;
        push_held(text, &job)?;
        push_text(text, "\n")?;
    }
    Ok(())
}

/// Adds a job in hand: the node that keeps it, its id there, and its work.
pub(crate) fn push_held(text: &mut Vec<u8>, job: &InHandRef<'_>) -> Result<(), AllocError>
    ensures { OnOk result (text.new.items ≡ text.old.items ++ held_text job.now) }
{
    push_number(text, u64::from(job.origin().number()))?;
    push_named_number(text, " ", job.id())?;
    push_text(text, " ")?;
    push_work(text, job.queue().number(), job.payload(), job.priority())
}

fn push_up(
    text: &mut Vec<u8>,
    vector: &Vector,
    count: u64,
    table: &JobTable,
) -> Result<(), AllocError>
    ensures { OnOk result (text.new.items ≡ text.old.items ++ up_line (state_of vector.now) (durable_of count table.now)) }
{
    push_text(text, "state ")?;
    push_text(text, phase_word(vector.group_state.phase))?;
    push_group_part(text, vector)?;
    push_sets(text, vector)?;
    push_asks(text, vector)?;
    let pending = table.pending().len() as u64;
    push_jobs(text, count, pending, vector.hand.jobs().len() as u64)?;
    push_text(text, "\n")
}

fn push_jobs(text: &mut Vec<u8>, count: u64, pending: u64, hand: u64) -> Result<(), AllocError>
    ensures { OnOk result (text.new.items ≡ text.old.items ++ (codes " count " ++ decimal count ++ codes " pending " ++ decimal pending ++ codes " hand " ++ decimal hand)) }
{
    push_named_number(text, " count ", count)?;
    push_named_number(text, " pending ", pending)?;
    push_named_number(text, " hand ", hand)
}

fn push_sets(text: &mut Vec<u8>, vector: &Vector) -> Result<(), AllocError>
    ensures { OnOk result (text.new.items ≡ text.old.items ++ sets_part (state_of vector.now)) }
{
    push_text(text, " members ")?;
    push_ids(text, vector.members())?;
    push_text(text, " found ")?;
    push_ids(text, vector.group_state.found)?;
    push_text(text, " unready ")?;
    push_ids(text, vector.group_state.unready)
}

fn push_asks(text: &mut Vec<u8>, vector: &Vector) -> Result<(), AllocError>
    ensures { OnOk result (text.new.items ≡ text.old.items ++ asks_part (state_of vector.now)) }
{
    push_text(text, " checking ")?;
    push_truth(text, vector.group_state.checking)?;
    push_text(text, " probing ")?;
    push_truth(text, vector.group_state.probing)
}
