//! The lines of the table that ends a simulation: one for each node.

ghost use Rattle.std.specs.Prelude.{◌≡◌, ◌++◌, OnOk, IfOk};
ghost use Rattle.job_model.specs.Table.{durable_of};
ghost use Rattle.node_core.specs.State.{state_of};
ghost use Rattle.sector_disk.specs.Memory.{state_of as disk_state};
ghost use Rattle.durable_node.specs.Node.{Stands};
ghost use Rattle.histories.specs.NodeState.{NodeState};
ghost use Rattle.invite_console.specs.Sim.{AddsRow};
ghost use Rattle.console_text.specs.Ends.{line};
ghost use Rattle.node_words.specs.Words.{ids_text};
ghost use Rattle.invite_console.specs.Rows.{down_row, head_text, job_ids, jobs_part, pair_text, pairs_text, sets_part, up_row, AreHeld, HasRow};

use console_text::{push_named_number, push_number, push_text};
use durable_node::DurableNode;
use group_task::NodeId;
use job_model::{JobTable, PendingJobs};
use node_core::{HandJobs, Phase, Vector};
use node_words::{phase_word, push_group_part, push_ids};
use sector_disk::MemDisk;
use std::alloc::{AllocError, Global};

/// Adds the line of a node.
pub(crate) fn push_row(
    alloc: Global,
    text: &mut Vec<u8>,
    id: NodeId,
    node: &DurableNode<MemDisk>,
) -> Result<(), AllocError>
    ensures { (s : NodeState) → Stands disk_state node.now s → OnOk result (AddsRow id s text.old.items text.new.items) }
{
    let vector = node.vector();
    match node.durable() {
        Some((count, table)) if !matches!(vector.group_state.phase, Phase::Down) => {
            push_up_row(alloc, text, id, vector, count, table)
        }
        _ => push_down_row(text, id),
    }
}

/// Adds the line of a node that is up, whose disk keeps this count and these jobs.
fn push_up_row(
    alloc: Global,
    text: &mut Vec<u8>,
    id: NodeId,
    vector: &Vector,
    count: u64,
    table: &JobTable,
) -> Result<(), AllocError>
    ensures { OnOk result (HasRow id (state_of vector.now) (durable_of count table.now) text.old.items text.new.items) }
{
    let held = held_in(alloc, &vector.hand.jobs())?;
    push_row_of(text, id, vector, count, table, &held)
}

/// Adds the line of a node that is up, whose hand holds these.
fn push_row_of(
    text: &mut Vec<u8>,
    id: NodeId,
    vector: &Vector,
    count: u64,
    table: &JobTable,
    held: &[(u8, u64)],
) -> Result<(), AllocError>
    ensures { OnOk result (text.new.items ≡ text.old.items ++ line (up_row id (state_of vector.now) (durable_of count table.now) held.now)) }
{
    push_head(text, id, vector)?;
    push_group_part(text, vector)?;
    push_sets(text, vector)?;
    push_jobs(text, count, table)?;
    push_text(text, " hand ")?;
    push_pairs(text, held)?;
    push_text(text, "\n")
}

/// Adds the line of a node that is Down.
fn push_down_row(text: &mut Vec<u8>, id: NodeId) -> Result<(), AllocError>
    ensures { OnOk result (text.new.items ≡ text.old.items ++ line (down_row id)) }
{
    push_named_number(text, "node ", u64::from(id.number()))?;
    push_text(text, " Down\n")
}

/// The jobs in hand in rising order, as the nodes that keep them and their ids there.
fn held_in(alloc: Global, hand: &HandJobs<'_>) -> Result<Vec<(u8, u64)>, AllocError>
    ensures { IfOk result (λ held. AreHeld hand.now held.items) }
{
    let mut held = Vec::with_capacity(alloc, hand.len())?;
    for job in hand.iter() {
        held.push((job.origin().number(), job.id()))?;
    }
    held.sort_unstable();
    Ok(held)
}

fn push_head(text: &mut Vec<u8>, id: NodeId, vector: &Vector) -> Result<(), AllocError>
    ensures { OnOk result (text.new.items ≡ text.old.items ++ head_text id (state_of vector.now)) }
{
    push_named_number(text, "node ", u64::from(id.number()))?;
    push_text(text, " ")?;
    push_text(text, phase_word(vector.group_state.phase))
}

fn push_sets(text: &mut Vec<u8>, vector: &Vector) -> Result<(), AllocError>
    ensures { OnOk result (text.new.items ≡ text.old.items ++ sets_part (state_of vector.now)) }
{
    push_text(text, " up ")?;
    push_ids(text, vector.group_state.up)?;
    push_text(text, " members ")?;
    push_ids(text, vector.members())
}

fn push_jobs(text: &mut Vec<u8>, count: u64, table: &JobTable) -> Result<(), AllocError>
    ensures { OnOk result (text.new.items ≡ text.old.items ++ jobs_part (durable_of count table.now)) }
{
    push_named_number(text, " count ", count)?;
    push_text(text, " pending ")?;
    push_job_ids(text, &table.pending())
}

/// Adds the ids of jobs joined by commas.
fn push_job_ids(text: &mut Vec<u8>, jobs: &PendingJobs<'_>) -> Result<(), AllocError>
    ensures { OnOk result (text.new.items ≡ text.old.items ++ ids_text (job_ids jobs.now)) }
{
    let mut left = jobs.iter();
    let Some(first) = left.next() else {
        return push_text(text, "-");
    };
    push_number(text, first.id())?;
    for job in left {
        push_named_number(text, ",", job.id())?;
    }
    Ok(())
}

/// Adds pairs joined by commas.
fn push_pairs(text: &mut Vec<u8>, pairs: &[(u8, u64)]) -> Result<(), AllocError>
    ensures { OnOk result (text.new.items ≡ text.old.items ++ pairs_text pairs.now) }
{
    let Some((first, rest)) = pairs.split_first() else {
        return push_text(text, "-");
    };
    push_pair(text, *first)?;
    for pair in rest {
        push_text(text, ",")?;
        push_pair(text, *pair)?;
    }
    Ok(())
}

fn push_pair(text: &mut Vec<u8>, pair: (u8, u64)) -> Result<(), AllocError>
    ensures { OnOk result (text.new.items ≡ text.old.items ++ pair_text pair) }
{
    push_number(text, u64::from(pair.0))?;
    push_named_number(text, ":", pair.1)
}
