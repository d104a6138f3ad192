//! What of a trace can't be by itself: entries of one node, whatever the other nodes did.
ghost use Rattle.std.specs.Prelude.{◌≡◌, ◌<◌, ◌≤◌, ◌+◌, ◌-◌, ◌++◌, [], ◌∷◌, length, replicate, IfOk, OnOk};
ghost use Rattle.group_task.specs.declared.node.TheConstants.{NODES};
ghost use Rattle.trace_check.specs.Contradictions.{IsContradiction, IsCore, IsLastOpening, IsStart, IsStopped, lone};
ghost use Rattle.trace_check.specs.Kept.{part};
ghost use Rattle.trace_check.specs.Leftovers.{CanReplay};
ghost use Rattle.trace_check.specs.Orders.{history};
ghost use Rattle.trace_check.specs.Traces.{claim_seen};

use crate::history::{EntryView, History};
use crate::leaving::replayed;
use crate::node_model::{EntryRoom, NodeModel};
use crate::trace::Trace;
use group_task::NodeId;
use std::alloc::{AllocError, Global};

/// So many entries of a node are a contradiction at most: of more since it opened last these are the last ones.
pub const MOST_ENTRIES: usize = 32;

/// Entries by which a node contradicts itself, whatever the other nodes did: those since it opened last, or the last of these.
#[derive(Debug, Drop)]
pub struct Contradiction {
    pub node: NodeId,
    /// The index of the first of them in the history of the node.
    pub first: usize,
    /// How the node stands before that entry.
    pub before: NodeModel,
    /// The entries, as a trace in which the other nodes have none. The last one is the one that doesn't fit.
    pub trace: Trace,
}

/// The entries of a node up to one that can't come, since it opened last, or the last of these.
pub fn contradiction_at(
    alloc: Global,
    trace: &Trace,
    node: NodeId,
    index: usize,
) -> Result<Contradiction, AllocError>
    requires { IsStopped trace.now node index }
    // Promise: Of an entry that can't come, whatever is sent, a part of its node's history is handed on that is a contradiction by itself: its last
    // entries since the node stood as where it opens, 32 at most, and how it stood before them. No run has them behind that, whatever the node
    // did before and does behind, and whatever the other nodes do.
    // Also: core_at.
    // Refuses: core_of_another_node, core_that_is_a_run, first_opening_taken, opened_with_a_job_in_hand, stands_as_at_its_end,
    // twice_as_many_entries.
    ensures { IfOk result (IsContradiction trace.now node index) }
{
    core_at(alloc, trace, node, index)
}

/// The entries of a node up to this one, behind those before it, since it opened last, or the last of these.
pub fn core_at(
    alloc: Global,
    trace: &Trace,
    node: NodeId,
    index: usize,
) -> Result<Contradiction, AllocError>
    requires there { index < length (history trace.now node) }
    requires before { CanReplay trace.now node index }
    ensures { IfOk result (IsCore trace.now node index) }
{
    let first = start(alloc, trace, node, index)?;
    let before = replayed(alloc, trace, node, first)?;
    let mut entries = copied(alloc, trace, node, first, index)?;
    let Some(entry) = trace.entry(node, index) else {
        unreachable!()
    };
    copy_entry(alloc, &mut entries, &entry)?;
    let trace = alone(alloc, trace.nodes(), node, entries)?;
    Ok(Contradiction {
        node,
        first,
        before,
        trace,
    })
}

/// Where the entries begin up to this one.
#[tactic(auto, using(crate::proofs::Contradictions::starts_there, crate::proofs::Contradictions::starts_later))]
fn start(alloc: Global, trace: &Trace, node: NodeId, index: usize) -> Result<usize, AllocError>
    requires within { node < length trace.now }
    requires before { CanReplay trace.now node index }
    requires there { index < length (history trace.now node) }
    ensures { IfOk result (IsStart trace.now node index) }
{
    let mut node_model = NodeModel::new(alloc, node, trace.nodes())?;
    let mut room = EntryRoom::new();
    let mut opening = 0;
    for place in 0..index {
        let Some(kept) = trace.kept(node, place) else {
            unreachable!()
        };
        if !node_model.take_kept(&kept, &mut room)? {
            unreachable!()
        }
        if node_model.is_opened() {
            opening = place + 1;
        }
    }
    if index - opening < MOST_ENTRIES {
        return Ok(opening);
    }
    Ok(index - (MOST_ENTRIES - 1))
}

/// The entries of a node from one place up to another.
fn copied(
    alloc: Global,
    trace: &Trace,
    node: NodeId,
    first: usize,
    end: usize,
) -> Result<History, AllocError>
    requires order { first ≤ end }
    requires within { end ≤ length (history trace.now node) }
    ensures { IfOk result (λ copy. copy ≡ part first end (history trace.now node)) }
{
    let mut history = History::new(alloc);
    for place in first..end {
        let Some(entry) = trace.entry(node, place) else {
            unreachable!()
        };
        copy_entry(alloc, &mut history, &entry)?;
    }
    Ok(history)
}

/// Adds an entry of another history.
fn copy_entry(alloc: Global, history: &mut History, entry: &EntryView<'_>) -> Result<(), AllocError>
    ensures { OnOk result (history.new ≡ history.old ++ claim_seen entry.now ∷ []) }
{
    let mut sent = Vec::new(alloc);
    for place in 0..entry.sent.len() {
        let Some(message) = entry.sent.get(place) else {
            unreachable!()
        };
        sent.push(message)?;
    }
    history.push(&entry.action, &sent)
}

/// The trace of so many nodes in which this one has these entries, and the others have none.
fn alone(alloc: Global, nodes: u8, node: NodeId, entries: History) -> Result<Trace, AllocError>
    requires within { node < nodes }
    requires most { nodes ≤ NODES }
    ensures { IfOk result (λ trace. trace ≡ lone nodes node entries) }
{
    let mut histories = Vec::new(alloc);
    push_empty(alloc, &mut histories, node.number())?;
    histories.push(entries)?;
    push_empty(alloc, &mut histories, nodes - node.number() - 1)?;
    Ok(Trace::new(histories))
}

/// Adds so many histories without an entry.
fn push_empty(alloc: Global, histories: &mut Vec<History>, many: u8) -> Result<(), AllocError>
    ensures { OnOk result (histories.new.items ≡ histories.old.items ++ replicate many []) }
{
    for _number in 0..many {
        histories.push(History::new(alloc))?;
    }
    Ok(())
}
