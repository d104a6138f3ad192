//! The nodes, brought through the entries of a run turn by turn.
ghost use Rattle.std.specs.Prelude.{◌≡◌, ◌<◌, ◌≤◌, ◌+◌, ℕ, [], length, map, reverse, take, slice_get, Some, IfOk, OnOk, IsTrue, MatchOption};
ghost use Rattle.trace_check.specs.Followed.{before};
ghost use Rattle.trace_check.specs.Orders.{IsLegal};
ghost use Rattle.trace_console.specs.Stands.{members_of, stand_of};
ghost use Rattle.trace_console.specs.Turns.{AreFirst, AreSeats, AreTurns};

use crate::turn::{Stand, Turn};
use group_task::{Members, NodeId, Task};
use node_core::Phase;
use std::alloc::{AllocError, Global};
use trace_check::{NodeModel, Trace};

/// A node of the trace, after the turns so far, and the index of its next entry.
#[derive(Drop)]
pub(crate) struct NodeCursor {
    pub(crate) node_model: NodeModel,
    pub(crate) index: usize,
}

/// The turns of a run.
pub(crate) fn walk(alloc: Global, trace: &Trace, order: &[NodeId]) -> Result<Vec<Turn>, AllocError>
    requires { IsLegal trace.now (reverse order.now) }
    ensures { IfOk result (λ turns. AreTurns trace.now order.now turns.items) }
{
    let mut seats = open(alloc, trace)?;
    let mut turns = Vec::new(alloc);
    for turn in 0..order.len() {
        take_turn(trace, order, turn, &mut seats, &mut turns)?;
    }
    Ok(turns)
}

/// All nodes, before the first turn.
pub(crate) fn open(alloc: Global, trace: &Trace) -> Result<Vec<NodeCursor>, AllocError>
    ensures { IfOk result (λ seats. AreSeats trace.now [] seats.items) }
{
    let nodes = trace.nodes();
    let mut seats = Vec::new(alloc);
    for number in 0..nodes {
        let node_model = NodeModel::new(alloc, NodeId::numbered(number), nodes)?;
        seats.push(NodeCursor {
            node_model,
            index: 0,
        })?;
    }
    Ok(seats)
}

/// The turn of this number.
fn take_turn(
    trace: &Trace,
    order: &[NodeId],
    turn: usize,
    seats: &mut Vec<NodeCursor>,
    turns: &mut Vec<Turn>,
) -> Result<(), AllocError>
    requires more { turn < length order.now }
    requires legal { IsLegal trace.now (reverse order.now) }
    requires seats { AreSeats trace.now (before order.now turn) seats.old.items }
    requires count { length turns.old.items ≡ turn }
    requires turns { AreFirst trace.now order.now turns.old.items }
    ensures seats { OnOk result (AreSeats trace.now (before order.now (turn + 1)) seats.new.items) }
    ensures count { OnOk result (length turns.new.items ≡ turn + 1) }
    ensures turns { OnOk result (AreFirst trace.now order.now turns.new.items) }
{
    let node = order[turn];
    let node_cursor = &mut seats[usize::from(node.number())];
    let index = node_cursor.index;
    let Some(entry) = trace.entry(node, index) else {
        unreachable!()
    };
    if !node_cursor.node_model.take(&entry)? {
        unreachable!()
    }
    node_cursor.index += 1;
    let stand = stand_of(&node_cursor.node_model);
    turns.push(Turn { node, index, stand })?;
    Ok(())
}

/// How a node stands; None where it is down.
pub(crate) fn stand_of(node_model: &NodeModel) -> Option<Stand>
    ensures { result ≡ stand_of node_model.now.node.state }
{
    let vector = node_model.vector();
    let group_state = &vector.group_state;
    match group_state.phase {
        Phase::Down => None,
        phase => Some(Stand {
            phase,
            group: group_state.group,
            coordinator: group_state.coordinator,
            members: members_of(&group_state.task),
            in_hand: vector.hand.jobs().len(),
        }),
    }
}

/// The members of a task; none where there is no task.
pub(crate) fn members_of(task: &Option<Task>) -> Members
    ensures { result ≡ members_of task.now }
{
    match task {
        Some(task) => task.members(),
        None => Members::new(),
    }
}
