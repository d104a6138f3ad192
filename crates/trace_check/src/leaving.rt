//! What is left once no entry more can be taken. A node that was stopped is brought through its history again, since its node model is
//! spoiled.
ghost use Rattle.std.specs.Prelude.{◌≡◌, ◌<◌, ◌↔◌, [], length, slice_get, false, IfOk, OnOk, IsTrue};
ghost use Rattle.histories.specs.HistoryEvent.{AreAddressed};
ghost use Rattle.trace_check.specs.Claims.{brought_by};
ghost use Rattle.trace_check.specs.Searches.{Fits, Rests, twin_after};
ghost use Rattle.trace_check.specs.Leftovers.{AreLeftovers, CanReplay, HoldsUp, IsFound};
ghost use Rattle.trace_check.specs.Orders.{history};
ghost use Rattle.trace_check.specs.Traces.{claim_seen};

use crate::history::EntryView;
use crate::lazy_node::LazyNode;
use crate::leftover::{Holdup, Leftover};
use crate::node_model::{EntryRoom, NodeModel, same};
use crate::search::{NodeCursor, Search};
use crate::trace::{Trace, TraceAction};
use group_task::NodeId;
use std::alloc::{AllocError, Global};

/// The next entry of each node that has entries left, with what holds it up, once no entry more can be taken. The node models are of no
/// more use then.
pub(crate) fn leftovers(
    alloc: Global,
    trace: &Trace,
    search: &mut Search<'_>,
) -> Result<Vec<Leftover>, AllocError>
    requires fits { Fits trace.now search.old }
    requires none { search.old.ready ≡ [] }
    ensures left { IfOk result (λ left. AreLeftovers trace.now left.items) }
    ensures rests { OnOk result (Rests trace.now search.new) }
{
    let mut left = Vec::new(alloc);
    for number in 0..trace.nodes() {
        let node = NodeId::numbered(number);
        let is_stopped = search.stopped.contains(node);
        let seat = &mut search.seats[usize::from(number)];
        let found = next_holdup(alloc, trace, node, is_stopped, seat)?;
        let index = seat.place;
        if let Some(holdup) = found {
            left.push(Leftover {
                node,
                index,
                holdup,
            })?;
        }
    }
    Ok(left)
}

/// What holds the node's next entry up, if there is one: those before it can come.
fn next_holdup(
    alloc: Global,
    trace: &Trace,
    node: NodeId,
    is_stopped: bool,
    seat: &mut NodeCursor,
) -> Result<Option<Holdup>, AllocError>
    requires within { node < length trace.now }
    requires before { CanReplay trace.now node seat.old.place }
    requires going { is_stopped ≡ false → seat.old.node_model ≡ twin_after trace.now node seat.old.place }
    ensures found { IfOk result (IsFound trace.now node seat.old.place (slice_get (history trace.now node) seat.old.place)) }
    ensures place { seat.new.place ≡ seat.old.place }
{
    let Some(entry) = trace.entry(node, seat.place) else {
        return Ok(None);
    };
    if !is_for(&entry.action, node) {
        return Ok(Some(Holdup::Misaddressed));
    }
    renew(alloc, trace, node, is_stopped, seat)?;
    Ok(Some(holdup_at(&mut seat.node_model, &entry)?))
}

/// Brings a node that was stopped before its next entry again.
fn renew(
    alloc: Global,
    trace: &Trace,
    node: NodeId,
    is_stopped: bool,
    seat: &mut NodeCursor,
) -> Result<(), AllocError>
    requires within { node < length trace.now }
    requires before { CanReplay trace.now node seat.old.place }
    requires there { seat.old.place < length (history trace.now node) }
    requires going { is_stopped ≡ false → seat.old.node_model ≡ twin_after trace.now node seat.old.place }
    ensures node_model { OnOk result (seat.new.node_model ≡ twin_after trace.now node seat.old.place) }
    ensures place { seat.new.place ≡ seat.old.place }
{
    if is_stopped {
        seat.node_model = LazyNode::of(replayed(alloc, trace, node, seat.place)?);
    }
    Ok(())
}

/// Whether the message that was brought, if there is one, is for this node.
fn is_for(action: &TraceAction, node: NodeId) -> bool
    ensures { IsTrue result ↔ AreAddressed node (brought_by action.now) }
{
    match action.brought() {
        Some(message) => message.receiver() == node,
        None => true,
    }
}

/// What holds an entry up at a node that stands before it.
fn holdup_at(node_model: &mut LazyNode, entry: &EntryView<'_>) -> Result<Holdup, AllocError>
    requires { AreAddressed node_model.old.id (brought_by entry.now.action) }
    ensures { IfOk result (HoldsUp node_model.old.id node_model.old.nodes node_model.old.node (claim_seen entry.now)) }
{
    let phase = node_model.phase();
    let Some(made) = node_model.sends(entry)? else {
        return Ok(Holdup::Refused(phase));
    };
    if same(&made, &entry.sent) {
        Ok(Holdup::Waits)
    } else {
        Ok(Holdup::Sends(made))
    }
}

/// The node, brought through so many entries of its history.
pub(crate) fn replayed(
    alloc: Global,
    trace: &Trace,
    node: NodeId,
    many: usize,
) -> Result<NodeModel, AllocError>
    requires within { node < length trace.now }
    requires before { CanReplay trace.now node many }
    requires there { many < length (history trace.now node) }
    ensures { IfOk result (λ node_model. node_model ≡ twin_after trace.now node many) }
{
    let mut node_model = LazyNode::new(alloc, node, trace.nodes())?;
    let mut room = EntryRoom::new();
    for place in 0..many {
        let Some(kept) = trace.kept(node, place) else {
            unreachable!()
        };
        if !node_model.take_kept(&kept, &mut room)? {
            unreachable!()
        }
    }
    node_model.into_node_model()
}
