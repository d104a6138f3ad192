ghost use Rattle.std.specs.Prelude.{◌≡◌, ◌≤◌, ◌<◌, ◌+◌, ◌^◌, ◌∷◌, [], ℕ, List, MatchOption, length, slice_get, Some, cond, IfOk, OnOk, IfSome, IsNone, IsTrue, true, false};
ghost use Rattle.group_task.specs.Ids.{has, with_id, without_id};
ghost use Rattle.wire_msg.specs.Envelope.{Envelope};
ghost use Rattle.trace_check.specs.Claims.{Claim};
ghost use Rattle.trace_check.specs.Orders.{IsComplete, history};
ghost use Rattle.trace_check.specs.Searches.{AreAtPlaces, IsTurn, Judges, PostsAll};
ghost use Rattle.trace_check.specs.Verdicts.{IsFirstLeft};
ghost use Rattle.trace_check.specs.Views.{Stands, claim_kept};

use crate::history::{KeptView, Sent};
use crate::lazy_node::LazyNode;
use crate::node_model::EntryRoom;
use crate::sent_messages::SentMessages;
use crate::trace::Trace;
use group_task::{Members, NodeId};
use std::alloc::AllocError;

/// A node of the trace: its node model, and the index of its next entry.
#[derive(Drop)]
pub(crate) struct NodeCursor {
    pub(crate) node_model: LazyNode,
    pub(crate) place: usize,
}

/// A check that is under way.
#[derive(Drop)]
pub(crate) struct Search<'a> {
    pub(crate) seats: Vec<NodeCursor>,
    /// The nodes whose next entry may be possible: the others' isn't, before more is sent.
    pub(crate) ready: Members,
    /// The nodes whose next entry isn't possible, whatever is sent. Their node models are spoiled.
    pub(crate) stopped: Members,
    pub(crate) posted: SentMessages<'a>,
    /// Where the next entry's message or event is read.
    pub(crate) room: EntryRoom,
    /// The nodes in the order in which their entries were taken.
    pub(crate) order: Vec<NodeId>,
}

/// What can be said of a node's next entry.
pub(crate) enum Judgement {
    /// It isn't possible, or there is none.
    Stops,
    /// What it was brought isn't sent yet.
    Waits,
    Takes,
}

/// What can be said of the node's next entry, as it is kept. If it can be taken, it is.
pub(crate) fn judge<'a>(
    kept: &KeptView<'a>,
    posted: &SentMessages<'a>,
    room: &mut EntryRoom,
    node_cursor: &mut NodeCursor,
    id: NodeId,
) -> Result<Judgement, AllocError>
    requires stands { Stands kept.now }
    requires fits { node_cursor.old.place + 1 < 2 ^ 64 }
    ensures { (hs : List (List Claim)) → slice_get (history hs id) node_cursor.old.place ≡ Some (claim_kept kept.now) → IfOk result (Judges hs posted.now id node_cursor.old node_cursor.new) }
{
    let brought = kept.brought();
    if let Some(receiver) = brought.receiver(0) {
        if receiver != id {
            return Ok(Judgement::Stops);
        }
        if !posted.contains(&brought, 0) {
            return Ok(Judgement::Waits);
        }
    }
    if !node_cursor.node_model.take_kept(kept, room)? {
        return Ok(Judgement::Stops);
    }
    node_cursor.place += 1;
    Ok(Judgement::Takes)
}

/// What can be said of the next entry of the node of this id. If it can be taken, it is, and what it sent is sent.
pub(crate) fn turn<'a>(
    trace: &'a Trace,
    search: &mut Search<'a>,
    id: NodeId,
) -> Result<Judgement, AllocError>
    requires { id < length search.old.seats.items }
    ensures { IfOk result (IsTurn trace.now search.old search.new id) }
{
    let node_cursor = &mut search.seats[usize::from(id.number())];
    let Some(kept) = trace.kept(id, node_cursor.place) else {
        return Ok(Judgement::Stops);
    };
    match judge(&kept, &search.posted, &mut search.room, node_cursor, id)? {
        Judgement::Stops => Ok(Judgement::Stops),
        Judgement::Waits => Ok(Judgement::Waits),
        Judgement::Takes => {
            post_all(
                &mut search.posted,
                &mut search.ready,
                &search.stopped,
                &kept.sent(),
            )?;
            Ok(Judgement::Takes)
        }
    }
}

/// The least node that has entries left, and the index of its next.
pub(crate) fn first_left(trace: &Trace, search: &Search<'_>) -> Option<(NodeId, usize)>
    requires { length search.now.seats.items ≡ length trace.now }
    ensures { (past : List ℕ) → AreAtPlaces trace.now search.now.seats.items past → MatchOption result (IsComplete trace.now past) (λ left. IsFirstLeft trace.now past left.0 left.1) }
{
    for number in 0..trace.nodes() {
        let id = NodeId::numbered(number);
        let index = search.seats[usize::from(number)].place;
        if trace.sent(id, index).is_some() {
            return Some((id, index));
        }
    }
    None
}

/// The messages are sent: who waits for one of them may go on.
pub(crate) fn post_all<'a>(
    posted: &mut SentMessages<'a>,
    ready: &mut Members,
    stopped: &Members,
    sent: &Sent<'a>,
) -> Result<(), AllocError>
    ensures { OnOk result (PostsAll stopped.now posted.old posted.new ready.old ready.new sent.now) }
{
    for place in 0..sent.len() {
        post(posted, ready, stopped, sent, place)?;
    }
    Ok(())
}

/// The message at a place of these is sent.
fn post<'a>(
    posted: &mut SentMessages<'a>,
    ready: &mut Members,
    stopped: &Members,
    sent: &Sent<'a>,
    place: usize,
) -> Result<(), AllocError>
    requires { place < length sent.now }
    ensures { (m : Envelope) → slice_get sent.now place ≡ Some m → OnOk result (PostsAll stopped.now posted.old posted.new ready.old ready.new (m ∷ [])) }
{
    let Some(receiver) = sent.receiver(place) else {
        unreachable!()
    };
    posted.add(sent, place)?;
    if !stopped.contains(receiver) {
        ready.insert(receiver);
    }
    Ok(())
}
