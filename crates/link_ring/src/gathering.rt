//! What went through a link, once both ends are back in one thread.

ghost use Rattle.std.specs.Prelude.{◌≡◌, ◌↔◌, IsOk, IsTrue, IfOk, slice_get};
ghost use mathlib.Core.List.{IsPrefix};
ghost use Rattle.link_ring.specs.Sides.{Paired};

use crate::link_log::LinkLog;
use crate::put_end::PutEnd;
use crate::take_end::TakeEnd;
use group_task::NodeId;
use thiserror::Error;

/// What went through a link: all that was put and all that was taken, each in its order.
#[derive(Debug, Drop)]
pub struct LinkEnd {
    pub sender: NodeId,
    pub receiver: NodeId,
    pub put: LinkLog,
    pub taken: LinkLog,
}

/// Two ends that can't be those of one link.
#[derive(Clone, Copy, Debug, PartialEq, Eq, Error)]
#[error("Unpaired")]
pub struct Unpaired;

/// What went through a link, by its two ends, which are given up either way. An end doesn't know which ring it belongs to, so
/// this compares what the ends tell: their nodes, and what went through them. What is still in the ring was put and not taken.
pub fn gather(put_end: PutEnd, take_end: TakeEnd) -> Result<LinkEnd, Unpaired>
    // Promise: Two ends are gathered exactly where they have the same sender and receiver and what was taken is the front of what
    // was put; else they are Unpaired.
    // Refuses: always_unpaired, never_unpaired, paired_whoever_takes, messages_counted_only, first_message_not_compared,
    // long_ones_compared_by_place.
    ensures paired { IsOk result ↔ Paired put_end take_end }
    // Promise: What is gathered are the two nodes, all that was put and all that was taken.
    // Also: messages.
    // Refuses: put_and_taken_swapped, gathered_turned_round.
    ensures nodes { IfOk result (λ link. (link.sender ≡ put_end.sender) × (link.receiver ≡ put_end.receiver)) }
    ensures messages { IfOk result (λ link. (link.put.messages ≡ put_end.messages) × (link.taken.messages ≡ take_end.messages)) }
{
    if !are_paired(&put_end, &take_end) {
        return Err(Unpaired);
    }
    Ok(LinkEnd {
        sender: put_end.sender(),
        receiver: put_end.receiver(),
        put: put_end.into_messages(),
        taken: take_end.into_messages(),
    })
}

/// Whether the two ends have the same nodes, and what was taken is the front of what was put.
fn are_paired(put_end: &PutEnd, take_end: &TakeEnd) -> bool
    ensures { IsTrue result ↔ Paired put_end.now take_end.now }
{
    put_end.sender() == take_end.sender()
        && put_end.receiver() == take_end.receiver()
        && begins(take_end.messages(), put_end.messages())
}

/// Whether what was taken is the front of what was put.
#[tactic(auto, using(crate::proofs::Fronts::front_of_places))]
fn begins(taken: &LinkLog, put: &LinkLog) -> bool
    ensures { IsTrue result ↔ IsPrefix taken.now.messages put.now.messages }
{
    for place in 0..taken.len() {
        if !is_same_at(taken, put, place) {
            return false;
        }
    }
    true
}

/// Whether both lists have one and the same message at this place, or neither has any.
fn is_same_at(taken: &LinkLog, put: &LinkLog, place: usize) -> bool
    ensures { IsTrue result ↔ (slice_get taken.now.messages place ≡ slice_get put.now.messages place) }
{
    if taken.is_alike(put, place) {
        return true;
    }
    match taken.get(place) {
        Some(message) => put.holds(place, &message),
        None => put.len() <= place,
    }
}
