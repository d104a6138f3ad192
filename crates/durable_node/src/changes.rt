// What changes at a node between two moments.
ghost use Rattle.std.specs.Prelude.{◌≡◌, ◌++◌, ◌∷◌, [], IfOk, OnOk, drop, is_some, map};
ghost use Rattle.node_core.specs.State.{state_of};
ghost use Rattle.durable_node.specs.Changes.{dropped_since, first_for, held_by, held_for, pair_in, taken_since};

use crate::group_view::GroupView;
use crate::hand_move::HandMove;
use group_task::NodeId;
use node_core::{Hand, HandJobs, InHandRef, Vector};
use std::alloc::{AllocError, Global};
use std::marker::Model;

/// What was seen of a node: what was told of its group, and as much of its hand as says later how it moved.
#[derive(Debug, Drop)]
pub struct Seen {
    group: GroupView,
    hand_move: HandMove,
    // the place from which on jobs may come
    first: usize,
    // those that were in hand, where they may go, or may be among those that come
    held: Vec<(NodeId, u64)>,
}

impl Model for Seen {
    ghost use Rattle.durable_node.specs.Changes.{Sight};

    ghost Value = { Sight };

    ghost view = { λ a. record { group = a.group; move = a.hand_move; first = a.first; held = a.held.items } };
}

/// What changed at a node since it was seen.
#[derive(Debug, Drop)]
pub struct Changes<'a> {
    /// What is told of the group now, where another thing was told before.
    pub group: Option<GroupView>,
    /// The jobs that came into the hand, in its order, lent.
    pub taken: Vec<InHandRef<'a>>,
    /// The jobs that left the hand: the nodes that keep them, and their ids there.
    pub dropped: Vec<(NodeId, u64)>,
}

impl Seen {
    ghost use Rattle.durable_node.specs.Changes.{AreChangesSince, dropped_as, seen_of};

    /// Sees a node by its vector, whose hand will move so.
    pub(crate) fn of(
        alloc: Global,
        vector: &Vector,
        hand_move: HandMove,
    ) -> Result<Seen, AllocError>
        ensures { IfOk result (λ seen. seen ≡ seen_of hand_move (state_of vector.now)) }
    {
        let jobs = vector.hand.jobs();
        Ok(Seen {
            group: GroupView::of(vector),
            hand_move,
            first: first_for(hand_move, &jobs),
            held: held_for(alloc, hand_move, &jobs)?,
        })
    }

    /// What has changed since, by the node's vector now.
    #[tactic(auto, using(crate::proofs::Moves::changed_so))]
    pub(crate) fn changes<'a>(
        &self,
        alloc: Global,
        vector: &'a Vector,
    ) -> Result<Changes<'a>, AllocError>
        ensures { IfOk result (AreChangesSince self.now (state_of vector.now)) }
    {
        Ok(Changes {
            group: self.group.anew(GroupView::of(vector)),
            taken: taken(alloc, &self.held, self.first, &vector.hand.jobs())?,
            dropped: self.dropped(alloc, &vector.hand)?,
        })
    }

    /// The jobs that left the hand. One that fell is shorter.
    fn dropped(&self, alloc: Global, hand: &Hand) -> Result<Vec<(NodeId, u64)>, AllocError>
        ensures { IfOk result (λ dropped. dropped.items ≡ dropped_as self.now.move self.now hand.now.jobs) }
    {
        if matches!(self.hand_move, HandMove::Falls) && hand.jobs().len() >= self.first {
            return Ok(Vec::new(alloc));
        }
        dropped(alloc, &self.held, hand)
    }
}

/// The place from which on jobs may come.
fn first_for(hand_move: HandMove, jobs: &HandJobs<'_>) -> usize
    ensures { result ≡ first_for hand_move jobs.now }
{
    match hand_move {
        HandMove::Turns => 0,
        HandMove::Stays | HandMove::Grows | HandMove::Falls => jobs.len(),
    }
}

/// The jobs in hand, as the nodes that keep them and their ids there, where they may go, or may be among those that come.
fn held_for(
    alloc: Global,
    hand_move: HandMove,
    jobs: &HandJobs<'_>,
) -> Result<Vec<(NodeId, u64)>, AllocError>
    ensures { IfOk result (λ pairs. pairs.items ≡ held_for hand_move jobs.now) }
{
    if matches!(hand_move, HandMove::Stays | HandMove::Grows) {
        return Ok(Vec::new(alloc));
    }
    let mut pairs = Vec::with_capacity(alloc, jobs.len())?;
    push_pairs(&mut pairs, jobs)?;
    Ok(pairs)
}

/// Adds the jobs in hand, as the nodes that keep them and their ids there.
fn push_pairs(pairs: &mut Vec<(NodeId, u64)>, jobs: &HandJobs<'_>) -> Result<(), AllocError>
    ensures { OnOk result (pairs.new.items ≡ pairs.old.items ++ map held_by jobs.now) }
{
    for job in jobs.iter() {
        pairs.push((job.origin(), job.id()))?;
    }
    Ok(())
}

/// The jobs in hand from this place on that aren't among these.
#[tactic(auto, using(crate::proofs::Moves::taken_more, crate::proofs::Moves::taken_all))]
fn taken<'a>(
    alloc: Global,
    held: &[(NodeId, u64)],
    first: usize,
    jobs: &HandJobs<'a>,
) -> Result<Vec<InHandRef<'a>>, AllocError>
    ensures { IfOk result (λ taken. taken.items ≡ taken_since held.now (drop first jobs.now)) }
{
    let mut taken = Vec::new(alloc);
    let mut next: usize = 0;
    for at in first..jobs.len() {
        let Some(job) = jobs.get(at) else {
            unreachable!()
        };
        next = take_unless_held(&mut taken, held, next, job)?;
    }
    Ok(taken)
}

/// Adds the job unless it is among these, and says where it is looked for next.
fn take_unless_held<'a>(
    taken: &mut Vec<InHandRef<'a>>,
    held: &[(NodeId, u64)],
    next: usize,
    job: InHandRef<'a>,
) -> Result<usize, AllocError>
    ensures { OnOk result (taken.new.items ≡ taken.old.items ++ taken_since held.now (job.entry ∷ [])) }
{
    match place_of(held, next, &job) {
        Some(place) => Ok(place.saturating_add(1)),
        None => {
            taken.push(job)?;
            Ok(next)
        }
    }
}

/// A place at which the job stands among these. It is looked for at `next` first.
fn place_of(pairs: &[(NodeId, u64)], next: usize, job: &InHandRef<'_>) -> Option<usize>
    ensures { is_some result ≡ pair_in pairs.now job.now.origin job.now.id }
{
    if let Some(pair) = pairs.get(next) {
        if pair.0.is(job.origin()) && pair.1 == job.id() {
            return Some(next);
        }
    }
    let mut place: usize = 0;
    for pair in pairs {
        if pair.0.is(job.origin()) && pair.1 == job.id() {
            return Some(place);
        }
        place = place.saturating_add(1);
    }
    None
}

/// Those of these jobs that aren't in hand.
fn dropped(
    alloc: Global,
    held: &[(NodeId, u64)],
    hand: &Hand,
) -> Result<Vec<(NodeId, u64)>, AllocError>
    ensures { IfOk result (λ dropped. dropped.items ≡ dropped_since held.now hand.now.jobs) }
{
    let mut dropped = Vec::new(alloc);
    for pair in held {
        if !hand.contains(pair.0, pair.1) {
            dropped.push(*pair)?;
        }
    }
    Ok(dropped)
}
