//! Jobs in hand, lent as they are kept.

ghost use Rattle.std.specs.Prelude.{◌≡◌, ◌≤◌, ◌↔◌, [], length, slice_get, IsTrue};
ghost use Rattle.std.specs.Iterator.{YieldsFirst, item_count};
ghost use Rattle.node_core.specs.Listing.{HasNode, in_hand_of};
ghost use Rattle.job_model.specs.declared.payload.TheConstants.{PAYLOAD_CAPACITY};

use crate::in_hand::InHand;
use group_task::NodeId;
use job_model::{JobList, JobRef, KeptIter, KeptJob, Queue, Work};
use std::marker::Model;

/// A job in hand, lent: its payload stays where it is kept, since an `InHand` takes over 400 bytes.
#[derive(Debug, Drop)]
pub struct InHandRef<'a> {
    origin: NodeId,
    job: JobRef<'a>,
}

impl<'a> Model for InHandRef<'a> {
    ghost use Rattle.node_core.specs.declared.in_hand.InHand.{InHand};

    ghost Value = { InHand };

    ghost view = { λ a. record { origin = a.origin; id = a.job.id; work = a.job.work } };
}

impl<'a> InHandRef<'a> {
    /// The node that keeps the job until it is done.
    #[inline]
    pub fn origin(&self) -> NodeId
        ensures { result ≡ self.now.origin }
    {
        self.origin
    }

    /// The job's id there.
    #[inline]
    pub fn id(&self) -> u64
        ensures { result ≡ self.now.id }
    {
        self.job.id()
    }

    /// The queue that the job is of.
    #[inline]
    pub fn queue(&self) -> Queue
        ensures { result ≡ self.now.work.queue }
    {
        self.job.queue()
    }

    /// The lowest is 0.
    #[inline]
    pub fn priority(&self) -> u8
        ensures { result ≡ self.now.work.priority }
    {
        self.job.priority()
    }

    /// The bytes of its payload.
    #[inline]
    pub fn payload(&self) -> &'a [u8]
        ensures value { result.now ≡ self.now.work.payload }
        ensures fits { length self.now.work.payload ≤ PAYLOAD_CAPACITY }
    {
        self.job.payload()
    }

    /// What there is to do, made once more.
    pub fn work(&self) -> Work
        ensures { result ≡ self.now.work }
    {
        self.job.work()
    }

    /// The job in hand, made once more.
    pub fn to_in_hand(&self) -> InHand
        // Promise: A job in hand that is lent is that job: each of its parts, and all of it made once more.
        // Also: InHandRef::origin, InHandRef::id, InHandRef::queue, InHandRef::priority, InHandRef::payload, InHandRef::work.
        // Refuses: lent_payload_halved, lent_work_of_lowest_priority, lent_job_of_node_0.
        ensures { result ≡ self.now }
    {
        InHand {
            origin: self.origin,
            id: self.id(),
            work: self.work(),
        }
    }
}

/// The jobs in hand, in the order in which they were taken, lent.
#[derive(Debug, Drop)]
pub struct HandJobs<'a> {
    pub(crate) list: &'a JobList,
}

impl<'a> Model for HandJobs<'a> {
    ghost use Rattle.std.specs.Prelude.{All, List};
    ghost use Rattle.node_core.specs.declared.in_hand.InHand.{InHand};
    ghost use Rattle.node_core.specs.Listing.{HasNode, in_hand};

    ghost Value = { List InHand };

    ghost view = { λ a. in_hand a.list.now.jobs };

    ghost invariant = { λ a. All HasNode a.list.now.jobs };
}

impl<'a> HandJobs<'a> {
    /// How many jobs there are.
    #[inline]
    pub fn len(&self) -> usize
        ensures { result ≡ length self.now }
    {
        self.list.len()
    }

    /// Whether there is none.
    #[inline]
    pub fn is_empty(&self) -> bool
        ensures { IsTrue result ↔ (self.now ≡ []) }
    {
        self.list.len() == 0
    }

    /// The job at a place, counted from 0.
    #[inline]
    pub fn get(&self, place: usize) -> Option<InHandRef<'a>>
        ensures { result ≡ slice_get self.now place }
    {
        Some(lend(self.list.get(place)?))
    }

    /// The jobs one after another.
    #[inline]
    pub fn iter(&self) -> HandIter<'a>
        ensures { result ≡ self.now }
    {
        HandIter {
            left: self.list.iter(),
        }
    }
}

// A job of a list as one in hand.
#[inline]
fn lend(kept: KeptJob<'_>) -> InHandRef<'_>
    requires { HasNode kept }
    ensures { result ≡ in_hand_of kept.entry }
{
    InHandRef {
        origin: NodeId::numbered(kept.origin),
        job: kept.job,
    }
}

impl<'a> IntoIterator for HandJobs<'a> {
    type Item = InHandRef<'a>;

    type IntoIter = HandIter<'a>;

    ghost into_iter_gives = { λ s r. r ≡ s };

    #[inline]
    fn into_iter(self) -> HandIter<'a> {
        self.iter()
    }
}

/// The jobs in hand, from the first on.
#[derive(Debug, Drop)]
pub struct HandIter<'a> {
    left: KeptIter<'a>,
}

impl<'a> Model for HandIter<'a> {
    ghost use Rattle.std.specs.Prelude.{All, List};
    ghost use Rattle.node_core.specs.declared.in_hand.InHand.{InHand};
    ghost use Rattle.node_core.specs.Listing.{HasNode, in_hand};

    ghost Value = { List InHand };

    ghost view = { λ a. in_hand a.left };

    ghost invariant = { λ a. All HasNode a.left };
}

impl<'a> Iterator for HandIter<'a> {
    type Item = InHandRef<'a>;

    ghost next_gives = { YieldsFirst (λ s. s) };

    ghost remaining = { item_count (λ s. s) };

    #[inline]
    fn next(&mut self) -> Option<InHandRef<'a>> {
        Some(lend(self.left.next()?))
    }
}
