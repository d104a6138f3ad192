//! Which jobs are in hand, looked up by the nodes that keep them and their ids there.
ghost use Rattle.std.specs.Prelude.{◌≡◌, ◌++◌, ◌∷◌, [], true, List};
ghost use Rattle.node_core.specs.Listing.{Lists};
ghost use Rattle.node_core.specs.Held.{holds, without_held};
ghost use Rattle.job_model.specs.declared.work.Work.{Work};
ghost use Rattle.node_core.specs.declared.in_hand.InHand.{InHand};

use group_task::NodeId;
use std::alloc::Global;
use std::collections::HashSet;

/// The jobs of a hand, each by its keeper and id. It helps only where it is whole: where memory is wanting, or two jobs have the same
/// keeper and id, it isn't.
#[derive(Debug, Drop)]
pub(crate) struct Listing {
    pub(crate) keys: HashSet<(u8, u64)>,
    pub(crate) is_whole: bool,
}

impl Listing {
    /// The listing of an empty hand, which takes no memory.
    pub(crate) fn new(alloc: Global) -> Listing
        ensures { Lists result [] }
    {
        Listing {
            keys: HashSet::new(alloc),
            is_whole: true,
        }
    }

    /// Whether the job is listed.
    pub(crate) fn has(&self, origin: NodeId, id: u64) -> bool
        requires { self.now.is_whole ≡ true }
        ensures { (jobs : List InHand) → Lists self.now jobs → result ≡ holds jobs origin id }
    {
        self.keys.contains(&(origin.number(), id))
    }

    /// Makes room for so many jobs more, where there is memory.
    pub(crate) fn reserve(&mut self, more: usize)
        ensures { (jobs : List InHand) → Lists self.old jobs → Lists self.new jobs }
    {
        let _ = self.keys.reserve(more);
    }

    /// Lists one job more, in the room that is there: it takes no memory.
    pub(crate) fn note(&mut self, origin: NodeId, id: u64)
        ensures { (jobs : List InHand) (work : Work) → Lists self.old jobs → Lists self.new (jobs ++ (record { origin = origin; id = id; work = work }) ∷ []) }
    {
        if self.keys.len() == self.keys.capacity() {
            self.is_whole = false;
            return;
        }
        match self.keys.insert((origin.number(), id)) {
            Ok(true) => {}
            _ => self.is_whole = false,
        }
    }

    /// Lists a job no more.
    pub(crate) fn forget(&mut self, origin: NodeId, id: u64)
        ensures { (jobs : List InHand) → Lists self.old jobs → Lists self.new (without_held jobs origin id) }
    {
        self.keys.remove(&(origin.number(), id));
    }

    /// Lists no job, and begins anew.
    pub(crate) fn clear(&mut self)
        ensures { Lists self.new [] }
    {
        // where none is listed, the room for many costs nothing
        if !self.keys.is_empty() {
            self.keys.clear();
        }
        self.is_whole = true;
    }

    /// Helps no more, until it begins anew.
    pub(crate) fn give_up(&mut self)
        ensures { (jobs : List InHand) → Lists self.new jobs }
    {
        self.keys.clear();
        self.is_whole = false;
    }
}
