// Notes of writes, time by time.
ghost use Rattle.std.specs.Prelude.{◌≡◌, ℕ, [], ◌∷◌, ◌++◌, length, get_or, replicate, false, IsTrue, IsOk, OnErr, IfSome, IfNone};
ghost use Rattle.sector_disk.specs.Undo.{has_touched};

use crate::overwritten::{Overwritten, clear_noted};
use std::alloc::{AllocError, Global};
use std::marker::Model;

/// For so many notes room is kept when they are forgotten.
const KEPT_ROOM: usize = 16;

/// The notes of the times from one sync to the next that are over, and those of the time since.
///
/// They stand in one list, the first first. So a write takes memory for the bytes that it
/// overwrites, if there are any but zeros, and for the growth of the list, and a sync for the
/// place where its time ended.
#[derive(Debug, Drop)]
pub struct Notes {
    notes: Vec<Overwritten>,
    // For each time that is over how many notes there were at its end.
    ends: Vec<usize>,
    // The last of these, or 0.
    closed: usize,
}

impl Model for Notes {
    ghost use Rattle.sector_disk.specs.Noted.{Noted};
    ghost use Rattle.sector_disk.specs.Times.{noted_of, HasEnds};

    ghost Value = { Noted };

    ghost view = { noted_of };

    ghost invariant = { HasEnds };
}

impl Notes {
    pub fn new(alloc: Global) -> Notes
        ensures { result ≡ record { times = []; since = [] } }
    {
        Notes {
            notes: Vec::new(alloc),
            ends: Vec::new(alloc),
            closed: 0,
        }
    }

    /// The notes of the time that isn't over.
    pub fn since(&self) -> &[Overwritten]
        ensures { result.now ≡ self.now.since }
    {
        &self.notes[self.closed..]
    }

    pub fn add(&mut self, note: Overwritten) -> Result<(), AllocError>
        ensures ok { IsOk result → self.new ≡ record self.old { since = self.old.since ++ note ∷ [] } }
        ensures err { OnErr result (self.new ≡ self.old) }
    {
        self.notes.push(note)?;
        Ok(())
    }

    /// Ends a time, and clears the flags of the sectors that it wrote.
    pub fn end(&mut self, unsynced: &mut [bool]) -> Result<(), AllocError>
        requires { (at : ℕ) → IsTrue (get_or unsynced.old at false) → IsTrue (has_touched self.old.since at) }
        ensures ok { IsOk result → self.new ≡ record { times = self.old.times ++ self.old.since ∷ []; since = [] } }
        ensures synced { IsOk result → unsynced.new ≡ replicate (length unsynced.old) false }
        ensures err { OnErr result (self.new ≡ self.old) }
        ensures unsynced { OnErr result (unsynced.new ≡ unsynced.old) }
    {
        let end = self.notes.len();
        self.ends.push(end)?;
        clear_noted(unsynced, &self.notes[self.closed..]);
        self.closed = end;
        Ok(())
    }

    /// Takes back the last note of the time that isn't over.
    pub fn pop(&mut self) -> Option<Overwritten>
        ensures some { IfSome result (λ note. (self.old.since ≡ self.new.since ++ note ∷ []) × (self.new.times ≡ self.old.times)) }
        ensures none { IfNone result ((self.old.since ≡ []) × (self.new ≡ self.old)) }
    {
        if self.notes.len() == self.closed {
            return None;
        }
        self.notes.pop()
    }

    /// Drops the notes of the times that are over. Their room stays, unless it is that of a compaction.
    pub fn forget(&mut self)
        ensures { self.new ≡ record self.old { times = [] } }
    {
        if self.closed < self.notes.len() {
            self.notes.rotate_left(self.closed);
        }
        self.notes.truncate(self.notes.len() - self.closed);
        self.ends.clear();
        self.closed = 0;
        if self.notes.capacity() > KEPT_ROOM {
            self.shrink_to_fit();
        }
    }

    /// Gives back the room in which no note stands.
    pub fn shrink_to_fit(&mut self)
        ensures { self.new ≡ self.old }
    {
        self.notes.shrink_to_fit();
        self.ends.shrink_to_fit();
    }

    pub fn clear(&mut self)
        ensures { self.new ≡ record { times = []; since = [] } }
    {
        self.notes.clear();
        self.ends.clear();
        self.closed = 0;
    }
}
