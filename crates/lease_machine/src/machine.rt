ghost use Rattle.std.specs.Prelude.{◌≡◌, ◌≢◌, ◌<◌, ◌≤◌, All, ℕ, List, None, Some, IfOk, map, vec_capacity, true, false};
ghost use Rattle.lease_runs.specs.Code.{IsStep, view};
ghost use Rattle.lease_runs.specs.Voter.{Voter, after, raises, restarts};
ghost use Rattle.lease_machine.specs.declared.name_entry.TheConstants.{NAMES};
ghost use Rattle.lease_machine.specs.Names.{entry_of, raised};
ghost use Rattle.lease_machine.specs.Kept.{IsEntry};
ghost use Rattle.lease_machine.specs.Machine.{IsFull, OthersStay, claim_at, unknown, voter_at};

use crate::entries::dead_place;
use crate::name_entry::{NAMES, NameEntry};
use crate::state::LeaseMachine;
use crate::terms::LeaseTerms;
use lease_runs::LeaseVoter;
use std::alloc::{AllocError, Global};

impl LeaseMachine {
    /// A process that begins to wait at this time, whose disk now allows epochs up to the bound, and said before that none was granted
    /// above the floor.
    pub fn begin(
        alloc: Global,
        terms: LeaseTerms,
        process: u64,
        began: u64,
        floor: u64,
        bound: u64,
    ) -> Result<LeaseMachine, AllocError>
        requires { floor ≤ bound }
        // Promise: A process begins as a voter of each name that restarted with the floor of its disk, and whose bound was raised
        // since; nobody asks.
        // Refuses: floor_is_nothing.
        ensures begins { IfOk result (λ m. (name : List ℕ) (old : Voter) (clock : ℕ → ℕ → ℕ) (boot at : ℕ) → clock boot at ≡ began
            → view boot (voter_at m name) ≡ after terms.keeps clock (after terms.keeps clock old at (restarts boot floor)) at (raises bound)) }
        ensures nobody { IfOk result (λ m. (name : List ℕ) → claim_at m name ≡ None) }
        ensures terms { IfOk result (λ m. (m.terms ≡ terms) × (m.process ≡ process) × (m.bound ≡ bound) × (m.claims ≡ 0)) }
    {
        Ok(LeaseMachine {
            terms,
            process,
            began,
            bound,
            floor,
            claims: 0,
            names: Vec::with_capacity(alloc, NAMES)?,
        })
    }

    /// Allows epochs up to this one, of each name, since the disk does.
    pub fn raise(&mut self, bound: u64)
        requires { self.old.bound ≤ bound }
        // Promise: A raise is a possible step of the voter of each name, and changes nothing of those that ask here.
        // Refuses: raised_for_some_names_only.
        ensures raises { (name : List ℕ) (now : ℕ) → IsStep (voter_at self.old name) (voter_at self.new name) now (raises bound) }
        ensures claims { (name : List ℕ) → claim_at self.new name ≡ claim_at self.old name }
        ensures terms { (self.new.terms ≡ self.old.terms) × (self.new.process ≡ self.old.process) × (self.new.bound ≡ bound) × (self.new.claims ≡ self.old.claims) }
    {
        raise_all(&mut self.names, bound);
        self.bound = bound;
    }

    /// No epoch above this is granted.
    pub fn bound(&self) -> u64
        ensures { result ≡ self.now.bound }
    {
        self.bound
    }

    /// How it votes on a name of which it keeps nothing.
    pub(crate) fn unknown(&self) -> LeaseVoter
        ensures { result ≡ unknown self.now }
    {
        let mut voter = LeaseVoter::restart(self.terms.keeps(), self.began, self.floor);
        voter.raise(self.bound);
        voter
    }

    /// Keeps one name more, in place of one that may be forgotten where there is no room. False says that there is none.
    pub(crate) fn add(&mut self, now: u64, entry: NameEntry) -> bool
        requires new { entry_of entry.name self.old.names.items ≡ None }
        requires fits { IsEntry self.old.terms self.old.process self.old.claims self.old.began self.old.bound entry }
        ensures added { result ≡ true → entry_of entry.name self.new.names.items ≡ Some entry }
        ensures others { result ≡ true → OthersStay now entry.name self.old self.new }
        ensures terms { (self.new.terms ≡ self.old.terms) × (self.new.process ≡ self.old.process) × (self.new.bound ≡ self.old.bound) × (self.new.claims ≡ self.old.claims) }
        ensures full { result ≡ false → (self.new ≡ self.old) × IsFull now self.old }
        ensures room { result ≡ true → IsFull now self.old → ⊥ }
    {
        if self.names.len() < NAMES {
            self.names.push_reserved(entry);
            return true;
        }
        let Some(place) = dead_place(&self.names, now) else {
            return false;
        };
        self.floor = self.floor.max(self.names[place].voter.last());
        self.names[place] = entry;
        true
    }
}

/// Allows epochs up to this one, of each entry.
fn raise_all(entries: &mut Vec<NameEntry>, bound: u64)
    requires { All (λ e. e.voter.bound ≤ bound) entries.old.items }
    ensures items { entries.new.items ≡ map (raised bound) entries.old.items }
    ensures capacity { vec_capacity entries.new ≡ vec_capacity entries.old }
{
    for entry in entries.iter_mut() {
        entry.voter.raise(bound);
    }
}
