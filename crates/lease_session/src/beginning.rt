// How a process begins, and those that ask in it.
ghost use Rattle.std.specs.Prelude.{◌≡◌, ◌≤◌, ℕ, [], IfErr, IfOk, IsOk, None, Some};
ghost use Rattle.line_words.specs.Lines.{bytes_of};
ghost use Rattle.lease_session.specs.Opening.{Brings, BringsBy};
ghost use Rattle.lease_session.specs.Replies.{IsFreeIn, IsUnservedFor};
ghost use Rattle.lease_session.specs.Turns.{AllowsNoMore, AllowsUpTo, IsQuiet, Turn, key_of};

use crate::asked::Came;
use crate::process::{LeaseProcess, Start};
use crate::refusing::{Halt, Refusal};
use crate::seals::LeaseSeal;
use lease_machine::{ClaimRefusal, LeaseMachine, LeaseTerms};
use lease_message::{LeaseName, decode};
use line_words::bytes;
use std::alloc::{AllocError, Global};

/// What bytes bring where there is no key.
fn plain(bytes: &[u8]) -> Option<Came>
    ensures { Brings None bytes.now result }
{
    match decode(bytes) {
        Some(message) => Some(Came::Message(message)),
        None => None,
    }
}

impl LeaseProcess {
    pub(crate) fn new(alloc: Global, terms: LeaseTerms, start: Start) -> LeaseProcess
        ensures machine { result.machine ≡ None }
        ensures same { (result.terms ≡ terms) × (result.start ≡ start) × (result.seal ≡ None) × (result.text.items ≡ []) × (result.told.items ≡ []) × (result.halt ≡ None) }
    {
        LeaseProcess {
            alloc,
            terms,
            start,
            machine: None,
            claims: 0,
            seal: None,
            text: Vec::new(alloc),
            told: Vec::new(alloc),
            halt: None,
        }
    }

    /// From now on messages are sealed, and taken sealed alone.
    pub(crate) fn seal_by(&mut self, seal: LeaseSeal)
        ensures { self.new ≡ record self.old { seal = Some seal } }
    {
        self.seal = Some(seal);
    }

    /// What was answered is written, and forgotten.
    pub(crate) fn clear(&mut self)
        ensures text { self.new.text.items ≡ [] }
        ensures same { self.new ≡ record self.old { text = self.new.text } }
    {
        self.text.clear();
    }

    /// No memory is left.
    pub(crate) fn run_out(&mut self)
        ensures { self.new ≡ record self.old { halt = Some Halt.NoMemory } }
    {
        self.halt = Some(Halt::NoMemory);
    }

    /// The device failed: nothing more is written but that.
    pub(crate) fn stop(&mut self)
        ensures turn { (now : ℕ) → Turn [] [] now self.old self.new }
        ensures halts { self.new.halt ≡ None → ⊥ }
        ensures quiet { IsQuiet self.old self.new }
    {
        if self.halt.is_none() {
            self.halt = Some(Halt::Device);
        }
    }

    /// What the bytes of a word bring. None where they are no message.
    pub(crate) fn open(&mut self, word: &[u8]) -> Result<Option<Came>, AllocError>
        ensures brings { IfOk result (λ came. BringsBy self.old.seal (bytes_of word.now) came) }
        ensures same { self.new ≡ record self.old { seal = self.new.seal } }
        ensures key { key_of self.new.seal ≡ key_of self.old.seal }
    {
        let Some(bytes) = bytes(self.alloc, word)? else {
            return Ok(None);
        };
        match &mut self.seal {
            Some(seal) => Ok(seal.open(&bytes)),
            None => Ok(plain(&bytes)),
        }
    }

    /// Its machine begins, with epochs up to this bound reserved.
    pub(crate) fn begin(&mut self, now: u64, bound: u64)
        requires { self.old.start.floor ≤ bound }
        ensures turn { Turn [] [] now self.old self.new }
        ensures bound { AllowsUpTo bound self.old self.new }
    {
        lease_steps::votes_are_steps();
        if self.machine.is_some() {
            return;
        }
        match LeaseMachine::begin(
            self.alloc,
            self.terms,
            self.start.process,
            now,
            self.start.floor,
            bound,
        ) {
            Ok(machine) => {
                self.claims = 0;
                self.machine = Some(machine);
            }
            Err(_) => self.run_out(),
        }
    }

    /// A user begins to ask for the lease of a name.
    pub(crate) fn claim(&mut self, now: u64, name: &LeaseName, user: u64) -> Result<(), Refusal>
        ensures free { IsOk result → IsFreeIn self.old.machine now name.now }
        ensures refused { IfErr result (λ why. IsUnservedFor why now name.now self.old.machine) }
        ensures turn { Turn [] [] now self.old self.new }
        ensures bound { AllowsNoMore self.old self.new }
    {
        lease_steps::asking_is_steps();
        let Some(machine) = &mut self.machine else {
            return Err(Refusal::Waiting);
        };
        match machine.claim(now, name, user) {
            Ok(()) => {
                if let Some(claim) = machine.claimed(name) {
                    self.claims = claim.client().number;
                }
                Ok(())
            }
            Err(ClaimRefusal::Claimed) => Err(Refusal::Claimed),
            Err(ClaimRefusal::Exhausted) => Err(Refusal::Exhausted),
            Err(ClaimRefusal::Full) => Err(Refusal::Full),
        }
    }
}
