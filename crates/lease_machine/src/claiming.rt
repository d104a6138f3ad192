ghost use Rattle.std.specs.Prelude.{◌≡◌, ◌⊎◌, ◌<◌, ◌≤◌, ◌+◌, ◌-◌, ◌^◌, ℕ, IfSome, IsNone, IsOk, OnErr, Err, None, Some, is_some, true, false};
ghost use Rattle.lease_runs.specs.Code.{ask_of};
ghost use Rattle.lease_runs.specs.Run.{asks, stops};
ghost use Rattle.lease_machine.specs.Kept.{IsOwn};
ghost use Rattle.lease_machine.specs.Machine.{AllStay, GoesOn, HasNoRoom, OthersSame, OthersStay, claim_at, voter_at};
ghost use Rattle.lease_machine.specs.Claims.{Acts, Hears, IsBegun, IsNew, IsNotOf, MayNotAsk, Relies, ReliesNot};

use crate::entries::place_of;
use crate::name_entry::{Claim, NameEntry};
use crate::state::LeaseMachine;
use group_task::NodeId;
use lease_message::LeaseName;
use lease_runs::{ClientId, LeaseCandidate, Request};

/// Why nobody may begin to ask for a name.
#[derive(Clone, Copy, Debug, PartialEq, Eq)]
pub enum ClaimRefusal {
    /// Somebody here asks for it already.
    Claimed,
    /// No number is left for a client.
    Exhausted,
    /// Nothing is kept of the name, and each name that is kept is in use.
    Full,
}

impl LeaseMachine {
    /// Begins to ask for a name, for the user of this number.
    pub fn claim(&mut self, now: u64, name: &LeaseName, user: u64) -> Result<(), ClaimRefusal>
        // Promise: Who begins to ask for a name is a client that nobody in this process was before, and begins. Refused is only who asks
        // for a name that somebody here asks for, or where no number is left, or where nothing is kept of the name and each name that is
        // kept is in use; then nothing changes. How the machine votes doesn't change.
        // Refuses: client_numbered_as_the_last, name_claimed_twice, claimed_without_room, kept_name_claimed_as_full.
        ensures claimed { IsOk result → (self.new.claims ≡ self.old.claims + 1)
            × IsBegun self.old.terms self.old.process (self.old.claims + 1) user (claim_at self.new name.now) }
        ensures taken { result ≡ Err ClaimRefusal.Claimed → is_some (claim_at self.old name.now) ≡ true }
        ensures free { (result ≡ Err ClaimRefusal.Claimed → ⊥) → is_some (claim_at self.old name.now) ≡ false }
        ensures exhausted { result ≡ Err ClaimRefusal.Exhausted → self.old.claims ≡ 2 ^ 64 - 1 }
        ensures full { result ≡ Err ClaimRefusal.Full → HasNoRoom now name.now self.old }
        ensures room { IsOk result → HasNoRoom now name.now self.old → ⊥ }
        ensures refused { OnErr result (AllStay self.old self.new) }
        ensures voter { voter_at self.new name.now ≡ voter_at self.old name.now }
        ensures others { OthersStay now name.now self.old self.new }
        ensures goes_on { GoesOn self.old self.new }
    {
        if self.is_claimed(name) {
            return Err(ClaimRefusal::Claimed);
        }
        let Some(claim) = self.next_claim(user) else {
            return Err(ClaimRefusal::Exhausted);
        };
        if self.place_claim(now, name, claim) {
            Ok(())
        } else {
            Err(ClaimRefusal::Full)
        }
    }

    /// Whether somebody here asks for the name.
    pub fn is_claimed(&self, name: &LeaseName) -> bool
        ensures { result ≡ is_some (claim_at self.now name.now) }
    {
        match place_of(&self.names, name) {
            Some(place) => self.names[place].claim.is_some(),
            None => false,
        }
    }

    /// One who asks, as a client of the next number.
    fn next_claim(&mut self, user: u64) -> Option<Claim>
        ensures new { IfSome result (IsNew self.old.terms self.old.process (self.old.claims + 1) user) }
        ensures counts { IfSome result (λ _. self.new.claims ≡ self.old.claims + 1) }
        ensures none { IsNone result → (self.new ≡ self.old) × (self.old.claims ≡ 2 ^ 64 - 1) }
        ensures names { (self.new.names ≡ self.old.names) × (self.new.terms ≡ self.old.terms) × (self.new.process ≡ self.old.process) × (self.new.began ≡ self.old.began) × (self.new.bound ≡ self.old.bound) × (self.new.floor ≡ self.old.floor) }
    {
        let number = self.claims.checked_add(1)?;
        self.claims = number;
        let client = ClientId {
            machine: u64::from(self.terms.machine().number()),
            boot: self.process,
            number,
        };
        Some(Claim {
            user,
            candidate: LeaseCandidate::begin(
                client,
                self.terms.machines(),
                self.terms.relies_for(),
            ),
        })
    }

    /// Keeps one who asks for a name. False says that there is no room for the name.
    fn place_claim(&mut self, now: u64, name: &LeaseName, claim: Claim) -> bool
        requires { IsOwn self.old.terms self.old.process self.old.claims claim.candidate }
        ensures placed { result ≡ true → claim_at self.new name.now ≡ Some claim }
        ensures full { result ≡ false → AllStay self.old self.new × HasNoRoom now name.now self.old }
        ensures room { result ≡ true → HasNoRoom now name.now self.old → ⊥ }
        ensures terms { (self.new.terms ≡ self.old.terms) × (self.new.process ≡ self.old.process) × (self.new.bound ≡ self.old.bound) × (self.new.claims ≡ self.old.claims) }
        ensures voter { voter_at self.new name.now ≡ voter_at self.old name.now }
        ensures others { OthersStay now name.now self.old self.new }
    {
        if let Some(place) = place_of(&self.names, name) {
            self.names[place].claim = Some(claim);
            return true;
        }
        let entry = NameEntry {
            name: *name,
            voter: self.unknown(),
            claim: Some(claim),
        };
        self.add(now, entry)
    }

    /// The one who asks here for a name asks no more, and is forgotten.
    pub fn withdraw(&mut self, name: &LeaseName)
        // Promise: Nobody here asks for a name that was withdrawn, how the machine votes stays, and no other name changes.
        // Refuses: another_name_asked.
        ensures nobody { claim_at self.new name.now ≡ None }
        ensures voter { voter_at self.new name.now ≡ voter_at self.old name.now }
        ensures others { OthersSame name.now self.old self.new }
        ensures goes_on { GoesOn self.old self.new }
    {
        if let Some(place) = place_of(&self.names, name) {
            self.names[place].claim = None;
        }
    }

    /// The one who asks here for a name sends a request under an epoch. None where nobody does, or its client may not ask.
    pub fn ask(&mut self, now: u64, name: &LeaseName, epoch: u64) -> Option<Request>
        // Promise: A request, a grant that is heard and a giving up are possible steps of the client that asks here for that name, and
        // change nothing else. A request is refused only where nobody asks, its epoch is given up or no number is left; a grant, where
        // that client doesn't ask here or there is no such voter; a giving up, where nobody asks. Then nothing changes.
        // Also: refused, LeaseMachine::hear, LeaseMachine::give_up.
        // Refuses: another_name_asked, grant_of_another_client_heard, no_such_voter_heard, first_grant_never_heard.
        ensures asks { IfSome result (λ request. (request.epoch ≡ epoch) × (request.sent ≡ now)
            × Acts (claim_at self.old name.now) (claim_at self.new name.now) now (λ client at. asks (ask_of client request.number epoch at))) }
        ensures none { IsNone result → AllStay self.old self.new }
        ensures refused { IsNone result → MayNotAsk epoch (claim_at self.old name.now) }
        ensures voter { voter_at self.new name.now ≡ voter_at self.old name.now }
        ensures others { OthersSame name.now self.old self.new }
        ensures goes_on { GoesOn self.old self.new }
    {
        match place_of(&self.names, name) {
            Some(place) => self.names[place].ask(now, epoch),
            None => None,
        }
    }

    /// A voter granted a request of this client for a name. False says that the client isn't the one who asks here for it, or that there is
    /// no such voter.
    pub fn hear(
        &mut self,
        now: u64,
        name: &LeaseName,
        client: ClientId,
        voter: NodeId,
        number: u64,
    ) -> bool
        ensures hears { result ≡ true → Hears (claim_at self.old name.now) (claim_at self.new name.now) client now voter number }
        ensures passes { result ≡ false → AllStay self.old self.new }
        ensures unheard { result ≡ false → (self.old.terms.machines ≤ voter) ⊎ IsNotOf client (claim_at self.old name.now) }
        ensures voter { voter_at self.new name.now ≡ voter_at self.old name.now }
        ensures others { OthersSame name.now self.old self.new }
        ensures goes_on { GoesOn self.old self.new }
    {
        if voter.number() >= self.terms.machines() {
            return false;
        }
        match place_of(&self.names, name) {
            Some(place) => self.names[place].hear(now, client, voter.number(), number),
            None => false,
        }
    }

    /// The one who asks here for a name stops relying on epochs up to this one, for good. Only then may a release be sent. False says that
    /// nobody asks.
    pub fn give_up(&mut self, name: &LeaseName, epoch: u64) -> bool
        ensures stops { result ≡ true → (now : ℕ) → Acts (claim_at self.old name.now) (claim_at self.new name.now) now (λ client at. stops epoch) }
        ensures passes { result ≡ false → AllStay self.old self.new }
        ensures nobody { result ≡ false → claim_at self.old name.now ≡ None }
        ensures voter { voter_at self.new name.now ≡ voter_at self.old name.now }
        ensures others { OthersSame name.now self.old self.new }
        ensures goes_on { GoesOn self.old self.new }
    {
        match place_of(&self.names, name) {
            Some(place) => self.names[place].give_up(epoch),
            None => false,
        }
    }

    /// The request by which the one who asks here for a name relies on it now, if it does.
    pub fn held(&self, now: u64, name: &LeaseName) -> Option<Request>
        // Promise: The request that is shown as held is one by which the client here relies at that time of its clock, and none is shown
        // only where it relies by none.
        // Refuses: held_without_votes.
        ensures held { IfSome result (λ request. Relies (claim_at self.now name.now) now request) }
        ensures none { IsNone result → ReliesNot (claim_at self.now name.now) now }
    {
        match place_of(&self.names, name) {
            Some(place) => self.names[place].held(now),
            None => None,
        }
    }
}
