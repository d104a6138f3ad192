ghost use Rattle.std.specs.Prelude.{◌≡◌, ◌<◌, ◌≤◌, ◌^◌, ℕ, List, Some, true, false};
ghost use Rattle.lease_runs.specs.Code.{CanGrant, IsStep, ask_of, client_of};
ghost use Rattle.lease_runs.specs.Voter.{grants, raises, releases};
ghost use Rattle.lease_machine.specs.Machine.{AllStay, GoesOn, HasNoRoom, OthersSame, OthersStay, claim_at, voter_at};

use crate::entries::place_of;
use crate::name_entry::NameEntry;
use crate::state::LeaseMachine;
use lease_message::LeaseName;
use lease_runs::ClientId;

/// How a machine votes on a request.
#[derive(Clone, Copy, Debug, PartialEq, Eq)]
pub enum Vote {
    Granted,
    /// The voter of the name may not grant it.
    Refused,
    /// It might, but nothing is kept of the name, and each name that is kept is in use.
    Full,
}

impl LeaseMachine {
    /// Votes on a request for a name.
    pub fn vote(&mut self, now: u64, name: &LeaseName, client: ClientId, epoch: u64) -> Vote
        requires { now < 2 ^ 63 }
        // Promise: What a machine grants is a possible step of the voter of that name; what it refuses may not be granted. What may be
        // granted is refused for want of room exactly where nothing is kept of the name, and all of the names that the machine can keep
        // are in use. A refusal changes nothing, and a grant no other name, but that an ended grant may be forgotten.
        // Refuses: refused_as_granted, granted_where_there_is_no_room, kept_name_refused_as_full, forgotten_while_it_lasts, floor_not_raised,
        // another_name_asked.
        ensures granted { result ≡ Vote.Granted → (number sent : ℕ) → IsStep (voter_at self.old name.now) (voter_at self.new name.now) now (grants (ask_of client number epoch sent)) }
        ensures refused { result ≡ Vote.Refused → AllStay self.old self.new × (CanGrant (voter_at self.old name.now) now client epoch → ⊥) }
        ensures full { result ≡ Vote.Full → (self.new ≡ self.old) × HasNoRoom now name.now self.old × CanGrant (voter_at self.old name.now) now client epoch }
        ensures room { result ≡ Vote.Granted → HasNoRoom now name.now self.old → ⊥ }
        ensures others { OthersStay now name.now self.old self.new }
        ensures claim { claim_at self.new name.now ≡ claim_at self.old name.now }
        ensures goes_on { GoesOn self.old self.new }
    {
        let Some(place) = place_of(&self.names, name) else {
            let mut voter = self.unknown();
            if !voter.ask(now, client, epoch) {
                return Vote::Refused;
            }
            let entry = NameEntry {
                name: *name,
                voter,
                claim: None,
            };
            if self.add(now, entry) {
                return Vote::Granted;
            }
            return Vote::Full;
        };
        if self.names[place].voter.ask(now, client, epoch) {
            Vote::Granted
        } else {
            Vote::Refused
        }
    }

    /// Takes a client's release of an epoch of a name. False says that it was of no use.
    pub fn release(&mut self, name: &LeaseName, client: ClientId, epoch: u64) -> bool
        // Promise: A release that a machine takes is a possible step of the voter of that name; one that it doesn't is of no client
        // that has the grant of this epoch, and changes nothing. No other name changes.
        // Refuses: another_name_asked.
        ensures frees { result ≡ true → (now : ℕ) → IsStep (voter_at self.old name.now) (voter_at self.new name.now) now (releases (client_of client) epoch) }
        ensures passes { result ≡ false → AllStay self.old self.new × ((voter_at self.old name.now).holder ≡ Some client → (voter_at self.old name.now).last ≡ epoch → ⊥) }
        ensures others { OthersSame name.now self.old self.new }
        ensures claim { claim_at self.new name.now ≡ claim_at self.old name.now }
        ensures goes_on { GoesOn self.old self.new }
    {
        match place_of(&self.names, name) {
            Some(place) => self.names[place].voter.release(client, epoch),
            None => false,
        }
    }
}
