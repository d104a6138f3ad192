// What a machine tells of a name.
ghost use Rattle.std.specs.Prelude.{◌≡◌, IfSome, IsNone, None, Some};
ghost use Rattle.lease_machine.specs.Machine.{claim_at, voter_at};

use crate::entries::place_of;
use crate::name_entry::{Claim, NameEntry};
use crate::state::LeaseMachine;
use lease_message::LeaseName;
use lease_runs::{ClientId, LeaseVoter, Request};

/// How a voter stands to a name.
#[derive(Clone, Copy, PartialEq, Eq)]
pub struct Standing {
    /// No epoch up to this one is granted, but to the holder for a renewal.
    pub last: u64,
    /// Who has the grant, or had it last and didn't release it.
    pub holder: Option<ClientId>,
    /// When that grant ends.
    pub ends: u64,
}

impl LeaseMachine {
    /// How the voter of a name stands.
    pub fn standing(&self, name: &LeaseName) -> Standing
        // Promise: What a machine tells of a name is what its voter keeps, and who asks here.
        // Also: holder, ends, LeaseMachine::claimed.
        // Refuses: last_epoch_of_nothing_told.
        ensures last { result.last ≡ (voter_at self.now name.now).last }
        ensures holder { result.holder ≡ (voter_at self.now name.now).holder }
        ensures ends { result.ends ≡ (voter_at self.now name.now).ends }
    {
        match place_of(&self.names, name) {
            Some(place) => standing_of(&self.names[place].voter),
            None => Standing {
                last: self.floor,
                holder: None,
                ends: 0,
            },
        }
    }

    /// The one who asks here for a name.
    pub fn claimed(&self, name: &LeaseName) -> Option<&Claim>
        ensures some { IfSome result (λ claim. claim_at self.now name.now ≡ Some claim.now) }
        ensures none { IsNone result → claim_at self.now name.now ≡ None }
    {
        match place_of(&self.names, name) {
            Some(place) => self.names[place].asker(),
            None => None,
        }
    }
}

impl NameEntry {
    /// The one who asks here.
    fn asker(&self) -> Option<&Claim>
        ensures some { IfSome result (λ claim. self.now.claim ≡ Some claim.now) }
        ensures none { IsNone result → self.now.claim ≡ None }
    {
        match &self.claim {
            Some(claim) => Some(claim),
            None => None,
        }
    }
}

impl Claim {
    /// As which client it asks.
    pub fn client(&self) -> ClientId
        ensures { result ≡ self.now.candidate.client }
    {
        self.candidate.client()
    }

    /// Its last request, where it isn't given up.
    pub fn asked(&self) -> Option<Request>
        ensures { result ≡ self.now.candidate.asked }
    {
        self.candidate.asked()
    }
}

fn standing_of(voter: &LeaseVoter) -> Standing
    ensures { (result.last ≡ voter.now.last) × (result.holder ≡ voter.now.holder) × (result.ends ≡ voter.now.ends) }
{
    Standing {
        last: voter.last(),
        holder: voter.holder(),
        ends: voter.ends(),
    }
}
