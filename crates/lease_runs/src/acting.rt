//! One client's way to the lease of one name.

ghost use Rattle.std.specs.Prelude.{ℕ, ◌≡◌, ◌⊎◌, ◌+◌, ◌-◌, ◌<◌, ◌≤◌, ◌^◌, IfSome, IsNone, Some, false, get_or, option_map};
ghost use Rattle.lease_runs.specs.Candidate.{above as above_epoch, beginning, is_in_time, is_most, is_too_late};
ghost use Rattle.lease_runs.specs.CandidateCode.{HasTerms, IsActed, IsHeard, Shows, by_clock, lease_by_clock, takes};
ghost use Rattle.lease_runs.specs.Code.{ask_of, client_of};
ghost use Rattle.lease_runs.specs.Run.{asks, stops};
ghost use Rattle.lease_runs.specs.Voter.{Client};

use crate::candidate::{LeaseCandidate, Request};
use crate::client_id::ClientId;

impl LeaseCandidate {
    /// A client that begins.
    pub fn begin(client: ClientId, voters: u8, relies_for: u64) -> LeaseCandidate
        requires { voters ≤ 128 }
        ensures terms { HasTerms client voters relies_for result }
        ensures begins { (clock : ℕ → ℕ) → Shows clock result beginning }
    {
        LeaseCandidate {
            client,
            voters,
            relies_for,
            number: 0,
            given_up: 0,
            asked: None,
            votes: no_votes(),
            lease: None,
        }
    }

    /// Asks for the lease under an epoch, or for its renewal under its own. None where the epoch is given up, or no number is left.
    pub fn ask(&mut self, now: u64, epoch: u64) -> Option<Request>
        ensures terms { HasTerms self.old.client self.old.voters self.old.relies_for self.new }
        ensures asks { IfSome result (λ request. (request.epoch ≡ epoch) × (request.sent ≡ now)
            × IsActed self.old self.new now (λ at. asks (ask_of self.old.client request.number epoch at))) }
        ensures refuses { IsNone result → ((epoch ≤ self.old.given_up) ⊎ (self.old.number ≡ 2 ^ 64 - 1)) × (self.new ≡ self.old) }
    {
        if epoch <= self.given_up {
            return None;
        }
        let number = self.number.checked_add(1)?;
        let request = Request {
            number,
            epoch,
            sent: now,
        };
        self.number = number;
        self.asked = Some(request);
        self.votes = no_votes();
        Some(request)
    }

    /// A voter granted the request of this number. With more than half of the votes, in time, the client relies on it from now on; a lease that
    /// is over isn't revived by its renewal.
    pub fn hear(&mut self, now: u64, voter: u8, number: u64)
        requires { voter < self.old.voters }
        ensures terms { HasTerms self.old.client self.old.voters self.old.relies_for self.new }
        ensures hears { IsHeard self.old self.new now voter number }
    {
        let Some(request) = self.asked else {
            return;
        };
        if request.number != number {
            return;
        }
        self.votes[usize::from(voter)] = true;
        if self.is_taken(now, &request) {
            self.lease = Some(request);
        }
    }

    /// Stops relying on this epoch, and on smaller ones, for good. Only then may a release of it be sent.
    pub fn give_up(&mut self, epoch: u64)
        ensures terms { HasTerms self.old.client self.old.voters self.old.relies_for self.new }
        ensures stops { (now : ℕ) → IsActed self.old self.new now (λ at. stops epoch) }
    {
        self.given_up = self.given_up.max(epoch);
        self.asked = above(epoch, self.asked);
        self.lease = above(epoch, self.lease);
    }

    /// The request by which the client relies now, if it does.
    pub fn held(&self, now: u64) -> Option<Request>
        ensures held { IfSome result (λ request. (self.now.lease ≡ Some request) × (now < request.sent + self.now.relies_for)) }
        ensures none { IsNone result → (request : Request) → self.now.lease ≡ Some request → request.sent + self.now.relies_for ≤ now }
    {
        let lease = self.lease?;
        if self.is_in_time(now, &lease) {
            Some(lease)
        } else {
            None
        }
    }

    /// Who it is.
    pub fn client(&self) -> ClientId
        ensures { result ≡ self.now.client }
    {
        self.client
    }

    /// No epoch up to this one is relied on any more.
    pub fn given_up(&self) -> u64
        ensures { result ≡ self.now.given_up }
    {
        self.given_up
    }

    /// The last request, where it isn't given up.
    pub fn asked(&self) -> Option<Request>
        ensures { result ≡ self.now.asked }
    {
        self.asked
    }

    /// Whether the client relies by its last request from now on.
    fn is_taken(&self, now: u64, request: &Request) -> bool
        ensures { result ≡ takes self.now now self.now.votes request.now }
    {
        self.is_most() && self.is_in_time(now, request) && !self.is_too_late(now, request)
    }

    /// Whether more than half of the voters granted the last request.
    fn is_most(&self) -> bool
        ensures { result ≡ is_most self.now.voters (λ voter. get_or self.now.votes voter false) }
    {
        let mut count = 0u64;
        for voter in 0..self.voters {
            if self.votes[usize::from(voter)] {
                count += 1;
            }
        }
        2 * count > u64::from(self.voters)
    }

    /// Whether less than the time for which a client relies passed since it sent the request.
    fn is_in_time(&self, now: u64, request: &Request) -> bool
        ensures { result ≡ is_in_time self.now.relies_for (λ t. t) now (by_clock (client_of self.now.client) request.now) }
    {
        now < request.sent || now - request.sent < self.relies_for
    }

    /// Whether the request renews a lease that is over.
    fn is_too_late(&self, now: u64, request: &Request) -> bool
        ensures { result ≡ is_too_late self.now.relies_for (λ t. t) now (by_clock (client_of self.now.client) request.now) (lease_by_clock self.now) }
    {
        match self.lease {
            Some(lease) => lease.epoch == request.epoch && !self.is_in_time(now, &lease),
            None => false,
        }
    }
}

fn no_votes() -> [bool; 128]
    ensures { (voter : ℕ) → get_or result voter false ≡ false }
{
    [false; 128]
}

/// A request of an epoch above this one.
fn above(epoch: u64, request: Option<Request>) -> Option<Request>
    ensures { (client : Client) → option_map (by_clock client) result ≡ above_epoch epoch (option_map (by_clock client) request) }
{
    match request {
        Some(request) if request.epoch > epoch => Some(request),
        _ => None,
    }
}
