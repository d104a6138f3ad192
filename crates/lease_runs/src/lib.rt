//! The laws of leases by a majority of voters, over definitions alone: what a voter may do, and what a holder relies on.
//! Each law is the contract of a function that does nothing; a caller takes the law by calling it. [`LeaseVoter`] is a voter
//! of one name, each method of which takes such a step, or none.
#![tactic(auto)]

mod acting;
mod candidate;
mod client_id;
mod voter;

ghost use Rattle.lease_runs.specs.Growing.{HistoryGoesOn};
ghost use Rattle.lease_runs.specs.Holding.{HeldEpochsRise, HolderRelies, KeptWasGranted, OneHolds};
ghost use Rattle.lease_runs.specs.Laws.{EpochsFollow, EpochsRise, LeasesHappen, OneClient, OneHolder, GrantedWasAsked};

pub use candidate::{LeaseCandidate, MOST_VOTERS, Request};
pub use client_id::ClientId;
pub use voter::LeaseVoter;

/// Epochs rise, with no word on clocks, and no two clients have one.
pub fn epochs_rise()
    // Promise: Of two leases of a name, if the first was granted by more than half before the second was asked for, its epoch is smaller. A
    // lease is one client's, of one epoch, with its renewals.
    ensures rise { EpochsRise }
    // Promise: No two clients ever have one epoch of a name.
    ensures client { OneClient }
    // Promise: What was granted by more than half was asked for, by its client, when the request says.
    ensures asked { GrantedWasAsked }
{}

/// One process at most relies on a lease at a time, where clocks keep to their bound.
pub fn one_holder()
    // Promise: At each moment of true time at most one client relies on a lease of a name, where each clock moves by 31/32 to 33/32
    // of the true time, but for rounding, and a voter keeps a grant by that much longer than a holder relies on it.
    ensures holder { OneHolder }
    // Promise: Who relies on a lease of a name has a greater epoch than each other client that was granted one by then, where clocks keep
    // to the bound.
    ensures follow { EpochsFollow }
{}

/// The premises of the laws can be met.
pub fn leases_happen()
    // Promise: There is a run of three voters in which one client relies on a lease, stops and releases it, and then another relies
    // on the next.
    ensures { LeasesHappen }
{}

/// A voter's history grows by one possible moment at a time.
pub fn history_goes_on()
    // Promise: With one more possible moment, no earlier than the last, a voter's history is one, and leaves the voter after it.
    ensures { HistoryGoesOn }
{}

/// What a client's state machine keeps as its lease is what the laws speak of.
pub fn holders_rely()
    // Promise: A client that keeps to the rules relies on the lease that it keeps, while by its own clock less than its time passed since it sent
    // the request; so one at most holds a lease of a name at a time, and epochs rise from holder to holder.
    // Also: LeaseCandidate::hear, LeaseCandidate::held, LeaseCandidate::give_up.
    // Refuses: unnumbered_grant_counted, counted_from_the_grant, renewal_revives_a_lease, minority_is_enough, stopped_holder_goes_on,
    // held_without_end.
    ensures relies { HolderRelies }
    // Promise: What such a client kept as its lease, at any of its moments, more than half of the voters had granted by then.
    ensures granted { KeptWasGranted }
    ensures one { OneHolds }
    ensures rise { HeldEpochsRise }
{}
