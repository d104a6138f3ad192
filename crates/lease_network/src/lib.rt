//! The laws of leases of many names by a majority of voters, over definitions alone: machines that vote for each name and ask
//! for it, with any number of clients, processes that begin anew, and messages of which only what was sent comes, late, repeated,
//! in any order, or never.
//! Each law is the contract of a function that does nothing; a caller takes the law by calling it.
#![tactic(auto)]

ghost use Rattle.lease_network.specs.Laws.{EpochsFollow, EpochsRise, HeldEpochsFollow, HeldEpochsRise, HeldOneEpoch, HeldWasAsked, HolderSentNone, LeasesHappen, OneEpoch, OneHolder, OneRelies, TwoMayHold};
ghost use Rattle.lease_network.specs.Projection.{StepsAreRuns};

/// Epochs of a name rise, with no word on clocks.
pub fn epochs_rise()
    // Promise: Of two leases of a name, over any network, if the first was held before the second was asked for, its epoch is smaller,
    // with no word on clocks. A lease is one client's, of one epoch, with its renewals.
    // Refuses: grant_that_nobody_gave, request_that_nobody_sent, process_number_had_before, floor_below_the_bound, grant_of_another_voter,
    // process_goes_on_behind_its_end, requests_kept_over_a_restart, request_kept_for_another_client, steps_in_any_order,
    // lease_of_an_ended_process.
    ensures rise { EpochsRise }
    // Promise: No two clients ever hold leases of one name and one epoch, over any network.
    ensures one { OneEpoch }
    // Promise: What is held was asked for: its client sent that request, of that epoch, at the time from which its lease is counted.
    ensures asked { HeldWasAsked }
{
    steps_are_runs();
    lease_runs::holders_rely();
    lease_runs::epochs_rise();
}

/// One client at most holds the lease of a name at a time, where clocks keep to their bound.
pub fn one_holder()
    // Promise: At each moment of true time one client at most holds the lease of a name, over any network and any restarts, where each
    // clock moves by 31/32 to 33/32 of the true time, but for rounding, and a voter keeps a grant by that much longer than a holder
    // relies on it.
    // Refuses: release_of_another_client, release_that_nobody_sent, held_behind_its_time, lease_runs::no_margin_for_drift.
    ensures holder { OneHolder }
    // Promise: Of two clients that hold the lease of a name one after the other, the later has the greater epoch, where clocks keep to
    // the bound.
    ensures follow { EpochsFollow }
{
    steps_are_runs();
    lease_runs::holders_rely();
    lease_runs::one_holder();
}

/// Who was told once that it holds a lease may rely on it until its time is over, or it sent a release.
pub fn held_may_rely()
    // Promise: Of two leases of a name that clients held at any moments, even if for no time at all, if the first was held before the
    // second was asked for, its epoch is smaller, or they are one client's, of one epoch; and no two clients ever held leases of a
    // name of one epoch, over any network, with no word on clocks.
    // Also: one.
    // Refuses: grant_that_nobody_gave, request_that_nobody_sent, process_number_had_before, floor_below_the_bound.
    ensures rise { HeldEpochsRise }
    ensures one { HeldOneEpoch }
    // Promise: At each moment of true time one client at most may rely on a lease of a name that it held once, which is until its time is
    // over by its own clock, or it sends a release, where clocks keep to their bound, whatever became of its process; and who may rely
    // on one has a greater epoch than each other client that held one by then.
    // Also: follow.
    // Refuses: release_of_another_client, release_that_nobody_sent, relied_on_behind_its_release, relied_on_behind_its_time,
    // lease_runs::no_margin_for_drift.
    ensures relies { OneRelies }
    ensures follow { HeldEpochsFollow }
    // Promise: Who holds a lease sent no release of its epoch, or of a greater one, by then.
    ensures silent { HolderSentNone }
{
    steps_are_runs();
    lease_runs::holders_rely();
    lease_runs::epochs_rise();
    lease_runs::one_holder();
}

/// What the steps of machines are for each name.
pub fn steps_are_runs()
    // Promise: Of each name, the steps of machines over a network are a run of voters and clients, and a timed one where clocks keep to
    // their bound: what is granted was asked, what is heard was granted, and a release that is taken was sent by a client that had given
    // the lease up.
    ensures { StepsAreRuns }
{
    lease_runs::history_goes_on();
}

/// The premises of the laws can be met.
pub fn leases_happen()
    // Promise: There are steps of three machines in which one client holds the lease of a name and releases it, and a second one, which
    // holds that of another name, holds the next; its machine begins anew, and the first client holds the next lease of the other name.
    ensures { LeasesHappen }
{}

/// The rates of clocks are needed.
pub fn two_may_hold()
    // Promise: Where the clock of a machine stands, two clients may hold the lease of a name at a time: one holder rests on clocks, and
    // epochs don't.
    ensures { TwoMayHold }
{}
