//! Laws of the processes of leases. Each is the contract of a function that does nothing; a caller takes the law by calling it.

ghost use Rattle.lease_processes.specs.Alone.{PremisesAreMet};
ghost use Rattle.lease_processes.specs.Printed.{AreOneNetwork, EpochsFollow, EpochsRise, FedIsTold, FilesGiveFloors, HeldLinesAreLeases, LastWordHolds, OneAtATime, OneEpochEach};

/// The headline of leases. Take any number of processes of each machine, one after another over its file, each ended at any moment.
/// The premises are those of `AreProcesses`: a file gives each process a number of its own and a floor at or above what the one
/// before it may have granted, the time in a line is what the machine's clock shows then, and a message that is delivered stood in
/// a `send` line of one of these processes. Nothing is said of the network else: messages are lost, late, repeated and turned round.
pub fn leases_are_one_network()
    // Promise: Take any number of processes of leases of each machine, one after another over its file, each ended at any moment. Where each
    // has a number of its own and a floor at or above what the one before it may have granted, the time in each line is what the
    // machine's clock shows then, and each message that is delivered was handed out in a `send` line of one of them, all that they do
    // are the steps of machines over one network, to which the laws of leases apply.
    // Refuses: message_of_nobody, number_had_before, floor_below_the_bound, time_of_another_clock.
    ensures network { AreOneNetwork }
    // Promise: Behind each `held` line stands a lease: a client of its process held it by then, by a request of this epoch, and UNTIL is so
    // long after that was sent as a client relies on a lease.
    ensures lease { HeldLinesAreLeases }
    // Promise: With no word on clocks, two `held` lines of one name and epoch are of one process; and where a lease was asked for behind
    // another's `held` line its epoch is greater, or they are one process's, of one epoch.
    // Also: rise.
    // Refuses: message_of_nobody, number_had_before, floor_below_the_bound, asked_at_the_same_time.
    ensures one { OneEpochEach }
    ensures rise { EpochsRise }
    // Promise: Where clocks keep to their bound, the users of one process at most may rely on a lease of a name at a time: who was told by a
    // `held` line, until its clock shows UNTIL or a release was sent for it, whatever became of the process. Whoever may rely has a
    // greater epoch than each `held` line of another process before.
    // Also: follow.
    // Refuses: relied_on_at_until, lease_runs::no_margin_for_drift.
    ensures holder { OneAtATime }
    ensures follow { EpochsFollow }
    // Promise: Who goes by the last line of its process may rely on the lease: no process sends a release of a lease that it told a user to hold,
    // but in the answer that says `lost`. So with the promise before, two users never go by such lines at a time.
    // Also: lease_session::LeaseProcess::give_up_told, lease_session::LeaseProcess::stop_relying.
    // Refuses: lease_session::given_up_unsaid.
    ensures word { LastWordHolds }
{
    lease_network::held_may_rely();
}

/// What the premises say of lines is what the contract of sessions says of them.
pub fn lines_are_told()
    // Promise: Each line that a session is fed with is answered with such steps and lines.
    ensures told { FedIsTold }
    // Promise: Where a file gives the next process of a machine a floor at or above all that the store of the one before says that it
    // reserved, and above that one's own floor, the premise on floors is met.
    // Also: lease_session::LeaseSession::feed.
    // Refuses: lease_session::bound_raised_without_the_store.
    ensures floors { FilesGiveFloors }
    // Promise: The premises of processes and clocks can be met: by any process that is alone and any first line that brings it no message, where
    // clocks show the true time.
    // Refuses: nobody_may_begin.
    ensures met { PremisesAreMet }
{
    lease_session::lines_are_steps();
}
