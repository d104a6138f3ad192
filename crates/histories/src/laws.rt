//! Laws of all histories, over the definitions alone: what may come of an event, and nothing of disks or code. Each law
//! is the contract of a function that does nothing; a caller takes the law by calling it.

ghost use Rattle.histories.specs.Book.{OneBook, OneCoordinator, OneTask};
ghost use Rattle.histories.specs.Counts.{FewCounts};
ghost use Rattle.histories.specs.Ends.{EachGoesOut, HistorySendsItsOwn};
ghost use Rattle.histories.specs.History.{HistoryGoesOn, SlotsGoOn};
ghost use Rattle.histories.specs.Jobs.{DoneIsGone, OneJob, PendingWasPut, WorkIsJob};
ghost use Rattle.histories.specs.Kept.{CountsOnce};
ghost use Rattle.histories.specs.Marks.{EachKept, StepByStep};
ghost use Rattle.histories.specs.Owners.{OneWorker, OwnerFinishes};
ghost use Rattle.histories.specs.Rising.{EachBundleRises};

/// In every bundle in which each node is rising, one book of groups agrees with the openings and with all moments.
pub fn one_book()
    // Promise: In every bundle in which each node is rising one book of groups agrees with all moments: in a group the coordinator
    // is the group's creator, and a node that works has the task of its group, with the book's members, itself among them.
    ensures { OneBook }
{}

/// Any two moments in Reorganization or Normal in one group have one coordinator, and any two in Normal one task. The
/// moments may be of one node or of two, at any times, in different lives too.
pub fn one_coordinator_and_task()
    // Promise: Any two moments in Reorganization or Normal in one group have one coordinator. They may be of one node or of two, at
    // any times, in different lives too.
    ensures coordinator { OneCoordinator }
    // Promise: Any two moments in Normal in one group have one and the same task: equal group, equal members, so equal owners of
    // all queues.
    ensures task { OneTask }
{}

/// Each node of a bundle is rising: the counts that it gives to its new groups rise over all its lives.
pub fn counts_rise()
    // Promise: Each node of a bundle is rising: the counts that it gives to its new groups rise strictly over all its lives, its
    // opening's count 1 included.
    ensures { EachBundleRises }
{}

/// A counter rises by at most one for each entry of a history.
pub fn few_counts()
    // Promise: The counter that a node keeps, or that its next mounting finds, is at most one more than the number of entries of
    // its history. So no history that memory can hold comes to the greatest count.
    ensures { FewCounts }
{}

/// The commands and mountings of each history are kept, and so are those of any list that is kept step by step.
pub fn kept()
    // Promise: Commands and mountings of each history of fewer than 18446744073709551615 entries are kept: one choice of commands
    // that don't count serves all mountings, none of them acknowledged and each the last of its life; each mounting finds the fold
    // of the others.
    ensures histories { EachKept }
    // Promise: Whatever list of commands and mountings is kept step by step is kept.
    ensures step_by_step { StepByStep }
    // A command in doubt can't count at one mounting and not at the next.
    // Promise: A command that wasn't acknowledged can't count at one mounting and not at the next.
    ensures once { CountsOnce }
{}

/// A job is taken out of its node's journal only after an owner of its queue finished it, work in hand is a job that its origin
/// had pending, a pending job was put, and one whose Done was acknowledged stays done.
pub fn owner_finishes()
    // Promise: For each job that is done among a node's commands, some node had a moment in Normal with that job of that origin in
    // hand, owning the job's queue under its task, and was told that it is finished.
    ensures finishes { OwnerFinishes }
    // Promise: Two moments in Normal of one group, with jobs of one queue in hand, are of one node.
    ensures worker { OneWorker }
    // Promise: The work in hand at any moment was a pending job of its origin, of the same id, queue, priority and payload.
    ensures job { WorkIsJob }
    // Promise: Jobs of one id that are pending at two moments of one history are one job: one queue, one payload.
    ensures one_job { OneJob }
    // Promise: A job that is pending at some moment of a history was put by one of its commands, which was answered with the job's
    // id, or not acknowledged.
    ensures put { PendingWasPut }
    // Promise: A job whose Done was acknowledged is in nothing that is mounted after that command.
    ensures gone { DoneIsGone }
{}

/// A history grows by one entry that is possible, and so does one on a disk of so many slots.
pub fn goes_on()
    // Promise: A history with one more possible entry is a history, and leaves the state after that entry; and so for one on a disk
    // of so many slots.
    ensures history { HistoryGoesOn }
    ensures slots { SlotsGoOn }
{}

/// Each message that a history sends has its node as sender, whatever it is brought. In a bundle its receiver is another node
/// of the cluster.
pub fn senders()
    // Promise: Each message that a history sends has its node as sender, whatever the history begins with and whatever it is
    // brought.
    ensures own { HistorySendsItsOwn }
    // Promise: Each message that a history of a bundle sends has another node of the cluster as receiver.
    ensures goes_out { EachGoesOut }
{}
