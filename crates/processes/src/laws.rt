//! Laws of the processes of a cluster. Each is the contract of a function that does nothing; a caller takes the law by calling it.

ghost use Rattle.processes.specs.Answers.{AcceptedIsAnswered, AcceptedIsKept, AcceptedIsTold, RefusedChangesNothing};
ghost use Rattle.processes.specs.Groups.{CreatorLeads, NumbersAreAbove, NumbersAreNew, OneTaskEach, OneWorkerEach};
ghost use Rattle.processes.specs.Happening.{ProcessesHappen};
ghost use Rattle.processes.specs.Jobs.{CommandsAreWhole, DoneStaysDone, DoneWasFinished, IdsAreNew, JobsAreKept, LeaderCountsRise, WorkIsJob};
ghost use Rattle.processes.specs.Printed.{AreACluster, NumberNamesLeader, OneCoordinatorEach, OneLeaderEach, OneLineEach};
ghost use Rattle.processes.specs.Sessions.{FirstStands, NextStands, SessionsAreProcesses};

use node_session::{one_history, sends_sealed};
use sector_disk::SectorDisk;

/// The headline of processes. Take any number of processes of each node, one after another over its file, each ended at any
/// moment. The premises are those of `AreProcessesOf`: each file was formatted, keeps to the disk model and is one process's at a
/// time, each node has an id of its own, and each message that is delivered stood in a `send` line that one of these processes
/// printed. Then what they print is that of one cluster.
pub fn processes_are_a_cluster()
    // Promise: Take any number of processes of each node, one after another over its file, each ended at any moment. Where each file was
    // formatted, keeps to the disk model and is one process's at a time, the ids of the nodes are distinct, and each message that is
    // delivered was handed out in a `send` line of one of them, they are one cluster: each node goes on, over all its processes, as a
    // node over its file may, and takes no message but those that one of the nodes sent. So the promises of `files_have_one_book` and
    // `files_keep_jobs` hold of them.
    // Refuses: unsent_message_delivered, process_over_the_first_file.
    ensures cluster { AreACluster }
    // Promise: The coordinator in a `group` line, of a node that works in the group or is on the way into it, is the node that the
    // group's number names.
    // Also: coordinator, leads.
    // Refuses: unsent_message_delivered.
    ensures leader { NumberNamesLeader }
    ensures coordinator { OneCoordinatorEach }
    ensures leads { OneLeaderEach }
    // Promise: Any two `group Normal` lines of one number, that any processes print at any times, are the same line: one coordinator,
    // the same members, and so one owner of each queue.
    // Refuses: unsent_message_delivered.
    ensures line { OneLineEach }
    // Promise: A job that a process answered as `ok N id ID` is pending behind each later line of its node, in that process and in each later
    // one, wherever that line leaves it up, so it is counted in each `keeps` line; unless a node was told that the job is finished, which at
    // some moment had the job of this keeper and id in hand, working in a group, and owned its queue.
    // Refuses: process_over_the_first_file, failed_done_forgotten.
    ensures kept { AcceptedIsKept }
    // Promise: Each later answer to `jobs` has the line `pending ID ..` of such a job, unless it was finished so.
    // Also: answered.
    // Refuses: process_over_the_first_file.
    ensures told { AcceptedIsTold }
    ensures answered { AcceptedIsAnswered }
    // Promise: A request for an event that is refused, where no device failed, leaves its node as it was and hands out nothing.
    // Refuses: failure_changes_nothing.
    ensures refused { RefusedChangesNothing }
{
    one_history();
}

/// What the premises say of disks is what the contracts of sessions say of them.
pub fn sessions_are_processes<D: SectorDisk>()
    // Promise: A session over a disk that keeps to the disk model, begun where the last process of its node was stopped and fed with any pieces,
    // is such a process: its text is the answers to its lines, the `send` lines in it are those of the messages that it hands out, each sealed, and
    // it leaves what the process leaves.
    // Refuses: node_session::another_message_sealed.
    ensures fed { SessionsAreProcesses D.state }
    // Promise: A node that knows nothing yet of its disk stands for what a format left there; and over what a stop left of the last one's
    // disk, for what that kept, with the whole of the command in doubt or with nothing of it.
    // Also: next.
    // Refuses: two_images_left.
    ensures first { FirstStands D.state }
    ensures next { NextStands D.state }
{
    sends_sealed::<D>();
}

/// The premises can be met.
pub fn processes_happen()
    // Promise: There are two nodes that meet the premises, the first with two processes, in which a message of each is delivered to the
    // other, and each tells its group.
    ensures { ProcessesHappen }
{}

/// The groups of nodes over files that were formatted, whatever counts and jobs the files began with.
pub fn files_have_one_book()
    // Promise: No group number is given twice, by any nodes in any of their processes; each is above the count that its node's file was
    // formatted with.
    // Also: above.
    // Refuses: first_ignored.
    ensures once { NumbersAreNew }
    ensures above { NumbersAreAbove }
    // Promise: Any node that forms or works in a group has the creator of its number as coordinator, at all moments.
    // Refuses: unsent_message_taken.
    ensures leader { CreatorLeads }
    // Promise: Any two moments that work in one group have one task: the same members, and so one owner of each queue.
    // Refuses: unsent_message_taken.
    ensures task { OneTaskEach }
    // Promise: Two moments that work in one group with jobs of one queue in hand are of one node.
    // Refuses: unsent_message_taken.
    ensures worker { OneWorkerEach }
    // Promise: A leader's counts rise: of two moments of one node that lead, the later one has no smaller count.
    // Refuses: later_moment_of_another.
    ensures rise { LeaderCountsRise }
{}

/// The jobs of nodes over files that were formatted.
pub fn files_keep_jobs()
    // Promise: A job that a node's disk keeps is kept at each later moment, in each later process, unless it was tried by then to take it
    // out.
    // Refuses: failed_done_forgotten.
    ensures kept { JobsAreKept }
    // Promise: Each start finds what the disk kept before, with the whole of the command that was in doubt or with nothing of it, and goes
    // on from the jobs that it found.
    ensures whole { CommandsAreWhole }
    // Promise: A job that was taken out, as the disk acknowledged, is never kept again.
    // Refuses: jobs_of_any_ids.
    ensures done { DoneStaysDone }
    // Promise: The ids of the jobs that a node takes rise, above all of before its file was formatted.
    // Refuses: id_of_a_done_job_given.
    ensures new { IdsAreNew }
    // Promise: No job is taken out of a journal but one that a node was told is finished, which at some moment worked in a group with the
    // job of this keeper and id in hand and owned its queue.
    // Refuses: unsent_message_taken.
    ensures finished { DoneWasFinished }
    // Promise: The work in hand at any moment was a pending job of its keeper, of the same id, queue, priority and payload.
    // Refuses: unsent_message_taken.
    ensures work { WorkIsJob }
{}
