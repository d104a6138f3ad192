//! Laws of all runs, over the definitions alone. Each is the contract of a function that does nothing; a caller takes the
//! law by calling it.

ghost use Rattle.runs.specs.Exact.{NoIdleDenial, OneOutcome, ActsRun, RunsOfSlots};
ghost use Rattle.runs.specs.Given.{GivenBefore, NoneTwice, RunGoesOn};
ghost use Rattle.runs.specs.Growth.{RunsOpen, RunsGrow, LeftKeeps};
ghost use Rattle.runs.specs.Headline.{EverySchedule};
ghost use Rattle.runs.specs.Tagged.{RunsAreKept};
ghost use Rattle.runs.specs.Run.{RunsAreBundles, RunBook};
ghost use Rattle.runs.specs.Strangers.{NoStrangers};
ghost use Rattle.runs.specs.Uses.{ActsAreReported, RaisesAreKept, JobsAreKept, DonesAreKept, DoubtsApart};
ghost use Rattle.runs.specs.Uses.{GivenAtOnePlace, LaterIsGreater, NamedWasGiven};
ghost use Rattle.runs.specs.Uses.{RefusedChangesNothing, DoneHasItsEffect, DownRefusesCompaction, NoneIsSpent, AnsweredIsAcknowledged, IdsAreNew, LeaderIsCreator, LeaderCountsRise};
ghost use Rattle.runs.specs.Uses.{OneLeader, OneOwnerEach, MembersAgree, OneWorkerEach, DoneWasFinished, OneCoordinator, OneTask};

/// Groups and jobs are kept on every schedule: whatever run its acts have in which no area is used up, each mounting of a node gives what a front of its
/// commands gives, every acknowledged one included; no group number is given twice or named before it was given; and one
/// book of groups agrees with all nodes at all moments, so any two in one group have one coordinator and one task.
pub fn every_schedule()
    ensures { EverySchedule }
{}

/// In every run each group that a node or a message names was given before, none was given twice, and one book of groups
/// agrees with every node after each step. The histories that a run gives its nodes are a bundle.
pub fn groups_given()
    ensures bundles { RunsAreBundles }
    ensures before { GivenBefore }
    ensures once { NoneTwice }
    ensures book { RunBook }
{}

/// Each node's commands and mountings are kept in every run that is too short to use up a counter.
pub fn kept()
    ensures { RunsAreKept }
{}

/// A run grows by a step that is allowed.
pub fn goes_on()
    ensures { RunGoesOn }
{}

/// A run of acts is a run, and each node's history in it is one of a disk of so many slots. The network doesn't refuse at will, and a
/// node refuses an event that it may handle only where no area of its disk is left.
pub fn acts_are_exact()
    ensures runs { ActsRun }
    ensures network { NoIdleDenial }
    ensures node { OneOutcome }
    ensures slots { RunsOfSlots }
{}

/// What a cluster has to keep so that all of this holds of its report: some run of the acts so far, in which nothing is used up,
/// leaves it. It opens so, and each act whose step is allowed keeps it, unless it is refused because the areas of a disk are used up.
pub fn left_by_a_run()
    ensures opens { RunsOpen }
    ensures grows { RunsGrow }
    ensures keeps { LeftKeeps }
{}

/// No run sends a message to a node outside the cluster: what is delivered and names such a node is refused, and a vector
/// names none.
pub fn no_strangers()
    // Promise: No message is ever sent to a node outside the cluster.
    ensures { NoStrangers }
{}

/// A report has each act of the schedule in order, and the opening of each node.
pub fn acts_are_reported()
    // Promise: Each act is reported, in order, and each node opens Normal, alone in the group of its first count.
    // Refuses: reported_for_one_node, run_for_one_node.
    ensures { ActsAreReported }
{}

/// An act that is refused changes nothing, and one that is done has the effect of its event's row of the table. A compaction at a node
/// that is Down is refused. No run is long enough for a node to be out of counts, ids or areas.
pub fn acts_do_as_answered()
    // Promise: An act that is refused changes nothing: it sends nothing, tries no command and gives no group, and every node is as
    // it was shown last.
    // Refuses: reported_for_one_node, run_for_one_node.
    ensures refused { RefusedChangesNothing }
    // Promise: An act that is done has its row's effect: for an event at a node that was shown up last, its state and what is sent
    // are those of the table's row, over the jobs that its disk keeps.
    // Refuses: reported_for_one_node, run_for_one_node.
    ensures done { DoneHasItsEffect }
    // Promise: A compaction at a node that was shown Down last is refused as Down: it never meets a device.
    // Refuses: cluster_sim::compaction_faults_while_down.
    ensures down { DownRefusesCompaction }
    // Promise: No act is refused as Exhausted because the counter or the ids of its node are used up, or as AreaExhausted because the areas of
    // its disk are.
    // Refuses: recovery_refused_as_spent, compaction_refused_as_area_exhausted, cluster_sim::submit_refused_as_area_exhausted.
    ensures unspent { NoneIsSpent }
{}

/// What an act was answered is acknowledged: its node tried one command in it, and the disk took that command with that answer.
pub fn answered_is_acknowledged()
    // Promise: What an act was answered is acknowledged: in that act the node tried one command, the one that the act asks for (a
    // job is put, a recovery raises the counter), and its disk took it with that answer.
    // Refuses: reported_for_one_node, run_for_one_node.
    ensures { AnsweredIsAcknowledged }
{}

/// What a node's disk acknowledged is there: no later mounting of the node gives a smaller count than a raise gave, and each
/// gives a job that was taken, unless its completion was tried between, and none whose completion was acknowledged. One command of a life at most is in doubt.
pub fn acknowledged_is_kept()
    // Promise: An acknowledged raise is kept: no later mounting of the node gives a smaller count than it gave.
    // Refuses: last_node_not_kept.
    ensures raises { RaisesAreKept }
    // Promise: An acknowledged job is kept: each later mounting of the node has it pending, with its queue and payload, unless its
    // Done was tried between.
    // Refuses: last_node_not_kept.
    ensures jobs { JobsAreKept }
    // Promise: A job that was acknowledged as done stays done: no later mounting of the node has a job of its id pending.
    // Refuses: reported_for_one_node, run_for_one_node.
    ensures dones { DonesAreKept }
    // Promise: A command that wasn't acknowledged is the last of its life: the node mounts its disk before its next command.
    // Refuses: last_node_not_kept.
    ensures doubts { DoubtsApart }
{}

/// The id of a job is new when it is given: it is greater than those of the jobs that its node took before.
pub fn ids_are_new()
    // Promise: Ids of jobs are new: of two jobs that a node took, the later one has the greater id.
    // Refuses: last_node_not_kept.
    ensures { IdsAreNew }
{}

/// Who leads a group is the node that the group's number names, and the counts of the groups that a node leads rise.
pub fn number_names_the_leader()
    // Promise: Who leads a group, working or still bringing it together, is the node that the group's number names.
    // Refuses: book_of_one_node.
    ensures leader { LeaderIsCreator }
    // Promise: A leader's counts rise: of two moments of one node that lead, the later one has no smaller count.
    // Refuses: reported_for_one_node, run_for_one_node.
    ensures rises { LeaderCountsRise }
{}

/// A group's number is a fence: whoever compares numbers for equality takes two leaders of one number for one node, is told
/// one owner of each queue, and one list of members.
pub fn number_is_a_fence()
    // Promise: Two states that are shown in one group, whether their nodes work in it or bring it together, have one coordinator.
    // Refuses: coordinator_of_working_nodes.
    ensures coordinator { OneCoordinator }
    // Promise: Two moments that work in one group have one task.
    // Refuses: task_of_one_node.
    ensures task { OneTask }
    // Promise: A group number is a fence: two moments, of any nodes, that lead one group are of one node, working or still bringing
    // the group together.
    // Refuses: coordinator_of_working_nodes.
    ensures leader { OneLeader }
    // Promise: Two moments that work in one group name one owner of each queue.
    // Refuses: task_of_one_node.
    ensures owner { OneOwnerEach }
    // Promise: Two moments that work in one group have the same members, both nodes among them.
    // Refuses: book_of_one_node, book_for_each_node.
    ensures members { MembersAgree }
{}

/// A group's number is new when it is given: it stands at one place of the report, is greater than those that its node gave
/// before, and nothing shows it earlier.
pub fn numbers_are_new()
    // Promise: No group number stands at two places.
    // Refuses: rising_for_one_node, last_node_not_rising.
    ensures once { GivenAtOnePlace }
    // Promise: Of two groups of one node the later one has the greater count.
    // Refuses: last_node_not_rising.
    ensures greater { LaterIsGreater }
    // Promise: The group of a node that is up and the groups in each message were given by then.
    // Refuses: given_where_a_node_works.
    ensures named { NamedWasGiven }
{}

/// While two nodes work in one group, jobs of one queue are in the hand of one of them, and no job leaves its journal before
/// the schedule said that it is finished.
pub fn jobs_have_one_worker()
    // Promise: Two moments that work in one group with jobs of one queue in hand are of one node.
    // Refuses: worker_of_one_job.
    ensures worker { OneWorkerEach }
    // Promise: A Done was tried only where the schedule had by then a `finish` of its job that wasn't refused: in an earlier act,
    // or in the same where the worker is the job's origin.
    // Refuses: finish_in_the_act_of_the_done, refused_finish.
    // Promise: A moment before that `finish` shows the worker at work, with the job in hand and owning its queue; and the job was
    // put at its origin with the queue, priority and payload that are in hand.
    // Refuses: finished_in_openings, finish_of_other_work.
    ensures finished { DoneWasFinished }
{}
