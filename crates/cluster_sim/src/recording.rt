// How a report grows by one act. All memory is taken before the act is done.
ghost use Rattle.std.specs.Prelude.{◌≡◌, ◌≤◌, ◌<◌, ◌+◌, ◌++◌, [], ℕ, true, length, replicate, slice_get, option_map, IfOk, IfSome, OnOk, List, Option, Some, vec_len, vec_capacity};
ghost use Rattle.job_model.specs.Durable.{Durable};
ghost use Rattle.wire_msg.specs.Envelope.{Envelope};
ghost use Rattle.histories.specs.EventOutcomes.{command_with};
ghost use Rattle.node_core.specs.State.{is_down, state_of};
ghost use Rattle.cluster_sim.specs.World.{StandsFor};
ghost use Rattle.runs.specs.Reporting.{report_of};
ghost use Rattle.runs.specs.Numbered.{sent_under};
ghost use Rattle.runs.specs.World.{start};
ghost use Rattle.cluster_sim.specs.Cluster.{moment_in, report_in, mounted_of, HasRoom, command_in, listed, with_action, with_opening, given_in, mounting_at, pending_room, tried_as, tried_at, work_in};

use crate::act_report::ActReport;
use crate::naming::hand_room;
use crate::report::{Moment, Mounted, Report};
use crate::world::World;
use durable_node::DurableNode;
use group_task::{GroupNo, NodeId};
use histories::{Attempt, Command, CommandKind};
use job_model::{Job, PendingJobs, Work};
use node_core::{Phase, Vector};
use runs::{AttemptAt, Outcome};
use schedule::Act;
use sector_disk::MemDisk;
use std::alloc::{AllocError, Global};

/// Room for what is reported of one act.
#[derive(Drop)]
pub(crate) struct Room {
    pub vector: Vector,
    pub pending: Vec<Job>,
}

impl Report {
    /// A report of nothing.
    pub(crate) fn new(alloc: Global) -> Report
        ensures { (sent : List Envelope) → report_in result sent ≡ record { opening = []; moments = []; groups = []; commands = []; mounted = [] } }
    {
        Report {
            opening: Vec::new(alloc),
            moments: Vec::new(alloc),
            groups: Vec::new(alloc),
            commands: Vec::new(alloc),
            mounted: Vec::new(alloc),
        }
    }

    /// Makes room for one act of this node, whose disk has so many slots. A node that is Down may mount its disk.
    pub(crate) fn reserve(
        &mut self,
        alloc: Global,
        node: &DurableNode<MemDisk>,
        slots: u64,
    ) -> Result<Room, AllocError>
        ensures same { (sent : List Envelope) → report_in self.new sent ≡ report_in self.old sent }
        ensures room { OnOk result (HasRoom self.new) }
        ensures hand { IfOk result (λ room. length node.now.state.hand + pending_room slots (is_down node.now.state.phase) node.now.kept + 1 ≤ room.vector.hand.room) }
        ensures jobs { IfOk result (λ room. is_down node.now.state.phase ≡ true → slots ≤ vec_capacity room.pending) }
        ensures empty { IfOk result (λ room. room.pending.items ≡ []) }
    {
        self.moments.reserve(1)?;
        self.groups.reserve(1)?;
        self.commands.reserve(1)?;
        self.mounted.reserve(1)?;
        let known = node.vector();
        let mut vector = Vector::down(alloc, known.group_state.coordinator);
        vector.room(hand_room(node, slots)?)?;
        let jobs = if matches!(known.group_state.phase, Phase::Down) {
            slots as usize
        } else {
            0
        };
        Ok(Room {
            vector,
            pending: Vec::with_capacity(alloc, jobs)?,
        })
    }

    /// Adds what is reported of one act that was done, in the room that was made for it: its node had tried so many commands
    /// before.
    pub(crate) fn add(
        &mut self,
        node: &DurableNode<MemDisk>,
        id: NodeId,
        before: u64,
        act: Act,
        action: ActReport,
        room: Room,
    )
        requires room { HasRoom self.old }
        requires hand { length node.now.state.hand ≤ room.vector.hand.room }
        requires empty { room.pending.items ≡ [] }
        requires jobs { (mounted : Durable) → action.mounted ≡ true → node.now.mounted ≡ Some mounted → length mounted.pending ≤ vec_capacity room.pending }
        requires count { (count : ℕ) → action.tried ≡ Some CommandKind.Raise → action.acked ≡ Some count → 1 ≤ count }
        ensures { (sent : List Envelope) → report_in self.new sent ≡ with_action sent id before act action node.now (report_in self.old sent) }
    {
        let Room { vector, pending } = room;
        let mounted = if action.mounted {
            mounted_by(node, id, before, pending)
        } else {
            None
        };
        let group = given_by(id, action.tried, action.acked);
        let command: Option<Command> = command_in(&act, action.tried);
        let tried: Option<Attempt> = tried_by(command, action.acked);
        let moment = moment_of(node, id, act, action.outcome, vector);
        self.moments.push_reserved(moment);
        push_some(&mut self.groups, group);
        push_some(&mut self.commands, tried_at(id, tried));
        push_some(&mut self.mounted, mounted);
    }

    /// Adds a node that opened.
    pub(crate) fn add_opening(
        &mut self,
        alloc: Global,
        id: NodeId,
        vector: &Vector,
    ) -> Result<(), AllocError>
        ensures { OnOk result ((sent : List Envelope) → report_in self.new sent ≡ with_opening id (state_of vector.now) (report_in self.old sent)) }
    {
        self.opening.push(copied(alloc, vector)?)?;
        self.groups.push(GroupNo::numbered(id, 1))?;
        self.commands.push(AttemptAt {
            node: id,
            tried: Attempt {
                command: Command::Raise,
                acked: Some(1),
            },
        })?;
        self.mounted.push(Mounted {
            node: id,
            before: 0,
            count: 0,
            next: 0,
            pending: Vec::new(alloc),
        })?;
        Ok(())
    }
}

/// The group of a raise that was acknowledged.
fn given_by(id: NodeId, tried: Option<CommandKind>, acked: Option<u64>) -> Option<GroupNo>
    requires { (count : ℕ) → tried ≡ Some CommandKind.Raise → acked ≡ Some count → 1 ≤ count }
    ensures { (work : Option Work) → listed result ≡ given_in (tried_at id (tried_as (command_with work tried) acked)) }
{
    match (tried, acked) {
        (Some(CommandKind::Raise), Some(count)) => Some(GroupNo::numbered(id, count)),
        _ => None,
    }
}

/// The command that was tried.
fn tried_by(command: Option<Command>, acked: Option<u64>) -> Option<Attempt>
    ensures { result ≡ tried_as command acked }
{
    let command = command?;
    Some(Attempt { command, acked })
}

/// The command that a node tried.
fn tried_at(id: NodeId, tried: Option<Attempt>) -> Option<AttemptAt>
    ensures { result ≡ tried_at id tried }
{
    let tried = tried?;
    Some(AttemptAt { node: id, tried })
}

/// The whole command that was tried in an act.
fn command_in(act: &Act, tried: Option<CommandKind>) -> Option<Command>
    ensures { result ≡ command_in act.now tried }
{
    tried?.command(work_in(act))
}

/// The work that an act submits.
fn work_in(act: &Act) -> Option<Work>
    ensures { result ≡ work_in act.now }
{
    match act {
        Act::Submit(_, job) => Some(job.work()),
        _ => None,
    }
}

/// What is reported of an act, of which this came: the node's vector goes to one that has room for it.
fn moment_of(
    node: &DurableNode<MemDisk>,
    id: NodeId,
    act: Act,
    outcome: Outcome,
    vector: Vector,
) -> Moment
    requires { length node.now.state.hand ≤ vector.hand.room }
    ensures { (sent : List Envelope) → moment_in sent result ≡ record { act = act; node = id; outcome = outcome; sent = sent_under sent outcome; state = node.now.state } }
{
    let mut vector = vector;
    vector.set(node.vector());
    vector.fit();
    Moment {
        act,
        node: id,
        outcome,
        vector,
    }
}

/// Adds what there is, in the room that is there.
fn push_some<T>(list: &mut Vec<T>, item: Option<T>)
    requires { vec_len list.old < vec_capacity list.old }
    ensures { list.new.items ≡ list.old.items ++ listed item }
{
    if let Some(item) = item {
        list.push_reserved(item);
    }
}

/// A vector once more.
fn copied(alloc: Global, vector: &Vector) -> Result<Vector, AllocError>
    ensures { IfOk result (λ copy. state_of copy ≡ state_of vector.now) }
{
    let mut copy = Vector::down(alloc, vector.group_state.coordinator);
    copy.room(vector.hand.jobs().len())?;
    copy.set(vector);
    Ok(copy)
}

/// What a node mounted, in the room for its jobs.
pub(crate) fn mounted_by(
    node: &DurableNode<MemDisk>,
    id: NodeId,
    before: u64,
    mut pending: Vec<Job>,
) -> Option<Mounted>
    requires empty { pending.items ≡ [] }
    requires room { (mounted : Durable) → node.now.mounted ≡ Some mounted → length mounted.pending ≤ vec_capacity pending }
    ensures { option_map mounted_of result ≡ mounting_at id before node.now.mounted }
{
    let (count, table) = node.mounted()?;
    copy_jobs(&mut pending, &table.pending());
    pending.shrink_to_fit();
    Some(Mounted {
        node: id,
        before,
        count,
        next: table.next(),
        pending,
    })
}

/// Copies jobs in the room that is there.
fn copy_jobs(jobs: &mut Vec<Job>, more: &PendingJobs<'_>)
    requires { vec_len jobs.old + length more.now ≤ vec_capacity jobs.old }
    ensures jobs { jobs.new.items ≡ jobs.old.items ++ more.now }
    ensures room { vec_capacity jobs.new ≡ vec_capacity jobs.old }
{
    for job in more.iter() {
        jobs.push_reserved(job.to_job());
    }
}

/// The report of a cluster that just opened.
pub(crate) fn opened(alloc: Global, world: &World) -> Result<Report, AllocError>
    ensures { (nodes : ℕ) → StandsFor world.now (start nodes) → IfOk result (λ report. (sent : List Envelope) → report_in report sent ≡ report_of nodes [] []) }
{
    let mut report = Report::new(alloc);
    for number in 0..world.count() {
        let id = NodeId::numbered(number);
        report.add_opening(alloc, id, world.node(id).vector())?;
    }
    Ok(report)
}

/// The number 1, so many times.
pub(crate) fn ones(alloc: Global, many: u8) -> Result<Vec<u64>, AllocError>
    ensures { IfOk result (λ list. list.items ≡ replicate many 1) }
{
    Vec::from_elem(alloc, 1, usize::from(many))
}
