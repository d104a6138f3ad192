// A cluster that keeps a report of all its acts.
ghost use Rattle.std.specs.Prelude.{◌≡◌, ◌≢◌, ◌≤◌, ◌<◌, ◌+◌, [], ◌++◌, map, length, slice_get, Some, IfOk, OnErr, OnOk, ℕ};
ghost use Rattle.group_task.specs.declared.node.TheConstants.{NODES};
ghost use Rattle.cluster_sim.specs.World.{FaultsAt, IsUntouched, armed_by};
ghost use Rattle.cluster_sim.specs.Answering.{IsAnsweredBy};
ghost use Rattle.cluster_sim.specs.Operated.{Operates};
ghost use Rattle.cluster_sim.specs.Cluster.{report_in, cluster_with, Reports, GoesOn, HasRun, IsCluster};
ghost use Rattle.node_core.specs.declared.fault.Refusal.TheVariants.{AreaExhausted};
ghost use Rattle.runs.specs.declared.outcome.Outcome.TheVariants as outcomes;
ghost use Rattle.runs.specs.declared.outcome.ActRefusal.TheVariants.{Node as OfNode};
ghost use Rattle.runs.specs.Growth.{acts_in};
ghost use Rattle.cluster_sim.specs.Names.{node_named};
ghost use Rattle.runs.specs.Headline.{IsPromised};
ghost use Rattle.runs.specs.Reporting.{report_of};
ghost use Rattle.cluster_sim.specs.declared.report.Moment.{Moment as KeptMoment};
ghost use Rattle.runs.specs.World.{World as RunWorld, start};

use crate::naming::node_named;
use crate::recording::{ones, opened};
use crate::report::Report;
use crate::world::World;
use durable_node::DurableNode;
use group_task::NodeId;
use runs::Outcome;
use schedule::Act;
use sector_disk::MemDisk;
use sim_net::Net;
use std::alloc::{AllocError, Global};
use std::marker::Model;

/// A simulated cluster with a report of all that came of its acts.
///
/// The report takes memory for each act: the act, what its node knows after it, and what it mounts.
#[derive(Debug, Drop)]
pub struct Cluster {
    alloc: Global,
    world: World,
    report: Report,
    // how many commands each node tried so far
    counts: Vec<u64>,
}

impl Model for Cluster {
    ghost use Rattle.cluster_sim.specs.Cluster.{ClusterView, IsCluster, cluster_with};

    ghost Value = { ClusterView };

    ghost view = { λ a. cluster_with a.world a.report };

    ghost invariant = { λ a. IsCluster (cluster_with a.world a.report) a.counts.items };
}

impl Cluster {
    /// Nodes over new disks of so many slots, each of which was formatted, mounted and recovered. Nothing is sent.
    ///
    /// Refused where there is no memory.
    pub fn open(alloc: Global, nodes: u8, slots: u64) -> Result<Cluster, AllocError>
        requires least { 1 ≤ nodes }
        requires most { nodes ≤ NODES }
        requires least_slots { 4 ≤ slots }
        requires most_slots { slots ≤ 4096 }
        ensures slots { IfOk result (λ cluster. cluster.world.slots ≡ slots) }
        ensures nodes { IfOk result (λ cluster. length cluster.world.nodes ≡ nodes) }
        // Promise: A cluster opens with the report of no act: each node Normal, alone in the group of its first count, its raise
        // and its mounting reported, and nothing sent.
        // Refuses: opening_raises_not_reported, opened_by_one_node.
        ensures opens { IfOk result (λ cluster. Reports cluster (start nodes)) }
        ensures report { IfOk result (λ cluster. cluster.report ≡ report_of nodes [] []) }
    {
        let world = World::open(alloc, nodes, slots)?;
        let report = opened(alloc, &world)?;
        let counts = ones(alloc, nodes)?;
        Ok(Cluster {
            alloc,
            world,
            report,
            counts,
        })
    }

    /// One act. It is refused where it names a node outside the cluster, and else as the node or the network refuses it:
    /// then nothing changed but the report, which has it. An error says that there was no memory for it, and nothing
    /// changed at all, but that the act's node may not show any more what it mounted last.
    pub fn step(&mut self, act: Act) -> Result<Outcome, AllocError>
        ensures slots { self.new.world.slots ≡ self.old.world.slots }
        // Promise: For each run that cluster and report represent: the act has one of the steps that the definitions allow, it is
        // reported so (moment, group, command with its answer, mounting), and both represent the run that goes on by it.
        // Refuses: refused_act_forgotten, mountings_not_reported, groups_not_reported, commands_not_counted,
        // faulted_command_acknowledged, failed_mounting_answered_as_raise, reported_of_the_sender.
        ensures goes_on { (w : RunWorld) → Reports self.old w → IfOk result (λ outcome. GoesOn w act outcome self.old self.new) }
        // Promise: An act faults exactly where the disk of its node failed in it, by the count of failures before and after (or the
        // count stands at its greatest value), and no other node changed. No act but `arm` lets a disk fail that nobody armed, or
        // lets more of its calls pass.
        // Also: World::step.
        // Refuses: failure_answered_as_refusal, armed_by_an_event.
        ensures faults { IfOk result (FaultsAt (armed_by act) (node_named (length self.old.world.nodes) self.old.world.net.sent act) self.old.world self.new.world) }
        // Promise: An act `arm` arms its node's disk with just so many calls, `crash` leaves of it what a crash leaves with just
        // these bytes, and `compact` is refused and does as `DurableNode::compact` says.
        // Also: World::step.
        // Refuses: armed_for_one_call_at_most, crash_with_one_byte, area_exhausted_answered_as_exhausted, compaction_left_out.
        ensures disk { IfOk result (Operates act self.old.world self.new.world) }
        ensures answers { IfOk result (IsAnsweredBy act self.old.world) }
        ensures never_area_exhausted { IfOk result (λ outcome. outcome ≢ outcomes.Refused (OfNode AreaExhausted)) }
        // Promise: Want of memory leaves cluster and report as they were, so the same act made again has the same steps; no node,
        // disk or network has changed, but that a node may not show any more what it mounted last.
        // Also: untouched, World::step.
        // Refuses: act_before_its_room, want_of_memory_arms_the_disk.
        ensures memory { (w : RunWorld) → Reports self.old w → OnErr result (Reports self.new w) }
        ensures untouched { OnErr result (IsUntouched (node_named (length self.old.world.nodes) self.old.world.net.sent act) self.old.world self.new.world × (self.new.report ≡ self.old.report)) }
    {
        advance(
            self.alloc,
            &mut self.world,
            &mut self.report,
            &mut self.counts,
            act,
        )
    }

    /// All of these acts, one after another.
    fn step_all(&mut self, acts: Vec<Act>) -> Result<(), AllocError>
        ensures slots { self.new.world.slots ≡ self.old.world.slots }
        ensures run { (nodes : ℕ) (w : RunWorld) → length w.states ≡ nodes → Reports self.old w → OnOk result (HasRun nodes (acts_in self.old.report ++ acts.items) self.new) }
    {
        for act in acts {
            if self.step(act).is_err() {
                return Err(AllocError);
            }
        }
        Ok(())
    }

    /// The report, and the network with all that was ever sent.
    fn into_parts(self) -> (Report, Net)
        ensures report { report_in result.0 self.world.net.sent ≡ self.report }
        ensures net { result.1.network ≡ self.world.net }
    {
        let Cluster { world, report, .. } = self;
        (report, world.into_net())
    }

    /// What came of all acts so far, from the opening on.
    pub fn report(&self) -> &Report
        ensures report { report_in result.now self.now.world.net.sent ≡ self.now.report }
        // The nodes and the network are what the run left of which it is the report.
        ensures run { HasRun (length self.now.world.nodes) (acts_in self.now.report) self.now }
        // Promise: The same of the report of the acts so far, at any time; nodes, disks and network are what a run left of which it
        // is the report.
        // Also: run.
        ensures keeps { IsPromised (length self.now.world.nodes) self.now.world.slots (acts_in self.now.report) self.now.report }
    {
        &self.report
    }

    /// The node of this id.
    pub fn node(&self, id: NodeId) -> &DurableNode<MemDisk>
        requires { id < length self.now.world.nodes }
        // Promise: The nodes, the network, and how many nodes and slots there are.
        // Also: Cluster::net, Cluster::count, World::slots, World::into_net.
        // Refuses: node_is_the_first, none_counted, last_node_shown, one_node_less, four_slots_answered, cut_as_it_is_handed_out.
        ensures { slice_get self.now.world.nodes id ≡ Some result.now }
    {
        self.world.node(id)
    }

    /// The network, with all that was ever sent.
    pub fn net(&self) -> &Net
        ensures { result.now.network ≡ self.now.world.net }
    {
        self.world.net()
    }

    /// How many nodes there are.
    pub fn count(&self) -> u8
        ensures value { result ≡ length self.now.world.nodes }
        ensures most { result ≤ NODES }
    {
        self.world.count()
    }
}

/// One act, over the parts of a cluster.
fn advance(
    alloc: Global,
    world: &mut World,
    report: &mut Report,
    counts: &mut Vec<u64>,
    act: Act,
) -> Result<Outcome, AllocError>
    requires cluster { IsCluster (cluster_with world.old report.old) counts.old.items }
    ensures cluster { IsCluster (cluster_with world.new report.new) counts.new.items }
    ensures slots { world.new.slots ≡ world.old.slots }
    ensures goes_on { (w : RunWorld) → Reports (cluster_with world.old report.old) w
        → IfOk result (λ outcome. GoesOn w act outcome (cluster_with world.old report.old) (cluster_with world.new report.new)) }
    ensures faults { IfOk result (FaultsAt (armed_by act) (node_named (length world.old.nodes) world.old.net.sent act) world.old world.new) }
    ensures disk { IfOk result (Operates act world.old world.new) }
    ensures answers { IfOk result (IsAnsweredBy act world.old) }
    ensures never_area_exhausted { IfOk result (λ outcome. outcome ≢ outcomes.Refused (OfNode AreaExhausted)) }
    ensures memory { (w : RunWorld) → Reports (cluster_with world.old report.old) w → OnErr result (Reports (cluster_with world.new report.new) w) }
    ensures untouched { OnErr result (IsUntouched (node_named (length world.old.nodes) world.old.net.sent act) world.old world.new × ((cluster_with world.new report.new).report ≡ (cluster_with world.old report.old).report)) }
{
    let id = node_named(world.count(), world.net(), &act);
    let room = report.reserve(alloc, world.node(id), world.slots())?;
    let action = world.step(&act)?;
    let place = usize::from(id.number());
    let before = counts[place];
    if action.tried.is_some() {
        counts[place] = before + 1;
    }
    report.add(world.node(id), id, before, act, action, room);
    Ok(action.outcome)
}

/// Runs acts on a cluster that just opened, and gives its report, with the network that holds the messages. The numbers in an
/// outcome are places in the network's list.
///
/// Refused where there is no memory.
pub fn run(
    alloc: Global,
    nodes: u8,
    slots: u64,
    acts: Vec<Act>,
) -> Result<(Report, Net), AllocError>
    requires least { 1 ≤ nodes }
    requires most { nodes ≤ NODES }
    requires least_slots { 4 ≤ slots }
    requires most_slots { slots ≤ 4096 }
    // Promise: Acts that run on a cluster that just opened give a report and the network; some run of just these acts, over disks
    // of so many slots, has this report, and the headline holds of it, with no premise.
    // Also: acts.
    // Refuses: run_of_smaller_disks, run_without_acts, empty_report.
    ensures keeps { IfOk result (λ ran. IsPromised nodes slots acts.items (report_in ran.0 ran.1.network.sent)) }
    // One moment for each act.
    ensures acts { IfOk result (λ ran. map (λ (m : KeptMoment). m.act) ran.0.moments.items ≡ acts.items) }
{
    let mut cluster = Cluster::open(alloc, nodes, slots)?;
    cluster.step_all(acts)?;
    Ok(cluster.into_parts())
}
