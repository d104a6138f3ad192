// The world of a simulated cluster, act by act.
ghost use Rattle.std.specs.Prelude.{◌≡◌, ◌≤◌, ◌<◌, length, slice_get, Some, IfOk, OnErr};
ghost use Rattle.group_task.specs.declared.node.TheConstants.{NODES};
ghost use Rattle.schedule.specs.declared.act.Act.TheVariants as acts;
ghost use Rattle.cluster_sim.specs.World.{AreasRise, AreasWithin, AreUnarmed, IsUntouched, StandsFor, Performed, FaultsAt, armed_by, as_before};
ghost use Rattle.cluster_sim.specs.Answering.{IsAnsweredBy};
ghost use Rattle.cluster_sim.specs.Operated.{Operates};
ghost use Rattle.cluster_sim.specs.Names.{node_named};
ghost use Rattle.runs.specs.Acts.{receiver_or_first};
ghost use Rattle.runs.specs.World.{World as RunWorld, start};

use crate::act_report::ActReport;
use crate::acts::{event_at, read_delivery, some_delivery};
use crate::nodes::{Nodes, opened};
use durable_node::DurableNode;
use group_task::NodeId;
use node_core::Event;
use runs::{ActRefusal, Outcome};
use schedule::Act;
use sector_disk::MemDisk;
use sim_net::Net;
use std::alloc::{AllocError, Global};
use std::marker::Model;

/// The nodes of a cluster by their ids, each over its own disk in memory, and the network between them.
#[derive(Debug, Drop)]
pub struct World {
    nodes: Nodes,
    // Events are long: so each message that comes is read in the place of the last one, and each other event is made in that of the last.
    delivery: Event,
    event: Event,
}

impl Model for World {
    ghost use Rattle.cluster_sim.specs.Deliveries.{IsDelivery};
    ghost use Rattle.cluster_sim.specs.World.{WorldView};

    ghost Value = { WorldView };

    ghost view = { λ a. a.nodes };

    ghost invariant = { λ a. IsDelivery a.delivery };
}

impl World {
    /// Nodes over new disks of so many slots, each of which was formatted, mounted and recovered. Nothing is sent.
    ///
    /// Refused where there is no memory.
    pub fn open(alloc: Global, nodes: u8, slots: u64) -> Result<World, AllocError>
        requires least { 1 ≤ nodes }
        requires most { nodes ≤ NODES }
        requires least_slots { 4 ≤ slots }
        requires most_slots { slots ≤ 4096 }
        ensures slots { IfOk result (λ world. world.slots ≡ slots) }
        // Promise: A cluster opens with each node Normal, alone in the group of its first count, on a formatted disk, and nothing
        // sent.
        // Refuses: disks_of_four_slots.
        ensures starts { IfOk result (λ world. StandsFor world (start nodes)) }
        ensures areas { IfOk result (λ world. AreasWithin 2 world.nodes) }
        ensures unarmed { IfOk result (λ world. AreUnarmed world.nodes) }
    {
        let members = opened(alloc, nodes, slots)?;
        Ok(World {
            nodes: Nodes {
                slots,
                nodes: members,
                net: Net::new(alloc),
                room: None,
            },
            delivery: some_delivery(),
            event: Event::Recover,
        })
    }

    /// One act, with what its node told of it. It is refused where it names a node outside the cluster, and else as the node or the
    /// network refuses it: then nothing changed. An error says that there was no memory for it, and nothing changed either, but that
    /// the act's node may not show any more what it mounted last.
    ///
    /// It is part of its callers' code, which mostly need the outcome alone.
    #[inline(always)]
    pub fn step(&mut self, act: &Act) -> Result<ActReport, AllocError>
        ensures slots { self.new.slots ≡ self.old.slots }
        // Promise: Each act is one of the steps that the definitions allow for it, its outcome is that step's, and the cluster then
        // represents the world after it: its nodes, their disks, all that was sent, lost and cut.
        // Refuses: messages_kept_back, delivered_as_a_timer, delivered_to_its_sender, timer_that_checks, timer_of_the_act_before,
        // refusal_answered_as_fault, refused_compaction_answered_as_done, first_from_zero, cut_from_itself, mended_by_cut,
        // crash_arms, first_message_lost, armed_at_node_0.
        // Promise: What is told of an act is what came of it: the outcome of the event at its node, the command that the node tried with
        // its answer, and whether it mounted its disk.
        // Refuses: told_of_another_mounting.
        ensures acted { (w : RunWorld) → StandsFor self.old w → IfOk result (λ action. Performed w act.now action self.new) }
        // Promise: Want of memory leaves the cluster as it was.
        ensures memory { (w : RunWorld) → StandsFor self.old w → OnErr result (StandsFor self.new w) }
        ensures untouched { (w : RunWorld) → StandsFor self.old w → OnErr result (IsUntouched (node_named (length self.old.nodes) self.old.net.sent act.now) self.old self.new) }
        ensures faults { IfOk result (λ action. FaultsAt (armed_by act.now) (node_named (length self.old.nodes) self.old.net.sent act.now) self.old self.new action.outcome) }
        ensures disk { IfOk result (λ action. Operates act.now self.old self.new action.outcome) }
        ensures answers { (w : RunWorld) → StandsFor self.old w → IfOk result (λ action. IsAnsweredBy act.now self.old action.outcome) }
        // No act is refused because areas are used up, where each of their numbers can be raised once more.
        ensures areas { (w : RunWorld) → StandsFor self.old w → IfOk result (λ action. AreasRise self.old self.new action.outcome) }
    {
        if let Act::Deliver(number) = act {
            return self.deliver(*number);
        }
        if let Some(id) = event_at(act, &mut self.event) {
            return self.nodes.take(id, &self.event);
        }
        Ok(ActReport {
            outcome: self.nodes.apply(act),
            event_outcome: None,
            tried: None,
            acked: None,
            mounted: false,
        })
    }

    /// The node of this id.
    pub fn node(&self, id: NodeId) -> &DurableNode<MemDisk>
        requires { id < length self.now.nodes }
        ensures { slice_get self.now.nodes id ≡ Some result.now }
    {
        self.nodes.node(id)
    }

    /// The network, with all that was ever sent.
    pub fn net(&self) -> &Net
        ensures { result.now.network ≡ self.now.net }
    {
        self.nodes.net()
    }

    /// The network alone, with all that was ever sent.
    pub fn into_net(self) -> Net
        ensures { result.network ≡ self.net }
    {
        let World { nodes, .. } = self;
        nodes.into_net()
    }

    /// How many slots an area of each disk has.
    pub fn slots(&self) -> u64
        ensures value { result ≡ self.now.slots }
        ensures most { result ≤ 4096 }
    {
        self.nodes.slots()
    }

    /// How many nodes there are.
    pub fn count(&self) -> u8
        ensures value { result ≡ length self.now.nodes }
        ensures least { 1 ≤ result }
        ensures most { result ≤ NODES }
    {
        self.nodes.count()
    }

    /// Delivers the message of this number at its receiver. It is part of its caller's code, as [`World::step`] is.
    #[inline(always)]
    fn deliver(&mut self, number: u64) -> Result<ActReport, AllocError>
        ensures slots { self.new.slots ≡ self.old.slots }
        ensures acted { (w : RunWorld) → StandsFor self.old w → IfOk result (λ action. Performed w (acts.Deliver number) action self.new) }
        ensures memory { (w : RunWorld) → StandsFor self.old w → OnErr result (StandsFor self.new w) }
        ensures untouched { (w : RunWorld) → StandsFor self.old w → OnErr result (IsUntouched (receiver_or_first (length self.old.nodes) (slice_get self.old.net.sent number)) self.old self.new) }
        ensures faults { IfOk result (λ action. FaultsAt as_before (receiver_or_first (length self.old.nodes) (slice_get self.old.net.sent number)) self.old self.new action.outcome) }
        ensures answers { (w : RunWorld) → StandsFor self.old w → IfOk result (λ action. IsAnsweredBy (acts.Deliver number) self.old action.outcome) }
        ensures areas { (w : RunWorld) → StandsFor self.old w → IfOk result (λ action. AreasRise self.old self.new action.outcome) }
    {
        match read_delivery(self.nodes.net(), number, &mut self.delivery) {
            Ok(receiver) => self.nodes.take(receiver, &self.delivery),
            Err(fault) => Ok(ActReport {
                outcome: Outcome::Refused(ActRefusal::Net(fault)),
                event_outcome: None,
                tried: None,
                acked: None,
                mounted: false,
            }),
        }
    }
}
