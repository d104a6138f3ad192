// The nodes of a cluster, and the network between them.
ghost use Rattle.std.specs.Prelude.{◌≡◌, ◌≢◌, ◌≤◌, ◌<◌, ◌&&◌, length, nat_lt, slice_get, false, Some, None, IfOk, OnErr, ℕ};
ghost use Rattle.group_task.specs.declared.node.TheConstants.{NODES};
ghost use Rattle.histories.specs.HistoryEvent.{brought, AreAddressed, IsOf};
ghost use Rattle.schedule.specs.declared.act.Act.{Act as AnyAct};
ghost use Rattle.schedule.specs.declared.act.Act.TheVariants as acts;
ghost use Rattle.node_core.specs.declared.fault.Refusal.TheVariants.{AreaExhausted};
ghost use Rattle.runs.specs.declared.outcome.Outcome.TheVariants as outcome;
ghost use Rattle.runs.specs.declared.outcome.ActRefusal.TheVariants.{Node as OfNode};
ghost use Rattle.runs.specs.Acts.{At};
ghost use Rattle.runs.specs.Events.{event_at};
ghost use Rattle.cluster_sim.specs.World.{AreasRise, AreOpened, IsUntouched, StandsFor, Makes, Performed, FaultsAt, armed_by, as_before, bare, linked, link_act};
ghost use Rattle.cluster_sim.specs.Answering.{IsAnsweredAt};
ghost use Rattle.cluster_sim.specs.Operated.{Operates, operated_at};
ghost use Rattle.cluster_sim.specs.Names.{node_named, node_or_first};
ghost use Rattle.runs.specs.Run.{IsBrought};
ghost use Rattle.runs.specs.World.{World};

use crate::act_report::ActReport;
use crate::member::{handle, nothing_sent, operate};
use durable_node::{DurableNode, formatted_disk};
use group_task::NodeId;
use node_core::Event;
use runs::{ActRefusal, Outcome};
use schedule::Act;
use sector_disk::MemDisk;
use sim_net::Net;
use std::alloc::{AllocError, Global};
use std::marker::Model;
use wire_msg::Message;

/// The nodes of a cluster by their ids, each over its own disk in memory, and the network between them.
#[derive(Debug, Drop)]
pub(crate) struct Nodes {
    pub(crate) slots: u64,
    pub(crate) nodes: Vec<DurableNode<MemDisk>>,
    pub(crate) net: Net,
    // the list of the messages of the last event, which is kept for its memory
    pub(crate) room: Option<Vec<Message>>,
}

impl Model for Nodes {
    ghost use Rattle.cluster_sim.specs.World.{WorldView, IsWorld};

    ghost Value = { WorldView };

    ghost view = { λ a. record { slots = a.slots; nodes = a.nodes.items; net = a.net.network } };

    ghost invariant = { λ a. IsWorld a.slots a.nodes.items };
}

impl Nodes {
    /// The node of this id.
    pub(crate) fn node(&self, id: NodeId) -> &DurableNode<MemDisk>
        requires { id < length self.now.nodes }
        ensures { slice_get self.now.nodes id ≡ Some result.now }
    {
        &self.nodes[usize::from(id.number())]
    }

    /// The network, with all that was ever sent.
    pub(crate) fn net(&self) -> &Net
        ensures { result.now.network ≡ self.now.net }
    {
        &self.net
    }

    /// The network alone, with all that was ever sent.
    pub(crate) fn into_net(self) -> Net
        ensures { result.network ≡ self.net }
    {
        let Nodes { net, .. } = self;
        net
    }

    /// How many slots an area of each disk has.
    pub(crate) fn slots(&self) -> u64
        ensures value { result ≡ self.now.slots }
        ensures most { result ≤ 4096 }
    {
        self.slots
    }

    /// How many nodes there are.
    pub(crate) fn count(&self) -> u8
        ensures value { result ≡ length self.now.nodes }
        ensures least { 1 ≤ result }
        ensures most { result ≤ NODES }
    {
        self.nodes.len() as u8
    }

    /// An event at a node, and what is sent of it. It is part of its callers' code: its report isn't copied from one to the next.
    #[inline(always)]
    pub(crate) fn take(&mut self, id: NodeId, event: &Event) -> Result<ActReport, AllocError>
        ensures slots { self.new.slots ≡ self.old.slots }
        ensures acted { (w : World) (number : ℕ) (a : AnyAct) → StandsFor self.old w → IsBrought w number (brought (Some event.now)) → AreAddressed id (brought (Some event.now))
            → IfOk result (λ action. Makes a (λ step. At (nat_lt id (length w.states)) id number (IsOf event.now) step) w action self.new) }
        ensures memory { (w : World) → StandsFor self.old w → OnErr result (StandsFor self.new w) }
        ensures untouched { (w : World) → StandsFor self.old w → OnErr result (IsUntouched (node_or_first (length self.old.nodes) id) self.old self.new) }
        ensures faults { IfOk result (λ action. FaultsAt as_before (node_or_first (length self.old.nodes) id) self.old self.new action.outcome) }
        ensures answers { (w : World) → StandsFor self.old w → IfOk result (λ action. IsAnsweredAt self.old.nodes id event.now action.outcome) }
        ensures areas { (w : World) → StandsFor self.old w → IfOk result (λ action. AreasRise self.old self.new action.outcome) }
    {
        let place = usize::from(id.number());
        if place >= self.nodes.len() {
            return Ok(ActReport {
                outcome: Outcome::Refused(ActRefusal::Stranger),
                event_outcome: None,
                tried: None,
                acked: None,
                mounted: false,
            });
        }
        handle(&mut self.nodes[place], &mut self.net, &mut self.room, event)
    }

    /// Loses the message of this number.
    fn lose(&mut self, number: u64) -> Outcome
        ensures slots { self.new.slots ≡ self.old.slots }
        ensures acted { (w : World) → StandsFor self.old w → Performed w (acts.Lose number) (bare result) self.new }
        ensures faults { FaultsAt as_before 0 self.old self.new result }
        ensures nodes { self.new.nodes ≡ self.old.nodes }
        ensures own { result ≢ outcome.Refused (OfNode AreaExhausted) }
    {
        match self.net.lose(number) {
            Ok(()) => nothing_sent(&self.net),
            Err(fault) => Outcome::Refused(ActRefusal::Net(fault)),
        }
    }

    /// Joins two nodes again, or cuts them from one another.
    fn link(&mut self, a: NodeId, b: NodeId, joined: bool) -> Outcome
        ensures slots { self.new.slots ≡ self.old.slots }
        ensures acted { (w : World) → StandsFor self.old w → Performed w (link_act joined a b) (bare result) self.new }
        ensures faults { FaultsAt as_before 0 self.old self.new result }
        ensures nodes { self.new.nodes ≡ self.old.nodes }
        ensures own { result ≢ outcome.Refused (OfNode AreaExhausted) }
    {
        if !self.has_both(a, b) {
            return Outcome::Refused(ActRefusal::Stranger);
        }
        link(&mut self.net, a, b, joined);
        nothing_sent(&self.net)
    }

    /// Whether both nodes are in the cluster.
    fn has_both(&self, a: NodeId, b: NodeId) -> bool
        ensures { result ≡ (nat_lt a (length self.now.nodes) && nat_lt b (length self.now.nodes)) }
    {
        let count = self.nodes.len();
        usize::from(a.number()) < count && usize::from(b.number()) < count
    }

    /// An act of the operator at this node.
    fn operate(&mut self, id: NodeId, act: &Act) -> Outcome
        requires { operated_at act.now ≡ Some id }
        ensures slots { self.new.slots ≡ self.old.slots }
        ensures acted { (w : World) → StandsFor self.old w → Performed w act.now (bare result) self.new }
        ensures faults { FaultsAt (armed_by act.now) (node_named (length self.old.nodes) self.old.net.sent act.now) self.old self.new result }
        ensures areas { AreasRise self.old self.new result }
        ensures disk { Operates act.now self.old self.new result }
    {
        let place = usize::from(id.number());
        if place >= self.nodes.len() {
            return Outcome::Refused(ActRefusal::Stranger);
        }
        operate(&mut self.nodes[place], &self.net, act)
    }

    /// An act that is no event, nor brings one.
    pub(crate) fn apply(&mut self, act: &Act) -> Outcome
        requires event { event_at act.now ≡ None }
        requires deliver { (k : ℕ) → act.now ≢ acts.Deliver k }
        ensures slots { self.new.slots ≡ self.old.slots }
        ensures acted { (w : World) → StandsFor self.old w → Performed w act.now (bare result) self.new }
        ensures faults { FaultsAt (armed_by act.now) (node_named (length self.old.nodes) self.old.net.sent act.now) self.old self.new result }
        ensures areas { AreasRise self.old self.new result }
        ensures disk { Operates act.now self.old self.new result }
    {
        match act {
            Act::Lose(number) => self.lose(*number),
            Act::Cut(a, b) => self.link(*a, *b, false),
            Act::Mend(a, b) => self.link(*a, *b, true),
            Act::Arm(id, _) | Act::Crash(id, _) | Act::Compact(id) => self.operate(*id, act),
            _ => unreachable!(),
        }
    }
}

/// Joins two nodes of a network again, or cuts them from one another.
fn link(net: &mut Net, a: NodeId, b: NodeId, joined: bool)
    ensures { net.new.network ≡ linked joined net.old.network a b }
{
    if joined {
        net.mend(a, b);
    } else {
        net.cut(a, b);
    }
}

/// So many nodes, each over a new disk of so many slots. All disks are copies of one that was formatted.
pub(crate) fn opened(
    alloc: Global,
    nodes: u8,
    slots: u64,
) -> Result<Vec<DurableNode<MemDisk>>, AllocError>
    requires most { nodes ≤ NODES }
    requires least_slots { 4 ≤ slots }
    requires most_slots { slots ≤ 4096 }
    ensures { IfOk result (λ members. AreOpened slots nodes nodes members.items) }
{
    let disk = formatted_disk(alloc, slots)?;
    let mut members = Vec::new(alloc);
    for number in 0..nodes {
        let id = NodeId::numbered(number);
        let node = DurableNode::open_copy(alloc, id, nodes, &disk)?;
        members.push(node)?;
    }
    Ok(members)
}
