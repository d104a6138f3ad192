//! A node of a trace that puts off a dispatch by which it would take all its pending jobs in hand: where it crashes or recovers next, it loses
//! them again, and there may be as many jobs as entries.
ghost use Rattle.std.specs.Prelude.{◌≡◌, ◌<◌, ◌≤◌, IfOk, MatchOption, OnOk, false};
ghost use Rattle.group_task.specs.declared.node.TheConstants.{NODES};
ghost use Rattle.histories.specs.NodeState.{opening};
ghost use Rattle.node_core.specs.declared.event.Event.TheVariants as on;
ghost use Rattle.node_core.specs.declared.timer.Timer.TheVariants as timer;
ghost use Rattle.trace_check.specs.declared.trace.TraceAction.TheVariants as action;
ghost use Rattle.trace_check.specs.Lazily.{Loses, MayOwe, paid};
ghost use Rattle.trace_check.specs.Leftovers.{IsRefused, WouldSend};
ghost use Rattle.trace_check.specs.Traces.{claim_seen};
ghost use Rattle.trace_check.specs.Twins.{Taken};
ghost use Rattle.trace_check.specs.Views.{Stands, claim_kept};

use crate::history::{EntryView, KeptView};
use crate::kept::{PackedAction, PackedEvent};
use crate::node_model::{EntryRoom, NodeModel};
use group_task::NodeId;
use node_core::{Event, Phase, Timer};
use std::alloc::{AllocError, Global};
use std::marker::Model;
use wire_msg::Message;

#[derive(Drop)]
pub(crate) struct LazyNode {
    node_model: NodeModel,
    /// Whether it has yet to dispatch: until then it stands as where it opens.
    owes_dispatch: bool,
}

impl Model for LazyNode {
    ghost use Rattle.trace_check.specs.Lazily.{MayOwe, paid};
    ghost use Rattle.trace_check.specs.Twins.{Twin};

    ghost Value = { Twin };

    ghost view = { λ a. paid a.owes_dispatch a.node_model };

    ghost invariant = { λ a. MayOwe a.owes_dispatch a.node_model };
}

impl LazyNode {
    /// A node that has just opened.
    pub(crate) fn new(alloc: Global, id: NodeId, nodes: u8) -> Result<LazyNode, AllocError>
        requires within { id < nodes }
        requires most { nodes ≤ NODES }
        ensures { IfOk result (λ lazy_node. lazy_node ≡ record { id = id; nodes = nodes; node = opening id }) }
    {
        Ok(LazyNode::of(NodeModel::new(alloc, id, nodes)?))
    }

    /// A node, which owes nothing.
    pub(crate) fn of(node_model: NodeModel) -> LazyNode
        ensures { result ≡ node_model }
    {
        LazyNode {
            node_model,
            owes_dispatch: false,
        }
    }

    /// The node, once it has dispatched.
    pub(crate) fn into_node_model(self) -> Result<NodeModel, AllocError>
        ensures { IfOk result (λ node_model. node_model ≡ self) }
    {
        let LazyNode {
            mut node_model,
            mut owes_dispatch,
        } = self;
        pay(&mut node_model, &mut owes_dispatch)?;
        Ok(node_model)
    }

    /// In which phase the node is.
    #[tactic(auto, using(crate::proofs::Lazily::same_phase))]
    pub(crate) fn phase(&self) -> Phase
        ensures { result ≡ self.now.node.state.phase }
    {
        self.node_model.vector().group_state.phase
    }

    /// What [`NodeModel::sends`] gives.
    pub(crate) fn sends(
        &mut self,
        entry: &EntryView<'_>,
    ) -> Result<Option<Vec<Message>>, AllocError>
        ensures { IfOk result (λ made. MatchOption made (IsRefused self.old.id self.old.nodes self.old.node (claim_seen entry.now))
            (λ messages. WouldSend self.old.id self.old.nodes self.old.node (claim_seen entry.now) messages.items)) }
    {
        pay(&mut self.node_model, &mut self.owes_dispatch)?;
        self.node_model.sends(entry)
    }

    /// Takes an entry of the node's history, as [`NodeModel::take_kept`] does.
    pub(crate) fn take_kept(
        &mut self,
        kept: &KeptView<'_>,
        room: &mut EntryRoom,
    ) -> Result<bool, AllocError>
        requires { Stands kept.now }
        ensures id { self.new.id ≡ self.old.id }
        ensures nodes { self.new.nodes ≡ self.old.nodes }
        ensures taken { IfOk result (Taken self.old self.new (claim_kept kept.now)) }
    {
        match kept.entry.action {
            PackedAction::Done(PackedEvent::Timer(Timer::Dispatch)) => self.dispatch(kept, room),
            PackedAction::Crashed => self.lose(kept, room),
            PackedAction::Recovered(false) => self.lose(kept, room),
            _ => {
                pay(&mut self.node_model, &mut self.owes_dispatch)?;
                self.node_model.take_kept(kept, room)
            }
        }
    }

    /// A dispatch. It is put off where the node has nothing in hand and all queues are its own: then it sends nothing.
    #[tactic(auto, using(crate::proofs::Lazily::puts_off))]
    fn dispatch(&mut self, kept: &KeptView<'_>, room: &mut EntryRoom) -> Result<bool, AllocError>
        requires stands { Stands kept.now }
        requires dispatch { (claim_kept kept.now).action ≡ action.Done (on.Timer timer.Dispatch) }
        ensures id { self.new.id ≡ self.old.id }
        ensures nodes { self.new.nodes ≡ self.old.nodes }
        ensures taken { IfOk result (Taken self.old self.new (claim_kept kept.now)) }
    {
        pay(&mut self.node_model, &mut self.owes_dispatch)?;
        if !self.node_model.is_opened() {
            return self.node_model.take_kept(kept, room);
        }
        self.owes_dispatch = kept.sent().is_empty();
        Ok(self.owes_dispatch)
    }

    /// An entry behind which nothing is left of a dispatch before it.
    #[tactic(auto, using(crate::proofs::Lazily::loses))]
    fn lose(&mut self, kept: &KeptView<'_>, room: &mut EntryRoom) -> Result<bool, AllocError>
        requires stands { Stands kept.now }
        requires loses { Loses (claim_kept kept.now).action }
        ensures id { self.new.id ≡ self.old.id }
        ensures nodes { self.new.nodes ≡ self.old.nodes }
        ensures taken { IfOk result (Taken self.old self.new (claim_kept kept.now)) }
    {
        self.owes_dispatch = false;
        self.node_model.take_kept(kept, room)
    }
}

/// Makes the dispatch that was put off, where one was.
fn pay(node_model: &mut NodeModel, owes_dispatch: &mut bool) -> Result<(), AllocError>
    requires { MayOwe owes_dispatch.old node_model.old }
    ensures id { node_model.new.id ≡ node_model.old.id }
    ensures nodes { node_model.new.nodes ≡ node_model.old.nodes }
    ensures none { owes_dispatch.new ≡ false }
    ensures paid { OnOk result (node_model.new ≡ paid owes_dispatch.old node_model.old) }
{
    if *owes_dispatch {
        *owes_dispatch = false;
        let Some(_messages) = node_model.handled(&Event::Timer(Timer::Dispatch))? else {
            unreachable!()
        };
    }
    Ok(())
}
