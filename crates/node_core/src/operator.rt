ghost use Rattle.std.specs.Prelude.{◌≡◌, List, [], ◌<◌, ◌==◌, ◌&&◌, not, if◌then◌else◌, true, Some, None, IfOk};
ghost use Rattle.job_model.specs.declared.node_command.NodeCommand.TheVariants.{Raise, Put, Done};
ghost use Rattle.job_model.specs.Fold.{is_pending};
ghost use Rattle.node_core.specs.NodeView.{state_at};
ghost use Rattle.job_model.specs.declared.job.Job.{Job};
ghost use Rattle.node_core.specs.declared.event.Event.TheVariants as on;
ghost use Rattle.node_core.specs.declared.phase.Phase.TheVariants.{Normal};
ghost use Rattle.node_core.specs.State.{in_phase};
ghost use Rattle.node_core.specs.Words.{holds};
ghost use Rattle.node_core.specs.Effect.{quietly};
ghost use Rattle.node_core.specs.Start.{alone};
ghost use Rattle.node_core.specs.Effects.{effect_of};
ghost use Rattle.node_core.specs.Planned.{IsPlanOf, plan_sends, gain_of};
ghost use Rattle.node_core.specs.Memory.{Spares};

use crate::guards::owner_in;
use crate::node_view::NodeView;
use crate::plan::{Plan, PlannedEffect, with_room};
use group_task::NodeId;
use job_model::{JobTable, Work};
use std::alloc::AllocError;
use wire_msg::{Body, Message};

/// The node recovers: it is alone in a new group.
pub fn recovery(room: Vec<Message>, node_view: &NodeView<'_>) -> Plan<'static>
    requires room { room.items ≡ [] }
    ensures row { IsPlanOf node_view.now result (Some Raise)
        (λ answer. quietly (alone node_view.now.id answer)) }
    ensures none { plan_sends node_view.now.id result ≡ 0 }
    ensures gain { gain_of result.act ≡ 0 }
{
    Plan {
        act: PlannedEffect::Recover,
        messages: room,
    }
}

/// A coordinator keeps a new job, and takes it in hand or sends it to its owner.
pub fn submit<'a>(
    room: Vec<Message>,
    node_view: &NodeView<'_>,
    work: &'a Work,
) -> Result<Plan<'a>, AllocError>
    requires room { room.items ≡ [] }
    requires normal { in_phase Normal node_view.now.vector.now.group_state.phase ≡ true }
    ensures row { (pending : List Job) → IfOk result (λ plan. IsPlanOf node_view.now plan (Some (Put work.now))
        (λ answer. effect_of node_view.now.nodes node_view.now.id pending (on.Submit work.now) answer (state_at node_view.now))) }
    ensures few { IfOk result (λ plan. plan_sends node_view.now.id plan < node_view.now.nodes) }
{
    let messages = with_room(room, 1)?;
    let owner = owner_in(node_view, work.queue);
    Ok(Plan {
        act: PlannedEffect::Place(owner, work),
        messages,
    })
}

/// A job in hand is finished: the node that keeps it is told, or marks it as done where it is this one.
#[tactic(auto, using(crate::proofs::Sets::kept_from, crate::proofs::Sets::held_within))]
pub fn finish(
    room: Vec<Message>,
    node_view: &NodeView<'_>,
    origin: NodeId,
    job: u64,
    table: &JobTable,
) -> Result<Plan<'static>, AllocError>
    requires room { room.items ≡ [] }
    requires held { holds node_view.now.vector.now.hand.jobs origin job ≡ true }
    ensures row { IfOk result (λ plan. IsPlanOf node_view.now plan
        (if origin == node_view.now.id && is_pending table.now.pending job then Some (Done job) else None)
        (λ answer. effect_of node_view.now.nodes node_view.now.id table.now.pending (on.Finish origin job) answer (state_at node_view.now))) }
    ensures few { IfOk result (λ plan. plan_sends node_view.now.id plan < node_view.now.nodes) }
    ensures memory { Spares (not (origin == node_view.now.id)) result }
{
    let mut messages = room;
    let mut done = None;
    if origin.is(node_view.id) {
        if table.contains(job) {
            done = Some(job);
        }
    } else {
        messages.push(Message::between(node_view.id, origin, Body::Done(job)))?;
    }
    Ok(Plan {
        act: PlannedEffect::Finish(origin, job, done),
        messages,
    })
}
