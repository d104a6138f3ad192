ghost use Rattle.std.specs.Prelude.{◌≡◌, [], ◌≢◌, ◌<◌, ◌≤◌, nat_lt, true, None, Some, IfOk, IfErr, IfSome};
ghost use Rattle.std.specs.List.{list_all};
ghost use Rattle.node_core.specs.NodeView.{state_at};
ghost use Rattle.node_core.specs.declared.event.Event.TheVariants as on;
ghost use Rattle.node_core.specs.Timers.{timed};
ghost use Rattle.node_core.specs.Messages.{delivered};
ghost use Rattle.node_core.specs.Effects.{effect_of};
ghost use Rattle.node_core.specs.Wants.{wants_of, delivered_wants};
ghost use Rattle.node_core.specs.Refusals.{refusal_of, ids_in};
ghost use Rattle.node_core.specs.Planned.{IsPlanOf, plan_sends};
ghost use Rattle.node_core.specs.Most.{most_of};
ghost use Rattle.node_core.specs.Memory.{takes_memory, delivered_takes, Spares, SparesMemory};

use crate::event::Event;
use crate::fault::CoreFault;
use crate::known::is_known;
use crate::node_view::NodeView;
use crate::phase::Phase;
use crate::plan::Plan;
use crate::timer::Timer;
use crate::{dispatch, messages, operator, timers};
use group_task::NodeId;
use job_model::JobTable;
use std::alloc::{AllocError, Global};
use wire_msg::{Body, Message};

/// What an event makes of a node: the row of the event, where it is not refused.
pub fn plan_event<'a>(
    alloc: Global,
    room: Vec<Message>,
    node_view: &NodeView<'_>,
    event: &'a Event,
    table: &JobTable,
) -> Result<Plan<'a>, CoreFault>
    requires room { room.items ≡ [] }
    ensures plan { IfOk result (λ plan. IsPlanOf node_view.now plan
        (wants_of node_view.now.id table.now.pending event.now (state_at node_view.now))
        (λ answer. effect_of node_view.now.nodes node_view.now.id table.now.pending event.now answer (state_at node_view.now))) }
    ensures few { IfOk result (λ plan. plan_sends node_view.now.id plan ≤ most_of node_view.now.nodes table.now.pending) }
    ensures done { IfOk result (λ _. refusal_of node_view.now.nodes node_view.now.id event.now (state_at node_view.now) ≡ None) }
    ensures refused { IfSome (refusal_of node_view.now.nodes node_view.now.id event.now (state_at node_view.now)) (λ fault. result ≡ Err fault) }
    ensures memory { IfErr result (λ fault. fault ≢ CoreFault.NoMemory
        → refusal_of node_view.now.nodes node_view.now.id event.now (state_at node_view.now) ≡ Some fault) }
    ensures spares { SparesMemory (takes_memory node_view.now.id event.now (state_at node_view.now)) result }
{
    match event {
        Event::Timer(timer) => {
            plan_timer(alloc, room, node_view, *timer, table).map_err(|_| CoreFault::NoMemory)
        }
        Event::Recover => Ok(operator::recovery(room, node_view)),
        Event::Deliver(message) => plan_delivery(alloc, room, node_view, message, table),
        Event::Submit(work) => {
            let group_state = &node_view.vector.group_state;
            match group_state.phase {
                Phase::Down => return Err(CoreFault::Down),
                Phase::Normal => {}
                Phase::Election | Phase::Reorganization => return Err(CoreFault::NotNormal),
            }
            if !group_state.coordinator.is(node_view.id) {
                return Err(CoreFault::NotCoordinator(group_state.coordinator));
            }
            operator::submit(room, node_view, work).map_err(|_| CoreFault::NoMemory)
        }
        Event::Finish(origin, job) => {
            if matches!(node_view.vector.group_state.phase, Phase::Down) {
                return Err(CoreFault::Down);
            }
            if !node_view.vector.hand.contains(*origin, *job) {
                return Err(CoreFault::UnknownJob);
            }
            operator::finish(room, node_view, *origin, *job, table).map_err(|_| CoreFault::NoMemory)
        }
    }
}

/// What a timer makes of a node.
fn plan_timer(
    alloc: Global,
    room: Vec<Message>,
    node_view: &NodeView<'_>,
    timer: Timer,
    table: &JobTable,
) -> Result<Plan<'static>, AllocError>
    requires room { room.items ≡ [] }
    ensures row { IfOk result (λ plan. IsPlanOf node_view.now plan
        (wants_of node_view.now.id table.now.pending (on.Timer timer) (state_at node_view.now))
        (λ answer. timed node_view.now.nodes node_view.now.id table.now.pending timer answer (state_at node_view.now))) }
    ensures few { IfOk result (λ plan. plan_sends node_view.now.id plan ≤ most_of node_view.now.nodes table.now.pending) }
    ensures memory { Spares (takes_memory node_view.now.id (on.Timer timer) (state_at node_view.now)) result }
{
    match timer {
        Timer::Check => timers::check_timer(room, node_view),
        Timer::Merge => timers::merge_timer(alloc, room, node_view),
        Timer::Accept => timers::accept_timer(room, node_view),
        Timer::Ready => Ok(timers::ready_timer(room, node_view)),
        Timer::Coord => timers::coord_timer(alloc, room, node_view),
        Timer::Dispatch => dispatch::dispatch_timer(alloc, room, node_view, table),
    }
}

/// What a message makes of a node: its row, where it is for this node and names none outside the cluster.
pub fn plan_delivery(
    alloc: Global,
    room: Vec<Message>,
    node_view: &NodeView<'_>,
    message: &Message,
    table: &JobTable,
) -> Result<Plan<'static>, CoreFault>
    requires room { room.items ≡ [] }
    ensures plan { IfOk result (λ plan. IsPlanOf node_view.now plan
        (wants_of node_view.now.id table.now.pending (on.Deliver message.now) (state_at node_view.now))
        (λ answer. effect_of node_view.now.nodes node_view.now.id table.now.pending (on.Deliver message.now) answer (state_at node_view.now))) }
    ensures few { IfOk result (λ plan. plan_sends node_view.now.id plan < node_view.now.nodes) }
    ensures done { IfOk result (λ _. refusal_of node_view.now.nodes node_view.now.id (on.Deliver message.now) (state_at node_view.now) ≡ None) }
    ensures refused { IfSome (refusal_of node_view.now.nodes node_view.now.id (on.Deliver message.now) (state_at node_view.now)) (λ fault. result ≡ Err fault) }
    ensures memory { IfErr result (λ fault. fault ≢ CoreFault.NoMemory
        → refusal_of node_view.now.nodes node_view.now.id (on.Deliver message.now) (state_at node_view.now) ≡ Some fault) }
    ensures spares { SparesMemory (takes_memory node_view.now.id (on.Deliver message.now) (state_at node_view.now)) result }
{
    if !is_known(node_view, message) {
        return Err(CoreFault::Stranger);
    }
    let (from, body) = (message.sender(), message.body());
    let planned = plan_message(alloc, room, node_view, from, body, table);
    planned.map_err(|_| CoreFault::NoMemory)
}

/// What a message makes of a node, by what it says.
#[tactic(auto, using(crate::proofs::Sets::tested_within))]
fn plan_message(
    alloc: Global,
    room: Vec<Message>,
    node_view: &NodeView<'_>,
    from: NodeId,
    body: &Body,
    table: &JobTable,
) -> Result<Plan<'static>, AllocError>
    requires room { room.items ≡ [] }
    requires other { node_view.now.id ≢ from }
    requires known { from < node_view.now.nodes }
    requires names { list_all (λ id. nat_lt id node_view.now.nodes) (ids_in body.now) ≡ true }
    ensures row { IfOk result (λ plan. IsPlanOf node_view.now plan
        (delivered_wants from table.now.pending body.now (state_at node_view.now))
        (λ answer. delivered node_view.now.id from body.now answer (state_at node_view.now))) }
    ensures few { IfOk result (λ plan. plan_sends node_view.now.id plan < node_view.now.nodes) }
    ensures memory { Spares (delivered_takes node_view.now.id from body.now (state_at node_view.now)) result }
{
    match body {
        Body::AreYouCoordinator => messages::asked_coordinator(room, node_view, from),
        Body::Coordinator(agreed) => Ok(messages::answered_coordinator(
            room, node_view, from, *agreed,
        )),
        Body::Invitation(group) => messages::invited(room, node_view, *group),
        Body::Accept(group) => Ok(messages::accepted(room, node_view, from, *group)),
        Body::Ready(task) => messages::told_ready(room, node_view, from, *task),
        Body::ReadyAck(group) => Ok(messages::acknowledged(room, node_view, from, *group)),
        Body::AreYouThere(group) => messages::asked_there(room, node_view, from, *group),
        Body::Here(group, agreed) => {
            messages::answered_there(alloc, room, node_view, from, *group, *agreed)
        }
        Body::Work {
            group,
            id: job,
            work,
        } => messages::got_work(alloc, room, node_view, from, *group, *job, work),
        Body::Done(job) => Ok(messages::told_done(room, node_view, *job, table)),
    }
}
