ghost use Rattle.std.specs.Prelude.{ℕ, ◌≡◌, ◌≢◌, ◌<◌, ◌&&◌, [], not, if◌then◌else◌, false, Some, None, IfOk, IsTrue};
ghost use Rattle.group_task.specs.Ids.{has};
ghost use Rattle.group_task.specs.Others.{AreOthers};
ghost use Rattle.job_model.specs.Fold.{is_pending};
ghost use Rattle.node_core.specs.NodeView.{state_at};
ghost use Rattle.node_core.specs.State.{is_down};
ghost use Rattle.wire_msg.specs.declared.body.Body.TheVariants as says;
ghost use Rattle.job_model.specs.declared.node_command.NodeCommand.TheVariants.{Raise, Done};
ghost use Rattle.node_core.specs.Messages.{delivered, was_probed, takes_invitation, passed_on, is_told};
ghost use Rattle.node_core.specs.Planned.{IsPlanOf, plan_sends, gain_of};
ghost use Rattle.node_core.specs.Memory.{delivered_takes, Spares};
ghost use Rattle.node_core.specs.Within.{AreWithin};

use crate::group_state::GroupState;
use crate::guards::{awaits_ready, leads};
use crate::in_hand::InHand;
use crate::node_view::NodeView;
use crate::operator::recovery;
use crate::others::{with_other, without_other};
use crate::phase::Phase;
use crate::plan::{
    Plan, PlannedEffect, changed, copied, marked, nothing, quietly, reply, with_room, write_to_each,
};
use crate::state_update::StateUpdate;
use group_task::{GroupNo, Members, NodeId, Task, owner};
use job_model::{JobTable, Work};
use std::alloc::{AllocError, Global};
use wire_msg::{Body, Message};

/// AreYouCoordinator: every node that is up answers.
#[tactic(auto, unfolding(crate::specs::Messages::delivered))]
pub fn asked_coordinator(
    room: Vec<Message>,
    node_view: &NodeView<'_>,
    from: NodeId,
) -> Result<Plan<'static>, AllocError>
    requires room { room.items ≡ [] }
    requires other { node_view.now.id ≢ from }
    requires known { from < node_view.now.nodes }
    ensures row { IfOk result (λ plan. IsPlanOf node_view.now plan None
        (λ answer. delivered node_view.now.id from says.AreYouCoordinator answer (state_at node_view.now))) }
    ensures few { IfOk result (λ plan. plan_sends node_view.now.id plan < node_view.now.nodes) }
    ensures memory { Spares (delivered_takes node_view.now.id from (says.AreYouCoordinator) (state_at node_view.now)) result }
{
    if matches!(node_view.vector.group_state.phase, Phase::Down) {
        return Ok(nothing(room));
    }
    let messages = with_room(room, 1)?;
    let answer = Message::between(node_view.id, from, Body::Coordinator(leads(node_view)));
    Ok(reply(PlannedEffect::Stay(None), messages, answer))
}

/// Coordinator: a coordinator that checks notes the others.
#[tactic(auto, unfolding(crate::specs::Messages::delivered))]
pub fn answered_coordinator(
    room: Vec<Message>,
    node_view: &NodeView<'_>,
    from: NodeId,
    agreed: bool,
) -> Plan<'static>
    requires room { room.items ≡ [] }
    requires other { node_view.now.id ≢ from }
    requires known { from < node_view.now.nodes }
    ensures row { IsPlanOf node_view.now result None (λ answer. delivered node_view.now.id from (says.Coordinator agreed) answer (state_at node_view.now)) }
    ensures none { plan_sends node_view.now.id result ≡ 0 }
    ensures gain { gain_of result.act ≡ 0 }
{
    let group_state = &node_view.vector.group_state;
    if agreed && leads(node_view) && group_state.checking {
        let found = with_other(node_view, group_state.found, from);
        return marked(room, StateUpdate::Found(found));
    }
    nothing(room)
}

/// Invitation: a Normal node stops its work and joins, and a coordinator passes the invitation on to its members.
#[tactic(auto, using(crate::proofs::Sets::other_sets), unfolding(crate::specs::Messages::delivered))]
pub fn invited(
    room: Vec<Message>,
    node_view: &NodeView<'_>,
    group: GroupNo,
) -> Result<Plan<'static>, AllocError>
    requires room { room.items ≡ [] }
    requires known { group.creator < node_view.now.nodes }
    ensures row { (from : ℕ) → IfOk result (λ plan. IsPlanOf node_view.now plan None
        (λ answer. delivered node_view.now.id from (says.Invitation group) answer (state_at node_view.now))) }
    ensures few { IfOk result (λ plan. plan_sends node_view.now.id plan < node_view.now.nodes) }
    ensures memory { Spares (takes_invitation node_view.now.id group (state_at node_view.now)) result }
{
    if !takes_invitation(node_view, group) {
        return Ok(nothing(room));
    }
    let creator = group.creator();
    let members = passed_on(node_view, group);
    let with_creator = with_other(node_view, members, creator);
    let mut messages = with_room(room, with_creator.len())?;
    write_to_each(
        &mut messages,
        node_view.id,
        members,
        &Body::Invitation(group),
    );
    messages.push_reserved(Message::between(node_view.id, creator, Body::Accept(group)));
    Ok(Plan {
        act: PlannedEffect::Mark(StateUpdate::Joined(group)),
        messages,
    })
}

/// Whether the node joins the group: it is another node's, and not the present one.
fn takes_invitation(node_view: &NodeView<'_>, group: GroupNo) -> bool
    ensures value { result ≡ takes_invitation node_view.now.id group (state_at node_view.now) }
    ensures other { IsTrue result → group.creator ≢ node_view.now.id }
{
    let group_state = &node_view.vector.group_state;
    matches!(group_state.phase, Phase::Normal)
        && !group.creator().is(node_view.id)
        && !group.is(group_state.group)
}

/// The members to which a coordinator passes an invitation on: the creator knows of its own group.
#[tactic(auto, using(crate::proofs::Sets::other_sets, group_task::proofs::PublicLaws::without_has_same))]
fn passed_on(node_view: &NodeView<'_>, group: GroupNo) -> Members
    requires other { group.creator ≢ node_view.now.id }
    ensures value { result ≡ passed_on node_view.now.id group (state_at node_view.now) }
    ensures others { AreOthers node_view.now.nodes node_view.now.id result }
    ensures absent { has result group.creator ≡ false }
{
    let group_state = &node_view.vector.group_state;
    if group_state.coordinator.is(node_view.id) {
        without_other(node_view, group_state.up, group.creator())
    } else {
        Members::new()
    }
}

/// Accept: the coordinator of a new group notes who joined.
#[tactic(auto, unfolding(crate::specs::Messages::delivered))]
pub fn accepted(
    room: Vec<Message>,
    node_view: &NodeView<'_>,
    from: NodeId,
    group: GroupNo,
) -> Plan<'static>
    requires room { room.items ≡ [] }
    requires other { node_view.now.id ≢ from }
    requires known { from < node_view.now.nodes }
    ensures row { IsPlanOf node_view.now result None (λ answer. delivered node_view.now.id from (says.Accept group) answer (state_at node_view.now)) }
    ensures none { plan_sends node_view.now.id result ≡ 0 }
    ensures gain { gain_of result.act ≡ 0 }
{
    let group_state = &node_view.vector.group_state;
    if matches!(group_state.phase, Phase::Election)
        && group_state.coordinator.is(node_view.id)
        && group.is(group_state.group)
    {
        let up = with_other(node_view, group_state.up, from);
        return marked(room, StateUpdate::Accepted(up));
    }
    nothing(room)
}

/// Ready: a member takes the task from its coordinator, and says so each time that it is told.
#[tactic(auto, unfolding(crate::specs::Messages::delivered))]
pub fn told_ready(
    room: Vec<Message>,
    node_view: &NodeView<'_>,
    from: NodeId,
    task: Task,
) -> Result<Plan<'static>, AllocError>
    requires room { room.items ≡ [] }
    requires other { node_view.now.id ≢ from }
    requires known { from < node_view.now.nodes }
    requires members { AreWithin node_view.now.nodes task.members }
    ensures row { IfOk result (λ plan. IsPlanOf node_view.now plan None
        (λ answer. delivered node_view.now.id from (says.Ready task) answer (state_at node_view.now))) }
    ensures few { IfOk result (λ plan. plan_sends node_view.now.id plan < node_view.now.nodes) }
    ensures memory { Spares (delivered_takes node_view.now.id from (says.Ready task) (state_at node_view.now)) result }
{
    let group_state = &node_view.vector.group_state;
    if !is_told(node_view, from, task) {
        return Ok(nothing(room));
    }
    let act = match group_state.phase {
        Phase::Reorganization => PlannedEffect::Mark(StateUpdate::Told(task)),
        Phase::Normal => PlannedEffect::Stay(None),
        _ => return Ok(nothing(room)),
    };
    let messages = with_room(room, 1)?;
    let answer = Message::between(
        node_view.id,
        from,
        Body::ReadyAck(copied(group_state.group)),
    );
    Ok(reply(act, messages, answer))
}

/// Whether the task is that of the node's group, told by its coordinator, and makes it a member.
fn is_told(node_view: &NodeView<'_>, from: NodeId, task: Task) -> bool
    ensures { result ≡ is_told node_view.now.id from task (state_at node_view.now) }
{
    let group_state = &node_view.vector.group_state;
    group_state.coordinator.is(from)
        && !from.is(node_view.id)
        && task.group().is(group_state.group)
        && task.members().contains(node_view.id)
}

/// ReadyAck: the coordinator is Normal once all members are ready.
#[tactic(auto, unfolding(crate::specs::Messages::delivered))]
pub fn acknowledged(
    room: Vec<Message>,
    node_view: &NodeView<'_>,
    from: NodeId,
    group: GroupNo,
) -> Plan<'static>
    requires room { room.items ≡ [] }
    ensures row { IsPlanOf node_view.now result None (λ answer. delivered node_view.now.id from (says.ReadyAck group) answer (state_at node_view.now)) }
    ensures none { plan_sends node_view.now.id result ≡ 0 }
    ensures gain { gain_of result.act ≡ 0 }
{
    let group_state = &node_view.vector.group_state;
    if !(awaits_ready(node_view) && group.is(group_state.group)) {
        return nothing(room);
    }
    let unready = without_other(node_view, group_state.unready, from);
    marked(room, StateUpdate::Awaited(unready))
}

/// AreYouThere: a node that is up says whether it coordinates that group, with the asking node among its members.
#[tactic(auto, unfolding(crate::specs::Messages::delivered))]
pub fn asked_there(
    room: Vec<Message>,
    node_view: &NodeView<'_>,
    from: NodeId,
    group: GroupNo,
) -> Result<Plan<'static>, AllocError>
    requires room { room.items ≡ [] }
    requires other { node_view.now.id ≢ from }
    requires known { from < node_view.now.nodes }
    ensures row { IfOk result (λ plan. IsPlanOf node_view.now plan None
        (λ answer. delivered node_view.now.id from (says.AreYouThere group) answer (state_at node_view.now))) }
    ensures few { IfOk result (λ plan. plan_sends node_view.now.id plan < node_view.now.nodes) }
    ensures memory { Spares (delivered_takes node_view.now.id from (says.AreYouThere group) (state_at node_view.now)) result }
{
    let group_state = &node_view.vector.group_state;
    if matches!(group_state.phase, Phase::Down) {
        return Ok(nothing(room));
    }
    let here = group.is(group_state.group)
        && group_state.coordinator.is(node_view.id)
        && group_state.up.contains(from);
    let messages = with_room(room, 1)?;
    let answer = Message::between(node_view.id, from, Body::Here(group, here));
    Ok(reply(PlannedEffect::Stay(None), messages, answer))
}

/// Here: a member whose coordinator is there waits on, and one whose coordinator is not recovers.
#[tactic(auto, unfolding(crate::specs::Messages::delivered))]
pub fn answered_there(
    alloc: Global,
    room: Vec<Message>,
    node_view: &NodeView<'_>,
    from: NodeId,
    group: GroupNo,
    agreed: bool,
) -> Result<Plan<'static>, AllocError>
    requires room { room.items ≡ [] }
    ensures row { IfOk result (λ plan. IsPlanOf node_view.now plan
        (if was_probed from group (state_at node_view.now) && not agreed then Some Raise else None)
        (λ answer. delivered node_view.now.id from (says.Here group agreed) answer (state_at node_view.now))) }
    ensures none { IfOk result (λ plan. plan_sends node_view.now.id plan ≡ 0) }
    ensures memory { Spares (delivered_takes node_view.now.id from (says.Here group agreed) (state_at node_view.now)) result }
{
    let group_state = &node_view.vector.group_state;
    if !(group_state.probing && group_state.coordinator.is(from) && group.is(group_state.group)) {
        return Ok(nothing(room));
    }
    if agreed {
        let next = GroupState {
            probing: false,
            ..*group_state
        };
        let change = changed(alloc, next, Vec::new(alloc))?;
        return Ok(quietly(room, change));
    }
    Ok(recovery(room, node_view))
}

/// Work: a member takes a job of its group in hand, if the job's queue is its own.
#[tactic(auto, using(crate::proofs::Sets::more_from, crate::proofs::Sets::one_from), unfolding(crate::specs::Messages::delivered))]
pub fn got_work(
    alloc: Global,
    room: Vec<Message>,
    node_view: &NodeView<'_>,
    from: NodeId,
    group: GroupNo,
    job: u64,
    work: &Work,
) -> Result<Plan<'static>, AllocError>
    requires room { room.items ≡ [] }
    requires known { from < node_view.now.nodes }
    ensures row { IfOk result (λ plan. IsPlanOf node_view.now plan None
        (λ answer. delivered node_view.now.id from (says.Work group job work.now) answer (state_at node_view.now))) }
    ensures none { IfOk result (λ plan. plan_sends node_view.now.id plan ≡ 0) }
    ensures memory { Spares (delivered_takes node_view.now.id from (says.Work group job work.now) (state_at node_view.now)) result }
{
    let group_state = &node_view.vector.group_state;
    if !matches!(group_state.phase, Phase::Normal) || !group.is(group_state.group) {
        return Ok(nothing(room));
    }
    let Some(task) = group_state.task else {
        return Ok(nothing(room));
    };
    if !task.members().contains(from)
        || !owner(&task, work.queue).is(node_view.id)
        || node_view.vector.hand.contains(from, job)
    {
        return Ok(nothing(room));
    }
    let mut gains = Vec::new(alloc);
    gains.push(InHand {
        origin: from,
        id: job,
        work: *work,
    })?;
    let change = changed(alloc, *group_state, gains)?;
    Ok(quietly(room, change))
}

/// Done: the node that keeps a job marks it as done. The vector stays.
#[tactic(auto, unfolding(crate::specs::Messages::delivered))]
pub fn told_done(
    room: Vec<Message>,
    node_view: &NodeView<'_>,
    job: u64,
    table: &JobTable,
) -> Plan<'static>
    requires room { room.items ≡ [] }
    ensures row { (from : ℕ) → IsPlanOf node_view.now result
        (if not (is_down node_view.now.vector.now.group_state.phase) && is_pending table.now.pending job then Some (Done job) else None)
        (λ answer. delivered node_view.now.id from (says.Done job) answer (state_at node_view.now)) }
    ensures none { plan_sends node_view.now.id result ≡ 0 }
    ensures gain { gain_of result.act ≡ 0 }
{
    if !matches!(node_view.vector.group_state.phase, Phase::Down) && table.contains(job) {
        return Plan {
            act: PlannedEffect::Stay(Some(job)),
            messages: room,
        };
    }
    nothing(room)
}
