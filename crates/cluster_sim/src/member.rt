// One node of a cluster, and the network that carries its messages.
ghost use Rattle.std.specs.Prelude.{◌≡◌, ◌≤◌, ◌<◌, ◌^◌, length, IfOk, IsSome, OnErr, ℕ, Some, None};
ghost use Rattle.job_model.specs.Durable.{Durable};
ghost use Rattle.sector_disk.specs.Memory.{state_of};
ghost use Rattle.sim_net.specs.Network.{after_all_sent};
ghost use Rattle.durable_node.specs.Arming.{armed_disk};
ghost use Rattle.durable_node.specs.Node.{Stands};
ghost use Rattle.histories.specs.NodeState.{NodeState};
ghost use Rattle.histories.specs.HistoryEvent.{IsOf};
ghost use Rattle.histories.specs.EventOutcomes.{what_of};
ghost use Rattle.histories.specs.declared.history_event.HistoryEvent.TheVariants.{NoOp, Crashed};
ghost use Rattle.histories.specs.declared.history_event.NoOpKind.TheVariants.{Nothing};
ghost use Rattle.cluster_sim.specs.Answering.{IsAnswered};
ghost use Rattle.cluster_sim.specs.World.{AreaRises, IsOfSize, IsSame, IsCounted, IsUntouchedNode, Comes, MayHaveForgotten, armed_by, armed_with, as_before, bare, disarmed, is_mounting};
ghost use Rattle.cluster_sim.specs.Operated.{IsCompacted, IsLeftWith, OperatedAs, OperatesNode, operated_at};
ghost use Rattle.schedule.specs.declared.act.Act.{Act as AnyAct};
ghost use Rattle.schedule.specs.declared.act.Act.TheVariants as acts;
ghost use Rattle.runs.specs.Acts.{IsCompaction};
ghost use Rattle.cluster_sim.specs.Outcomes.{came_outcome, compaction_outcome};

use crate::act_report::ActReport;
use durable_node::{DurableNode, NodeFault, StepReport};
use histories::EventOutcome;
use node_core::{Event, Refusal};
use runs::{ActRefusal, Outcome};
use schedule::Act;
use sector_disk::{CrashFill, MemDisk};
use sim_net::Net;
use std::alloc::AllocError;
use wire_msg::Message;

/// An event at a node. Room for its messages is taken first, so that none is kept back once the event is handled.
/// Where the event wrote on the disk, it forgets the moments before. The messages are written into `room`, which keeps their list for the
/// next event: that is one list for all nodes, so that it stays near.
///
/// Refused where there is no memory: the node and the network stay as they were.
pub(crate) fn handle(
    node: &mut DurableNode<MemDisk>,
    net: &mut Net,
    room: &mut Option<Vec<Message>>,
    event: &Event,
) -> Result<ActReport, AllocError>
    ensures same { IsSame node.old node.new }
    ensures came { (slots : ℕ) (s : NodeState) (a : AnyAct) → slots ≤ 4096 → IsOfSize slots node.old.disk → Stands state_of node.old s
        → IfOk result (λ action. Comes slots node.old.id node.old.nodes a (IsOf event.now) s action node.new net.old.network net.new.network) }
    ensures memory { OnErr result ((s : NodeState) → Stands state_of node.old s → IsUntouchedNode node.old node.new) }
    ensures unsent { OnErr result (net.new.network ≡ net.old.network) }
    ensures counted { IfOk result (λ action. IsCounted as_before node.old.disk node.new.disk action.outcome) }
    ensures answers { (s : NodeState) → Stands state_of node.old s → IfOk result (λ action. IsAnswered node.old event.now action.outcome) }
    ensures areas { (s : NodeState) → Stands state_of node.old s → IfOk result (λ action. AreaRises node.old.disk node.new.disk action.outcome) }
{
    lend_room(node, room);
    node.is_fallen();
    node.shows_its_disk();
    ids_fit(node);
    if net.reserve(node.most()).is_err() {
        return Err(AllocError);
    }
    let first = net.sent().len() as u64;
    let came = match node.step(event) {
        Ok(came) => came,
        Err(_) => return Err(AllocError),
    };
    forget_written(node, &came);
    send_all(net, &came.sent);
    let report = ActReport {
        outcome: outcome_of(&came, first),
        event_outcome: Some(came.event_outcome),
        tried: came.tried,
        acked: came.answer,
        mounted: is_mounting(came.event_outcome),
    };
    let StepReport { sent, .. } = came;
    *room = Some(sent);
    Ok(report)
}

/// Lends a node the memory of a list, if there is one.
fn lend_room(node: &mut DurableNode<MemDisk>, room: &mut Option<Vec<Message>>)
    ensures { node.new ≡ node.old }
{
    if let Some(list) = room.take() {
        node.reuse(list);
    }
}

/// The id of the next job is a number of 64 bits.
fn ids_fit(node: &DurableNode<MemDisk>)
    ensures { (d : Durable) → node.now.kept ≡ Some d → d.next < 2 ^ 64 }
{
    if let Some((_, table)) = node.durable() {
        let _ = table.next();
    }
}

/// Lets a node's disk forget the moments before, where the event may have written on it: no other event adds to them.
fn forget_written(node: &mut DurableNode<MemDisk>, came: &StepReport)
    ensures { MayHaveForgotten node.old node.new }
{
    if came.tried.is_some() || matches!(came.event_outcome, EventOutcome::MountFailed) {
        node.forget();
    }
}

/// Whether the disk was mounted.
fn is_mounting(event_outcome: EventOutcome) -> bool
    ensures { (event : Event) → result ≡ is_mounting (what_of event event_outcome) }
{
    matches!(
        event_outcome,
        EventOutcome::Recovered(_) | EventOutcome::RaiseFailed(_) | EventOutcome::RaiseRefused(_)
    )
}

/// The outcome of what came of an event, where the first message that it sends has this number.
fn outcome_of(came: &StepReport, first: u64) -> Outcome
    ensures { result ≡ came_outcome came.now.event_outcome first came.now }
{
    match came.event_outcome {
        EventOutcome::Done | EventOutcome::Recovered(_) => Outcome::Done {
            answer: came.answer,
            first,
            many: came.sent.len() as u64,
        },
        EventOutcome::Refused(why) => Outcome::Refused(ActRefusal::Node(why)),
        EventOutcome::RaiseRefused(_) => Outcome::Refused(ActRefusal::Node(Refusal::Exhausted)),
        EventOutcome::Faulted | EventOutcome::MountFailed | EventOutcome::RaiseFailed(_) =>
            Outcome::Faulted,
    }
}

/// Sends messages in the room that is there.
fn send_all(net: &mut Net, messages: &[Message])
    requires { length messages.now ≤ net.old.room }
    ensures { net.new.network ≡ after_all_sent net.old.network messages.now }
{
    for message in messages {
        net.send_reserved(message);
    }
}

/// An act of the operator at a node: it arms the disk, crashes the node, or compacts its journal. Where the device fails in a
/// compaction, the node is Down.
pub(crate) fn operate(node: &mut DurableNode<MemDisk>, net: &Net, act: &Act) -> Outcome
    requires { IsSome (operated_at act.now) }
    ensures same { IsSame node.old node.new }
    ensures came { (slots : ℕ) (s : NodeState) → Stands state_of node.old s
        → Comes slots node.old.id node.old.nodes act.now (OperatedAs act.now s) s (bare result) node.new net.now.network net.now.network }
    ensures counted { IsCounted (armed_by act.now) node.old.disk node.new.disk result }
    ensures areas { AreaRises node.old.disk node.new.disk result }
    ensures disk { OperatesNode act.now node.old node.new result }
{
    match act {
        Act::Arm(_, calls) => arm(node, net, *calls),
        Act::Crash(_, fill) => crash(node, net, fill),
        Act::Compact(_) => compact(node, net),
        _ => unreachable!(),
    }
}

/// Arms a node's disk.
fn arm(node: &mut DurableNode<MemDisk>, net: &Net, calls: u64) -> Outcome
    ensures same { IsSame node.old node.new }
    ensures came { (slots n : ℕ) (s : NodeState) → Stands state_of node.old s
        → Comes slots node.old.id node.old.nodes (acts.Arm n calls) (λ what. what ≡ NoOp Nothing) s (bare result) node.new net.now.network net.now.network }
    ensures counted { IsCounted (armed_with calls) node.old.disk node.new.disk result }
    ensures areas { AreaRises node.old.disk node.new.disk result }
    ensures armed { node.new.disk ≡ armed_disk calls node.old.disk }
{
    node.arm(calls);
    nothing_sent(net)
}

/// Crashes a node.
fn crash(node: &mut DurableNode<MemDisk>, net: &Net, fill: &CrashFill) -> Outcome
    ensures same { IsSame node.old node.new }
    ensures came { (slots n : ℕ) (s : NodeState) → Stands state_of node.old s
        → Comes slots node.old.id node.old.nodes (acts.Crash n fill.now) (λ what. what ≡ Crashed) s (bare result) node.new net.now.network net.now.network }
    ensures counted { IsCounted disarmed node.old.disk node.new.disk result }
    ensures areas { AreaRises node.old.disk node.new.disk result }
    ensures left { IsLeftWith fill.now node.old.disk node.new.disk }
{
    node.crash(fill.as_slice());
    nothing_sent(net)
}

/// Compacts a node's journal.
fn compact(node: &mut DurableNode<MemDisk>, net: &Net) -> Outcome
    ensures same { IsSame node.old node.new }
    ensures came { (slots n : ℕ) (s : NodeState) → Stands state_of node.old s
        → Comes slots node.old.id node.old.nodes (acts.Compact n) (IsCompaction s) s (bare result) node.new net.now.network net.now.network }
    ensures counted { IsCounted as_before node.old.disk node.new.disk result }
    ensures areas { AreaRises node.old.disk node.new.disk result }
    ensures compacted { IsCompacted node.old node.new result }
{
    node.shows_its_disk();
    let answer = node.compact();
    compaction_outcome(net, answer)
}

/// The outcome of a compaction.
fn compaction_outcome(net: &Net, answer: Result<(), NodeFault>) -> Outcome
    ensures { result ≡ compaction_outcome (length net.now.network.sent) answer }
{
    match answer {
        Ok(()) => nothing_sent(net),
        Err(NodeFault::Device) => Outcome::Faulted,
        Err(NodeFault::Core(fault)) => Outcome::Refused(ActRefusal::Node(Refusal::Core(fault))),
        Err(_) => Outcome::Refused(ActRefusal::Node(Refusal::AreaExhausted)),
    }
}

/// The outcome of an act that is done and sends nothing.
pub(crate) fn nothing_sent(net: &Net) -> Outcome
    ensures { result ≡ Outcome.Done None (length net.now.network.sent) 0 }
{
    Outcome::Done {
        answer: None,
        first: net.sent().len() as u64,
        many: 0,
    }
}
