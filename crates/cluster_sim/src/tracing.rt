// A schedule's run as a trace.
ghost use Rattle.std.specs.Prelude.{◌≡◌, ◌<◌, ◌≤◌, ◌++◌, [], ◌∷◌, ℕ, List, length, drop, replicate, reverse, IfOk, OnOk, Some};
ghost use Rattle.schedule.specs.declared.act.Act.{Act as ActValue};
ghost use Rattle.schedule.specs.Limits.{IsWithinLimits};
ghost use Rattle.cluster_sim.specs.World.{StandsFor};
ghost use Rattle.runs.specs.World.{World as RunWorld};
ghost use Rattle.trace_check.specs.Claims.{Claim};
ghost use Rattle.trace_check.specs.Traces.{claim};
ghost use Rattle.trace_check.specs.Verdicts.{IsRun};
ghost use Rattle.cluster_sim.specs.Bringing.{brought_by};
ghost use Rattle.cluster_sim.specs.Actions.{ActedAs, IsNoted, IsStepped};
ghost use Rattle.cluster_sim.specs.Traced.{HasWorld, IsNext, IsOrder, IsRecordOf, IsSoFar, IsTraceOf};

use crate::actions::action_by;
use crate::bringing::{Brought, brought_by, message_of};
use crate::world::World;
use group_task::NodeId;
use message_list::MessageList;
use node_core::{CoreFault, Refusal};
use runs::{ActRefusal, Outcome};
use schedule::{Act, Schedule};
use std::alloc::{AllocError, Global};
use trace_check::{History, Order, Trace, TraceAction};
use wire_msg::Message;

/// A run that was recorded.
#[derive(Debug, Drop)]
pub struct Recorded {
    pub trace: Trace,
    /// The order in which its turns came.
    pub order: Order,
}

/// The trace of a schedule's run on a simulated cluster.
pub fn trace_of(alloc: Global, schedule: &Schedule) -> Result<Trace, AllocError>
    requires { IsWithinLimits schedule.now.size schedule.now.acts.items }
    // Promise: The trace of a schedule is that of some run of its acts: each act that came to a node is an entry of that node's
    // history, written by what came of it and what it sent.
    // Refuses: doubt_written_the_wrong_way, fault_answered_as_done, entry_at_node_0, sent_left_out, acts_left_out.
    ensures traced { IfOk result (IsTraceOf schedule.now.size.nodes schedule.now.size.slots schedule.now.acts.items) }
    // Some order of its entries is a run, so the verdict on it is one.
    // Promise: Some order of that trace is a run, so `check` answers Run.
    ensures run { IfOk result IsRun }
{
    let whole = record_of(alloc, schedule)?;
    Ok(whole.trace)
}

/// The trace of a schedule's run on a simulated cluster, and the order in which the turns of that run came.
pub fn record_of(alloc: Global, schedule: &Schedule) -> Result<Recorded, AllocError>
    requires { IsWithinLimits schedule.now.size schedule.now.acts.items }
    // Promise: With the trace of a schedule comes the order of the turns of that very run: the node of each, and the number of the
    // message that came to it, as the network counts them.
    // Refuses: turn_of_node_0, message_misnumbered_by_one.
    ensures recorded { IfOk result (λ recorded. IsRecordOf schedule.now.size.nodes schedule.now.size.slots schedule.now.acts.items recorded.trace recorded.order) }
    // Promise: All entries can be taken in that order.
    ensures ordered { IfOk result (λ recorded. IsOrder recorded.trace (reverse recorded.order.nodes.items)) }
{
    let size = schedule.size;
    let mut world = World::open(alloc, size.nodes, size.slots)?;
    let mut histories = begun(alloc, size.nodes)?;
    let mut order = Order {
        nodes: Vec::new(alloc),
        messages: Vec::new(alloc),
    };
    trace_acts(
        alloc,
        &mut world,
        &mut histories,
        &mut order,
        &schedule.acts,
    )?;
    Ok(Recorded {
        trace: Trace::new(histories),
        order,
    })
}

/// A history of no entries for each node.
#[tactic(auto, using(crate::proofs::Tracings::one_more))]
fn begun(alloc: Global, nodes: u8) -> Result<Vec<History>, AllocError>
    ensures { IfOk result (λ histories. histories.items ≡ replicate nodes []) }
{
    let mut histories = Vec::new(alloc);
    for _number in 0..nodes {
        histories.push(History::new(alloc))?;
    }
    Ok(histories)
}

/// Does the acts, and adds what came of each to the history of its node.
fn trace_acts(
    alloc: Global,
    world: &mut World,
    histories: &mut Vec<History>,
    order: &mut Order,
    acts: &[Act],
) -> Result<(), AllocError>
    requires world { HasWorld world.old }
    requires many { length histories.old.items ≡ length world.old.nodes }
    ensures many { OnOk result (length histories.new.items ≡ length histories.old.items) }
    ensures traced { (nodes slots : ℕ) → IsSoFar nodes slots world.old [] histories.old.items order.old → OnOk result (IsSoFar nodes slots world.new acts.now histories.new.items order.new) }
{
    for act in acts {
        trace_act(alloc, world, histories, order, act)?;
    }
    Ok(())
}

/// Does one act, and adds what came of it to the history of the node that it comes to, if any.
fn trace_act(
    alloc: Global,
    world: &mut World,
    histories: &mut Vec<History>,
    order: &mut Order,
    act: &Act,
) -> Result<(), AllocError>
    requires world { HasWorld world.old }
    requires many { length histories.old.items ≡ length world.old.nodes }
    ensures world { OnOk result (HasWorld world.new) }
    ensures many { OnOk result (length histories.new.items ≡ length histories.old.items) }
    ensures nodes { OnOk result (length world.new.nodes ≡ length world.old.nodes) }
    ensures traced { (nodes slots : ℕ) (before : List ActValue) → IsSoFar nodes slots world.old before histories.old.items order.old
        → OnOk result (IsSoFar nodes slots world.new (before ++ act.now ∷ []) histories.new.items order.new) }
{
    let Some((id, brought)) = brought_by(world.count(), world.net(), act) else {
        return step(world, act);
    };
    let place = world.net().sent().len();
    let action = perform(world, act, &brought)?;
    let sent = sent_since(alloc, world.net().sent(), place)?;
    let message = message_of(act, &action);
    note(histories, order, id, &action, message, &sent)
}

/// Does an act that comes to no node.
fn step(world: &mut World, act: &Act) -> Result<(), AllocError>
    ensures slots { world.new.slots ≡ world.old.slots }
    ensures acted { (w : RunWorld) → StandsFor world.old w → OnOk result (IsStepped world.old w act.now world.new) }
{
    match world.step(act) {
        Ok(_) => Ok(()),
        Err(error) => Err(error),
    }
}

/// Does an act that brings this to a node: what was done there, as the node tells. Want of memory is an error, wherever it came.
fn perform(world: &mut World, act: &Act, brought: &Brought) -> Result<TraceAction, AllocError>
    ensures slots { world.new.slots ≡ world.old.slots }
    ensures acted { (w : RunWorld) → StandsFor world.old w → IfOk result (λ action. ActedAs world.old w act.now brought.now action world.new) }
{
    let told = world.step(act)?;
    match told.outcome {
        Outcome::Refused(ActRefusal::Node(Refusal::Core(CoreFault::NoMemory))) => Err(AllocError),
        _ => Ok(action_by(told.event_outcome, brought, told.outcome)),
    }
}

/// The messages from this place on.
#[tactic(auto, using(crate::proofs::Tracings::sent_more, crate::proofs::Tracings::sent_all))]
fn sent_since(
    alloc: Global,
    messages: &MessageList,
    place: usize,
) -> Result<Vec<Message>, AllocError>
    ensures { IfOk result (λ sent. sent.items ≡ drop place messages.now.messages) }
{
    let mut sent = Vec::new(alloc);
    for at in place..messages.len() {
        let Some(message) = messages.get(at) else {
            unreachable!()
        };
        sent.push(message)?;
    }
    Ok(sent)
}

/// Adds an entry to the history of its node, and its turn to the order.
fn note(
    histories: &mut Vec<History>,
    order: &mut Order,
    id: NodeId,
    action: &TraceAction,
    message: Option<u64>,
    sent: &[Message],
) -> Result<(), AllocError>
    requires { id < length histories.old.items }
    ensures noted { OnOk result (IsNoted id (claim action.now sent.now) histories.old.items histories.new.items × IsNext id message order.old order.new) }
    ensures many { OnOk result (length histories.new.items ≡ length histories.old.items) }
{
    histories[usize::from(id.number())].push(action, sent)?;
    order.nodes.push(id)?;
    order.messages.push(message)?;
    Ok(())
}
