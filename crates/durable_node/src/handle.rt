ghost use Rattle.std.specs.Prelude.{◌≡◌, IsOk, IfOk, IsErrOf, Some, []};
ghost use Rattle.node_core.specs.Core.{IsPlanned};
ghost use Rattle.node_core.specs.Most.{most_of};
ghost use Rattle.node_core.specs.Planned.{lent_by};
ghost use Rattle.node_core.specs.Refusals.{refusal_of};
ghost use Rattle.node_core.specs.Wants.{wants_of};
ghost use Rattle.node_store.specs.Store.{durable_of};
ghost use Rattle.durable_node.specs.Area.{LeavesArea};
ghost use Rattle.durable_node.specs.Carrying.{KeepsSound, Writes};
ghost use Rattle.durable_node.specs.Faults.{answered};
ghost use Rattle.durable_node.specs.Node.{IsCoreOf, IsOver, area_of, shown_doubt};
ghost use Rattle.durable_node.specs.Refusing.{AnswersEvent, disk_refusal};
ghost use Rattle.durable_node.specs.Stepping.{ComesToNothing, IsServed, Reports};

use crate::carry::carry;
use crate::fault::NodeFault;
use crate::setting::NodeSetting;
use crate::step_report::{StepReport, attempt_in};
use histories::{EventOutcome, Refusal};
use job_model::JobTable;
use node_core::{CoreFault, Event, NodeCore, Plan, Wanted, WantedRef};
use node_store::NodeStore;
use sector_disk::SectorDisk;
use wire_msg::Message;

/// Handles an event at a node that is up: growths first, then the device, and the change last. After `Device` the core is
/// down. It is part of its caller's code, as [`planned`] is: so neither plan nor report is copied from one to the next.
#[inline(always)]
#[tactic(auto, using(histories::proofs::PublicLaws::wanted_pending))]
pub(crate) fn handle<D: SectorDisk>(
    setting: NodeSetting,
    core: &mut NodeCore,
    store: &mut NodeStore<D>,
    doubt: &mut Option<(Wanted, u64)>,
    event: &Event,
    room: Vec<Message>,
) -> Result<StepReport, NodeFault>
    requires room { room.items ≡ [] }
    requires over { IsOver D.state setting.id setting.nodes core.old store.old }
    ensures core { IsCoreOf setting.id setting.nodes core.new }
    // What came of the event, and which command it wanted, if it was tried.
    ensures what { IfOk result (λ came. IsServed setting.nodes setting.id core.old core.new store.old store.new doubt.old doubt.new event.now came came.event_outcome) }
    ensures report { Reports (wants_of setting.id (durable_of store.old).pending event.now core.old.state) (most_of setting.nodes (durable_of store.old).pending) result }
    ensures stuck { ComesToNothing setting.id event.now core.old core.new store.old store.new doubt.old doubt.new result }
    ensures answers { AnswersEvent (refusal_of setting.nodes setting.id event.now core.old.state)
        (disk_refusal (durable_of store.old) (area_of store.old) (wants_of setting.id (durable_of store.old).pending event.now core.old.state)) (answered result) }
    ensures area { LeavesArea (durable_of store.old) (area_of store.old) (wants_of setting.id (durable_of store.old).pending event.now core.old.state) (answered result) (Some (area_of store.new)) }
    ensures store { KeepsSound D.state store.old store.new (IsErrOf (answered result) NodeFault.Device) }
    ensures disk { Writes D.state store.old store.new (wants_of setting.id (durable_of store.old).pending event.now core.old.state) (IsOk (answered result)) }
{
    let plan = match planned(room, core, event, store.table()) {
        Ok(plan) => plan,
        Err(CoreFault::NoMemory) => return Err(NodeFault::Core(CoreFault::NoMemory)),
        Err(fault) => {
            let event_outcome = EventOutcome::Refused(Refusal::Core(fault));
            return Ok(StepReport::silent(setting.alloc, event_outcome, None));
        }
    };
    let wants = plan.wanted();
    let tried = attempt_in(&wants);
    let answer = match carry(store, &wants) {
        Ok(answer) => answer,
        Err(event_outcome) => match event_outcome {
            EventOutcome::Faulted => {
                put_in_doubt(store, &wants, doubt);
                *core = NodeCore::down(setting.alloc, setting.id, setting.nodes);
                return Ok(StepReport::silent(setting.alloc, event_outcome, tried));
            }
            _ => return Ok(StepReport::silent(setting.alloc, event_outcome, None)),
        },
    };
    let sent = core.commit_step(plan, answer.unwrap_or(0));
    Ok(StepReport {
        event_outcome: EventOutcome::Done,
        tried,
        answer,
        sent,
    })
}

/// What an event will make of the core. Its messages are written into `room`, an empty list.
#[inline(always)]
fn planned<'a>(
    room: Vec<Message>,
    core: &mut NodeCore,
    event: &'a Event,
    table: &JobTable,
) -> Result<Plan<'a>, CoreFault>
    requires { room.items ≡ [] }
    ensures { IsPlanned core.old core.new table.now.pending event.now result }
{
    match event {
        Event::Deliver(message) => planned_delivery(room, core, message, table),
        Event::Recover => core.plan_recovery(),
        _ => core.plan_in(event, table, room),
    }
}

/// What a delivery will make of the core. It stands apart, since each call of a function pays for the size of its locals.
#[inline(never)]
fn planned_delivery(
    room: Vec<Message>,
    core: &mut NodeCore,
    message: &Message,
    table: &JobTable,
) -> Result<Plan<'static>, CoreFault>
    requires { room.items ≡ [] }
    ensures { IsPlanned core.old core.new table.now.pending (Event.Deliver message.now) result }
{
    core.plan_delivery(message, table, room)
}

/// Notes what is in doubt if the device fails in the command: the command with the count, or the next id, from before it. It
/// stands apart, since what is noted takes over 400 bytes.
#[inline(never)]
fn put_in_doubt<D: SectorDisk>(
    store: &NodeStore<D>,
    wants: &WantedRef<'_>,
    doubt: &mut Option<(Wanted, u64)>,
)
    ensures { doubt.new ≡ shown_doubt (durable_of store.now) (lent_by wants.now) }
{
    *doubt = match wants {
        WantedRef::None => None,
        WantedRef::Raise => Some((Wanted::Raise, store.counter())),
        WantedRef::Put(work) => Some((Wanted::Put(**work), store.table().next())),
        WantedRef::Done(id) => Some((Wanted::Done(*id), store.table().next())),
    };
}
