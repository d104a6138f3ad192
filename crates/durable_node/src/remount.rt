ghost use Rattle.std.specs.Prelude.{◌≡◌, ◌≢◌, IsOk, IfOk, IfErr, IsErrOf, Ok, Err, Some, None, option_map, true};
ghost use Rattle.job_model.specs.declared.node_command.NodeCommand.TheVariants.{Raise};
ghost use Rattle.node_core.specs.declared.event.Event.TheVariants.{Recover};
ghost use Rattle.node_core.specs.State.{is_down};
ghost use Rattle.node_store.specs.Store.{durable_of};
ghost use Rattle.histories.specs.EventOutcomes.{attempt_of};
ghost use Rattle.durable_node.specs.Calls.{IsCall};
ghost use Rattle.durable_node.specs.Carrying.{KeepsSound, Writes};
ghost use Rattle.durable_node.specs.Faults.{answered, fault_for};
ghost use Rattle.durable_node.specs.Node.{IsCoreOf, IsNode, IsOver, node_with};
ghost use Rattle.durable_node.specs.Remounting.{HasRisen, IsKeptIn, raise_by};
ghost use Rattle.durable_node.specs.Stepping.{IsSilent};

use crate::carry::carry;
use crate::fault::NodeFault;
use crate::node_disk::NodeDisk;
use crate::setting::NodeSetting;
use crate::step_report::StepReport;
use histories::{CommandKind, EventOutcome};
use node_core::{CoreFault, NodeCore, Wanted, WantedRef};
use node_store::{NodeStore, StoreFault};
use sector_disk::SectorDisk;
use std::alloc::Global;

/// Mounts the disk of a node that is down, and raises the counter: the node is then alone in the group of the new count.
pub(crate) fn remount<D: SectorDisk + Drop>(
    setting: NodeSetting,
    core: &mut NodeCore,
    disk: &mut NodeDisk<D>,
    doubt: &mut Option<(Wanted, u64)>,
    mounted: &mut Option<u64>,
) -> Result<StepReport, NodeFault>
    requires node { IsNode D.state setting.id setting.nodes core.old disk.old }
    requires down { is_down core.old.state.phase ≡ true }
    ensures node { IsNode D.state setting.id setting.nodes core.new disk.new }
    ensures call { IsCall D.state (node_with setting.id setting.nodes core.old disk.old doubt.old mounted.old) (node_with setting.id setting.nodes core.new disk.new doubt.new mounted.new) Recover result }
{
    let mut store = match NodeStore::mount(setting.alloc, disk.take()) {
        Ok(store) => store,
        Err(refused) => {
            *disk = NodeDisk::Bare(refused.disk);
            *mounted = None;
            return unmounted(setting.alloc, refused.fault);
        }
    };
    *mounted = Some(store.counter());
    let kept = is_in(doubt, &store);
    let came = rise(setting, core, &mut store, doubt, kept);
    *disk = NodeDisk::Mounted(store);
    Ok(came)
}

/// What came of a disk that can't be mounted.
fn unmounted(alloc: Global, fault: StoreFault) -> Result<StepReport, NodeFault>
    ensures answered { answered result ≡ Err (fault_for fault) }
    ensures stuck { IfErr result (λ why. (why ≡ fault_for fault) × (fault ≢ StoreFault.Device)) }
    ensures what { IfOk result (λ came. came.event_outcome ≡ EventOutcome.MountFailed) }
    ensures quiet { IfOk result IsSilent }
    ensures tried { IfOk result (λ came. came.tried ≡ None) }
{
    match fault {
        StoreFault::Device => Ok(StepReport::silent(alloc, EventOutcome::MountFailed, None)),
        StoreFault::NotFormatted => Err(NodeFault::NotFormatted),
        StoreFault::Damaged(sector) => Err(NodeFault::Damaged(sector)),
        StoreFault::NoMemory => Err(NodeFault::Core(CoreFault::NoMemory)),
        StoreFault::TooSmall => Err(NodeFault::TooSmall),
    }
}

/// Whether the command in doubt is in what was mounted: the count or the next id went on, or the job is gone.
fn is_in<D: SectorDisk>(doubt: &Option<(Wanted, u64)>, store: &NodeStore<D>) -> bool
    ensures kept { IsKeptIn doubt.now (durable_of store.now) result }
{
    match doubt {
        Some((Wanted::Raise, count)) => store.counter() != *count,
        Some((Wanted::Put(_), next)) => store.table().next() != *next,
        Some((Wanted::Done(id), _)) => !store.table().contains(*id),
        Some((Wanted::None, _)) | None => false,
    }
}

/// Raises the counter that was mounted.
fn rise<D: SectorDisk>(
    setting: NodeSetting,
    core: &mut NodeCore,
    store: &mut NodeStore<D>,
    doubt: &mut Option<(Wanted, u64)>,
    kept: bool,
) -> StepReport
    requires over { IsOver D.state setting.id setting.nodes core.old store.old }
    ensures core { IsCoreOf setting.id setting.nodes core.new }
    ensures what { HasRisen setting.id kept core.old core.new store.old store.new doubt.old doubt.new result result.event_outcome }
    ensures tried { result.tried ≡ option_map attempt_of (raise_by result.event_outcome) }
    ensures store { KeepsSound D.state store.old store.new (IsErrOf (answered (Ok result)) NodeFault.Device) }
    ensures disk { Writes D.state store.old store.new (Some Raise) (IsOk (answered (Ok result))) }
{
    let count = store.counter();
    match carry(store, &WantedRef::Raise) {
        Ok(answer) => {
            *core = NodeCore::new(setting.alloc, setting.id, setting.nodes, store.counter());
            *doubt = None;
            StepReport {
                event_outcome: EventOutcome::Recovered(kept),
                tried: Some(CommandKind::Raise),
                answer,
                sent: Vec::new(setting.alloc),
            }
        }
        Err(EventOutcome::Faulted) => {
            *doubt = Some((Wanted::Raise, count));
            let event_outcome = EventOutcome::RaiseFailed(kept);
            StepReport::silent(setting.alloc, event_outcome, Some(CommandKind::Raise))
        }
        Err(_) => StepReport::silent(setting.alloc, EventOutcome::RaiseRefused(kept), None),
    }
}
