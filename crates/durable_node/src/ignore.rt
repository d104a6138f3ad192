ghost use Rattle.std.specs.Prelude.{◌≡◌, ◌≢◌, Some, None, IfOk, IfErr};
ghost use Rattle.node_core.specs.Start.{down};
ghost use Rattle.node_core.specs.Refusals.{refusal_of};
ghost use Rattle.durable_node.specs.Stepping.{IsIgnored};

use crate::node_disk::NodeDisk;
use crate::step_report::StepReport;
use histories::{EventOutcome, Refusal};
use job_model::JobTable;
use node_core::{CoreFault, Event, NodeCore};
use sector_disk::SectorDisk;
use std::alloc::Global;

/// Refuses an event at a node that is down, or takes it and does nothing. It takes no memory.
pub(crate) fn ignore<D: SectorDisk>(
    alloc: Global,
    core: &mut NodeCore,
    disk: &NodeDisk<D>,
    event: &Event,
) -> StepReport
    requires fallen { core.old.state ≡ down core.old.id }
    requires other { event.now ≢ Event.Recover }
    ensures kept { core.new ≡ record core.old { room = core.new.room } }
    ensures what { IsIgnored (refusal_of core.old.nodes core.old.id event.now core.old.state) result result.event_outcome }
    ensures tried { result.tried ≡ None }
{
    let event_outcome = match plan_over(alloc, core, disk, event) {
        Ok(()) => EventOutcome::Done,
        Err(fault) => EventOutcome::Refused(Refusal::Core(fault)),
    };
    StepReport::silent(alloc, event_outcome, None)
}

/// Plans the event, over the jobs of the disk if it is mounted, and drops the plan.
#[tactic(auto, using(crate::proofs::Ignores::refused_so))]
fn plan_over<D: SectorDisk>(
    alloc: Global,
    core: &mut NodeCore,
    disk: &NodeDisk<D>,
    event: &Event,
) -> Result<(), CoreFault>
    requires fallen { core.old.state ≡ down core.old.id }
    requires other { event.now ≢ Event.Recover }
    ensures kept { core.new ≡ record core.old { room = core.new.room } }
    ensures done { IfOk result (λ _. refusal_of core.old.nodes core.old.id event.now core.old.state ≡ None) }
    ensures refused { IfErr result (λ fault. refusal_of core.old.nodes core.old.id event.now core.old.state ≡ Some fault) }
{
    match disk {
        NodeDisk::Mounted(store) => {
            core.plan_step(event, store.table())?;
        }
        _ => {
            core.plan_step(event, &JobTable::empty(alloc))?;
        }
    }
    Ok(())
}
