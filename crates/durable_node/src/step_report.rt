// What a call of a node answers.
ghost use Rattle.std.specs.Prelude.{◌≡◌, option_map};
ghost use Rattle.histories.specs.EventOutcomes.{attempt_of};
ghost use Rattle.node_core.specs.Planned.{lent_by};
ghost use Rattle.durable_node.specs.Faults.{fault_of};
ghost use Rattle.durable_node.specs.Stepping.{IsSilent};

use crate::fault::NodeFault;
use histories::{CommandKind, EventOutcome, Refusal};
use node_core::WantedRef;
use std::alloc::Global;
use wire_msg::Message;

/// All that came of an event, for who has the event: with it, `event_outcome` is an entry of the node's history ([`EventOutcome::what`]), and
/// `tried` the whole command ([`CommandKind::command`]).
#[derive(Debug, Drop)]
pub struct StepReport {
    /// What came of the event, whether it was done, refused or met a device that failed.
    pub event_outcome: EventOutcome,
    /// Which command was tried on the disk, if one was.
    pub tried: Option<CommandKind>,
    /// The answer of that command: the new count, the new id, or the id that is done. None where the device failed in it.
    pub answer: Option<u64>,
    /// The messages to be sent, in their order.
    pub sent: Vec<Message>,
}

impl StepReport {
    /// Nothing is sent or answered.
    pub(crate) fn silent(
        alloc: Global,
        event_outcome: EventOutcome,
        tried: Option<CommandKind>,
    ) -> StepReport
        ensures event_outcome { result.event_outcome ≡ event_outcome }
        ensures tried { result.tried ≡ tried }
        ensures silent { IsSilent result }
    {
        StepReport {
            event_outcome,
            tried,
            answer: None,
            sent: Vec::new(alloc),
        }
    }

    /// Why the event wasn't done: it was refused, or the device failed. None where it was done.
    pub fn fault(&self) -> Option<NodeFault>
        // Promise: Why an event wasn't done is read off what came of it.
        ensures { result ≡ fault_of self.now.event_outcome }
    {
        match self.event_outcome {
            EventOutcome::Refused(Refusal::Core(fault)) => Some(NodeFault::Core(fault)),
            EventOutcome::Refused(Refusal::Full) => Some(NodeFault::Full),
            EventOutcome::Refused(Refusal::Exhausted | Refusal::AreaExhausted)
            | EventOutcome::RaiseRefused(_) => Some(NodeFault::Exhausted),
            EventOutcome::Faulted | EventOutcome::MountFailed | EventOutcome::RaiseFailed(_) =>
                Some(NodeFault::Device),
            EventOutcome::Done | EventOutcome::Recovered(_) => None,
        }
    }
}

/// Which command an event wants, as it is answered.
pub(crate) fn attempt_in(wants: &WantedRef<'_>) -> Option<CommandKind>
    ensures { result ≡ option_map attempt_of (lent_by wants.now) }
{
    match wants {
        WantedRef::None => None,
        WantedRef::Raise => Some(CommandKind::Raise),
        WantedRef::Put(_) => Some(CommandKind::Put),
        WantedRef::Done(id) => Some(CommandKind::Done(*id)),
    }
}
