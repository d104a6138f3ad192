// How calls of the node end.
ghost use Rattle.std.specs.Prelude.{◌≡◌};
ghost use Rattle.node_session.specs.Chains.{behind_end};

use durable_node::NodeFault;

/// How a call of the node ended: with the answer of the command that was wanted, if one was.
pub(crate) type CallOutcome = Result<Option<u64>, NodeFault>;

/// How the calls of an event ended: that of the event, and the last one, which is another where the journal was written anew behind it.
#[derive(Clone, Copy, Debug)]
pub(crate) struct EventEnds {
    pub(crate) step: CallOutcome,
    pub(crate) last: CallOutcome,
}

impl EventEnds {
    /// How the event ended: as its call did, unless the device failed behind that.
    pub(crate) fn of_event(&self) -> CallOutcome
        ensures { result ≡ behind_end self.now.step self.now.last }
    {
        match self.last {
            Err(NodeFault::Device) => self.last,
            _ => self.step,
        }
    }
}
