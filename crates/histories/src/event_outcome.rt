// What became of an event, without the event.
ghost use Rattle.std.specs.Prelude.{◌≡◌};
ghost use Rattle.histories.specs.EventOutcomes.{what_of};

use crate::history_event::HistoryEvent;
use node_core::{Event, Refusal};

/// What came of an event at a node with its disk, for who has the event: a [`HistoryEvent`] holds it, and so the message of a
/// delivery.
#[derive(Clone, Copy, Debug, PartialEq, Eq)]
pub enum EventOutcome {
    /// The event was handled.
    Done,
    /// The event was refused, for this reason.
    Refused(Refusal),
    /// The device failed in the command that the event wants.
    Faulted,
    /// The node was Down: it mounted its disk and recovered. Whether the command in doubt was on it.
    Recovered(bool),
    /// The node was Down, and couldn't mount its disk, since the device failed.
    MountFailed,
    /// The node was Down: it mounted its disk, and the device failed in the raise. Whether the command in doubt was on
    /// there, as in what follows.
    RaiseFailed(bool),
    /// The node was Down: it mounted its disk, which had the greatest counter there is.
    RaiseRefused(bool),
}

impl EventOutcome {
    /// The entry of the node's history, where this was the event.
    pub fn what(self, event: &Event) -> HistoryEvent
        ensures { result ≡ what_of event.now self }
    {
        match self {
            EventOutcome::Done => HistoryEvent::Did(*event),
            EventOutcome::Refused(why) => HistoryEvent::Refused(*event, why),
            EventOutcome::Faulted => HistoryEvent::Faulted(*event),
            EventOutcome::Recovered(kept) => HistoryEvent::Recovered(kept),
            EventOutcome::MountFailed => HistoryEvent::MountFailed,
            EventOutcome::RaiseFailed(kept) => HistoryEvent::RaiseFailed(kept),
            EventOutcome::RaiseRefused(kept) => HistoryEvent::RaiseRefused(kept),
        }
    }
}
