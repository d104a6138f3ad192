// What comes of an act at a node.
use histories::{CommandKind, EventOutcome};
use runs::Outcome;

/// What came of an act, as its node told it. What takes a byte or a few stands together, before the numbers: a gap at the end would be
/// copied from layer to layer.
#[derive(Clone, Copy, Debug)]
pub struct ActReport {
    pub outcome: Outcome,
    /// What came of the event that the act is, or brings. None where no event came to a node.
    pub event_outcome: Option<EventOutcome>,
    /// Whether the node mounted its disk.
    pub mounted: bool,
    /// Which command the node tried on its disk, if it tried one.
    pub tried: Option<CommandKind>,
    /// The answer of that command. None where the device failed in it.
    pub acked: Option<u64>,
}
