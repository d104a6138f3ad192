use group_task::NodeId;
use node_core::Phase;
use wire_msg::Message;

/// Why an entry isn't taken, once no entry more can be.
#[derive(Debug, Drop)]
pub enum Holdup {
    /// All but the message that it was brought is there: no entry that was taken sent it.
    Waits,
    /// The message that it was brought is for another node.
    Misaddressed,
    /// What it says was done can't come at its node, which is in this phase.
    Refused(Phase),
    /// Its node would send these messages, and it says that others were sent.
    Sends(Vec<Message>),
}

/// The next entry of a node that has entries left, once none more can be taken.
#[derive(Debug, Drop)]
pub struct Leftover {
    pub node: NodeId,
    pub index: usize,
    pub holdup: Holdup,
}
