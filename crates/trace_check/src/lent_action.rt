//! What an entry says was done, lent: an event has over 400 bytes, since the longest message has to fit in it, and none is made here.

use crate::trace::RecoverFault;
use group_task::NodeId;
use job_model::Queue;
use node_core::Timer;
use wire_msg::Message;

/// An event, lent.
#[derive(Clone, Copy, Debug)]
pub enum EventRef<'a> {
    Timer(Timer),
    Deliver(&'a Message),
    /// A queue, a priority and the payload.
    Submit(Queue, u8, &'a [u8]),
    Finish(NodeId, u64),
    Recover,
}

/// What an entry says was done, lent.
#[derive(Clone, Copy, Debug)]
pub enum ActionRef<'a> {
    Nothing,
    Done(EventRef<'a>),
    Faulted(EventRef<'a>),
    Crashed,
    Recovered(bool),
    NotRecovered(bool, RecoverFault),
}
