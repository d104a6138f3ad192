ghost use Rattle.std.specs.Prelude.{◌≡◌, ◌<◌, ◌≤◌, ◌+◌, ◌^◌, [], ◌∷◌, length, slice_get, option_map, Some, None, IfSome, IsNone, MatchOption, vec_len};
ghost use Rattle.group_task.specs.declared.node.TheConstants.{NODES};
ghost use Rattle.trace_check.specs.Claims.{Claim, brought_by};
ghost use Rattle.trace_check.specs.Orders.{history};
ghost use Rattle.trace_check.specs.Traces.{claim_seen};
ghost use Rattle.trace_check.specs.Views.{Stands, claim_kept};

use crate::history::{EntryView, History, KeptView, Sent};
use group_task::NodeId;
use node_core::Event;
use std::marker::Model;
use thiserror::Error;
use wire_msg::Message;

/// Why a recovery didn't bring its node up.
#[derive(Clone, Copy, Debug, PartialEq, Eq, Error)]
pub enum RecoverFault {
    #[error("the disk couldn't be mounted")]
    Mount,
    #[error("the device failed in the raise")]
    Raise,
}

/// What an entry says was done.
#[derive(Clone, Copy, Debug, PartialEq, Eq)]
pub enum TraceAction {
    /// A refused event, or a poll that took nothing.
    Nothing,
    /// The event was handled. It is none of Recover.
    Done(Event),
    /// The device failed in the event's command. It is none of Recover.
    Faulted(Event),
    /// The node crashed, or its device failed in a compaction.
    Crashed,
    /// Recover; of a node that was down, whether the command in doubt was on the disk.
    Recovered(bool),
    /// Recover, which failed so.
    NotRecovered(bool, RecoverFault),
}

impl TraceAction {
    /// The message that the node was brought.
    pub fn brought(&self) -> Option<&Message>
        ensures { MatchOption result (brought_by self.now ≡ []) (λ message. brought_by self.now ≡ message.now ∷ []) }
    {
        match self {
            TraceAction::Done(Event::Deliver(message)) => Some(message),
            TraceAction::Faulted(Event::Deliver(message)) => Some(message),
            _ => None,
        }
    }
}

/// Whether some order of all entries is a run.
#[derive(Debug, Drop)]
pub enum Verdict {
    /// The nodes in the order in which their entries were taken.
    Run(Vec<NodeId>),
    /// The least node with entries left once none can be taken, and the index of its next.
    NotARun(NodeId, usize),
}

/// The histories of the nodes of a cluster, without any order across nodes.
#[derive(Debug, Drop)]
pub struct Trace {
    histories: Vec<History>,
}

impl Model for Trace {
    ghost use Rattle.std.specs.Prelude.{◌≤◌, List, length};
    ghost use Rattle.group_task.specs.declared.node.TheConstants.{NODES};
    ghost use Rattle.trace_check.specs.Claims.{Claim};

    ghost Value = { List (List Claim) };

    ghost view = { λ a. a.histories.items };

    ghost invariant = { λ a. length a.histories.items ≤ NODES };
}

impl Trace {
    /// The trace of these histories, one for each node.
    pub fn new(histories: Vec<History>) -> Trace
        requires { vec_len histories ≤ NODES }
        ensures { result ≡ histories.items }
    {
        Trace { histories }
    }

    /// How many nodes there are.
    pub fn nodes(&self) -> u8
        ensures value { result ≡ length self.now }
        ensures most { result ≤ NODES }
    {
        self.histories.len() as u8
    }

    /// The histories, one for each node.
    pub fn histories(&self) -> &[History]
        ensures { result.now ≡ self.now }
    {
        &self.histories
    }

    /// The histories, one for each node, handed on.
    pub fn into_histories(self) -> Vec<History>
        ensures { result.items ≡ self }
    {
        self.histories
    }

    /// The entry of a node at this place of its history.
    pub fn entry(&self, node: NodeId, place: usize) -> Option<EntryView<'_>>
        ensures some { IfSome result (λ entry. slice_get (history self.now node) place ≡ Some (claim_seen entry)) }
        ensures none { IsNone result → slice_get (history self.now node) place ≡ None }
        ensures fits { IfSome result (λ _. place + 1 < 2 ^ 64) }
    {
        let history = self.histories.get(usize::from(node.number()))?;
        history.entry(place)
    }

    /// The entry of a node at this place of its history, as it is kept.
    pub(crate) fn kept(&self, node: NodeId, place: usize) -> Option<KeptView<'_>>
        ensures some { IfSome result (λ kept. slice_get (history self.now node) place ≡ Some (claim_kept kept)) }
        ensures none { IsNone result → slice_get (history self.now node) place ≡ None }
        ensures stands { IfSome result (λ kept. Stands kept) }
        ensures fits { IfSome result (λ _. place + 1 < 2 ^ 64) }
    {
        let history = self.histories.get(usize::from(node.number()))?;
        history.kept(place)
    }

    /// The messages that the entry of a node at this place of its history sent.
    pub fn sent(&self, node: NodeId, place: usize) -> Option<Sent<'_>>
        // Promise: What an entry sent is asked for by itself: of the entry at this place of this node's history, and none where
        // there is no such entry; so is the message that it was brought, and it isn't made.
        // Also: Trace::brought, History::sent, History::brought.
        // Refuses: first_entry_sent, taken_entry_sent_nothing, delivery_waits_for_nothing.
        ensures { result ≡ option_map (λ (c : Claim). c.sent) (slice_get (history self.now node) place) }
    {
        let history = self.histories.get(usize::from(node.number()))?;
        history.sent(place)
    }

    /// The message that the entry of a node at this place of its history was brought, alone: none where it was brought none.
    pub fn brought(&self, node: NodeId, place: usize) -> Option<Sent<'_>>
        ensures { result ≡ option_map (λ (c : Claim). brought_by c.action) (slice_get (history self.now node) place) }
    {
        let history = self.histories.get(usize::from(node.number()))?;
        history.brought(place)
    }
}
