// The timers of a session: what they are told, and which event is due.
ghost use Rattle.std.specs.Prelude.{◌≡◌, IfSome};
ghost use Rattle.node_core.specs.State.{state_of};
ghost use Rattle.node_session.specs.Timing.{given_up, heard, new_timers, told_time, Looks, LooksIn, Spends};
ghost use Rattle.node_session.specs.Turns.{IsFired};

use group_task::{GroupNo, NodeId};
use node_core::{Event, Phase, Vector};
use node_timers::{NodeSnapshot, Retransmission, TimerPolicy, TimerSettings};
use std::marker::Model;

/// At most so many timers fire in one tick; what is due beyond that fires in the next.
pub(crate) const MOST_FIRED: u32 = 16;

/// When the timers of a session's node fire.
#[derive(Debug, Drop)]
pub(crate) struct Timers {
    policy: TimerPolicy,
    // the group in which a timer was last looked for, and the one in which time was last spent
    looked_in: Option<GroupNo>,
    spent_in: Option<GroupNo>,
}

impl Model for Timers {
    ghost use Rattle.node_session.specs.Timing.{Timers};

    ghost Value = { Timers };

    ghost view = { λ a. record { policy = a.policy; looked_in = a.looked_in; spent_in = a.spent_in } };
}

impl Timers {
    /// No time was told yet. The seed and the node's identifier decide the jitter.
    pub(crate) fn new(setting: TimerSettings, id: NodeId, seed: u64) -> Timers
        ensures { result ≡ new_timers setting id seed }
    {
        Timers {
            policy: TimerPolicy::new(setting, id, seed),
            looked_in: None,
            spent_in: None,
        }
    }

    pub(crate) fn policy(&self) -> &TimerPolicy
        ensures { result.now ≡ self.now.policy }
    {
        &self.policy
    }

    /// It is so late now.
    pub(crate) fn pass(&mut self, now: u64)
        ensures { self.new ≡ told_time now self.old }
    {
        self.policy.pass(now);
    }

    /// The policy learns what an event says to it.
    pub(crate) fn hear(&mut self, event: &Event)
        ensures { self.new ≡ heard event.now self.old }
    {
        if let Event::Deliver(message) = event {
            self.policy.delivered(message);
        }
    }

    /// The policy learns that the transport gave a node up, and that a coordinator leaves a member behind.
    pub(crate) fn give_up(&mut self, event: &Event)
        ensures { self.new ≡ given_up event.now self.old }
    {
        self.policy.lost();
        if let Event::Recover = event {
            self.policy.gave_up();
        }
    }

    /// A command of this node took so many milliseconds: they aren't waited for. Where the node raised its counter in it, other nodes are reckoned to
    /// take as long for that.
    pub(crate) fn spend(&mut self, ms: u64, id: NodeId, vector: &Vector)
        ensures { Spends id ms (state_of vector.now) self.old self.new }
    {
        self.policy.spend(ms);
        let group_state = &vector.group_state;
        if matches!(group_state.phase, Phase::Down) || self.spent_in == Some(group_state.group) {
            return;
        }
        if group_state.group.creator().is(id) {
            self.policy.raised(ms);
        }
        self.spent_in = Some(group_state.group);
    }

    /// The event that is due at a node of which this is seen, and which waits for these messages.
    pub(crate) fn due(&mut self, snapshot: &NodeSnapshot, waiting: &Retransmission) -> Option<Event>
        ensures looks { Looks snapshot.now waiting.now self.old result self.new }
        ensures fired { IfSome result IsFired }
    {
        self.look_in(snapshot.group);
        let due = self.policy.tick(snapshot);
        if due.is_some() || !waiting.is_answered(snapshot) {
            return due;
        }
        self.policy.answered(snapshot);
        self.policy.tick(snapshot)
    }

    /// A new group's members have no work in hand: in it the jobs that the node keeps are due at once.
    fn look_in(&mut self, group: GroupNo)
        ensures { LooksIn group self.old self.new }
    {
        if self.looked_in != Some(group) {
            self.looked_in = Some(group);
            self.policy.regrouped();
        }
    }
}
