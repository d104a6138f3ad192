ghost use Rattle.std.specs.Prelude.{◌≡◌, ◌<◌, ◌^◌};
ghost use Rattle.node_timers.specs.Timers.{first_pause, measured, most_pause, longer_pause, paced, raise_of, soon_length, unit_at};

use crate::deadline::product;
use crate::wait::Wait;

/// How long a node waits for what, counted in round trips of the link.
///
/// A wait of 0 is one of a millisecond: no deadline comes at the time at which it was set.
#[derive(Clone, Copy, Debug, PartialEq, Eq)]
pub struct TimerSettings {
    /// A round trip, in milliseconds. All that follows counts these.
    pub unit: u16,
    /// A coordinator looks for other coordinators first so long after its group began.
    pub first_check: u16,
    /// At most so much more, drawn anew each time.
    pub first_check_jitter: u16,
    /// And then so often.
    pub check: u16,
    /// At most so much more, drawn anew each time.
    pub check_jitter: u16,
    /// For the answers to a check.
    pub merge: u16,
    /// At most so much more, drawn anew each time.
    pub merge_jitter: u16,
    /// So much more before a merge for each step by which the greatest coordinator found is above the node.
    pub turn: u16,
    /// For those that accept an invitation.
    pub accept: u16,
    /// Once all that it was sent to have accepted: for the members that they bring.
    pub joining: u16,
    /// For those that say that they have their task.
    pub ready: u16,
    /// For the task, at a node that accepted an invitation.
    pub task: u16,
    /// A member that didn't hear its coordinator look for others asks so long after its group began whether it is there.
    pub first_coordinator: u16,
    /// At most so much more, drawn anew each time.
    pub first_coordinator_jitter: u16,
    /// One that heard it before asks where it didn't for so long.
    pub coordinator: u16,
    /// At most so much more, drawn anew each time.
    pub coordinator_jitter: u16,
    /// For the coordinator's answer.
    pub answer: u16,
    /// And at least so many milliseconds, whatever a round trip takes: a process may be held up for so long.
    pub answer_least: u16,
    /// In a settled group a round trip counts at most so many milliseconds, where a node waits to ask.
    pub rest_most: u16,
    /// The slowest answer is reckoned with as one of at most so many milliseconds.
    pub slowest_most: u16,
    /// So long work rests before it is dispatched, and a twentieth of one more for each job; a quarter longer after each dispatch.
    pub dispatch: u16,
    /// The most that it rests.
    pub dispatch_most: u16,
    /// A raise that took longer is reckoned with as one of so many.
    pub raise_most: u16,
    /// A member that answered none of so many checks is given up; at least 1.
    pub silent_checks: u8,
}

impl TimerSettings {
    /// The setting that is measured, for a round trip of so many milliseconds, with nodes that send again each round trip what they wait
    /// for ([`Retransmission`](crate::Waiting)) and a link that sends nothing again.
    pub fn measured(unit: u16) -> TimerSettings
        ensures { result ≡ measured unit }
    {
        TimerSettings {
            unit,
            first_check: 5,
            first_check_jitter: 3,
            check: 37,
            check_jitter: 4,
            merge: 3,
            merge_jitter: 2,
            turn: 10,
            accept: 5,
            joining: 1,
            ready: 10,
            task: 20,
            first_coordinator: 20,
            first_coordinator_jitter: 10,
            coordinator: 20,
            coordinator_jitter: 3,
            answer: 5,
            answer_least: 250,
            rest_most: 25,
            slowest_most: 1000,
            dispatch: 5,
            dispatch_most: 300,
            raise_most: 100,
            silent_checks: 3,
        }
    }

    /// The settings of a wait, where a round trip was measured to take so many milliseconds. How long a node waits for a first check of a group, and
    /// for the answers to a check, goes by that; a settled group's checks and questions come as often in a slow network as in one of `rest_most`.
    pub fn paced(&self, round_trip: u16, settled: bool, wait: Wait) -> TimerSettings
        ensures { result ≡ paced self.now round_trip settled wait }
    {
        TimerSettings {
            unit: self.unit_at(round_trip, settled, wait),
            ..*self
        }
    }

    fn unit_at(&self, round_trip: u16, settled: bool, wait: Wait) -> u16
        ensures { result ≡ unit_at self.now round_trip settled wait }
    {
        match wait {
            Wait::Check | Wait::Coordinator if settled => self.unit.min(self.rest_most),
            Wait::Check | Wait::Merge => round_trip,
            _ => self.unit,
        }
    }

    /// How long it takes to what comes soon, in milliseconds: at once, or two round trips.
    pub fn soon_length(&self, second: bool) -> u64
        ensures { result ≡ soon_length self.now second }
    {
        if second {
            (2 * u64::from(self.unit)).max(1)
        } else {
            1
        }
    }

    /// How long, in milliseconds, a raise of so many is reckoned to take.
    pub fn raise_of(&self, ms: u64) -> u32
        ensures { result ≡ raise_of self.now ms }
    {
        let most = u32::from(self.raise_most) * u32::from(self.unit);
        match u32::try_from(ms) {
            Ok(ms) => ms.min(most),
            Err(_) => most,
        }
    }

    /// How long, in milliseconds, so many jobs rest before they are dispatched first.
    pub fn first_pause(&self, pending: u64) -> u64
        ensures { result ≡ first_pause self.now pending }
    {
        let first = u32::from(self.dispatch) * u32::from(self.unit);
        let more = product(pending, u64::from(self.unit)) / 20;
        let longer = (u128::from(first) + more).max(1);
        let most = self.most_pause();
        u64::try_from(longer).unwrap_or(most).min(most)
    }

    /// How long, in milliseconds, work rests until the next dispatch after one before which it rested so long.
    pub fn longer_pause(&self, pause: u64) -> u64
        ensures { result ≡ longer_pause self.now pause }
    {
        let longer = pause.saturating_add(pause / 4);
        longer.max(1).min(self.most_pause())
    }

    fn most_pause(&self) -> u64
        ensures value { result ≡ most_pause self.now }
        ensures fits { result < 2 ^ 32 }
    {
        u64::from(u32::from(self.dispatch_most) * u32::from(self.unit)).max(1)
    }
}
