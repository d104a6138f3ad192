ghost use Rattle.std.specs.Prelude.{◌≡◌, ◌↔◌, ◌≤◌, ◌<◌, ◌-◌, ◌+◌, ◌*◌, ◌^◌, min, IsTrue};
ghost use Rattle.node_timers.specs.Timers.{answered, at_once, graced, is_accept, is_check_wait, is_late, is_led_by, joined, lasts, lateness, later, put_off, times, turns_of};

use crate::timer_settings::TimerSettings;
use crate::wait::Wait;
use group_task::{GroupNo, NodeId};

/// How long a wait lasts. It belongs to one group of the node: in another group a node waits anew.
#[derive(Clone, Copy, Debug, PartialEq, Eq)]
pub struct Deadline {
    pub wait: Wait,
    pub group: GroupNo,
    /// How long it lasts, in milliseconds.
    pub length: u64,
    /// How much of it is over, in milliseconds.
    pub waited: u64,
    /// Whether it lasts twice as long, for another node's turn.
    pub put_off: bool,
    /// Whether it had its grace, or needs none: when it is over its timer fires, however late the process looks.
    pub had_grace: bool,
    /// Whether it comes soon: a merge that does waits for nobody's turn.
    pub soon: bool,
}

impl Deadline {
    /// Whether it is the one of this wait, in this group.
    pub fn is_of(&self, wait: Wait, group: GroupNo) -> bool
        ensures { IsTrue result ↔ ((self.now.wait ≡ wait) × (self.now.group ≡ group)) }
    {
        self.wait == wait && self.group == group
    }

    /// So many milliseconds later.
    pub fn later(self, waited: u64) -> Deadline
        ensures { result ≡ later waited self }
    {
        Deadline {
            waited: self.waited.saturating_add(waited),
            ..self
        }
    }

    /// A merge waits twice as long, but for one that comes soon.
    pub fn put_off(self) -> Deadline
        ensures { result ≡ put_off self }
    {
        match self.wait {
            Wait::Merge if !self.soon => Deadline {
                put_off: true,
                ..self
            },
            _ => self,
        }
    }

    /// It comes at once.
    pub fn at_once(self) -> Deadline
        ensures { result ≡ at_once self }
    {
        Deadline {
            length: 0,
            had_grace: true,
            ..self
        }
    }

    /// All that were asked have answered: a look for other coordinators is over, where it `found` none or waits for nobody's turn, and soon an
    /// election is.
    pub fn answered(self, setting: &TimerSettings, found: bool) -> Deadline
        ensures { result ≡ answered setting.now found self }
    {
        match self.wait {
            Wait::Merge if found && !self.soon => self,
            Wait::Merge => self.at_once(),
            Wait::Accept => self.joined(setting),
            _ => self,
        }
    }

    /// All that were invited have accepted. Those whom they bring are waited for a little, once.
    fn joined(self, setting: &TimerSettings) -> Deadline
        ensures { result ≡ joined setting.now self }
    {
        if self.had_grace {
            return self;
        }
        let more = u64::from(u32::from(setting.joining) * u32::from(setting.unit));
        Deadline {
            length: self.length.min(self.waited.saturating_add(more)),
            had_grace: true,
            ..self
        }
    }

    /// Whether a coordinator waits to look for others.
    pub fn is_of_check(&self) -> bool
        ensures { result ≡ is_check_wait self.now.wait }
    {
        matches!(self.wait, Wait::Check)
    }

    /// Whether a node that invited others waits for them.
    pub fn is_of_accept(&self) -> bool
        ensures { result ≡ is_accept self.now.wait }
    {
        matches!(self.wait, Wait::Accept)
    }

    /// Whether a member waits to ask this node, its coordinator.
    pub fn is_led_by(&self, node: NodeId) -> bool
        ensures { result ≡ is_led_by node self.now }
    {
        matches!(self.wait, Wait::Coordinator) && self.group.creator().is(node)
    }

    /// Whether the process looks so late, more than two round trips behind its end, that it was itself stopped: what others sent meanwhile
    /// waits to be read.
    pub fn is_late(&self, setting: &TimerSettings, raise: u32, merge_wait: Option<u64>) -> bool
        ensures { result ≡ is_late setting.now raise merge_wait self.now }
    {
        let lasts = u128::from(self.lasts(setting, raise, merge_wait));
        let late = lasts + 2 * u128::from(setting.unit) < u128::from(self.waited);
        !self.had_grace && self.wait.is_of_others() && late
    }

    /// For how many milliseconds it has been over; 0 where it had its grace, or came at once.
    pub fn lateness(&self, setting: &TimerSettings, raise: u32, merge_wait: Option<u64>) -> u64
        ensures { result ≡ lateness setting.now raise merge_wait self.now }
    {
        if self.had_grace {
            return 0;
        }
        let lasts = self.lasts(setting, raise, merge_wait);
        self.waited.saturating_sub(lasts)
    }

    /// A round trip of it is left. That is so once.
    pub fn graced(self, setting: &TimerSettings, raise: u32, merge_wait: Option<u64>) -> Deadline
        ensures { result ≡ graced setting.now raise merge_wait self }
    {
        let lasts = self.lasts(setting, raise, merge_wait);
        Deadline {
            waited: lasts.saturating_sub(u64::from(setting.unit)),
            had_grace: true,
            ..self
        }
    }

    /// Whether it has come.
    pub fn has_come(&self, setting: &TimerSettings, raise: u32, merge_wait: Option<u64>) -> bool
        ensures { IsTrue result ↔ (lasts setting.now raise merge_wait self.now ≤ self.now.waited) }
    {
        self.left(setting, raise, merge_wait) == 0
    }

    /// How much of it is left, in milliseconds.
    pub fn left(&self, setting: &TimerSettings, raise: u32, merge_wait: Option<u64>) -> u64
        ensures { result ≡ lasts setting.now raise merge_wait self.now - self.now.waited }
    {
        let lasts = self.lasts(setting, raise, merge_wait);
        let waited = self.waited;
        lasts.saturating_sub(waited)
    }

    /// How long it lasts, in milliseconds. A merge waits longer by a turn for each step of the node's wait, and a turn has room for the
    /// raise of who merges first: `raise` milliseconds.
    pub fn lasts(&self, setting: &TimerSettings, raise: u32, merge_wait: Option<u64>) -> u64
        ensures { result ≡ lasts setting.now raise merge_wait self.now }
    {
        let turns = self.turns(merge_wait);
        let turn = u64::from(u32::from(setting.turn) * u32::from(setting.unit)) + u64::from(raise);
        longer(self.length, turns, turn, self.put_off)
    }

    /// How many turns of other nodes come first.
    fn turns(&self, merge_wait: Option<u64>) -> u64
        ensures { result ≡ turns_of self.now merge_wait }
    {
        match self.wait {
            Wait::Merge if !self.soon => merge_wait.unwrap_or(0),
            _ => 0,
        }
    }
}

/// A length and so many turns, or twice that, or the greatest number.
fn longer(length: u64, turns: u64, turn: u64, twice: bool) -> u64
    requires { turn < 2 ^ 40 }
    ensures { result ≡ min (times twice (length + turns * turn)) (2 ^ 64 - 1) }
{
    let once = u128::from(length) + product(turns, turn);
    let all = if twice { 2 * once } else { once };
    u64::try_from(all).unwrap_or(u64::MAX)
}

pub(crate) fn product(times: u64, length: u64) -> u128
    requires { length < 2 ^ 40 }
    ensures value { result ≡ times * length }
    ensures fits { result < 2 ^ 104 }
{
    u128::from(times) * u128::from(length)
}
