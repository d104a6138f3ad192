ghost use Rattle.std.specs.Prelude.{◌≡◌, ◌<◌, ◌-◌, ◌*◌, ◌^◌};
ghost use Rattle.node_timers.specs.Timers.{is_behind_question, is_of_others, jitter_of, least_of, patience, timer_of, units_of, wait_of};

use crate::snapshot::NodeSnapshot;
use crate::timer_settings::TimerSettings;
use node_core::{Phase, Timer};

/// What a node waits for, one thing at a time. A timer fires when it has waited long enough.
#[derive(Clone, Copy, Debug, PartialEq, Eq)]
pub enum Wait {
    /// A coordinator: its next look for other coordinators.
    Check,
    /// A coordinator that looks for others: their answers, and its turn to merge.
    Merge,
    /// A node that invited others: that they accept.
    Accept,
    /// A coordinator that sent the task out: that all members have it.
    Ready,
    /// A node that accepted an invitation: its task.
    Task,
    /// A member: a check of its coordinator, behind which it asks whether the coordinator is there.
    Coordinator,
    /// A node that asked whether its coordinator is there: the answer.
    Answer,
}

impl Wait {
    /// What a node waits for where this is seen of it. Nothing where it is Down: who restarts a node recovers it.
    pub fn of(snapshot: &NodeSnapshot) -> Option<Wait>
        // Promise: What a node waits for is a function of what is seen of it: its phase, whether it is the coordinator, checks,
        // waits for an answer.
        ensures { result ≡ wait_of snapshot.now }
    {
        match snapshot.phase {
            Phase::Down => None,
            Phase::Election => Some(Wait::Accept),
            Phase::Reorganization if snapshot.is_coordinator => Some(Wait::Ready),
            Phase::Normal if snapshot.is_coordinator && snapshot.checking => Some(Wait::Merge),
            Phase::Normal if snapshot.is_coordinator => Some(Wait::Check),
            Phase::Reorganization | Phase::Normal if snapshot.probing => Some(Wait::Answer),
            Phase::Reorganization => Some(Wait::Task),
            Phase::Normal => Some(Wait::Coordinator),
        }
    }

    /// The timer that fires when the wait is over.
    pub fn timer(self) -> Timer
        ensures { result ≡ timer_of self }
    {
        match self {
            Wait::Check => Timer::Check,
            Wait::Merge => Timer::Merge,
            Wait::Accept => Timer::Accept,
            Wait::Ready => Timer::Ready,
            Wait::Task | Wait::Coordinator | Wait::Answer => Timer::Coord,
        }
    }

    /// How long it lasts at least, in milliseconds: in a settled group, where a check was made or heard of, or before.
    pub fn least(self, setting: &TimerSettings, settled: bool) -> u32
        ensures { result ≡ least_of setting.now settled self }
    {
        let units = self.units(setting, settled);
        (u32::from(units) * u32::from(setting.unit)).max(1)
    }

    /// How much longer it may last, in milliseconds.
    pub fn jitter(self, setting: &TimerSettings, settled: bool) -> u32
        ensures { result ≡ jitter_of setting.now settled self }
    {
        let units = match self {
            Wait::Check if settled => setting.check_jitter,
            Wait::Check => setting.first_check_jitter,
            Wait::Merge => setting.merge_jitter,
            Wait::Coordinator if settled => setting.coordinator_jitter,
            Wait::Coordinator => setting.first_coordinator_jitter,
            _ => 0,
        };
        u32::from(units) * u32::from(setting.unit)
    }

    /// Whether a node waits for answers to what it asked.
    pub fn is_behind_question(self) -> bool
        ensures { result ≡ is_behind_question self }
    {
        matches!(self, Wait::Merge | Wait::Answer)
    }

    /// Whether its end says something of others: that they sent nothing.
    pub fn is_of_others(self) -> bool
        ensures { result ≡ is_of_others self }
    {
        !matches!(self, Wait::Check | Wait::Coordinator)
    }

    /// How much longer it lasts, in milliseconds, where a raise takes so many: who is asked may be in one. Others are waited for as long as the
    /// slowest answer took, and a coordinator's answer three times as long.
    pub fn patience(self, setting: &TimerSettings, raise: u32, slowest: u32) -> u64
        ensures value { result ≡ patience setting.now self raise slowest }
        ensures fits { result < 2 ^ 35 }
    {
        let raise = u64::from(raise);
        let slowest = u64::from(slowest);
        let unit = setting.unit;
        match self {
            Wait::Merge => raise + beyond(slowest, setting.merge, unit),
            Wait::Accept => beyond(slowest, setting.accept, unit),
            Wait::Ready => raise + beyond(slowest, setting.ready, unit),
            Wait::Answer => {
                let least = u64::from(setting.answer_least).max(3 * slowest);
                raise + beyond(least, setting.answer, unit)
            }
            _ => 0,
        }
    }

    fn units(self, setting: &TimerSettings, settled: bool) -> u16
        ensures { result ≡ units_of setting.now settled self }
    {
        match self {
            Wait::Check if settled => setting.check,
            Wait::Check => setting.first_check,
            Wait::Merge => setting.merge,
            Wait::Accept => setting.accept,
            Wait::Ready => setting.ready,
            Wait::Task => setting.task,
            Wait::Coordinator if settled => setting.coordinator,
            Wait::Coordinator => setting.first_coordinator,
            Wait::Answer => setting.answer,
        }
    }
}

/// How much longer so many milliseconds are than so many units.
fn beyond(ms: u64, units: u16, unit: u16) -> u64
    ensures { result ≡ ms - units * unit }
{
    ms.saturating_sub(u64::from(u32::from(units) * u32::from(unit)))
}
