// One who asks here for a lease: how far it is, and what it does next.
ghost use Rattle.std.specs.Prelude.{◌≡◌, ◌<◌, IfSome};

use group_task::{Members, NodeId};
use lease_message::LeaseName;

/// Nothing is due at any time.
pub(crate) const NEVER: u64 = u64::MAX;

/// Numbers of machines are below this one.
const MACHINES: u64 = 128;

/// An epoch above another one, for a machine: no two of them ask under the same. None where no such is left.
pub(crate) fn epoch_above(epoch: u64, machine: NodeId) -> Option<u64>
    ensures above { IfSome result (λ next. epoch < next) }
{
    let block = (epoch / MACHINES).checked_add(1)?.checked_mul(MACHINES)?;
    block.checked_add(u64::from(machine.number()))
}

/// How far one is who asks for a lease.
#[derive(Clone, Copy, Debug, PartialEq, Eq)]
pub(crate) enum Stage {
    /// It asks of nobody, and does when something is due.
    Resting,
    /// It asked under its epoch, and gives up when something is due.
    Asking,
    /// Its user was told that it holds the lease until this time. It renews it when something is due.
    Holding { until: u64 },
}

/// Until when a voter grants nothing to others, and under which epoch it granted what binds it.
#[derive(Clone, Copy, Debug)]
pub(crate) struct Bound {
    pub(crate) epoch: u64,
    pub(crate) free_at: u64,
}

/// One who asks here for a lease.
#[derive(Clone, Copy, Debug)]
pub(crate) struct Want {
    pub(crate) name: LeaseName,
    /// By which its caller knows it.
    pub(crate) user: u64,
    pub(crate) stage: Stage,
    /// Under which it asked last.
    pub(crate) epoch: u64,
    /// Under which it holds the lease, where it does.
    pub(crate) held: u64,
    /// Whether a voter refused to renew the lease since it knows of a greater epoch than that of the request.
    pub(crate) outrun: bool,
    /// When something is due.
    pub(crate) due: u64,
    /// Who refused its last request.
    pub(crate) refused: Members,
    /// How many of them are bound alike, by the grant of the greatest epoch of which they told, and when the first of them may grant another one.
    pub(crate) blocked: u8,
    pub(crate) bound: Bound,
    /// How often it was refused in a row.
    pub(crate) tries: u8,
}

impl Want {
    pub(crate) fn new(name: LeaseName, user: u64) -> Want
        ensures { (result.name ≡ name) × (result.user ≡ user) }
    {
        Want {
            name,
            user,
            stage: Stage::Resting,
            epoch: 0,
            held: 0,
            outrun: false,
            due: 0,
            refused: Members::new(),
            blocked: 0,
            bound: Bound {
                epoch: 0,
                free_at: 0,
            },
            tries: 0,
        }
    }

    /// It asks anew under an epoch, and gives up then where it has no majority.
    pub(crate) fn ask(&mut self, epoch: u64, gives_up: u64)
        ensures { self.new.name ≡ self.old.name }
    {
        self.stage = Stage::Asking;
        self.epoch = epoch;
        self.outrun = false;
        self.due = gives_up;
        self.refused = Members::new();
        self.blocked = 0;
    }

    /// It asks nobody until then.
    pub(crate) fn rest(&mut self, until: u64) {
        self.stage = Stage::Resting;
        self.due = until;
    }

    /// It holds the lease under an epoch.
    pub(crate) fn hold(&mut self, epoch: u64, until: u64, renews: u64) {
        self.stage = Stage::Holding { until };
        self.held = epoch;
        self.due = renews.min(until);
        self.tries = 0;
    }

    /// It asks for the renewal of its lease under a greater epoch.
    pub(crate) fn renew_under(&mut self, epoch: u64)
        ensures { self.new.name ≡ self.old.name }
    {
        self.epoch = epoch;
        self.outrun = false;
    }

    /// A voter refused its request since it knows of this epoch. Where that is greater a lease is renewed at once, above it.
    pub(crate) fn outrun(&mut self, now: u64, epoch: u64) {
        if self.is_holding() && self.epoch < epoch {
            self.outrun = true;
            self.due = self.due.min(now);
        }
    }

    fn is_holding(&self) -> bool {
        matches!(self.stage, Stage::Holding { .. })
    }

    /// Under which epoch voters may have granted the lease that it holds, and not what it asked for since.
    pub(crate) fn held_below(&self) -> Option<u64> {
        if self.is_holding() && self.held < self.epoch {
            Some(self.held)
        } else {
            None
        }
    }

    /// A voter refused its request. One that is bound by a grant of an epoch, or waits behind its start, may grant another one at that time; those
    /// that wait have epoch 0.
    pub(crate) fn refuse(&mut self, voter: NodeId, bound: Option<Bound>) {
        if self.refused.contains(voter) {
            return;
        }
        self.refused.insert(voter);
        let Some(bound) = bound else {
            return;
        };
        if self.blocked == 0 || self.bound.epoch < bound.epoch {
            self.bound = bound;
            self.blocked = 1;
        } else if self.bound.epoch == bound.epoch {
            self.bound.free_at = self.bound.free_at.min(bound.free_at);
            self.blocked = self.blocked.saturating_add(1);
        }
    }

    /// Whether so many machines can't give it a majority any more.
    pub(crate) fn is_hopeless(&self, machines: u8) -> bool {
        let machines = usize::from(machines);
        self.stage == Stage::Asking && 2 * machines.saturating_sub(self.refused.len()) <= machines
    }

    /// Whether more than half of so many machines are bound by one grant, or wait. Where votes are split they are bound by several.
    pub(crate) fn is_blocked(&self, machines: u8) -> bool {
        2 * u64::from(self.blocked) > u64::from(machines)
    }

    /// Whether it asks under this epoch, for the lease or for its renewal.
    pub(crate) fn relies_on(&self, epoch: u64) -> bool {
        self.epoch == epoch && self.stage != Stage::Resting
    }

    /// Whether it asks, and under a lesser epoch than this one.
    pub(crate) fn is_asking_below(&self, epoch: u64) -> bool {
        self.stage == Stage::Asking && self.epoch < epoch
    }
}
