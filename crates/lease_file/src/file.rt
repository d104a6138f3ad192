// A mounted file: a disk, and its two cells.
ghost use Rattle.std.specs.Prelude.{◌≡◌, ◌⊎◌, ◌+◌, ◌<◌, ◌≤◌, ◌/◌, ◌^◌, max, IsTrue, IsFalse, IsOk, IfOk, IsErrOf, IsSome};
ghost use Rattle.sector_disk.specs.Disk.{Counts};
ghost use Rattle.safe_cell.specs.Answered.{AnswersOr};
ghost use Rattle.lease_file.specs.Blocks.{bound_of};
ghost use Rattle.lease_file.specs.Kept.{FileState, IsLeaseFile, Lasts, kept, kept_of};
ghost use Rattle.lease_file.specs.Calls.{Writes, begin_refusal, begun_by, broken_refusal, IsOneOf, IsOneOfThree};

use crate::blocks::{LAST, block_of, bound_of};
use crate::fault::LeaseFault;
use safe_cell::SafeCell;
use sector_disk::SectorDisk;
use std::marker::Model;

/// What a process is told when it begins.
#[derive(Clone, Copy, Debug, PartialEq, Eq)]
pub struct Begun {
    /// The count of blocks that were taken, its own among them: no other process of the file has this number.
    pub process: u64,
    /// No epoch above this one was reserved before.
    pub floor: u64,
    /// No epoch above this one is reserved.
    pub bound: u64,
    /// The processes before it kept grants for so many milliseconds at most.
    pub waits: u64,
}

/// What the processes of a machine that keeps leases need of each other, kept over failures of their disk. Its two cells are on the first eight
/// sectors of the disk. After a `Device` each change answers `Broken` until the disk is mounted again.
#[derive(Debug, Drop)]
pub struct LeaseFile<D: SectorDisk> {
    pub(crate) disk: D,
    pub(crate) count: SafeCell,
    pub(crate) keeps: SafeCell,
    pub(crate) broken: bool,
}

impl<D: SectorDisk> Model for LeaseFile<D> {
    ghost use Rattle.lease_file.specs.Kept.{FileState, IsLeaseFile};

    ghost Value = { FileState D };

    ghost view = { λ a. record { disk = a.disk; count = a.count; keeps = a.keeps; broken = a.broken } };

    ghost invariant = { λ a. IsLeaseFile (D.state a.disk) a.count a.keeps a.broken };
}

impl<D: SectorDisk> LeaseFile<D> {
    /// No epoch above this one is reserved.
    pub fn bound(&self) -> u64
        ensures { result ≡ bound_of (kept_of self.now).count }
    {
        bound_of(self.count.value())
    }

    /// While no call has failed, each image that a crash now may leave of an honest disk keeps what the file shows.
    pub fn is_kept(&self)
        ensures { IsTrue (D.state self.now.disk).honest → IsFalse self.now.broken
            → Lasts (kept_of self.now) (D.state self.now.disk) }
    {
        let _ = &self.keeps;
    }

    /// The disk alone, as it is.
    pub fn into_disk(self) -> D
        ensures { result ≡ self.disk }
    {
        self.disk
    }

    /// A process begins that keeps grants for so many milliseconds: it takes a block of epochs of its own. Refused in the order `Broken`,
    /// `Exhausted`, `Device`, the first two with no device call.
    pub fn begin(&mut self, keeps: u64) -> Result<Begun, LeaseFault>
        // Promise: A process that begins over a file of leases is refused in the order Broken, Exhausted, Device; the first two leave disk
        // and file as they were, the third leaves the file broken.
        // Also: refused, device, writes.
        // Refuses: last_block_given_twice.
        ensures answers { AnswersOr LeaseFault.Device (begin_refusal self.old) result }
        ensures refused { IsSome (begin_refusal self.old) → self.new ≡ self.old }
        ensures device { IsErrOf result LeaseFault.Device → (kept_of self.new).count ≡ (kept_of self.old).count }
        ensures writes { Writes D.state self.old self.new result }

        // Promise: A process that begins takes one block more, and its time counts where it is the greatest; it is told its number, the last
        // epoch of the blocks that were taken before and that of its own, and the greatest time of the processes before it.
        // Refuses: epoch_forgotten, own_time_waited_for.
        ensures ok { IfOk result (λ begun. (begun ≡ begun_by (kept_of self.old))
            × (kept_of self.new ≡ kept ((kept_of self.old).count + 1) (max (kept_of self.old).keeps keeps)) × IsFalse self.new.broken) }

        // Promise: While a process begins, each image has what was there, the same with its time, or what is there in the end; after `Ok`
        // that alone, and nothing is unsynced.
        // Also: lasts.
        // Refuses: time_not_kept.
        ensures images { IsTrue (D.state self.old.disk).honest → IsFalse self.old.broken
            → IsOneOfThree (kept_of self.old) keeps (D.state self.old.disk) (D.state self.new.disk) }
        ensures lasts { IsTrue (D.state self.old.disk).honest → IsOk result
            → Lasts (kept_of self.new) (D.state self.new.disk) }
    {
        if self.broken {
            return Err(LeaseFault::Broken);
        }
        let taken = self.count.value();
        if taken >= LAST {
            return Err(LeaseFault::Exhausted);
        }
        let waits = self.keeps.value();
        self.keep(keeps)?;
        self.take(taken + 1)?;
        Ok(Begun {
            process: taken + 1,
            floor: bound_of(taken),
            bound: bound_of(taken + 1),
            waits,
        })
    }

    /// Reserves epochs up to this one at least, by blocks. Where they are, no call of the device is made; else it is refused in the order
    /// `Broken`, `Device`, the first with no device call.
    pub fn reserve(&mut self, epoch: u64) -> Result<(), LeaseFault>
        // Promise: A reservation takes the least count of blocks that allows the epoch, and nothing where it is allowed already. Else it is
        // refused in the order Broken, Device; the first leaves disk and file as they were, the second leaves the file broken.
        // Also: answers, refused, device, writes, ok.
        // Refuses: one_block_more, block_not_reserved.
        ensures stays { epoch ≤ bound_of (kept_of self.old).count → IsOk result × (self.new ≡ self.old) }
        ensures answers { bound_of (kept_of self.old).count < epoch → AnswersOr LeaseFault.Device (broken_refusal self.old) result }
        ensures refused { IsErrOf result LeaseFault.Broken → self.new ≡ self.old }
        ensures device { IsErrOf result LeaseFault.Device → kept_of self.new ≡ kept_of self.old }
        ensures writes { Writes D.state self.old self.new result }
        ensures ok { IsOk result → (epoch ≤ bound_of (kept_of self.new).count)
            × (kept_of self.new ≡ kept (max (kept_of self.old).count (epoch / 2 ^ 32)) (kept_of self.old).keeps) × (self.new.broken ≡ self.old.broken) }

        // Promise: While epochs are reserved, each image has what was there or what is there in the end; after `Ok` that alone, and nothing
        // is unsynced.
        // Also: lasts.
        // Refuses: block_not_reserved.
        ensures images { IsTrue (D.state self.old.disk).honest → IsFalse self.old.broken
            → IsOneOf (kept_of self.old) (kept (max (kept_of self.old).count (epoch / 2 ^ 32)) (kept_of self.old).keeps)
            (D.state self.old.disk) (D.state self.new.disk) }
        ensures lasts { IsTrue (D.state self.old.disk).honest → IsFalse self.old.broken → IsOk result
            → Lasts (kept_of self.new) (D.state self.new.disk) }
    {
        let block = block_of(epoch);
        if block <= self.count.value() {
            return Ok(());
        }
        if self.broken {
            return Err(LeaseFault::Broken);
        }
        self.take(block)
    }

    // Makes the count this one, which is greater.
    fn take(&mut self, count: u64) -> Result<(), LeaseFault>
        requires whole { IsFalse self.old.broken }
        requires greater { self.old.count.value < count }
        ensures answers { IsOk result ⊎ IsErrOf result LeaseFault.Device }
        ensures device { IsErrOf result LeaseFault.Device → kept_of self.new ≡ kept_of self.old }
        ensures writes { Writes D.state self.old self.new result }
        ensures ok { IsOk result → (kept_of self.new ≡ kept count self.old.keeps.value) × IsFalse self.new.broken }
        ensures images { IsTrue (D.state self.old.disk).honest
            → IsOneOf (kept_of self.old) (kept count self.old.keeps.value) (D.state self.old.disk) (D.state self.new.disk) }
        ensures lasts { IsTrue (D.state self.old.disk).honest → IsOk result
            → Lasts (kept_of self.new) (D.state self.new.disk) }
    {
        match self.count.raise_to(&mut self.disk, count) {
            Ok(()) => Ok(()),
            Err(_) => {
                self.broken = true;
                Err(LeaseFault::Device)
            }
        }
    }

    // Makes the time this one, where it is greater.
    fn keep(&mut self, keeps: u64) -> Result<(), LeaseFault>
        requires whole { IsFalse self.old.broken }
        ensures answers { IsOk result ⊎ IsErrOf result LeaseFault.Device }
        ensures device { IsErrOf result LeaseFault.Device → kept_of self.new ≡ kept_of self.old }
        ensures writes { Writes D.state self.old self.new result }
        ensures ok { IsOk result → (kept_of self.new ≡ kept self.old.count.value (max self.old.keeps.value keeps)) × IsFalse self.new.broken }
        ensures images { IsTrue (D.state self.old.disk).honest
            → IsOneOf (kept_of self.old) (kept self.old.count.value (max self.old.keeps.value keeps)) (D.state self.old.disk) (D.state self.new.disk) }
    {
        if keeps <= self.keeps.value() {
            return Ok(());
        }
        match self.keeps.raise_to(&mut self.disk, keeps) {
            Ok(()) => Ok(()),
            Err(_) => {
                self.broken = true;
                Err(LeaseFault::Device)
            }
        }
    }
}
