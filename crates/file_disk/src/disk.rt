// A disk of sectors over a file.
ghost use Rattle.std.specs.Prelude.{◌≡◌, ◌≤◌, ◌<◌, ◌↔◌, ◌*◌, ◌/◌, ◌^◌, IsOk, IsErrOf, IsErrAnd, IfOk, IfErr, IsOkUnless, IsTrue, false, true};
ghost use Rattle.sector_disk.specs.Disk.{Counts, Touches, AllSynced, nothing, sector_at};
ghost use Rattle.sector_disk.specs.Memory.{risen};
ghost use Rattle.sector_disk.specs.declared.fault.DiskFault.TheVariants.{Device, OutOfRange};
ghost use Rattle.file_disk.specs.declared.stride.Stride.TheVariants.{Packed};
ghost use Rattle.file_disk.specs.File.{state_of, unfailed, bytes_of, laws};
ghost use Rattle.file_disk.specs.Open.{IsNoRoom};

use crate::fault::OpenFault;
use crate::making::{Existing, made, opened, too_long};
use crate::places::{expect_whole, overwrite, read_at};
use crate::stride::Stride;
use sector_disk::{DiskFault, Sector, SectorDisk};
use std::fs::{File, Files};
use std::io;
use std::marker::Model;
use std::path::AsPath;

/// Of a store so many sectors hold its cells, a body in each even one.
const CELL_SECTORS: u64 = 8;

/// A disk over a file: sector `at` is the 512 bytes of the file from `at` times the stride on.
///
/// It is never honest: no contract says what a file gives back or what a crash leaves of it. The file stays open and locked until the disk is
/// dropped, which syncs nothing.
///
/// A file that became shorter than it was is refused at the next write. One that was removed is, too, where one of the first eight sectors is
/// read, as by each mounting of a store, or where one of the even ones is written, as by each raise of a cell.
///
/// A write or a sync that fails makes the disk *spent*: each later call on one of its sectors, and each sync, is `Device` with no call of the
/// system. What the system then did with data that it hadn't written out isn't known, and a later sync may answer that all is well.
#[derive(Debug, Drop)]
pub struct FileDisk {
    pub(crate) file: File,
    sectors: u64,
    stride: Stride,
    pub(crate) spent: bool,
    failures: u64,
    // How many bytes the file had when it was opened or made, its label among them.
    pub(crate) length: u64,
    // What the system said at the first call that failed.
    why: Option<io::Error>,
}

impl Model for FileDisk {
    ghost use Rattle.std.specs.Prelude.{◌*◌, ◌<◌, ◌^◌};
    ghost use Rattle.file_disk.specs.File.{FileState, bytes_of};

    ghost Value = { FileState };

    ghost view = { λ disk. record { sectors = disk.sectors; stride = disk.stride; spent = disk.spent; failures = disk.failures } };

    ghost invariant = { λ disk. disk.sectors * bytes_of disk.stride < 2 ^ 64 };
}

impl FileDisk {
    /// Makes a file of zeros, in place of one that is there, and keeps it open. The file and the folder that holds it are synced. Refused where
    /// the file can't be made, locked, written or synced. A file that is locked, or no regular file, is left as it was, and so is one where
    /// the length asked for can't be had; a refusal that comes later leaves one that nothing is known of. A file that was made here is removed.
    pub fn create<P: AsPath>(
        rt: &impl Files<File = File>,
        path: P,
        sectors: u64,
    ) -> Result<FileDisk, OpenFault>
        // Promise: A disk that was made has as many sectors as were asked for, at the stride asked for; it isn't spent, and no call
        // of it has failed.
        // Also: FileDisk::create_new.
        // Refuses: length_wraps, rounded_up.
        ensures ok { IfOk result (λ disk. disk ≡ unfailed sectors Packed) }

        // No file is so long.
        // Promise: A length of 2^63 bytes or more is refused as `NoRoom`.
        // Also: FileDisk::create_new.
        // Refuses: length_wraps, long_file_tried.
        ensures too_long { 2 ^ 63 ≤ sectors * 512 → IsErrAnd result IsNoRoom }
    {
        let length = length_of(sectors, Stride::Packed)?;
        let file = made(rt, path, length, Existing::Replaced)?;
        Ok(over(file, length, Stride::Packed))
    }

    /// As [`FileDisk::create`], with sectors so far apart, and only where there is nothing of this name: else `Exists`, and what is there is left
    /// as it was. Where it is refused later, what it made is removed.
    pub fn create_new<P: AsPath>(
        rt: &impl Files<File = File>,
        path: P,
        sectors: u64,
        stride: Stride,
    ) -> Result<FileDisk, OpenFault>
        ensures ok { IfOk result (λ disk. disk ≡ unfailed sectors stride) }
        ensures too_long { 2 ^ 63 ≤ sectors * bytes_of stride → IsErrAnd result IsNoRoom }
    {
        let length = length_of(sectors, stride)?;
        let file = made(rt, path, length, Existing::Refused)?;
        Ok(over(file, length, stride))
    }

    /// Opens a file as a disk of the whole sectors that it has: 512 bytes each, and what is left at its end belongs to none. Refused where the
    /// file can't be opened to read and write, or be locked, or its length isn't known.
    pub fn open<P: AsPath>(rt: &impl Files<File = File>, path: P) -> Result<FileDisk, OpenFault>
        // Promise: A disk that was opened has the stride asked for, isn't spent, and no call of it has failed.
        // Also: FileDisk::open_with.
        ensures ok { IfOk result (λ disk. disk ≡ unfailed disk.sectors Packed) }
    {
        FileDisk::open_with(rt, path, Stride::Packed)
    }

    /// As [`FileDisk::open`], with sectors so far apart: as far as they were when the file was made.
    pub fn open_with<P: AsPath>(
        rt: &impl Files<File = File>,
        path: P,
        stride: Stride,
    ) -> Result<FileDisk, OpenFault>
        ensures ok { IfOk result (λ disk. disk ≡ unfailed disk.sectors stride) }
    {
        let file = opened(rt, path)?;
        let length = file.metadata()?.len();
        Ok(over(file, length, stride))
    }

    /// What the system said at the first call that failed; none where no call has, and where the file was at fault without the system.
    pub fn why(&self) -> Option<io::Error> {
        self.why
    }

    /// How far apart its sectors lie.
    pub fn stride(&self) -> Stride
        ensures { result ≡ self.now.stride }
    {
        self.stride
    }

    // Where the last sector ends.
    pub(crate) fn end(&self) -> u64 {
        self.sectors * self.stride.bytes()
    }

    // Keeps what the system said, of the first call that failed.
    fn note<T: Drop>(&mut self, done: io::Result<T>) -> io::Result<T>
        ensures unchanged { self.new ≡ self.old }
        ensures same { result ≡ done }
    {
        if let (Err(error), None) = (&done, self.why) {
            self.why = Some(*error);
        }
        done
    }

    // Counts a call that failed.
    pub(crate) fn fail(&mut self) -> Result<(), DiskFault>
        ensures device { IsErrOf result Device }
        ensures counted { self.new ≡ record self.old { failures = risen self.old.failures } }
    {
        self.failures = self.failures.saturating_add(1);
        Err(DiskFault::Device)
    }

    // What a write or a sync answers: after one that failed the disk is spent.
    pub(crate) fn answer(&mut self, done: io::Result<()>) -> Result<(), DiskFault>
        ensures done { IsOk result ↔ IsOk done }
        ensures device { IsOkUnless result Device }
        ensures ok { IsOk result → self.new ≡ self.old }
        ensures failed { IsErrOf result Device → self.new ≡ record self.old { spent = true; failures = risen self.old.failures } }
    {
        if self.note(done).is_err() {
            self.spent = true;
            return self.fail();
        }
        Ok(())
    }

    fn read_from(&mut self, at: u64, place: u64, into: &mut Sector) -> io::Result<()>
        ensures { self.new ≡ self.old }
    {
        let done = self.read_there(at, place, into);
        self.note(done)
    }

    fn read_there(&self, at: u64, place: u64, into: &mut Sector) -> io::Result<()> {
        if at < CELL_SECTORS {
            expect_whole(&self.file, self.length)?;
        }
        read_at(&self.file, place, into)
    }

    fn write_there(&self, at: u64, place: u64, from: &Sector) -> io::Result<()> {
        if at < CELL_SECTORS && at % 2 == 0 {
            expect_whole(&self.file, self.length)?;
        }
        overwrite(&self.file, self.length, place, from)
    }
}

impl SectorDisk for FileDisk {
    // Promise: It is never honest: the clauses on contents and images claim nothing of it.
    ghost state = { state_of };

    ghost laws = { λ disk honest. laws disk honest };

    // Promise: `sectors` and `failures` answer what the contracts speak of.
    // Also: FileDisk::failures.
    fn sectors(&self) -> u64 {
        self.sectors
    }

    fn failures(&self) -> u64 {
        self.failures
    }

    fn read(&mut self, at: u64, into: &mut Sector) -> Result<(), DiskFault>
        // Promise: Each `Device` raises the count of failures by one, and it stays at its greatest value; an `Ok` changes nothing;
        // no call changes the sectors or the stride.
        // Also: ok, failed, FileDisk::write, FileDisk::sync, FileDisk::set_label.
        // Refuses: device_fault_without_failure.
        ensures counts { Counts (state_of self.old) (state_of self.new) (IsErrOf result Device) (IsOk result) }
        // Promise: `OutOfRange` comes exactly where the sector isn't below `sectors`, and then nothing is counted; `sync` never
        // answers it.
        // Also: unchanged, FileDisk::write, FileDisk::sync.
        // Refuses: read_past_the_end, out_of_range_counted.
        ensures refused { IsErrOf result OutOfRange ↔ (self.old.sectors ≤ at) }
        ensures unchanged { IsErrOf result OutOfRange → self.new ≡ self.old }
        ensures touches { IsTrue false → Touches nothing (state_of self.old) (state_of self.new) }
        ensures gives { IsTrue false → IsOk result → into.new ≡ sector_at (state_of self.old).contents at }

        // A read that fails leaves the disk as fit for use as it was.
        // Promise: On a spent disk each read and write of one of its sectors, and each sync, is `Device`.
        // Also: FileDisk::write, FileDisk::sync.
        // Refuses: spent_disk_read.
        ensures spent { IsTrue self.old.spent → at < self.old.sectors → IsErrOf result Device }
        ensures ok { IsOk result → self.new ≡ self.old }
        ensures failed { IsErrOf result Device → self.new ≡ record self.old { failures = risen self.old.failures } }
    {
        if at >= self.sectors {
            return Err(DiskFault::OutOfRange);
        }
        let place = at * self.stride.bytes();
        if self.spent || self.read_from(at, place, into).is_err() {
            return self.fail();
        }
        Ok(())
    }

    fn write(&mut self, at: u64, from: &Sector) -> Result<(), DiskFault>
        ensures counts { Counts (state_of self.old) (state_of self.new) (IsErrOf result Device) (IsOk result) }
        ensures refused { IsErrOf result OutOfRange ↔ (self.old.sectors ≤ at) }
        ensures unchanged { IsErrOf result OutOfRange → self.new ≡ self.old }
        ensures touches { IsTrue false → Touches (λ k. k ≡ at) (state_of self.old) (state_of self.new) }
        ensures gives { IsTrue false → IsOk result → sector_at (state_of self.new).contents at ≡ from.now }

        // Each write that fails is counted once, and spends the disk.
        ensures spent { IsTrue self.old.spent → at < self.old.sectors → IsErrOf result Device }
        // Promise: Once a write, a sync or a `set_label` has failed, and only then, the disk is spent.
        // Also: FileDisk::sync, FileDisk::set_label, FileDisk::read.
        // Refuses: failure_leaves_the_disk_fit.
        ensures ok { IsOk result → self.new ≡ self.old }
        ensures failed { IsErrOf result Device → self.new ≡ record self.old { spent = true; failures = risen self.old.failures } }
    {
        if self.sectors <= at {
            return Err(DiskFault::OutOfRange);
        }
        if self.spent {
            return self.fail();
        }
        let place = at * self.stride.bytes();
        let done = self.write_there(at, place, from);
        self.answer(done)
    }

    /// Asks for all data to be written out, and waits for the answer.
    fn sync(&mut self) -> Result<(), DiskFault>
        ensures counts { Counts (state_of self.old) (state_of self.new) (IsErrOf result Device) (IsOk result) }
        ensures refused { IsErrOf result OutOfRange ↔ ⊥ }
        ensures touches { IsTrue false → Touches nothing (state_of self.old) (state_of self.new) }
        ensures syncs_all { IsTrue false → IsOk result → AllSynced (state_of self.new) }

        // Each sync that fails is counted once, and spends the disk.
        ensures spent { IsTrue self.old.spent → IsErrOf result Device }
        ensures ok { IsOk result → self.new ≡ self.old }
        ensures failed { IsErrOf result Device → self.new ≡ record self.old { spent = true; failures = risen self.old.failures } }
    {
        if self.spent {
            return self.fail();
        }
        let done = self.file.sync_data();
        self.answer(done)
    }

    /// Leaves it to the next sync: no call of the system.
    fn sync_later(&mut self) -> Result<(), DiskFault>
        ensures counts { Counts (state_of self.old) (state_of self.new) (IsErrOf result Device) (IsOk result) }
        ensures refused { IsErrOf result OutOfRange ↔ ⊥ }
        ensures touches { IsTrue false → Touches nothing (state_of self.old) (state_of self.new) }

        // Promise: A sync that is left to the next one is `Device` exactly where the disk is spent, and an `Ok` changes nothing.
        // Also: ok, failed.
        // Refuses: spent_disk_leaves_a_sync, left_sync_spends_the_disk.
        ensures spent { IsTrue self.old.spent ↔ IsErrOf result Device }
        ensures ok { IsOk result → self.new ≡ self.old }
        ensures failed { IsErrOf result Device → self.new ≡ record self.old { failures = risen self.old.failures } }
    {
        if self.spent { self.fail() } else { Ok(()) }
    }
}

// How many bytes so many sectors take, so far apart.
fn length_of(sectors: u64, stride: Stride) -> Result<u64, OpenFault>
    ensures ok { IfOk result (λ length. length ≡ sectors * bytes_of stride) }
    ensures err { IfErr result IsNoRoom }
{
    let Some(length) = sectors.checked_mul(stride.bytes()) else {
        return Err(too_long());
    };
    Ok(length)
}

// The disk over an open file of this length.
pub fn over(file: File, length: u64, stride: Stride) -> FileDisk
    ensures { result ≡ unfailed (length / bytes_of stride) stride }
{
    FileDisk {
        file,
        sectors: length / stride.bytes(),
        stride,
        spent: false,
        failures: 0,
        length,
        why: None,
    }
}
