// What no clause says: how many device calls a call makes, and whole runs with stops and crashes.
ghost use Rattle.std.specs.Prelude.{◌<◌};

use safe_cell::{CellFault, format, mount};
use sector_disk::{MemDisk, Sector, SectorDisk};
use std::alloc::Global;
use std::process::Abort;

// The cell of these tests is in sectors 4 to 7 of a disk of 24.
fn format_within(rt: &impl Abort, disk: &mut MemDisk, calls: u64) -> Result<(), CellFault> {
    assert!(rt; disk.sectors() == 24);
    disk.arm(calls);
    format(disk, 4, 2)
}

fn mounted_value(rt: &impl Abort, disk: &mut MemDisk) -> Result<u64, CellFault> {
    assert!(rt; disk.sectors() == 24);
    Ok(mount(disk, 4)?.value())
}

// Mounts, and raises in so many device calls at most.
fn raise_within(rt: &impl Abort, disk: &mut MemDisk, calls: u64) -> Result<u64, CellFault> {
    assert!(rt; disk.sectors() == 24);
    disk.arm(u64::MAX);
    let mut cell = mount(disk, 4)?;
    disk.arm(calls);
    cell.raise(disk)
}

// The same to this value, which is greater.
fn raise_to_within(
    rt: &impl Abort,
    disk: &mut MemDisk,
    value: u64,
    calls: u64,
) -> Result<(), CellFault> {
    assert!(rt; disk.sectors() == 24);
    disk.arm(u64::MAX);
    let mut cell = mount(disk, 4)?;
    disk.arm(calls);
    assert!(rt; cell.value() < value);
    cell.raise_to(disk, value)
}

// Mounts and raises in so many device calls at most: the value that was mounted, and what the raise
// answered.
fn mount_and_raise_within(
    rt: &impl Abort,
    disk: &mut MemDisk,
    calls: u64,
) -> Result<(u64, Result<u64, CellFault>), CellFault> {
    assert!(rt; disk.sectors() == 24);
    disk.arm(calls);
    let mut cell = mount(disk, 4)?;
    Ok((cell.value(), cell.raise(disk)))
}

// A disk whose cell was formatted with 0 and then raised so many times.
fn raised(rt: &impl Abort, alloc: Global, raises: u64) -> MemDisk {
    let mut disk = MemDisk::new(alloc, 24).expect(rt, "memory for a disk");
    assert!(rt; disk.sectors() == 24);
    format(&mut disk, 4, 0).expect(rt, "a formatted cell");
    for _ in 0..raises {
        raise_within(rt, &mut disk, 6).expect(rt, "a raised cell");
    }
    disk
}

fn seal_over(rt: &impl Abort, disk: &mut MemDisk, slot: u64, body: &Sector)
    requires { slot < 7 }
{
    assert!(rt; disk.sectors() == 24);
    slot_gate::store(disk, slot, false, body).expect(rt, "a sealed slot");
}

// What a raise answers that was stopped, what a mounting gave then, and what the next raise answered.
type Stopped = (Result<u64, CellFault>, u64, u64);

// Raises over this value in so many device calls at most, crashes, mounts and raises.
fn stop(rt: &impl Abort, alloc: Global, before: u64, calls: u64, fill: &[u8]) -> Stopped {
    let mut disk = raised(rt, alloc, before);
    let answer = raise_within(rt, &mut disk, calls);
    disk.crash(fill);
    let value = mounted_value(rt, &mut disk).expect(rt, "a mounted cell");
    let next = raise_within(rt, &mut disk, 6).expect(rt, "a raised cell");
    (answer, value, next)
}

fn expect_stopped(
    rt: &impl Abort,
    alloc: Global,
    before: u64,
    calls: u64,
    fill: &[u8],
    want: Stopped,
) {
    let actual = stop(rt, alloc, before, calls, fill);
    assert!(rt; actual == want, "{calls} calls from {before}");
}

// From 0 a raise takes four device calls, over a slot that is sealed six. Its last two write and
// sync the gate: a crash after either of them keeps the raise where it leaves 0xA5 there.
#[test]
fn raise_stopped_at_each_call(rt: HostRuntime) {
    for (before, after, next, gate, calls) in [(0, 1, 2, 2, 4), (1, 2, 3, 4, 6)] {
        for (fill, seals) in [
            (&[][..], false),
            (&[0xa5][..], true),
            (&[0x37; 512][..], false),
        ] {
            for k in 0..=calls {
                let answer = if k < calls {
                    Err(CellFault::Device)
                } else {
                    Ok(after)
                };
                let want = if k == calls || (seals && k >= gate) {
                    (answer, after, next)
                } else {
                    (answer, before, after)
                };
                expect_stopped(&rt, rt.alloc(), before, k, fill, want);
            }
        }
    }
}

// A raise to a greater value leaves that one or the value before it, and mounting shows which.
#[test]
fn raised_past_the_next_value(rt: HostRuntime) {
    for (calls, value) in [(0, 1), (5, 1), (6, 9)] {
        let mut disk = raised(&rt, rt.alloc(), 1);
        let answer = raise_to_within(&rt, &mut disk, 9, calls);
        assert!(rt; answer.is_ok() == (calls == 6));
        disk.crash(&[]);
        assert!(rt; mounted_value(&rt, &mut disk) == Ok(value), "{calls} calls");
    }
}

#[test]
fn greatest_count(rt: HostRuntime) {
    let mut disk = raised(&rt, rt.alloc(), 0);
    let mut greatest = [0; 512];
    greatest[..8].fill(0xff);
    seal_over(&rt, &mut disk, 6, &greatest);
    assert!(rt;
        mount_and_raise_within(&rt, &mut disk, 4)
            == Ok((18446744073709551615, Err(CellFault::Exhausted)))
    );
    assert!(rt; disk.failures() == 0);
}

// The first mounting takes four calls, since both slots are sealed, and the others three. The first raise stops when
// slot A is unsealed and its body is written, and a crash leaves that body torn. The second stops at its first call, which is the write of that body and not of the
// gate: so the crash can't seal the slot.
#[test]
fn unsealed_slot_stays(rt: HostRuntime) {
    let mut disk = raised(&rt, rt.alloc(), 1);
    for (calls, answer, fill) in [
        (7, Err(CellFault::Device), &[0xff; 512][..]),
        (3, Err(CellFault::Device), &[0xa5][..]),
        (7, Ok(2), &[][..]),
    ] {
        let actual = mount_and_raise_within(&rt, &mut disk, calls);
        assert!(rt; actual == Ok((1, answer)), "{calls} calls");
        disk.crash(fill);
    }
}

// Mounts in so many device calls at most: whether that was enough. It is known once the disk fails no more.
fn is_mounted_within(rt: &impl Abort, alloc: Global, value: u64, calls: u64) -> bool {
    let mut disk = raised(rt, alloc, value);
    disk.arm(calls);
    let answer = mounted_value(rt, &mut disk);
    let is_whole = disk.failures() == 0;
    let want = if is_whole {
        Ok(value)
    } else {
        Err(CellFault::Device)
    };
    assert_eq!(rt; answer, want);
    disk.crash(&[]);
    assert_eq!(rt; mounted_value(rt, &mut disk), Ok(value));
    is_whole
}

// Three calls where the second slot is unsealed, four where both are sealed.
#[test]
fn mounting_fails_at_each_call(rt: HostRuntime) {
    for (value, calls) in [(0, 3), (1, 4)] {
        for k in 0..=calls {
            let is_mounted = is_mounted_within(&rt, rt.alloc(), value, k);
            assert!(rt; is_mounted == (k == calls), "{k} calls");
        }
    }
}

// Whether a cell is formatted in so many device calls, or else the device is said to have failed.
fn is_formatted_within(rt: &impl Abort, alloc: Global, calls: u64) -> bool {
    let mut disk = raised(rt, alloc, 1);
    match format_within(rt, &mut disk, calls) {
        Ok(()) => true,
        Err(CellFault::Device) => false,
        Err(fault) => panic!(rt; "{fault}"),
    }
}

#[test]
fn formatting_fails_at_each_call(rt: HostRuntime) {
    for k in 0..=8 {
        assert!(rt;
            is_formatted_within(&rt, rt.alloc(), k) == (k == 8),
            "{k} calls"
        );
    }
}
