// What no clause says: how many device calls a mounting makes, that the sizes are the layout's, and whole runs.
ghost use Rattle.std.specs.Prelude.{IfOk};
ghost use Rattle.sector_disk.specs.Memory.{state_of};
ghost use Rattle.job_journal.specs.Journal.{IsSound};
ghost use Rattle.node_store.specs.Store.{slots_for};

use job_journal::JournalFault;
use job_model::{Payload, Queue, Work};
use node_store::{MountFault, NodeStore, StoreFault, format};
use sector_disk::MemDisk;
use std::alloc::Global;
use std::process::Abort;

// A disk of so many sectors with an empty store.
fn formatted(alloc: Global, sectors: u64) -> Result<MemDisk, StoreFault>
    ensures { IfOk result (λ disk. IsSound (slots_for (state_of disk).sectors) (state_of disk)) }
{
    let Ok(mut disk) = MemDisk::new(alloc, sectors) else {
        return Err(StoreFault::NoMemory);
    };
    format(&mut disk)?;
    Ok(disk)
}

fn mounted(alloc: Global, disk: MemDisk) -> Result<NodeStore<MemDisk>, StoreFault>
    requires { IsSound (slots_for (state_of disk).sectors) (state_of disk) }
    ensures { IfOk result (λ store. IsSound store.journal.slots (state_of store.disk)) }
{
    match NodeStore::mount(alloc, disk) {
        Ok(store) => Ok(store),
        Err(refused) => Err(refused.fault),
    }
}

fn opened(rt: &impl Abort, alloc: Global, sectors: u64) -> NodeStore<MemDisk>
    ensures { IsSound result.journal.slots (state_of result.disk) }
{
    let disk = formatted(alloc, sectors).expect(rt, "a formatted disk");
    mounted(alloc, disk).expect(rt, "a mounted store")
}

// A call of a store. A put is of a job of two bytes.
#[derive(Clone, Copy, Debug)]
enum Call {
    Put,
    Raise,
    Compact,
}

fn work(rt: &impl Abort) -> Work {
    Work {
        queue: Queue::new(1).expect(rt, "a queue"),
        priority: 7,
        payload: Payload::new(b"hi").expect(rt, "a payload"),
    }
}

// Makes a call. A compaction that is done answers 0.
fn make(rt: &impl Abort, store: &mut NodeStore<MemDisk>, call: Call) -> Result<u64, JournalFault>
    requires { IsSound store.old.journal.slots (state_of store.old.disk) }
    ensures { IsSound store.new.journal.slots (state_of store.new.disk) }
{
    match call {
        Call::Put => store.put(work(rt)),
        Call::Raise => store.raise(),
        Call::Compact => compact(store),
    }
}

fn compact(store: &mut NodeStore<MemDisk>) -> Result<u64, JournalFault>
    requires { IsSound store.old.journal.slots (state_of store.old.disk) }
    ensures { IsSound store.new.journal.slots (state_of store.new.disk) }
{
    match store.compact() {
        Ok(()) => Ok(0),
        Err(fault) => Err(fault),
    }
}

// A call and its answer.
type Row = (Call, Result<u64, JournalFault>);

// Opens an empty store of so many sectors, makes these calls, and compares their answers.
fn after(rt: &impl Abort, alloc: Global, sectors: u64, rows: &[Row]) -> NodeStore<MemDisk> {
    let mut store = opened(rt, alloc, sectors);
    for (call, want) in rows {
        let actual = make(rt, &mut store, *call);
        assert!(rt; actual == *want, "{call:?}");
    }
    store
}

// The fault of a mounting, if it is refused.
fn refusal(alloc: Global, disk: MemDisk) -> Option<StoreFault> {
    mount(alloc, disk).err().map(|refused| refused.fault)
}

fn mount(alloc: Global, disk: MemDisk) -> Result<NodeStore<MemDisk>, MountFault<MemDisk>> {
    NodeStore::mount(alloc, disk)
}

fn new_disk(rt: &impl Abort, alloc: Global, sectors: u64) -> MemDisk {
    MemDisk::new(alloc, sectors).expect(rt, "memory for a disk")
}

// The counter, the next id and how many jobs are pending, or why a disk isn't mounted.
type Mounting = Result<(u64, u64, usize), StoreFault>;

// What a disk mounts as.
fn mounts_as(alloc: Global, disk: MemDisk) -> Mounting {
    let store = match mount(alloc, disk) {
        Ok(store) => store,
        Err(refused) => return Err(refused.fault),
    };
    let table = store.table();
    Ok((store.counter(), table.next(), table.pending().len()))
}

// Formats in so many device calls at most, and crashes.
fn formatted_within(disk: &mut MemDisk, calls: u64, fill: &[u8]) -> Result<(), StoreFault> {
    disk.arm(calls);
    let answer = format(disk);
    disk.crash(fill);
    answer
}

// Of 24 sectors an area has four slots: two jobs, a Base and a Done fit.
#[test]
fn smallest_disk(rt: HostRuntime) {
    let mut small = new_disk(&rt, rt.alloc(), 23);
    let answer = formatted_within(&mut small, 0, &[]);
    assert!(rt; answer == Err(StoreFault::TooSmall));
    assert!(rt; refusal(rt.alloc(), small) == Some(StoreFault::TooSmall));
    let zeros = new_disk(&rt, rt.alloc(), 24);
    assert!(rt; refusal(rt.alloc(), zeros) == Some(StoreFault::NotFormatted));
    after(
        &rt,
        rt.alloc(),
        24,
        &[
            (Call::Put, Ok(0)),
            (Call::Put, Ok(1)),
            (Call::Put, Err(JournalFault::Full)),
        ],
    );
}

// Formats a new disk in so many device calls at most, and crashes: whether the formatting is done, and what the disk mounts as.
fn stopped_on_a_new_disk(
    rt: &impl Abort,
    alloc: Global,
    calls: u64,
    fill: &[u8],
) -> (bool, Mounting) {
    let mut disk = new_disk(rt, alloc, 24);
    let answer = formatted_within(&mut disk, calls, fill);
    (answer.is_ok(), mounts_as(alloc, disk))
}

// Eight writes and a sync unseal the gates of both areas; eight calls format the area cell and eight the counter. Cut off,
// a new disk isn't formatted, unless a gate of the counter was torn shut: over a body of zeros that is a counter of 0.
#[test]
fn format_stopped_at_each_call(rt: HostRuntime) {
    for (fill, seals) in [(&[][..], false), (&[0xa5][..], true)] {
        for k in 0..=25 {
            let torn = seals && (k >= 17 && k <= 20 || k >= 23);
            let want = if k == 25 || torn {
                Ok((0, 0, 0))
            } else {
                Err(StoreFault::NotFormatted)
            };
            let actual = stopped_on_a_new_disk(&rt, rt.alloc(), k, fill);
            assert!(rt; actual == (k == 25, want), "{k} calls");
        }
    }
}

// A disk whose counter is 2, in slot A over a 1 in slot B, and on which one job is pending.
fn used(rt: &impl Abort, alloc: Global) -> MemDisk {
    let rows = [
        (Call::Put, Ok(0)),
        (Call::Raise, Ok(1)),
        (Call::Raise, Ok(2)),
    ];
    after(rt, alloc, 24, &rows).into_disk()
}

// The same of a disk in use, where the crash leaves nothing over.
fn stopped_on_a_used_disk(rt: &impl Abort, alloc: Global, calls: u64) -> (bool, Mounting) {
    let mut disk = used(rt, alloc);
    let answer = formatted_within(&mut disk, calls, &[]);
    (answer.is_ok(), mounts_as(alloc, disk))
}

// What is mounted of a disk in use that was being formatted again, and stopped after so many calls.
fn left_after(calls: u64) -> Mounting {
    match calls {
        0..=8 => Ok((2, 1, 1)),
        9 | 10 | 17 | 18 => Ok((2, 0, 0)),
        11..=16 => Err(StoreFault::Damaged(5)),
        19 | 20 => Ok((1, 0, 0)),
        21..=24 => Err(StoreFault::NotFormatted),
        _ => Ok((0, 0, 0)),
    }
}

// A disk in use isn't to be formatted: cut off, it may have lost its jobs and not its counter, its area cell, both, or have
// an older counter, which slot B still holds once slot A is unsealed.
#[test]
fn used_disk_formatted_again(rt: HostRuntime) {
    for k in 0..=25 {
        let actual = stopped_on_a_used_disk(&rt, rt.alloc(), k);
        assert!(rt; actual == (k == 25, left_after(k)), "{k} calls");
    }
}

// Areas of 4,096 slots, the most there are: the second one ends in the last sector.
#[test]
fn greatest_disk(rt: HostRuntime) {
    let rows = [
        (Call::Put, Ok(0)),
        (Call::Compact, Ok(0)),
        (Call::Put, Ok(1)),
    ];
    let mut disk = after(&rt, rt.alloc(), 16392, &rows).into_disk();
    disk.crash(&[]);
    assert!(rt; mounts_as(rt.alloc(), disk) == Ok((0, 2, 2)));
}

// Mounts a disk whose counter was raised in so many device calls at most, and then with enough of them: whether the first was enough.
fn is_mounted_within(rt: &impl Abort, alloc: Global, calls: u64) -> bool {
    let mut disk = after(rt, alloc, 24, &[(Call::Raise, Ok(1))]).into_disk();
    disk.arm(calls);
    let (fault, mut disk) = match mount(alloc, disk) {
        Ok(store) => (None, store.into_disk()),
        Err(refused) => (Some(refused.fault), refused.disk),
    };
    assert!(rt; matches!(fault, None | Some(StoreFault::Device)));
    disk.arm(9);
    assert!(rt; refusal(alloc, disk).is_none());
    fault.is_none()
}

// A sync; sectors 1, 0, 3 and 2 of the counter; 5, 4 and 7 of the area cell; and the gate in sector 9.
#[test]
fn mounting_fails_at_each_call(rt: HostRuntime) {
    for k in 0..=9 {
        let is_mounted = is_mounted_within(&rt, rt.alloc(), k);
        assert!(rt; is_mounted == (k == 9), "{k} calls");
    }
}
