// What no clause says: how many device calls a call makes, that the definitions of a journal mean its layout, and
// whole runs with stops and crashes.
ghost use Rattle.std.specs.Prelude.{◌<◌};

use job_journal::{JournalFault, format, mount};
use job_model::{Command, Job, Payload, Queue, Record, Work};
use sector_disk::{MemDisk, Sector, SectorDisk};
use std::alloc::Global;
use std::process::Abort;

// A disk of 24 sectors with an empty journal, four slots in each area.
fn formatted(rt: &impl Abort, alloc: Global) -> MemDisk {
    let mut disk = MemDisk::new(alloc, 24).expect(rt, "memory for a disk");
    assert!(rt; disk.sectors() == 24);
    format(&mut disk, 4).expect(rt, "a formatted disk");
    disk
}

fn job(rt: &impl Abort, id: u64) -> Job {
    let queue = Queue::new(1).expect(rt, "a queue");
    let payload = Payload::new(b"hi").expect(rt, "a payload");
    let work = Work {
        queue,
        priority: 7,
        payload,
    };
    Job { id, work }
}

fn put(rt: &impl Abort) -> Command {
    let job = job(rt, 0);
    Command::Put(job.work)
}

fn seal_over(rt: &impl Abort, disk: &mut MemDisk, slot: u64, record: &Record)
    requires { slot < 23 }
{
    seal_body(rt, disk, slot, &record.to_sector());
}

fn seal_body(rt: &impl Abort, disk: &mut MemDisk, slot: u64, body: &Sector)
    requires { slot < 23 }
{
    disk.arm(u64::MAX);
    assert!(rt; disk.sectors() == 24);
    slot_gate::store(disk, slot, false, body).expect(rt, "a sealed slot");
}

// A sector that begins with these bytes, with zeros behind them.
fn sector(bytes: &[u8]) -> Sector {
    let mut sector = [0; 512];
    for at in 0..bytes.len().min(512) {
        sector[at] = bytes[at];
    }
    sector
}

fn check_sector(rt: &impl Abort, disk: &mut MemDisk, at: u64, bytes: &[u8])
    requires { at < 24 }
{
    assert!(rt; disk.sectors() == 24);
    let mut actual = [0; 512];
    disk.arm(u64::MAX);
    disk.read(at, &mut actual).expect(rt, "a sector");
    assert!(rt; actual == sector(bytes), "sector {at}");
}

// Mounts, and finds these jobs pending.
fn check_jobs(rt: &impl Abort, alloc: Global, disk: &mut MemDisk, next: u64, jobs: &[Job]) {
    assert!(rt; disk.sectors() == 24);
    disk.arm(u64::MAX);
    let journal = mount(alloc, disk, 4).expect(rt, "a mounted journal");
    let table = journal.table();
    let pending = table.pending();
    assert!(rt; table.next() == next && pending.len() == jobs.len());
    for at in 0..jobs.len() {
        let job = pending.get(at).expect(rt, "a pending job");
        assert!(rt; job.to_job() == jobs[at]);
    }
}

// Mounts in so many device calls at most: the next id, and how many jobs are pending.
fn mounted_within(
    rt: &impl Abort,
    alloc: Global,
    disk: &mut MemDisk,
    calls: u64,
) -> Result<(u64, usize), JournalFault> {
    assert!(rt; disk.sectors() == 24);
    disk.arm(calls);
    let journal = mount(alloc, disk, 4)?;
    let table = journal.table();
    Ok((table.next(), table.pending().len()))
}

// A call of a journal. A put is of a job of two bytes.
#[derive(Clone, Copy, Debug)]
enum Call {
    Put,
    Done(u64),
    Compact,
}

// Mounts, and makes a call in so many device calls at most. A compaction that is done answers 0.
fn call_within(
    rt: &impl Abort,
    alloc: Global,
    disk: &mut MemDisk,
    call: Call,
    calls: u64,
) -> Result<u64, JournalFault> {
    assert!(rt; disk.sectors() == 24);
    disk.arm(u64::MAX);
    let mut journal = mount(alloc, disk, 4)?;
    disk.arm(calls);
    let command = match call {
        Call::Put => put(rt),
        Call::Done(id) => Command::Done(id),
        Call::Compact => {
            journal.compact(disk)?;
            return Ok(0);
        }
    };
    journal.append(disk, command)
}

// A call, in how many device calls, and its answer.
type Row = (Call, u64, Result<u64, JournalFault>);

// Makes these calls, each after a mounting, and compares their answers.
fn run(rt: &impl Abort, alloc: Global, disk: &mut MemDisk, rows: &[Row]) {
    for (call, calls, want) in rows {
        let actual = call_within(rt, alloc, disk, *call, *calls);
        assert!(rt; actual == *want, "{call:?}");
    }
}

fn seal_greatest_area(rt: &impl Abort, disk: &mut MemDisk) {
    disk.arm(u64::MAX);
    assert!(rt; disk.sectors() == 24);
    let mut greatest = [0; 512];
    greatest[..8].copy_from_slice(&[0xff; 8]);
    slot_gate::store(disk, 6, false, &greatest).expect(rt, "a sealed slot");
}

// Crashes and mounts: the next id and how many jobs are pending.
fn crashed(rt: &impl Abort, alloc: Global, disk: &mut MemDisk, fill: &[u8]) -> (u64, usize) {
    disk.crash(fill);
    mounted_within(rt, alloc, disk, u64::MAX).expect(rt, "a mounted journal")
}

#[test]
fn put_with_another_id(rt: HostRuntime) {
    let mut disk = formatted(&rt, rt.alloc());
    seal_over(&rt, &mut disk, 8, &Record::Put(job(&rt, 1)));
    let mounted = mounted_within(&rt, rt.alloc(), &mut disk, u64::MAX);
    assert!(rt; mounted == Err(JournalFault::Damaged(8)));
}

// The journal of area 0 begins with the greatest next id there is, and one job was kept.
#[test]
fn no_id_left(rt: HostRuntime) {
    let mut disk = formatted(&rt, rt.alloc());
    seal_over(&rt, &mut disk, 8, &Record::Base(18446744073709551615));
    seal_over(&rt, &mut disk, 10, &Record::Keep(job(&rt, 7)));
    let exhausted = (Call::Put, 0, Err(JournalFault::Exhausted));
    run(&rt, rt.alloc(), &mut disk, &[exhausted]);
    assert!(rt; disk.failures() == 0);
    run(&rt, rt.alloc(), &mut disk, &[(Call::Done(7), 4, Ok(7))]);
}

// Four records stand in the four slots, and jobs 1 and 2 are pending.
fn with_no_free_slot(rt: &impl Abort, alloc: Global) -> MemDisk {
    let mut disk = formatted(rt, alloc);
    run(
        rt,
        alloc,
        &mut disk,
        &[
            (Call::Put, 4, Ok(0)),
            (Call::Put, 4, Ok(1)),
            (Call::Done(0), 4, Ok(0)),
            (Call::Put, 4, Ok(2)),
        ],
    );
    disk
}

// Takes job 1 out of a journal with no free slot, in so many device calls at most, crashes and mounts: whether it is done, the next id and how many
// jobs are pending.
fn stopped_compaction(
    rt: &impl Abort,
    alloc: Global,
    calls: u64,
    fill: &[u8],
) -> (bool, u64, usize) {
    let mut disk = with_no_free_slot(rt, alloc);
    let answer = call_within(rt, alloc, &mut disk, Call::Done(1), calls);
    assert!(rt; matches!(answer, Ok(1) | Err(JournalFault::Device)));
    let (next, pending) = crashed(rt, alloc, &mut disk, fill);
    (answer.is_ok(), next, pending)
}

// Eight calls unseal the other area, six fill a Base and two Keeps, six seal them, four raise the area cell over its
// unsealed slot, and the last four are those of the Done: only a gate that is left sealed there keeps it.
#[test]
fn stops_in_a_compaction(rt: HostRuntime) {
    for (fill, seals) in [
        (&[][..], false),
        (&[0xa5][..], true),
        (&[0x37; 512][..], false),
        (&[0xff; 512][..], false),
    ] {
        for k in 0..=28 {
            let pending = if k == 28 || (seals && k >= 26) { 1 } else { 2 };
            let actual = stopped_compaction(&rt, rt.alloc(), k, fill);
            assert!(rt; actual == (k == 28, 3, pending), "{k} calls");
        }
    }
}

const BASE_3: [u8; 9] = [3, 0, 0, 0, 0, 0, 0, 0, 3];

// A disk from before jobs had priorities: area 0 holds Base 3, and Keep of id 1, queue 0 and payload `62`.
fn old_disk(rt: &impl Abort, alloc: Global) -> MemDisk {
    let mut disk = formatted(rt, alloc);
    let keep = [4, 0, 0, 0, 0, 0, 0, 0, 1, 0, 0, 1, 0x62];
    seal_body(rt, &mut disk, 8, &sector(&BASE_3));
    seal_body(rt, &mut disk, 10, &sector(&keep));
    disk
}

// Its job, which has no priority.
fn old_job(rt: &impl Abort) -> Job {
    let work = Work {
        queue: Queue::new(0).expect(rt, "a queue"),
        priority: 0,
        payload: Payload::new(b"b").expect(rt, "a payload"),
    };
    Job { id: 1, work }
}

#[test]
fn old_disk_is_compacted(rt: HostRuntime) {
    let mut disk = old_disk(&rt, rt.alloc());
    check_jobs(&rt, rt.alloc(), &mut disk, 3, &[old_job(&rt)]);
    run(&rt, rt.alloc(), &mut disk, &[(Call::Compact, 20, Ok(0))]);
    let keep = [6, 0, 0, 0, 0, 0, 0, 0, 1, 0, 0, 0, 1, 0x62];
    check_sector(&rt, &mut disk, 16, &BASE_3);
    check_sector(&rt, &mut disk, 18, &keep);
    check_jobs(&rt, rt.alloc(), &mut disk, 3, &[old_job(&rt)]);
}

// Compacts an old disk in so many device calls at most, crashes, and finds its job: whether the compaction is done.
fn stopped_on_an_old_disk(rt: &impl Abort, alloc: Global, calls: u64, fill: &[u8]) -> bool {
    let mut disk = old_disk(rt, alloc);
    let answer = call_within(rt, alloc, &mut disk, Call::Compact, calls);
    disk.crash(fill);
    check_jobs(rt, alloc, &mut disk, 3, &[old_job(rt)]);
    answer.is_ok()
}

// Eight calls unseal the other area, four fill a Base and a Keep, four seal them, and four raise the area cell.
#[test]
fn stops_on_an_old_disk(rt: HostRuntime) {
    for fill in [
        &[][..],
        &[0xa5][..],
        &[0x37; 512][..],
        &[0xff; 512][..],
        &[0xa5; 4096][..],
    ] {
        for k in 0..=20 {
            let is_done = stopped_on_an_old_disk(&rt, rt.alloc(), k, fill);
            assert!(rt; is_done == (k == 20), "{k} calls");
        }
    }
}

// Slot B of the area cell has the greatest value there is, which is odd: no compaction any more.
#[test]
fn no_compaction_left(rt: HostRuntime) {
    let mut disk = with_no_free_slot(&rt, rt.alloc());
    seal_greatest_area(&rt, &mut disk);
    run(
        &rt,
        rt.alloc(),
        &mut disk,
        &[
            (Call::Put, 0, Err(JournalFault::Full)),
            (Call::Done(1), 0, Err(JournalFault::AreaExhausted)),
            (Call::Compact, 0, Err(JournalFault::AreaExhausted)),
        ],
    );
}
