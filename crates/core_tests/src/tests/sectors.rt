use sector_disk::{DiskFault, MemDisk, Sector, SectorDisk};
use std::alloc::Global;
use std::process::Abort;

const DEVICE: Result<(), DiskFault> = Err(DiskFault::Device);

fn new_disk(rt: &impl Abort, alloc: Global, sectors: u64) -> MemDisk {
    MemDisk::new(alloc, sectors).expect(rt, "memory for a disk")
}

// Writes a sector of one byte, over and over.
fn put(disk: &mut MemDisk, at: u64, byte: u8) -> Result<(), DiskFault> {
    disk.write(at, &[byte; 512])
}

fn sync(disk: &mut MemDisk) -> Result<(), DiskFault> {
    disk.sync()
}

fn check_sector(rt: &impl Abort, disk: &mut MemDisk, at: u64, want: &Sector) {
    let mut sector = [0xee; 512];
    let answer = disk.read(at, &mut sector);
    assert!(rt; answer.is_ok() && sector == *want, "sector {at}");
}

// The first bytes are of one value, and the others of another.
fn two_parts(first: u8, count: usize, other: u8) -> Sector {
    let mut sector = [other; 512];
    for at in 0..count.min(512) {
        sector[at] = first;
    }
    sector
}

const GREATEST: u64 = 16392;

// Writes each sector and reads it, and then syncs.
fn write_all(rt: &impl Abort, disk: &mut MemDisk, round: u8) {
    for at in 0..GREATEST {
        let byte = ((at % 100) as u8).wrapping_add(round);
        put(disk, at, byte).expect(rt, "a written sector");
        check_sector(rt, disk, at, &[byte; 512]);
    }
    sync(disk).expect(rt, "a synced disk");
}

// The greatest disk that a store uses: each of its sectors is written twice, with a sync after each round, and read.
#[test]
fn every_call_of_a_great_disk_passes(rt: HostRuntime) {
    let mut disk = new_disk(&rt, rt.alloc(), GREATEST);
    disk.arm(5 * GREATEST + 2);
    write_all(&rt, &mut disk, 1);
    write_all(&rt, &mut disk, 2);
    for at in 0..GREATEST {
        check_sector(&rt, &mut disk, at, &[(at % 100) as u8 + 2; 512]);
    }
    assert!(rt; disk.armed() == Some(0) && disk.failures() == 0);
    check_torn_end(&rt, &mut disk);
}

// A sync that fails after a write that failed takes the last sector alone back.
fn check_torn_end(rt: &impl Abort, disk: &mut MemDisk) {
    assert!(rt; put(disk, GREATEST - 1, 0x11) == DEVICE);
    assert!(rt; sync(disk) == DEVICE);
    disk.crash(&[0x37; 512]);
    assert!(rt; disk.armed().is_none());
    check_sector(rt, disk, GREATEST - 1, &[0x37; 512]);
    check_sector(rt, disk, GREATEST - 2, &[92; 512]);
}

// Of three sectors that were 0x11, the first and the last were written over twice since.
fn overwritten(rt: &impl Abort, alloc: Global) -> MemDisk {
    let mut disk = new_disk(rt, alloc, 3);
    for at in 0..3 {
        put(&mut disk, at, 0x11).expect(rt, "a written sector");
    }
    sync(&mut disk).expect(rt, "a synced disk");
    for (at, byte) in [(2, 0x22), (0, 0x22), (2, 0x33), (0, 0x33)] {
        put(&mut disk, at, byte).expect(rt, "a written sector");
    }
    disk
}

// Crashes with a fill of so many bytes, of which the first ones go to sector 0, and the next ones to sector 2.
fn check_fill(rt: &impl Abort, disk: &mut MemDisk, fill: &[u8], first: usize, second: usize) {
    check_sector(rt, disk, 2, &[0x33; 512]);
    disk.crash(fill);
    check_sector(rt, disk, 0, &two_parts(0xa5, first, 0x11));
    check_sector(rt, disk, 1, &[0x11; 512]);
    check_sector(rt, disk, 2, &two_parts(0xa5, second, 0x11));

    // What the crash left is synced.
    disk.crash(&[0xee; 1536]);
    check_sector(rt, disk, 0, &two_parts(0xa5, first, 0x11));
}

// Sectors 0 and 2 of three are unsynced: each was 0x11, then 0x22, then 0x33. Of a fill the first
// 512 bytes go to sector 0 and the next ones to sector 2, over 0x11.
#[test]
fn fill_of_a_crash(rt: HostRuntime) {
    let longest = [0xa5; 2048];
    for (bytes, first, second) in [
        (0, 0, 0),
        (1, 1, 0),
        (511, 511, 0),
        (512, 512, 0),
        (513, 512, 1),
        (612, 512, 100),
        (1024, 512, 512),
        (1025, 512, 512),
        (2048, 512, 512),
    ] {
        let mut disk = overwritten(&rt, rt.alloc());
        let fill = longest.get(..bytes).expect(&rt, "so many bytes");
        check_fill(&rt, &mut disk, fill, first, second);
    }
}
