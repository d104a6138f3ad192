// What no clause says: how many device calls a call makes.
use sector_disk::{DiskFault, MemDisk, Sector, SectorDisk};
use slot_gate::{fill, look, seal, store, unseal};
use std::alloc::Global;
use std::process::Abort;

#[derive(Clone, Copy, Debug)]
enum Call {
    Unseal,
    Fill,
    Seal,
    Look,
    Store { sealed: bool },
}

// Makes this call for the slot in sectors 2 and 3.
fn make(rt: &impl Abort, disk: &mut MemDisk, call: Call) -> Result<Option<Sector>, DiskFault> {
    assert!(rt; disk.sectors() == 6);
    match call {
        Call::Unseal => unseal(disk, 2)?,
        Call::Fill => fill(disk, 2, &[0x37; 512])?,
        Call::Seal => seal(disk, 2)?,
        Call::Look => return look(disk, 2),
        Call::Store { sealed } => store(disk, 2, sealed, &[0x37; 512])?,
    }
    Ok(None)
}

// A disk of six sectors, on which the slot is sealed or unsealed.
fn disk_with(rt: &impl Abort, alloc: Global, sealed: bool) -> MemDisk {
    let mut disk = MemDisk::new(alloc, 6).expect(rt, "memory for a disk");
    if sealed {
        make(rt, &mut disk, Call::Store { sealed: false }).expect(rt, "a sealed slot");
    }
    disk
}

// Makes a call in so many device calls at most: whether it is done, and then no device call failed.
fn is_done_within(rt: &impl Abort, alloc: Global, sealed: bool, call: Call, calls: u64) -> bool {
    let mut disk = disk_with(rt, alloc, sealed);
    disk.arm(calls);
    let done = make(rt, &mut disk, call).is_ok();
    assert!(rt;
        (disk.failures() == 0) == done,
        "{call:?} with {calls} calls"
    );
    done
}

// The disk lets fewer calls pass, and then as many as are needed.
#[test]
fn device_calls(rt: HostRuntime) {
    for (sealed, call, calls) in [
        (false, Call::Unseal, 2),
        (false, Call::Fill, 2),
        (false, Call::Seal, 2),
        (false, Call::Look, 1),
        (true, Call::Look, 2),
        (false, Call::Store { sealed: false }, 4),
        (true, Call::Store { sealed: true }, 6),
    ] {
        for k in 0..=calls {
            let done = is_done_within(&rt, rt.alloc(), sealed, call, k);
            assert!(rt; done == (k == calls), "{call:?} with {k} calls");
        }
    }
}
