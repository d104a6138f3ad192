//! The texts of faults.
use job_journal::JournalFault;
use node_store::StoreFault;
use safe_cell::CellFault;
use sector_disk::DiskFault;
use std::alloc::Global;
use std::fmt::Display;
use std::process::Abort;
use wire_msg::WireFault;

/// Expects that this is how a value is printed.
fn expect_text<T: Display>(rt: &impl Abort, alloc: Global, value: &T, want: &str) {
    let text = format!(in alloc; "{value}").expect(rt, "memory for a text");
    assert_eq!(rt; text.as_str(), want);
}

#[test]
fn faults_of_messages_and_disks(rt: HostRuntime) {
    for (fault, text) in [
        (WireFault::Malformed, "malformed"),
        (WireFault::NoMemory, "no memory"),
    ] {
        expect_text(&rt, rt.alloc(), &fault, text);
    }
    for (fault, text) in [
        (DiskFault::Device, "the device failed"),
        (DiskFault::OutOfRange, "the disk has no such sector"),
    ] {
        expect_text(&rt, rt.alloc(), &fault, text);
    }
}

#[test]
fn faults_of_cells(rt: HostRuntime) {
    for (fault, text) in [
        (CellFault::Device, "the device failed"),
        (CellFault::Broken, "the device failed earlier, mount again"),
        (CellFault::Exhausted, "the value is the greatest there is"),
        (CellFault::NotFormatted, "no slot is sealed"),
        (CellFault::Damaged(6), "the body in sector 6 is damaged"),
    ] {
        expect_text(&rt, rt.alloc(), &fault, text);
    }
}

#[test]
fn faults_of_journals(rt: HostRuntime) {
    for (fault, text) in [
        (JournalFault::Device, "the device failed"),
        (
            JournalFault::Broken,
            "the device failed earlier, mount again",
        ),
        (JournalFault::Exhausted, "no number is left"),
        (JournalFault::AreaExhausted, "no number is left"),
        (JournalFault::Damaged(6), "the body in sector 6 is damaged"),
        (JournalFault::Full, "the journal is full"),
        (JournalFault::NoSuchJob, "no such job is pending"),
        (JournalFault::NoMemory, "out of memory"),
    ] {
        expect_text(&rt, rt.alloc(), &fault, text);
    }
}

#[test]
fn faults_of_stores(rt: HostRuntime) {
    for (fault, text) in [
        (StoreFault::Device, "the device failed"),
        (StoreFault::NotFormatted, "the disk isn't formatted"),
        (StoreFault::Damaged(8), "the body in sector 8 is damaged"),
        (StoreFault::NoMemory, "out of memory"),
        (StoreFault::TooSmall, "the disk has too few sectors"),
    ] {
        expect_text(&rt, rt.alloc(), &fault, text);
    }
}
