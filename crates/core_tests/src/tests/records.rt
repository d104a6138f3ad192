use job_model::{Job, Payload, Queue, Record, Work};
use sector_disk::Sector;
use std::process::Abort;

// A job, or none where there is no such queue or the bytes are too many.
fn job(id: u64, number: u8, priority: u8, bytes: &[u8]) -> Option<Job> {
    let queue = Queue::new(number)?;
    let payload = Payload::new(bytes)?;
    let work = Work {
        queue,
        priority,
        payload,
    };
    Some(Job { id, work })
}

// A sector that begins with these bytes, with zeros behind them.
fn sector(bytes: &[u8]) -> Sector {
    let mut sector = [0; 512];
    for at in 0..bytes.len().min(512) {
        sector[at] = bytes[at];
    }
    sector
}

fn check_both_ways(rt: &impl Abort, record: &Record, bytes: &[u8]) {
    assert!(rt; record.to_sector() == sector(bytes));
    check_read(rt, bytes, record);
}

fn check_read(rt: &impl Abort, bytes: &[u8], record: &Record) {
    assert!(rt; Record::from_sector(&sector(bytes)) == Some(*record));
}

#[test]
fn record_vectors(rt: HostRuntime) {
    if let Some(job) = job(1, 1, 7, b"b") {
        check_both_ways(
            &rt,
            &Record::Put(job),
            &[5, 0, 0, 0, 0, 0, 0, 0, 1, 1, 7, 0, 1, 0x62],
        );
    } else {
        assert!(rt; false, "no job");
    }
    check_both_ways(&rt, &Record::Done(0), &[2]);
    check_both_ways(&rt, &Record::Base(3), &[3, 0, 0, 0, 0, 0, 0, 0, 3]);
    if let Some(job) = job(1, 0, 0, b"b") {
        check_both_ways(
            &rt,
            &Record::Keep(job),
            &[6, 0, 0, 0, 0, 0, 0, 0, 1, 0, 0, 0, 1, 0x62],
        );
    } else {
        assert!(rt; false, "no job");
    }
}

#[test]
fn old_records_are_read(rt: HostRuntime) {
    if let (Some(put), Some(keep)) = (job(0, 1, 0, b"hi"), job(1, 0, 0, b"b")) {
        check_read(
            &rt,
            &[1, 0, 0, 0, 0, 0, 0, 0, 0, 1, 0, 2, 0x68, 0x69],
            &Record::Put(put),
        );
        check_read(
            &rt,
            &[4, 0, 0, 0, 0, 0, 0, 0, 1, 0, 0, 1, 0x62],
            &Record::Keep(keep),
        );
    } else {
        assert!(rt; false, "no job");
    }
}

#[test]
fn no_records(rt: HostRuntime) {
    // No kind, an unknown kind, queue 16, length 401, and bytes behind a number and behind a payload.
    let others: [&[u8]; 9] = [
        &[],
        &[7],
        &[1, 0, 0, 0, 0, 0, 0, 0, 0, 16],
        &[1, 0, 0, 0, 0, 0, 0, 0, 0, 1, 1, 0x91],
        &[2, 0, 0, 0, 0, 0, 0, 0, 0, 1],
        &[4, 0, 0, 0, 0, 0, 0, 0, 1, 0, 0, 1, 0x62, 1],
        &[5, 0, 0, 0, 0, 0, 0, 0, 0, 16],
        &[5, 0, 0, 0, 0, 0, 0, 0, 0, 1, 0, 1, 0x91],
        &[6, 0, 0, 0, 0, 0, 0, 0, 1, 0, 7, 0, 1, 0x62, 1],
    ];
    for bytes in others {
        assert!(rt; Record::from_sector(&sector(bytes)) == None);
    }
}
