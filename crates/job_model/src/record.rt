ghost use Rattle.std.specs.Prelude.{◌≡◌, ◌⊎◌, ◌<◌, ◌≤◌, ◌+◌, ◌^◌, ◌++◌, ◌∷◌, take, drop, get_or, length, List, ℕ, Some, None};
ghost use Rattle.std.specs.Int.{to_be_bytes, w64, w16};
ghost use Rattle.job_model.specs.Records.{record_of, bytes_of, job_of, job_at, number_of, id_in, length_in, job_bytes, number_bytes, AllBytes, IsOld, IsOldOf, IsOldJob, old_job_bytes};

use crate::job::Job;
use crate::payload::{PAYLOAD_CAPACITY, Payload};
use crate::queue::Queue;
use crate::work::Work;
use disk_layout::{Sector, is_blank};

const OLD_PUT: u8 = 1;

const DONE: u8 = 2;

const BASE: u8 = 3;

const OLD_KEEP: u8 = 4;

const PUT: u8 = 5;

const KEEP: u8 = 6;

/// What one slot of a journal says of the jobs.
#[derive(Clone, Copy, Debug, PartialEq, Eq)]
pub enum Record {
    /// A job became pending. It took the next id.
    Put(Job),
    /// The job of this id is done.
    Done(u64),
    /// A journal begins whose next id is this one.
    Base(u64),
    /// A job was pending when the journal began.
    Keep(Job),
}

impl Record {
    /// The sector of a record: its kind in one byte, numbers with the greatest byte first, and zeros to the end.
    #[tactic(auto, unfolding(crate::specs::Records::record_of))]
    pub fn to_sector(&self) -> Sector
        // Promise: A record's sector is the bytes of the table of records, and reads back as that record.
        // Also: read_back.
        // Refuses: wrong_length_written, base_written_as_done, id_of_seven_bytes.
        ensures bytes { result ≡ bytes_of self.now }
        ensures read_back { record_of result ≡ Some self.now }
    {
        match self {
            Record::Put(job) => job_sector(PUT, job),
            Record::Done(id) => number_sector(DONE, *id),
            Record::Base(next) => number_sector(BASE, *next),
            Record::Keep(job) => job_sector(KEEP, job),
        }
    }

    /// The record of a sector, if it is one.
    ///
    /// Disks that were written before jobs had priorities have other kinds of record, whose jobs have priority 0:
    /// they are read, and never written.
    #[tactic(auto, unfolding(crate::specs::Records::record_of))]
    pub fn from_sector(sector: &Sector) -> Option<Record>
        // Promise: A sector is at most one record: reading it gives exactly what `record_of` says.
        // Refuses: keep_read_as_put, bytes_behind_number_taken.
        ensures { result ≡ record_of sector.now }
    {
        match sector[0] {
            OLD_PUT => job_at(sector, 10, 0).map(Record::Put),
            DONE => number_in(sector).map(Record::Done),
            BASE => number_in(sector).map(Record::Base),
            OLD_KEEP => job_at(sector, 10, 0).map(Record::Keep),
            PUT => job_at(sector, 11, sector[10]).map(Record::Put),
            KEEP => job_at(sector, 11, sector[10]).map(Record::Keep),
            _ => None,
        }
    }
}

/// A sector that reads as a record is the one that [`Record::to_sector`] writes for it, or an old one, which isn't
/// written any more and whose job has priority 0: of each record there is one sector of each age.
pub fn one_sector()
    // Promise: A record is one sector, or an old one whose job has priority 0; no old one is written, and each job of priority 0 is
    // read from its old ones.
    // Also: old_records.
    // Refuses: old_record_with_priority_1.
    ensures one { (sector : List ℕ) (r : Record) → length sector ≡ 512 → AllBytes sector
        → record_of sector ≡ Some r → (sector ≡ bytes_of r) ⊎ IsOldOf sector r }
    ensures not_written { (written : Record) → IsOld (bytes_of written) → ⊥ }
{}

/// A disk from before jobs had priorities is read: each job of priority 0 has an old sector for its Put and one for
/// its Keep.
pub fn old_records()
    ensures { (job : Job) → IsOldJob job
        → (record_of (old_job_bytes 1 job) ≡ Some (Record.Put job)) × (record_of (old_job_bytes 4 job) ≡ Some (Record.Keep job)) }
{}

fn number_sector(kind: u8, number: u64) -> Sector
    ensures bytes { result ≡ number_bytes kind number }
    ensures kind { get_or result 0 0 ≡ kind }
    ensures number { number_of result ≡ Some number }
    ensures fits { number < 2 ^ 64 }
{
    let mut sector = [0; 512];
    sector[0] = kind;
    place(&mut sector, 1, &number.to_be_bytes());
    sector
}

fn job_sector(kind: u8, job: &Job) -> Sector
    ensures bytes { result ≡ job_bytes kind job.now }
    ensures kind { get_or result 0 0 ≡ kind }
    ensures job { job_of result ≡ Some job.now }
{
    let bytes = job.work.payload.as_slice();
    let mut sector = number_sector(kind, job.id);
    sector[9] = job.work.queue.number();
    sector[10] = job.work.priority;
    place(&mut sector, 11, &(bytes.len() as u16).to_be_bytes());
    place(&mut sector, 13, bytes);
    sector
}

// Writes these bytes into a sector.
fn place(sector: &mut Sector, at: usize, bytes: &[u8])
    requires { at + length bytes.now ≤ 512 }
    ensures { sector.new ≡ take at sector.old ++ bytes.now ++ drop (at + length bytes.now) sector.old }
{
    sector[at..at + bytes.len()].copy_from_slice(bytes);
}

// The number behind the kind, if nothing else follows.
#[tactic(auto, unfolding(crate::specs::Records::number_of))]
fn number_in(sector: &Sector) -> Option<u64>
    ensures { result ≡ number_of sector.now }
{
    if is_blank(sector, 9) {
        Some(id_in(sector))
    } else {
        None
    }
}

// The job behind the kind, if nothing else follows: of this priority, its length and its payload from a place on.
fn job_at(sector: &Sector, at: usize, priority: u8) -> Option<Job>
    requires { at ≤ 11 }
    ensures { result ≡ job_at at priority sector.now }
{
    let queue = Queue::new(sector[9])?;
    let len = length_in(sector, at);
    let from = at + 2;
    if len > PAYLOAD_CAPACITY || !is_blank(sector, from + len) {
        return None;
    }
    let payload = Payload::new(&sector[from..from + len])?;
    let work = Work {
        queue,
        priority,
        payload,
    };
    Some(Job {
        id: id_in(sector),
        work,
    })
}

fn id_in(sector: &Sector) -> u64
    ensures { result ≡ id_in sector.now }
{
    u64::from_be_bytes([
        sector[1], sector[2], sector[3], sector[4], sector[5], sector[6], sector[7], sector[8],
    ])
}

fn length_in(sector: &Sector, at: usize) -> usize
    requires { at ≤ 11 }
    ensures { result ≡ length_in at sector.now }
{
    u16::from_be_bytes([sector[at], sector[at + 1]]) as usize
}
