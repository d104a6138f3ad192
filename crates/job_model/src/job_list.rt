//! Jobs in rows of 24 bytes, with their payloads in one list beside: a `Job` takes over 400 bytes, whatever its payload.

ghost use Rattle.std.specs.Prelude.{◌≡◌, ◌+◌, ◌*◌, ◌^◌, ◌<◌, ◌≤◌, [], ◌∷◌, ◌++◌, length, take, drop, map, slice_get, filter, not, ◌==◌, ◌&&◌, All, OnOk, OnErr, IfOk, IfSome, IsTrue, ◌↔◌, ℕ, List, vec_len, vec_capacity};
ghost use Rattle.std.specs.Iterator.{YieldsFirst, item_count};
ghost use Rattle.job_model.specs.Order.{IsInOrder};
ghost use Rattle.job_model.specs.Table.{IsPlaceOf};
ghost use Rattle.job_model.specs.Gaps.{beside, IsWithin};
ghost use Rattle.job_model.specs.JobLists.{kept_in, jobs_in, jobs_of, HasPayload, HasPlaces};
ghost use Rattle.job_model.specs.declared.gap.Gap.{Gap};
ghost use Rattle.job_model.specs.declared.job_list.PackedJob.{PackedJob};
ghost use Rattle.job_model.specs.declared.kept_job.KeptJob.{KeptJob};
ghost use Rattle.job_model.specs.declared.payload.TheConstants.{PAYLOAD_CAPACITY};

use crate::gap::{Gap, close, cut, item_at, sides, take_out};
use crate::job_ref::JobRef;
use crate::kept_job::KeptJob;
use crate::payload::PAYLOAD_CAPACITY;
use crate::queue::Queue;
use crate::work::Work;
use std::alloc::{AllocError, Global};
use std::marker::Model;
use std::mem::size_of;

// So many free rows among the jobs are left as they are.
const LEFT_FREE: usize = 8;

/// A job as it is kept: its payload has so many bytes, and begins at this place of all payloads.
#[derive(Clone, Copy, Debug)]
pub(crate) struct PackedJob {
    id: u64,
    start: usize,
    len: u16,
    queue: Queue,
    priority: u8,
    origin: u8,
}

// a walk over many jobs reads little
const _: () = prove!(size_of::<PackedJob>() == 24);

/// Jobs in the order in which they were put in, each with the number of the node that keeps it.
///
/// A job beside the last one that was taken out, or at the end, is taken out without a move of the others. What it leaves is used again
/// once as much is free as the jobs take, so each job pays for at most one move then. No call but [`JobList::with_room`] and
/// [`JobList::reserve`] takes memory.
#[derive(Debug, Drop)]
pub struct JobList {
    // The jobs stand in these rows beside the gap.
    rows: Vec<PackedJob>,
    gap: Gap,
    // Also the payloads of jobs that are taken out.
    payloads: Vec<u8>,
    room: usize,
}

impl Model for JobList {
    ghost use Rattle.std.specs.Prelude.{map};
    ghost use Rattle.job_model.specs.Gaps.{beside};
    ghost use Rattle.job_model.specs.JobLists.{JobRoom, IsTidy, kept_in};

    ghost Value = { JobRoom };

    ghost view = { λ a. record { jobs = map (kept_in a.payloads.items) (beside a.gap a.rows.items); room = a.room } };

    ghost invariant = { IsTidy };
}

impl JobList {
    /// No jobs, and no room.
    pub fn new(alloc: Global) -> JobList
        ensures { result ≡ record { jobs = []; room = 0 } }
    {
        JobList {
            rows: Vec::new(alloc),
            gap: Gap::none(),
            payloads: Vec::new(alloc),
            room: 0,
        }
    }

    /// No jobs, and room for so many.
    pub fn with_room(alloc: Global, room: usize) -> Result<JobList, AllocError>
        ensures { IfOk result (λ list. list ≡ record { jobs = []; room = room }) }
    {
        let mut list = JobList::new(alloc);
        list.grow(room)?;
        Ok(list)
    }

    /// How many jobs there are.
    #[inline]
    pub fn len(&self) -> usize
        ensures { result ≡ length self.now.jobs }
    {
        self.rows.len() - self.gap.width()
    }

    /// For how many jobs there is room.
    #[inline]
    pub fn room(&self) -> usize
        ensures { result ≡ self.now.room }
    {
        self.room
    }

    /// Makes room for so many jobs more than there are.
    pub fn reserve(&mut self, more: usize) -> Result<(), AllocError>
        ensures jobs { self.new.jobs ≡ self.old.jobs }
        ensures kept { self.old.room ≤ self.new.room }
        ensures room { OnOk result (length self.old.jobs + more ≤ self.new.room) }
        ensures refused { OnErr result ((0 < more) × (self.old.room < length self.old.jobs + more)) }
        ensures unchanged { OnErr result (self.new ≡ self.old) }
    {
        let Some(wanted) = self.len().checked_add(more) else {
            return Err(AllocError);
        };
        if wanted <= self.room {
            return Ok(());
        }
        if let Some(twice) = self.room.checked_mul(2) {
            if wanted < twice && self.grow(twice).is_ok() {
                return Ok(());
            }
        }
        self.grow(wanted)
    }

    // Makes room for so many jobs in all.
    #[inline(never)]
    fn grow(&mut self, room: usize) -> Result<(), AllocError>
        requires { self.old.room ≤ room }
        ensures ok { OnOk result (self.new ≡ record self.old { room = room }) }
        ensures unchanged { OnErr result (self.new ≡ self.old) }
    {
        let (Some(rows), Some(bytes)) = (
            room.checked_mul(2),
            room.checked_mul(3 * PAYLOAD_CAPACITY),
        ) else {
            return Err(AllocError);
        };
        self.rows.reserve_exact(rows)?;
        self.payloads.reserve_exact(bytes)?;
        self.room = room;
        Ok(())
    }

    /// Puts in one job more, behind the others, in the room that is there.
    pub fn push(&mut self, origin: u8, id: u64, work: &Work)
        requires { length self.old.jobs < self.old.room }
        // Promise: A list of jobs has each as it was put in, in that order, with the number of the node that keeps it; one is taken out
        // at its place, or all of an id and a node. In the room that is there no job is refused.
        // Also: JobList::new, JobList::with_room, JobList::len, JobList::room, JobList::reserve, JobList::remove, JobList::remove_all,
        // JobList::clear, JobList::set, JobList::fit, JobList::get, JobList::iter.
        // Refuses: payload_of_the_first_job, half_a_payload_kept, room_for_half_of_the_jobs, room_for_more_forgotten,
        // first_job_taken_out, job_of_every_node_taken_out, one_job_stays_in_the_list, no_list_of_seven_taken_over,
        // list_fitted_to_one_job, lent_at_half_its_place, last_jobs_not_lent, jobs_before_the_gap_not_lent, rows_taken_out_counted,
        // gap_one_place_too_narrow, items_before_the_gap_not_moved, room_is_the_number_of_jobs, room_from_the_start.
        ensures { self.new ≡ record self.old { jobs = self.old.jobs ++ (record { origin = origin; job = record { id = id; work = work.now } }) ∷ [] } }
    {
        self.put(
            origin,
            id,
            work.queue,
            work.priority,
            work.payload.as_slice(),
        );
    }

    // Puts in the job of these parts.
    fn put(&mut self, origin: u8, id: u64, queue: Queue, priority: u8, payload: &[u8])
        requires room { length self.old.jobs < self.old.room }
        requires fits { length payload.now ≤ PAYLOAD_CAPACITY }
        ensures { self.new ≡ record self.old { jobs = self.old.jobs ++ (record { origin = origin; job = record { id = id; work = record { queue = queue; priority = priority; payload = payload.now } } }) ∷ [] } }
    {
        make_place(&mut self.rows, &mut self.gap, &mut self.payloads, self.room);
        self.rows.push_reserved(PackedJob {
            id,
            start: self.payloads.len(),
            len: payload.len() as u16,
            queue,
            priority,
            origin,
        });
        let _ = self.payloads.extend_from_slice(payload);
    }

    /// Takes the job in this place out: the rows between it and the last place of which one was taken out move, or those behind it.
    pub fn remove(&mut self, place: usize)
        requires { place < length self.old.jobs }
        ensures { self.new ≡ record self.old { jobs = take place self.old.jobs ++ drop (place + 1) self.old.jobs } }
    {
        take_out(&mut self.rows, &mut self.gap, place);
    }

    /// Takes all jobs out. The room stays.
    pub fn clear(&mut self)
        ensures { self.new ≡ record self.old { jobs = [] } }
    {
        self.rows.clear();
        self.gap = Gap::none();
        self.payloads.clear();
    }

    /// Takes all jobs of this id out that this node keeps.
    pub fn remove_all(&mut self, origin: u8, id: u64)
        ensures { self.new ≡ record self.old { jobs = filter (λ (kept : KeptJob). not (kept.origin == origin && kept.job.id == id)) self.old.jobs } }
    {
        close(&mut self.rows, &mut self.gap);
        remove_rows(&mut self.rows, origin, id);
    }

    /// Takes over the jobs of another list in place of its own, in the room that is there.
    pub fn set(&mut self, other: &JobList)
        requires { length other.now.jobs ≤ self.old.room }
        ensures { self.new ≡ record self.old { jobs = other.now.jobs } }
    {
        self.clear();
        for kept in other.iter() {
            let job = &kept.job;
            self.put(
                kept.origin,
                job.id(),
                job.queue(),
                job.priority(),
                job.payload(),
            );
        }
    }

    /// Gives back the memory that room for more jobs takes.
    pub fn fit(&mut self)
        ensures { self.new ≡ record { jobs = self.old.jobs; room = length self.old.jobs } }
    {
        tidy(&mut self.rows, &mut self.gap, &mut self.payloads);
        self.room = self.rows.len();
        self.rows.shrink_to(2 * self.room);
        self.payloads.shrink_to(3 * PAYLOAD_CAPACITY * self.room);
    }

    /// The job at a place, counted from 0.
    #[inline]
    pub fn get(&self, place: usize) -> Option<KeptJob<'_>>
        ensures { result ≡ slice_get self.now.jobs place }
    {
        let (before, behind) = sides(&self.rows, self.gap);
        let row = item_at(before, behind, place)?;
        Some(lend(row, &self.payloads))
    }

    /// The jobs one after another.
    #[inline]
    pub fn iter(&self) -> KeptIter<'_>
        ensures { result ≡ self.now.jobs }
    {
        let (rows, behind) = sides(&self.rows, self.gap);
        KeptIter {
            rows,
            behind,
            payloads: &self.payloads,
        }
    }

    // Where the job of this id is, in a list whose ids rise.
    pub(crate) fn place_of(&self, id: u64) -> Option<usize>
        ensures { (next : ℕ) → IsInOrder (jobs_of self.now.jobs) next → IsPlaceOf (jobs_of self.now.jobs) id result }
    {
        let (before, behind) = sides(&self.rows, self.gap);
        place_beside(before, behind, id)
    }

    // Whether this id is above those of the jobs, in a list whose ids rise.
    pub(crate) fn is_above(&self, id: u64) -> bool
        ensures { (next : ℕ) → IsInOrder (jobs_of self.now.jobs) next → IsTrue result ↔ IsInOrder (jobs_of self.now.jobs) id }
    {
        let (before, behind) = sides(&self.rows, self.gap);
        is_above_beside(before, behind, id)
    }
}

// The job of a row, lent.
#[inline]
fn lend<'a>(row: &PackedJob, payloads: &'a [u8]) -> KeptJob<'a>
    requires { HasPayload (length payloads.now) row.now }
    ensures { result ≡ kept_in payloads.now row.now }
{
    KeptJob {
        origin: row.origin,
        job: JobRef {
            id: row.id,
            queue: row.queue,
            priority: row.priority,
            payload: &payloads[row.start..row.start + usize::from(row.len)],
        },
    }
}

// Sees to it that there is a place for one job more. Where there is none, or many rows in the gap are free, all that is kept of jobs that
// are taken out is given up.
fn make_place(rows: &mut Vec<PackedJob>, gap: &mut Gap, payloads: &mut Vec<u8>, room: usize)
    requires within { IsWithin gap.old (length rows.old.items) }
    requires read { All (HasPayload (length payloads.old.items)) (beside gap.old rows.old.items) }
    requires few { length (beside gap.old rows.old.items) < room }
    requires places { HasPlaces room (vec_capacity rows.old) (vec_capacity payloads.old) (vec_len payloads.old) }
    ensures jobs { map (kept_in payloads.new.items) (beside gap.new rows.new.items) ≡ map (kept_in payloads.old.items) (beside gap.old rows.old.items) }
    ensures within { IsWithin gap.new (length rows.new.items) }
    ensures read { All (HasPayload (length payloads.new.items)) (beside gap.new rows.new.items) }
    ensures place { vec_len rows.new < vec_capacity rows.new }
    ensures left { vec_len payloads.new + PAYLOAD_CAPACITY + PAYLOAD_CAPACITY * room ≤ vec_capacity payloads.new }
    ensures capacity { (vec_capacity rows.new ≡ vec_capacity rows.old) × (vec_capacity payloads.old ≤ vec_capacity payloads.new) }
{
    let free = gap.width();
    let jobs = rows.len() - free;
    let left = payloads.capacity() - payloads.len() - PAYLOAD_CAPACITY * room;
    let is_place = rows.len() < rows.capacity() && PAYLOAD_CAPACITY <= left;
    if is_place && 0 < jobs && free <= jobs.max(LEFT_FREE) {
        return;
    }
    tidy(rows, gap, payloads);
}

// Gives up all that is kept of jobs that are taken out.
fn tidy(rows: &mut Vec<PackedJob>, gap: &mut Gap, payloads: &mut Vec<u8>)
    requires within { IsWithin gap.old (length rows.old.items) }
    requires read { All (HasPayload (length payloads.old.items)) (beside gap.old rows.old.items) }
    requires spare { vec_len payloads.old + PAYLOAD_CAPACITY * length (beside gap.old rows.old.items) ≤ vec_capacity payloads.old }
    ensures jobs { map (kept_in payloads.new.items) rows.new.items ≡ map (kept_in payloads.old.items) (beside gap.old rows.old.items) }
    ensures gap { gap.new ≡ record { before = 0; behind = 0; moved = 0 } }
    ensures rows { length rows.new.items ≡ length (beside gap.old rows.old.items) }
    ensures read { All (HasPayload (length payloads.new.items)) rows.new.items }
    ensures few { vec_len payloads.new ≤ PAYLOAD_CAPACITY * length rows.new.items }
    ensures capacity { (vec_capacity rows.new ≡ vec_capacity rows.old) × (vec_capacity payloads.old ≤ vec_capacity payloads.new) }
{
    close(rows, gap);
    let old = payloads.len();
    repack(rows, payloads);
    cut(payloads, 0, old);
}

// Puts the payloads of the rows together once more behind all payloads, in the room that is there. Each row then says where its payload
// begins behind the old ones.
fn repack(rows: &mut Vec<PackedJob>, payloads: &mut Vec<u8>)
    requires read { All (HasPayload (length payloads.old.items)) rows.old.items }
    requires spare { vec_len payloads.old + PAYLOAD_CAPACITY * length rows.old.items ≤ vec_capacity payloads.old }
    ensures jobs { map (kept_in (drop (length payloads.old.items) payloads.new.items)) rows.new.items ≡ map (kept_in payloads.old.items) rows.old.items }
    ensures read { All (HasPayload (length (drop (length payloads.old.items) payloads.new.items))) rows.new.items }
    ensures few { vec_len payloads.new ≤ vec_len payloads.old + PAYLOAD_CAPACITY * length rows.new.items }
    ensures behind { length payloads.old.items ≤ length payloads.new.items }
    ensures rows { (length rows.new.items ≡ length rows.old.items) × (vec_capacity rows.new ≡ vec_capacity rows.old) }
    ensures capacity { vec_capacity payloads.old ≤ vec_capacity payloads.new }
{
    let old = payloads.len();
    for row in rows.iter_mut() {
        let start = payloads.len() - old;
        let _ = payloads.extend_from_within(row.start..row.start + usize::from(row.len));
        row.start = start;
    }
}

// Takes all rows of this id out that this node keeps.
fn remove_rows(rows: &mut Vec<PackedJob>, origin: u8, id: u64)
    ensures rows { rows.new.items ≡ filter (λ (row : PackedJob). not (row.origin == origin && row.id == id)) rows.old.items }
    ensures few { length rows.new.items ≤ length rows.old.items }
    ensures capacity { vec_capacity rows.new ≡ vec_capacity rows.old }
{
    rows.retain(|row| !(row.origin == origin && row.id == id));
}

// Where the row of this id is, among rows whose ids rise, of which these are before a gap, and those behind it.
fn place_beside(before: &[PackedJob], behind: &[PackedJob], id: u64) -> Option<usize>
    requires { length before.now + length behind.now < 2 ^ 64 }
    ensures { (payloads : List ℕ) (next : ℕ) → IsInOrder (jobs_in payloads (before.now ++ behind.now)) next → IsPlaceOf (jobs_in payloads (before.now ++ behind.now)) id result }
{
    if is_above(before, id) {
        Some(before.len() + place_of(behind, id)?)
    } else {
        place_of(before, id)
    }
}

// Whether this id is above those of the rows, which rise, of which these are before a gap, and those behind it.
fn is_above_beside(before: &[PackedJob], behind: &[PackedJob], id: u64) -> bool
    ensures { (payloads : List ℕ) (next : ℕ) → IsInOrder (jobs_in payloads (before.now ++ behind.now)) next → IsTrue result ↔ IsInOrder (jobs_in payloads (before.now ++ behind.now)) id }
{
    is_above(before, id) && is_above(behind, id)
}

// Where the row of this id is, among rows whose ids rise.
fn place_of(rows: &[PackedJob], id: u64) -> Option<usize>
    ensures within { IfSome result (λ at. at < length rows.now) }
    ensures place { (payloads : List ℕ) (next : ℕ) → IsInOrder (jobs_in payloads rows.now) next → IsPlaceOf (jobs_in payloads rows.now) id result }
{
    let place = rows.partition_point(|row| row.id < id);
    if place < rows.len() && rows[place].id == id {
        Some(place)
    } else {
        None
    }
}

// Whether this id is above those of the rows, which rise.
fn is_above(rows: &[PackedJob], id: u64) -> bool
    ensures { (payloads : List ℕ) (next : ℕ) → IsInOrder (jobs_in payloads rows.now) next → IsTrue result ↔ IsInOrder (jobs_in payloads rows.now) id }
{
    match rows.last() {
        None => true,
        Some(last) => last.id < id,
    }
}

/// The jobs of a list, from the first on.
#[derive(Debug, Drop)]
pub struct KeptIter<'a> {
    rows: &'a [PackedJob],
    // those that come then
    behind: &'a [PackedJob],
    payloads: &'a [u8],
}

impl<'a> Model for KeptIter<'a> {
    ghost use Rattle.std.specs.Prelude.{◌++◌, List, All, length, map};
    ghost use Rattle.job_model.specs.JobLists.{kept_in, HasPayload};
    ghost use Rattle.job_model.specs.declared.kept_job.KeptJob.{KeptJob};

    ghost Value = { List KeptJob };

    ghost view = { λ a. map (kept_in a.payloads.now) (a.rows.now ++ a.behind.now) };

    ghost invariant = { λ a. All (HasPayload (length a.payloads.now)) (a.rows.now ++ a.behind.now) };
}

impl<'a> Iterator for KeptIter<'a> {
    type Item = KeptJob<'a>;

    ghost next_gives = { YieldsFirst (λ s. s) };

    ghost remaining = { item_count (λ s. s) };

    #[inline]
    fn next(&mut self) -> Option<KeptJob<'a>> {
        if self.rows.is_empty() {
            self.rows = self.behind;
            self.behind = &[];
        }
        let (row, rest) = self.rows.split_first()?;
        self.rows = rest;
        Some(lend(row, self.payloads))
    }
}
