//! What can still be read of the slots of a store, also where some are damaged.

ghost use Rattle.std.specs.Prelude.{◌≡◌, ◌<◌, ◌≤◌, ◌+◌, ◌*◌, ◌^◌, ◌++◌, ◌∷◌, [], length, IfOk, IfSome, OnOk, ℕ};
ghost use Rattle.disk_layout.specs.Layout.{sectors_for};
ghost use Rattle.disk_layout.specs.declared.layout.TheConstants.{MOST_SLOTS};
ghost use Rattle.sector_disk.specs.Disk.{sector_at};
ghost use Rattle.slot_gate.specs.Slot.{slot_at};
ghost use Rattle.store_console.specs.Salvaged.{IsSealedTo, Reads, content_at, contents_from, is_whole, said_in, sure_area, sure_of, sure_value};

use crate::looking::{first_of, seen};
use crate::near_record::{readable, readable_number};
use crate::slot_content::{Said, SlotContent};
use crate::verifying::is_raised;
use disk_layout::Sector;
use job_model::Record;
use sector_disk::{MemDisk, SectorDisk};
use std::alloc::{AllocError, Global};

/// Where the present area begins, where the slots of the area cell leave no doubt of it.
pub fn sure_area(disk: &mut MemDisk, slots: u64) -> Result<Option<u64>, AllocError>
    requires on_disk { 8 ≤ length disk.old.contents }
    requires most { slots ≤ MOST_SLOTS }
    ensures found { IfOk result (λ area. area ≡ sure_area slots disk.old.contents) }
    ensures kept { disk.new.contents ≡ disk.old.contents }
{
    let (first, second) = (seen(disk, 4)?, seen(disk, 6)?);
    match sure_value(&first, &second) {
        None | Some(0) => Ok(None),
        Some(value) => Ok(Some(first_of(slots, value))),
    }
}

/// The value of a cell whose slots have these bodies, where they leave no doubt of it.
fn sure_value(first: &Option<Sector>, second: &Option<Sector>) -> Option<u64>
    ensures { result ≡ sure_value first.now second.now }
{
    match (first, second) {
        (None, None) => None,
        (Some(body), None) | (None, Some(body)) => readable_number(body),
        (Some(first), Some(second)) => sure_of(readable_number(first), readable_number(second)),
    }
}

fn sure_of(first: Option<u64>, second: Option<u64>) -> Option<u64>
    ensures { result ≡ sure_of first second }
{
    match (first, second) {
        (Some(a), Some(b)) if is_raised(a, b) => Some(a.max(b)),
        _ => None,
    }
}

/// What the slots of the area give that begins in this sector, or of both areas, up to the last that is sealed.
pub fn contents(
    alloc: Global,
    disk: &mut MemDisk,
    slots: u64,
    area: Option<u64>,
) -> Result<Vec<SlotContent>, AllocError>
    requires on_disk { sectors_for slots ≤ length disk.old.contents }
    requires most { slots ≤ MOST_SLOTS }
    requires area { IfSome area (λ first. first + 2 * slots ≤ sectors_for slots) }
    ensures read { IfOk result (λ contents. Reads slots disk.old.contents area contents.items) }
    ensures kept { disk.new.contents ≡ disk.old.contents }
{
    let mut contents = Vec::new(alloc);
    match area {
        Some(first) => push_contents(&mut contents, disk, first, slots)?,
        None => {
            push_contents(&mut contents, disk, 8, slots)?;
            push_contents(&mut contents, disk, 8 + 2 * slots, slots)?;
        }
    }
    Ok(contents)
}

/// Adds what the slots of an area give.
fn push_contents(
    contents: &mut Vec<SlotContent>,
    disk: &mut MemDisk,
    first: u64,
    slots: u64,
) -> Result<(), AllocError>
    requires on_disk { first + 2 * slots ≤ length disk.old.contents }
    requires fits { first + 2 * slots < 2 ^ 64 }
    ensures read { OnOk result ((end : ℕ) × IsSealedTo slots disk.old.contents first end
        × (contents.new.items ≡ contents.old.items ++ contents_from disk.old.contents first end)) }
    ensures kept { disk.new.contents ≡ disk.old.contents }
{
    for at in 0..sealed_to(disk, first, slots)? {
        push_content(contents, disk, first + 2 * at)?;
    }
    Ok(())
}

/// Adds what a slot gives.
fn push_content(
    contents: &mut Vec<SlotContent>,
    disk: &mut MemDisk,
    slot: u64,
) -> Result<(), AllocError>
    requires on_disk { slot + 2 ≤ length disk.old.contents }
    requires fits { slot + 2 < 2 ^ 64 }
    ensures read { OnOk result (contents.new.items ≡ contents.old.items ++ content_at disk.old.contents slot ∷ []) }
    ensures kept { disk.new.contents ≡ disk.old.contents }
{
    let whole = is_whole(&seen(disk, slot)?);
    let says = said_at(disk, slot)?;
    push_read(contents, slot, says, whole)
}

fn push_read(
    contents: &mut Vec<SlotContent>,
    sector: u64,
    says: Said,
    whole: bool,
) -> Result<(), AllocError>
    ensures { OnOk result (contents.new.items ≡ contents.old.items ++ (record { sector = sector; says = says; whole = whole }) ∷ []) }
{
    Ok(contents.push(SlotContent {
        sector,
        says,
        whole,
    })?)
}

/// How many slots there are up to the last that is sealed.
fn sealed_to(disk: &mut MemDisk, first: u64, slots: u64) -> Result<u64, AllocError>
    requires on_disk { first + 2 * slots ≤ length disk.old.contents }
    requires fits { first + 2 * slots < 2 ^ 64 }
    ensures found { IfOk result (λ end. IsSealedTo slots disk.old.contents first end) }
    ensures kept { disk.new.contents ≡ disk.old.contents }
{
    let mut end = 0;
    for at in 0..slots {
        if seen(disk, first + 2 * at)?.is_some() {
            end = at + 1;
        }
    }
    Ok(end)
}

/// What the body in a sector says of a job.
fn said_at(disk: &mut MemDisk, sector: u64) -> Result<Said, AllocError>
    requires { sector < length disk.old.contents }
    ensures found { IfOk result (λ said. said ≡ said_in (sector_at disk.old.contents sector)) }
    ensures kept { disk.new.contents ≡ disk.old.contents }
{
    let mut body = [0; 512];
    match disk.read(sector, &mut body) {
        Ok(()) => Ok(said_in(&body)),
        Err(_) => Err(AllocError),
    }
}

/// What a body says of a job.
fn said_in(body: &Sector) -> Said
    ensures { result ≡ said_in body.now }
{
    match readable(body) {
        Some(Record::Put(job)) | Some(Record::Keep(job)) => Said::Kept(job.id, job.work),
        Some(Record::Done(id)) => Said::Done(id),
        Some(Record::Base(_)) => Said::Nothing,
        None => Said::Unread,
    }
}

/// Whether a slot is sealed over a record.
fn is_whole(body: &Option<Sector>) -> bool
    ensures { result ≡ is_whole body.now }
{
    match body {
        Some(body) => Record::from_sector(body).is_some(),
        None => false,
    }
}
