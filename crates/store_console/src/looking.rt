//! What a disk holds, part by part. Want of memory is answered also where the disk fails: one in memory fails for nothing else.

ghost use Rattle.std.specs.Prelude.{◌≡◌, ◌<◌, ◌≤◌, ◌+◌, ◌*◌, ◌^◌, length, IfOk};
ghost use Rattle.disk_layout.specs.Layout.{sectors_for};
ghost use Rattle.disk_layout.specs.declared.layout.TheConstants.{LEAST_SLOTS, MOST_SLOTS};
ghost use Rattle.slot_gate.specs.Slot.{slot_at};
ghost use Rattle.safe_cell.specs.Cell.{cell_at};
ghost use Rattle.job_journal.specs.Areas.{first_of, sealed_prefix, slots_from};
ghost use Rattle.store_console.specs.Held.{counter_of, found_in, is_label, is_marked, journal_of, label_for, labelled, owner_of, used_in};

use crate::copying::label_in;
use crate::found::{Counter, Owner};
use disk_layout::Sector;
use file_disk::{LABEL, Stride, mark_in, marked_label, slots_in};
use job_journal::{JobJournal, JournalFault};
use safe_cell::CellFault;
use sector_disk::MemDisk;
use slot_gate::look;
use std::alloc::{AllocError, Global};

/// Whose a file with these bytes is.
pub fn owner_of(bytes: &[u8]) -> Owner
    ensures { result ≡ owner_of bytes.now }
{
    match label_in(bytes) {
        Some(label) => labelled(label),
        None => Owner::Store,
    }
}

/// Whose a file with this label is.
fn labelled(label: [u8; LABEL]) -> Owner
    ensures { result ≡ labelled label }
{
    if is_label(label, label[9], label[10]) {
        Owner::Node(label[9], label[10])
    } else {
        Owner::Unknown
    }
}

/// Whether this is a label of node `id` of so many.
fn is_label(label: [u8; LABEL], id: u8, nodes: u8) -> bool
    ensures { result ≡ is_label label id nodes }
{
    if label == label_for(id, nodes, 0) || label == label_for(id, nodes, 1) {
        return true;
    }
    is_marked(label, id, nodes, Stride::Packed) || is_marked(label, id, nodes, Stride::Spaced)
}

/// Whether this is a label of version 2 of node `id` of so many, whatever its slots and its cluster.
fn is_marked(label: [u8; LABEL], id: u8, nodes: u8, stride: Stride) -> bool
    ensures { result ≡ is_marked label id nodes stride }
{
    label == marked_label(id, nodes, stride, mark_in(label), slots_in(label))
}

/// The label of version 1 of node `id` of so many; `apart` is 1 where each sector has a block of its own in the file.
fn label_for(id: u8, nodes: u8, apart: u8) -> [u8; LABEL]
    ensures { result ≡ label_for id nodes apart }
{
    [
        b'd', b'u', b'm', b'g', b'e', b'r', b'o', b'k', 1, id, nodes, apart, 0, 0, 0, 0, 0, 0, 0,
        0, 0, 0, 0, 0, 0, 0, 0, 0, 0, 0, 0, 0,
    ]
}

/// The counter.
#[tactic(auto, using(crate::proofs::Finding::value_found, crate::proofs::Finding::missing_found, crate::proofs::Finding::damage_found))]
pub fn counter(disk: &mut MemDisk) -> Result<Counter, AllocError>
    requires { 8 ≤ length disk.old.contents }
    ensures found { IfOk result (λ counter. counter ≡ counter_of disk.old.contents) }
    ensures kept { disk.new.contents ≡ disk.old.contents }
{
    match safe_cell::mount(disk, 0) {
        Ok(cell) => Ok(Counter::Value(cell.value())),
        Err(CellFault::NotFormatted) => Ok(Counter::Missing),
        Err(CellFault::Damaged(sector)) => Ok(Counter::Damaged(sector)),
        Err(_) => Err(AllocError),
    }
}

/// The journal, or the sector of the first thing in it that isn't allowed.
pub fn journal(
    alloc: Global,
    disk: &mut MemDisk,
    slots: u64,
) -> Result<Result<JobJournal, u64>, AllocError>
    requires on_disk { sectors_for slots ≤ length disk.old.contents }
    requires least { LEAST_SLOTS ≤ slots }
    requires most { slots ≤ MOST_SLOTS }
    ensures found { IfOk result (λ journal. found_in journal ≡ journal_of slots disk.old.contents) }
    ensures kept { disk.new.contents ≡ disk.old.contents }
{
    match job_journal::mount(alloc, disk, slots) {
        Ok(journal) => Ok(Ok(journal)),
        Err(JournalFault::Damaged(sector)) => Ok(Err(sector)),
        Err(_) => Err(AllocError),
    }
}

/// How many slots of the present area are used.
pub fn used(disk: &mut MemDisk, slots: u64) -> Result<u64, AllocError>
    requires on_disk { sectors_for slots ≤ length disk.old.contents }
    requires most { slots ≤ MOST_SLOTS }
    ensures found { IfOk result (λ used. used ≡ used_in slots disk.old.contents) }
    ensures kept { disk.new.contents ≡ disk.old.contents }
{
    match area(disk)? {
        None | Some(0) => Ok(0),
        Some(area) => sealed_from(disk, first_of(slots, area), slots),
    }
}

/// The value of the area cell, if it has one.
pub fn area(disk: &mut MemDisk) -> Result<Option<u64>, AllocError>
    requires { 8 ≤ length disk.old.contents }
    ensures found { IfOk result (λ area. area ≡ cell_at disk.old.contents 4) }
    ensures kept { disk.new.contents ≡ disk.old.contents }
{
    match safe_cell::mount(disk, 4) {
        Ok(cell) => Ok(Some(cell.value())),
        Err(CellFault::NotFormatted) => Ok(None),
        Err(CellFault::Damaged(_)) => Ok(None),
        Err(_) => Err(AllocError),
    }
}

/// The first sector of the area that is present under this value of the area cell.
pub fn first_of(slots: u64, area: u64) -> u64
    requires { slots ≤ MOST_SLOTS }
    ensures { result ≡ first_of slots area }
{
    if area % 2 == 1 { 8 } else { 8 + 2 * slots }
}

/// The body of the slot in this sector, if it is sealed.
pub fn seen(disk: &mut MemDisk, slot: u64) -> Result<Option<Sector>, AllocError>
    requires on_disk { slot + 2 ≤ length disk.old.contents }
    requires fits { slot + 2 < 2 ^ 64 }
    ensures found { IfOk result (λ body. body ≡ slot_at disk.old.contents slot) }
    ensures kept { disk.new.contents ≡ disk.old.contents }
{
    match look(disk, slot) {
        Ok(body) => Ok(body),
        Err(_) => Err(AllocError),
    }
}

/// How many slots from this sector on are sealed, up to the first that isn't.
pub fn sealed_from(disk: &mut MemDisk, first: u64, slots: u64) -> Result<u64, AllocError>
    requires on_disk { first + 2 * slots ≤ length disk.old.contents }
    requires fits { first + 2 * slots < 2 ^ 64 }
    ensures found { IfOk result (λ sealed. sealed ≡ length (sealed_prefix (slots_from disk.old.contents first slots))) }
    ensures kept { disk.new.contents ≡ disk.old.contents }
{
    for sealed in 0..slots {
        match look(disk, first + 2 * sealed) {
            Ok(Some(_)) => {}
            Ok(None) => return Ok(sealed),
            Err(_) => return Err(AllocError),
        }
    }
    Ok(slots)
}
