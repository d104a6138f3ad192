//! What the bytes of a store show of rot: what no crash leaves, and what may tell of an older state.

ghost use Rattle.std.specs.Prelude.{◌≡◌, ◌<◌, ◌≤◌, ◌+◌, ◌*◌, ◌^◌, ◌++◌, length, IfOk, IfSome, OnOk};
ghost use Rattle.disk_layout.specs.Layout.{sectors_for};
ghost use Rattle.disk_layout.specs.declared.layout.TheConstants.{LEAST_SLOTS, MOST_SLOTS};
ghost use Rattle.slot_gate.specs.Slot.{slot_at};
ghost use Rattle.safe_cell.specs.Body.{body_value};
ghost use Rattle.safe_cell.specs.Cell.{cell_at};
ghost use Rattle.job_journal.specs.Areas.{area_of};
ghost use Rattle.store_console.specs.Findings.{across, area_finding, area_findings, behind_finding, counter_finding, differs, findings_in, is_other_work, is_raised, job_finding, job_findings, journal_findings, journal_from, listed, next_finding, number_at, sealed_behind, unraised_at, unsealed_at, unsealed_finding, unsealed_findings, value_across};
ghost use Rattle.store_console.specs.Held.{counter_of, found_in};

use crate::findings::Finding;
use crate::found::Counter;
use crate::looking::{area, counter, first_of, journal, sealed_from, seen};
use disk_layout::{Sector, is_blank};
use job_journal::JobJournal;
use job_model::{JobRef, PendingJobs};
use sector_disk::{MemDisk, SectorDisk};
use slot_gate::look;
use std::alloc::{AllocError, Global};

/// What a disk shows, in the order in which it is told. Of the disk nothing is to be asked afterwards.
pub fn findings(alloc: Global, disk: &mut MemDisk, slots: u64) -> Result<Vec<Finding>, AllocError>
    requires on_disk { sectors_for slots ≤ length disk.old.contents }
    requires least { LEAST_SLOTS ≤ slots }
    requires most { slots ≤ MOST_SLOTS }
    ensures { IfOk result (λ findings. findings.items ≡ findings_in slots disk.old.contents) }
{
    let counter = counter_finding(unraised(disk, 0)?);
    let area = area_finding(unraised(disk, 4)?);
    let first = present_area(disk, slots)?;
    let mut findings = Vec::new(alloc);
    push_found(&mut findings, counter)?;
    push_found(&mut findings, area)?;
    push_unsealed(&mut findings, disk)?;
    push_of_areas(alloc, &mut findings, disk, slots, first)?;
    Ok(findings)
}

/// Adds a finding, where there is one.
fn push_found(findings: &mut Vec<Finding>, finding: Option<Finding>) -> Result<(), AllocError>
    ensures { OnOk result (findings.new.items ≡ findings.old.items ++ listed finding) }
{
    match finding {
        Some(finding) => Ok(findings.push(finding)?),
        None => Ok(()),
    }
}

fn counter_finding(numbers: Option<(u64, u64)>) -> Option<Finding>
    ensures { result ≡ counter_finding numbers }
{
    let (a, b) = numbers?;
    Some(Finding::CounterSlots(a, b))
}

fn area_finding(numbers: Option<(u64, u64)>) -> Option<Finding>
    ensures { result ≡ area_finding numbers }
{
    let (a, b) = numbers?;
    Some(Finding::AreaSlots(a, b))
}

fn behind_finding(sector: Option<u64>) -> Option<Finding>
    ensures { result ≡ behind_finding sector }
{
    Some(Finding::SealedBehind(sector?))
}

/// The numbers in both slots of a cell, where no raise leaves them so.
fn unraised(disk: &mut MemDisk, at: u64) -> Result<Option<(u64, u64)>, AllocError>
    requires on_disk { at + 4 ≤ length disk.old.contents }
    requires fits { at + 4 < 2 ^ 64 }
    ensures found { IfOk result (λ numbers. numbers ≡ unraised_at disk.old.contents at) }
    ensures kept { disk.new.contents ≡ disk.old.contents }
{
    let (first, second) = (number_at(disk, at)?, number_at(disk, at + 2)?);
    match (first, second) {
        (Some(a), Some(b)) if !is_raised(a, b) => Ok(Some((a, b))),
        _ => Ok(None),
    }
}

/// Whether one of these numbers is one above the other.
pub fn is_raised(a: u64, b: u64) -> bool
    ensures { result ≡ is_raised a b }
{
    a.abs_diff(b) == 1
}

/// The number in a slot, where it is sealed over one.
fn number_at(disk: &mut MemDisk, slot: u64) -> Result<Option<u64>, AllocError>
    requires on_disk { slot + 2 ≤ length disk.old.contents }
    requires fits { slot + 2 < 2 ^ 64 }
    ensures found { IfOk result (λ number. number ≡ number_at (slot_at disk.old.contents slot)) }
    ensures kept { disk.new.contents ≡ disk.old.contents }
{
    match seen(disk, slot)? {
        Some(body) => Ok(number_in(&body)),
        None => Ok(None),
    }
}

/// The number that the body of a cell's slot stands for.
#[tactic(auto, unfolding(safe_cell::specs::Body::body_value))]
pub fn number_in(body: &Sector) -> Option<u64>
    ensures { result ≡ body_value body.now }
{
    if !is_blank(body, 8) {
        return None;
    }
    Some(u64::from_be_bytes([
        body[0], body[1], body[2], body[3], body[4], body[5], body[6], body[7],
    ]))
}

/// Adds the counter's slot that isn't sealed, where it has the number that comes next.
fn push_unsealed(findings: &mut Vec<Finding>, disk: &mut MemDisk) -> Result<(), AllocError>
    requires on_disk { 8 ≤ length disk.old.contents }
    ensures added { OnOk result (findings.new.items ≡ findings.old.items ++ unsealed_findings disk.old.contents) }
    ensures kept { disk.new.contents ≡ disk.old.contents }
{
    let counter = counter(disk)?;
    let first = unsealed_at(disk, 0)?;
    let second = unsealed_at(disk, 2)?;
    push_found(findings, unsealed_finding(counter, first))?;
    push_found(findings, unsealed_finding(counter, second))
}

pub fn unsealed_finding(counter: Counter, number: Option<u64>) -> Option<Finding>
    ensures { result ≡ unsealed_finding counter number }
{
    match (counter, number?) {
        (Counter::Value(count), number) if number > count && number - count == 1 => {
            Some(Finding::CounterUnsealed(number))
        }
        _ => None,
    }
}

/// The number in a slot's body, where it isn't sealed.
fn unsealed_at(disk: &mut MemDisk, slot: u64) -> Result<Option<u64>, AllocError>
    requires on_disk { slot + 2 ≤ length disk.old.contents }
    requires fits { slot + 2 < 2 ^ 64 }
    ensures found { IfOk result (λ number. number ≡ unsealed_at disk.old.contents slot) }
    ensures kept { disk.new.contents ≡ disk.old.contents }
{
    if seen(disk, slot)?.is_some() {
        return Ok(None);
    }
    let mut body = [0; 512];
    match disk.read(slot, &mut body) {
        Ok(()) => Ok(number_in(&body)),
        Err(_) => Err(AllocError),
    }
}

/// Where the present area begins, if the area cell names one.
fn present_area(disk: &mut MemDisk, slots: u64) -> Result<Option<u64>, AllocError>
    requires on_disk { 8 ≤ length disk.old.contents }
    requires most { slots ≤ MOST_SLOTS }
    ensures found { IfOk result (λ first. first ≡ area_of slots (cell_at disk.old.contents 4)) }
    ensures kept { disk.new.contents ≡ disk.old.contents }
{
    match area(disk)? {
        None | Some(0) => Ok(None),
        Some(value) => Ok(Some(first_of(slots, value))),
    }
}

/// Adds what the areas show, of which the present one begins in this sector.
fn push_of_areas(
    alloc: Global,
    findings: &mut Vec<Finding>,
    disk: &mut MemDisk,
    slots: u64,
    first: Option<u64>,
) -> Result<(), AllocError>
    requires on_disk { sectors_for slots ≤ length disk.old.contents }
    requires least { LEAST_SLOTS ≤ slots }
    requires most { slots ≤ MOST_SLOTS }
    requires area { IfSome first (λ first. first + 2 * slots ≤ sectors_for slots) }
    ensures { OnOk result (findings.new.items ≡ findings.old.items ++ area_findings slots disk.old.contents first) }
{
    let Some(first) = first else {
        return Ok(());
    };
    let behind = behind_finding(sealed_behind(disk, first, slots)?);
    let here = journal(alloc, disk, slots)?;
    let other = other_journal(alloc, disk, slots, first)?;
    push_found(findings, behind)?;
    push_of_journals(findings, &here, &other)
}

/// The first sealed slot behind the end of the journal in the area that begins in this sector.
fn sealed_behind(disk: &mut MemDisk, first: u64, slots: u64) -> Result<Option<u64>, AllocError>
    requires on_disk { first + 2 * slots ≤ length disk.old.contents }
    requires fits { first + 2 * slots < 2 ^ 64 }
    ensures found { IfOk result (λ sector. sector ≡ sealed_behind slots disk.old.contents first) }
    ensures kept { disk.new.contents ≡ disk.old.contents }
{
    for at in sealed_from(disk, first, slots)?..slots {
        let slot = first + 2 * at;
        match look(disk, slot) {
            Ok(Some(_)) => return Ok(Some(slot)),
            Ok(None) => {}
            Err(_) => return Err(AllocError),
        }
    }
    Ok(None)
}

/// The journal of the area that isn't present, by where the present one begins: it is read as if it were the present one, and nothing else is
/// to be asked of the disk afterwards.
fn other_journal(
    alloc: Global,
    disk: &mut MemDisk,
    slots: u64,
    first: u64,
) -> Result<Result<JobJournal, u64>, AllocError>
    requires on_disk { sectors_for slots ≤ length disk.old.contents }
    requires least { LEAST_SLOTS ≤ slots }
    requires most { slots ≤ MOST_SLOTS }
    ensures { IfOk result (λ journal. found_in journal ≡ journal_from slots disk.old.contents (across slots first)) }
{
    match safe_cell::format(disk, 4, value_across(first)) {
        Ok(()) => journal(alloc, disk, slots),
        Err(_) => Err(AllocError),
    }
}

/// A value of the area cell under which the other area is present than the one that begins in this sector.
fn value_across(first: u64) -> u64
    ensures { result ≡ value_across first }
{
    if first == 8 { 2 } else { 1 }
}

/// Adds what the journals of both areas show, where both can be read.
fn push_of_journals(
    findings: &mut Vec<Finding>,
    here: &Result<JobJournal, u64>,
    other: &Result<JobJournal, u64>,
) -> Result<(), AllocError>
    ensures { OnOk result (findings.new.items ≡ findings.old.items ++ journal_findings (found_in here.now) (found_in other.now)) }
{
    let (Ok(here), Ok(other)) = (here, other) else {
        return Ok(());
    };
    let (here, other) = (here.table(), other.table());
    push_found(findings, next_finding(here.next(), other.next()))?;
    push_of_jobs(findings, &other.pending(), &here.pending())
}

fn next_finding(here: u64, other: u64) -> Option<Finding>
    ensures { result ≡ next_finding here other }
{
    if here < other {
        Some(Finding::OtherAreaNextId(other, here))
    } else {
        None
    }
}

/// Adds which of these jobs stand differently among the others.
fn push_of_jobs(
    findings: &mut Vec<Finding>,
    others: &PendingJobs<'_>,
    jobs: &PendingJobs<'_>,
) -> Result<(), AllocError>
    ensures { OnOk result (findings.new.items ≡ findings.old.items ++ job_findings others.now jobs.now) }
{
    for job in jobs.iter() {
        push_found(findings, job_finding(others, &job))?;
    }
    Ok(())
}

fn job_finding(others: &PendingJobs<'_>, job: &JobRef<'_>) -> Option<Finding>
    ensures { result ≡ job_finding others.now job.now }
{
    if differs(others, job) {
        Some(Finding::JobDiffers(job.id()))
    } else {
        None
    }
}

/// Whether a job stands differently among the others.
fn differs(others: &PendingJobs<'_>, job: &JobRef<'_>) -> bool
    ensures { result ≡ differs others.now job.now }
{
    for other in others.iter() {
        if is_other_work(job, &other) {
            return true;
        }
    }
    false
}

/// Whether the other one is a job of the same id with other work.
fn is_other_work(job: &JobRef<'_>, other: &JobRef<'_>) -> bool
    ensures { result ≡ is_other_work job.now other.now }
{
    let is_same = other.queue().number() == job.queue().number()
        && other.priority() == job.priority()
        && other.payload() == job.payload();
    other.id() == job.id() && !is_same
}
