// A process of leases that is served over its file.
ghost use Rattle.std.specs.Prelude.{◌≡◌, ◌≤◌, IfErr, IfOk};
ghost use Rattle.command_line.specs.Labelled.{AreOwnLeases};
ghost use Rattle.command_line.specs.LeaseServed.{IsLeaseSealUnder, IsNotBegun, LeaseServesSo, LeaseServesTo, list_of};

use crate::invocation::Sealing;
use crate::keys::{Keys, read_lease_seal};
use crate::labelled::LabelledFile;
use crate::lease_label::lease_label;
use crate::lease_store::EpochFile;
use crate::status::{Status, stopped};
use file_disk::{FileDisk, OpenFault, Stride};
use group_task::NodeId;
use lease_file::{Begun, LeaseFault, LeaseFile, SECTORS, format};
use lease_machine::LeaseTerms;
use lease_session::{LeaseEnd, LeaseSeal, Start};
use sealed_msg::Key;
use sector_disk::SectorDisk;
use std::alloc::{AllocError, Global};
use std::fs;
use std::fs::{File, Files};
use std::io::{ErrorKind, Read, Write};
use std::path::AsPath;

/// Makes the file of leases of a machine, whose processes are numbered from behind this number on. It is refused where there is something of its
/// name. Where it fails, what it made is removed.
pub fn format_leases<P: AsPath>(
    rt: &impl Files<File = File>,
    path: P,
    machine: NodeId,
    first: u64,
) -> Status {
    let mut disk = match FileDisk::create_new(rt, &path, SECTORS, Stride::Packed) {
        Ok(disk) => disk,
        Err(fault) => return Status::File(fault),
    };
    if format(&mut disk, first).is_ok() && disk.set_label(&lease_label(machine)).is_ok() {
        return Status::Done;
    }
    let _ = fs::remove_file(rt, &path);
    match disk.why() {
        Some(error) => Status::File(OpenFault::from(error)),
        None => Status::Device(None),
    }
}

/// The number of the list of machines: how many there are, or a hash of that and the name of their cluster.
pub(crate) fn list_of(
    alloc: Global,
    machines: u8,
    sealing: &Option<Sealing>,
) -> Result<u64, AllocError>
    // Promise: The number of a list of machines is how many they are, or, under keys, a hash of that and of their cluster's name.
    // Refuses: list_of_any_cluster.
    ensures { IfOk result (λ list. list ≡ list_of machines sealing.now) }
{
    let Some(sealing) = sealing else {
        return Ok(u64::from(machines));
    };
    let mut text = Vec::from_slice(alloc, b"dumgerok leases 1")?;
    text.push(machines)?;
    let tag = Key::new(sealing.cluster.as_bytes()).tag(&text);
    let (front, _) = tag.as_slice().split_at(8);
    Ok(u64::from_be_bytes([
        front[0], front[1], front[2], front[3], front[4], front[5], front[6], front[7],
    ]))
}

/// Serves a process of leases over its file until the input ends, with its messages sealed where there are keys. Its first line is `process`
/// and its number: no time may be read before it for a line of the input.
#[tactic(auto, using(crate::proofs::Leases::stops_so, crate::proofs::Leases::unbegun_so))]
pub fn serve_leases<P: AsPath, R: Read, W: Write>(
    rt: &impl Files<File = File>,
    alloc: Global,
    path: P,
    terms: LeaseTerms,
    round_trip: u16,
    keys: Option<Keys<'_>>,
    input: &mut R,
    output: &mut W,
) -> Status
    // Promise: `lease` reads its input to the end, or until the device fails, and writes the number of its process, one above what some file kept,
    // and then just the answers of its session to what it read, by the terms of the command line, with its messages sealed under the keys of the
    // cluster's name and number of machines where keys are given, and nowhere else. Where the file isn't served, nothing is read or written.
    // Also: lease_session::serve_leases.
    // Refuses: lease_keys_not_used, process_of_the_one_before.
    ensures { LeaseServesSo ((input.new ≡ input.old) × (output.new ≡ output.old)) (LeaseServesTo keys.entry terms (R.remaining input.old) (R.remaining input.new) (W.contents output.old) (W.contents output.new)) result }
{
    let seal = match lease_seal_of(rt, alloc, keys, terms.machines()) {
        Ok(seal) => seal,
        Err(status) => return status,
    };
    let opened = match opened_leases(rt, path, terms.machine()) {
        Ok(opened) => opened,
        Err(status) => return status,
    };
    let mut file = match mounted(opened) {
        Ok(file) => file,
        Err(status) => return status,
    };
    let Begun {
        process,
        floor,
        waits,
        ..
    } = match file.begin(terms.keeps()) {
        Ok(begun) => begun,
        Err(LeaseFault::Device) => return stopped(file.into_disk().why()),
        Err(fault) => return Status::Spent(fault),
    };
    let start = Start {
        process,
        floor,
        waits,
    };
    let store = EpochFile::new(file);
    match lease_session::serve_leases(alloc, terms, round_trip, start, store, seal, input, output) {
        Ok((LeaseEnd::Input, _)) => Status::Done,
        Ok((LeaseEnd::Device, store)) => stopped(store.into_disk().why()),
        Err(error) => Status::Failed(error),
    }
}

/// What seals the messages, if there are keys.
fn lease_seal_of(
    rt: &impl Files<File = File>,
    alloc: Global,
    keys: Option<Keys<'_>>,
    machines: u8,
) -> Result<Option<LeaseSeal>, Status>
    ensures seal { IfOk result (λ seal. IsLeaseSealUnder keys.entry machines seal) }
    ensures unserved { IfErr result IsNotBegun }
{
    let Some(keys) = keys else {
        return Ok(None);
    };
    match read_lease_seal(rt, alloc, keys, machines) {
        Ok(Some(seal)) => Ok(Some(seal)),
        Ok(None) => Err(Status::Key),
        Err(error) if error.kind() == ErrorKind::OutOfMemory => Err(Status::Failed(error)),
        Err(_) => Err(Status::Key),
    }
}

/// The file of that machine's leases, locked.
#[tactic(auto, using(crate::proofs::Leases::unserved_unbegun))]
fn opened_leases<P: AsPath>(
    rt: &impl Files<File = File>,
    path: P,
    machine: NodeId,
) -> Result<LabelledFile, Status>
    ensures own { IfOk result (λ file. AreOwnLeases file machine) }
    ensures unbegun { IfErr result IsNotBegun }
{
    LabelledFile::open(rt, path)?.of_leases(machine)
}

/// What a file of leases keeps.
#[tactic(auto, using(crate::proofs::Leases::stopped_unbegun))]
fn mounted(file: LabelledFile) -> Result<LeaseFile<FileDisk>, Status>
    requires on_disk { 8 ≤ file.disk.sectors }
    ensures { IfErr result IsNotBegun }
{
    match LeaseFile::mount(file.into_disk()) {
        Ok(file) => Ok(file),
        Err(refused) if refused.fault == LeaseFault::Device => Err(stopped(refused.disk.why())),
        Err(refused) => Err(Status::Spent(refused.fault)),
    }
}
