// A file that was opened as a disk, with the label that was read of it.
ghost use Rattle.std.specs.Prelude.{◌≡◌, ◌↔◌, IsOk, IfOk, IfErr, IsTrue, Some};
ghost use Rattle.command_line.specs.Label.{is_own};
ghost use Rattle.command_line.specs.Labelled.{AreOwnLeases, AreRefusedAs, IsLeaseOwner, IsOwnFile, IsRefusedAs};
ghost use Rattle.command_line.specs.LeaseLabel.{lease_label};
ghost use Rattle.command_line.specs.Served.{IsUnserved};

use crate::label::{LabelOwner, is_own, judged, owner_of};
use crate::lease_label::lease_label;
use crate::status::Status;
use file_disk::{FileDisk, LABEL, MARK};
use group_task::NodeId;
use lease_file::SECTORS;
use sector_disk::SectorDisk;
use std::fs::{File, Files};
use std::path::AsPath;

/// A store has no fewer.
const LEAST_SECTORS: u64 = 24;

/// A file that was opened to be served, and locked, with its label, where it has one.
#[derive(Debug, Drop)]
pub(crate) struct LabelledFile {
    disk: FileDisk,
    label: Option<[u8; LABEL]>,
}

impl LabelledFile {
    /// Opens and locks it, with its sectors as far apart as its label says.
    pub(crate) fn open<P: AsPath>(
        rt: &impl Files<File = File>,
        path: P,
    ) -> Result<LabelledFile, Status>
        ensures { IfErr result IsUnserved }
    {
        let disk = match FileDisk::open_labelled(rt, path) {
            Ok(disk) => disk,
            Err(fault) => return Err(Status::File(fault)),
        };
        match disk.label() {
            Ok(label) => Ok(LabelledFile { disk, label }),
            Err(error) => Err(Status::Device(Some(error))),
        }
    }

    /// The disk alone.
    pub(crate) fn into_disk(self) -> FileDisk
        ensures { result ≡ self.disk }
    {
        self.disk
    }

    /// This file, where it is that node's own in the cluster of this mark.
    pub(crate) fn of_node(
        self,
        id: NodeId,
        nodes: u8,
        mark: [u8; MARK],
    ) -> Result<LabelledFile, Status>
        // Promise: A file is served where the label that was read of it says that it is the node's, and it is long enough for a store; any other is
        // refused, as whose that label says it is.
        // Also: same, refused, opened_own.
        // Refuses: any_file_is_own, another_nodes_file_is_nobodys.
        ensures own { IsOk result ↔ IsOwnFile self id nodes mark }
        ensures same { IfOk result (λ file. file ≡ self) }
        ensures refused { IfErr result (IsRefusedAs (is_own self.label id nodes self.disk.stride self.disk.sectors mark) self mark) }
        ensures unserved { IfErr result IsUnserved }
    {
        let sectors = self.disk.sectors();
        if !is_own(self.label, id, nodes, self.disk.stride(), sectors, mark) {
            return Err(Status::Foreign(judged(owner_of(self.label), sectors, mark)));
        }
        if sectors < LEAST_SECTORS {
            return Err(Status::Foreign(LabelOwner::Nobody));
        }
        Ok(self)
    }

    /// This file, where it has the leases of that machine.
    pub(crate) fn of_leases(self, machine: NodeId) -> Result<LabelledFile, Status>
        // Promise: A file of leases is served where the label that was read of it says that it has those of the machine, and it is long enough; any
        // other is refused, as whose that label says it is.
        // Also: same, refused, opened_leases.
        // Refuses: any_leases_are_own.
        ensures own { IsOk result ↔ AreOwnLeases self machine }
        ensures same { IfOk result (λ file. file ≡ self) }
        ensures refused { IfErr result (AreRefusedAs self machine) }
        ensures unserved { IfErr result IsUnserved }
    {
        if !has_leases_of(self.label, machine) {
            return Err(Status::Foreign(lease_owner(self.label)));
        }
        if self.disk.sectors() < SECTORS {
            return Err(Status::Foreign(LabelOwner::NoLeases));
        }
        Ok(self)
    }
}

/// Whether a file with this label, or with none, has the leases of that machine.
fn has_leases_of(label: Option<[u8; LABEL]>, machine: NodeId) -> bool
    ensures { IsTrue result ↔ (label ≡ Some (lease_label machine)) }
{
    match label {
        Some(bytes) => bytes == lease_label(machine),
        None => false,
    }
}

/// Whose a file is that is none of this machine's leases.
fn lease_owner(label: Option<[u8; LABEL]>) -> LabelOwner
    ensures { IsLeaseOwner label result }
{
    match owner_of(label) {
        LabelOwner::Nobody => LabelOwner::NoLeases,
        owner => owner,
    }
}
