ghost use Rattle.std.specs.Prelude.{◌≡◌, ◌≤◌, ◌+◌, ⊤, List, ℕ, length, OnOk};
ghost use Rattle.node_server.specs.Formatted.{HasRoom, IsMade};

use crate::invocation::Making;
use crate::status::Status;
use file_disk::{FileDisk, LABEL, MARK, OpenFault, marked_label};
use job_model::JobTable;
use node_server::format_node;
use sector_disk::{DiskFault, SectorDisk};
use std::fs;
use std::fs::{File, Files};
use std::path::AsPath;

/// A disk that takes a label behind its last sector.
trait LabelDisk: SectorDisk {
    /// This label stands there.
    ghost is_labelled: { Self → List ℕ → Type 0 };

    /// Writes the label, and syncs it.
    fn label_as(&mut self, label: &[u8; LABEL]) -> Result<(), DiskFault>
        ensures kept { OnOk result (self.new ≡ self.old) }
        ensures labelled { OnOk result (is_labelled self.new label.now) };
}

impl LabelDisk for FileDisk {
    /// No contract says what a file holds.
    ghost is_labelled = { λ disk label. ⊤ };

    fn label_as(&mut self, label: &[u8; LABEL]) -> Result<(), DiskFault> {
        self.set_label(label)
    }
}

/// Makes the file of a node of the cluster of this mark with these jobs. The next id is what its counter begins with, too: so it gives
/// no number of a group and no id below it. It is refused where there is something of its name. Where it fails, what it made is removed.
pub fn format_file<P: AsPath>(
    rt: &impl Files<File = File>,
    path: P,
    making: &Making,
    mark: [u8; MARK],
    jobs: &JobTable,
) -> Status
    requires first { jobs.now.next ≡ making.now.first }
    requires room { length jobs.now.pending + 2 ≤ making.now.slots }
{
    let (slots, place, stride) = (making.slots, making.place, making.stride);
    let mut disk = match FileDisk::create_new(rt, &path, 8 + 4 * slots, stride) {
        Ok(disk) => disk,
        Err(fault) => return Status::File(fault),
    };
    let label = marked_label(place.id.number(), place.nodes, stride, mark, slots as u16);
    if made_on(&mut disk, jobs, &label).is_ok() {
        return Status::Done;
    }
    let _ = fs::remove_file(rt, &path);
    match disk.why() {
        Some(error) => Status::File(OpenFault::from(error)),
        None => Status::Device(None),
    }
}

/// Makes the store of these jobs on a new disk, and writes its label last.
fn made_on<D: LabelDisk>(
    disk: &mut D,
    jobs: &JobTable,
    label: &[u8; LABEL],
) -> Result<(), DiskFault>
    requires room { HasRoom (D.state disk.old) jobs.now }
    // Promise: A file is made where its disk, if it had no store and keeps to the model, has one of the jobs that were given in each image, whose next
    // id and number of a group is the first that was asked for, and its label stands behind it.
    // Also: labelled, format_file, jobs_for, node_server::format_node.
    // Refuses: store_not_made, zeros_for_a_label, first_ignored.
    ensures made { OnOk result (IsMade (D.state disk.old) (D.state disk.new) jobs.now) }
    ensures labelled { OnOk result (D.is_labelled disk.new label.now) }
{
    match format_node(disk, jobs) {
        Ok(()) => disk.label_as(label),
        Err(_) => Err(DiskFault::Device),
    }
}
