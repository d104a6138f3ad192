// A node that is served over its file.
ghost use Rattle.std.specs.Prelude.{◌≡◌, ◌<◌, ◌≤◌, IfOk, IfErr};
ghost use Rattle.group_task.specs.declared.node.TheConstants.{NODES};
ghost use Rattle.node_timers.specs.Timers.{measured};
ghost use Rattle.command_line.specs.Labelled.{IsOwnFile};
ghost use Rattle.command_line.specs.Served.{BreaksOff, IsSealUnder, IsUnserved, ServesSo, ServesTo};

use crate::keys::{Keys, read_seal};
use crate::labelled::LabelledFile;
use crate::readying::{Readied, ready_file};
use crate::status::{Status, stopped};
use crate::watching::Watched;
use file_disk::MARK;
use group_task::NodeId;
use node_server::{ServingEnd, serve_node};
use node_session::Seal;
use node_timers::TimerSettings;
use std::alloc::Global;
use std::fs::{File, Files};
use std::io::{ErrorKind, Read, Write};
use std::path::AsPath;
use std::time::Clock;

/// Serves a node over its file until the input ends, with its messages sealed where there are keys, in the cluster of this mark. A round trip
/// between nodes takes so many milliseconds of the clock that ticks tell. Where a number is skipped before that, it is told to `errors`.
#[tactic(auto, using(crate::proofs::Stopped::stops_so, crate::proofs::Stopped::unserved_so))]
pub fn serve_file<P: AsPath, R: Read, W: Write, E: Write>(
    rt: &(impl Files<File = File> + Clock),
    alloc: Global,
    path: P,
    id: NodeId,
    nodes: u8,
    round_trip: u16,
    keys: Option<Keys<'_>>,
    mark: [u8; MARK],
    input: &mut R,
    output: &mut W,
    errors: &mut E,
) -> Status
    requires within { id < nodes }
    requires most { nodes ≤ NODES }
    // Promise: `node` reads its input to the end, or until the device fails or the file is lost, and writes just the answers of its session to what it
    // read: of the node and of so many nodes as the command line says, at its round trip, with its messages sealed under the keys of the
    // cluster's name and number of nodes where keys are given, and nowhere else. Where the file isn't served, nothing is read or written.
    // Also: node_server::serve_node.
    // Refuses: node_server::answers_not_written, node_server::line_fed_twice, node_server::nothing_sealed_under_a_key, keys_not_used, round_trip_ignored.
    // Promise: Where an error ends `node`, nothing was read or written, or a front of the answers to a front of what was read.
    // Also: node_server::serve_node.
    // Refuses: node_server::written_behind_a_failed_write, node_server::error_told_in_the_answers.
    ensures { ServesSo ((input.new ≡ input.old) × (output.new ≡ output.old)) (BreaksOff keys.entry id nodes (measured round_trip) (R.remaining input.old) (R.remaining input.new) (W.contents output.old) (W.contents output.new))
        (ServesTo keys.entry id nodes (measured round_trip) (R.remaining input.old) (R.remaining input.new) (W.contents output.old) (W.contents output.new)) result }
{
    let seal = match seal_of(rt, alloc, keys, nodes) {
        Ok(seal) => seal,
        Err(status) => return status,
    };
    let file = match opened_own(rt, &path, id, nodes, mark) {
        Ok(file) => file,
        Err(status) => return status,
    };
    let setting = TimerSettings::measured(round_trip);
    let Readied { disk, skipped } = match ready_file(alloc, id, nodes, file.into_disk(), setting) {
        Ok(readied) => readied,
        Err(status) => return status,
    };
    if let Some(number) = skipped {
        tell_skipped(errors, path.path_text(), id, number);
    }
    let watched = match disk.watch() {
        Ok(file) => Watched::new(rt, &path, file),
        Err(error) => return Status::Device(Some(error)),
    };
    let (end, left) = serve_node(
        rt, alloc, id, nodes, disk, &watched, setting, seal, input, output,
    );
    match end {
        Ok(ServingEnd::Input) => Status::Done,
        Ok(ServingEnd::Device) => stopped(left.why()),
        Ok(ServingEnd::Lost(error)) => Status::Lost(error),
        Err(error) => Status::Failed(error),
    }
}

/// The file of that node in the cluster of this mark, locked.
fn opened_own<P: AsPath>(
    rt: &impl Files<File = File>,
    path: &P,
    id: NodeId,
    nodes: u8,
    mark: [u8; MARK],
) -> Result<LabelledFile, Status>
    ensures own { IfOk result (λ file. IsOwnFile file id nodes mark) }
    ensures unserved { IfErr result IsUnserved }
{
    LabelledFile::open(rt, path)?.of_node(id, nodes, mark)
}

/// Says that a number of this node was skipped.
fn tell_skipped<E: Write>(errors: &mut E, path: &str, id: NodeId, number: u64) {
    let id = id.number();
    let _ = writeln!(
        errors,
        "invite: {path}: group number {id}:{number} may have been given before: it is skipped"
    );
}

/// What seals the messages, if there are keys.
fn seal_of(
    rt: &impl Files<File = File>,
    alloc: Global,
    keys: Option<Keys<'_>>,
    nodes: u8,
) -> Result<Option<Seal>, Status>
    ensures seal { IfOk result (λ seal. IsSealUnder keys.entry nodes seal) }
    ensures unserved { IfErr result IsUnserved }
{
    let Some(keys) = keys else {
        return Ok(None);
    };
    match read_seal(rt, alloc, keys, nodes) {
        Ok(Some(seal)) => Ok(Some(seal)),
        Ok(None) => Err(Status::Key),
        Err(error) if error.kind() == ErrorKind::OutOfMemory => Err(Status::Failed(error)),
        Err(_) => Err(Status::Key),
    }
}
