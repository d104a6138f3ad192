// A life of a node that nobody hears: by it a number is skipped that may have been given, though the file doesn't count it.
ghost use Rattle.std.specs.Prelude.{◌≤◌, ◌<◌, IfErr};
ghost use Rattle.group_task.specs.declared.node.TheConstants.{NODES};
ghost use Rattle.command_line.specs.Served.{IsUnserved};

use crate::status::{Status, stopped};
use file_disk::FileDisk;
use group_task::NodeId;
use node_session::Session;
use node_timers::TimerSettings;
use std::alloc::Global;
use std::io;
use store_console::has_unsealed_number;

/// The file of a node, and the number that was skipped in it.
#[derive(Drop)]
pub(crate) struct Readied {
    pub(crate) disk: FileDisk,
    pub(crate) skipped: Option<u64>,
}

/// Where the number that comes next stands in the counter's unsealed slot, the node begins a group of that number, and what it says of it is dropped.
/// A file that can't be mounted is left to the node that is served: it answers why.
#[tactic(auto, using(crate::proofs::Stopped::stopped_unserved))]
pub(crate) fn ready_file(
    alloc: Global,
    id: NodeId,
    nodes: u8,
    disk: FileDisk,
    setting: TimerSettings,
) -> Result<Readied, Status>
    requires within { id < nodes }
    requires most { nodes ≤ NODES }
    requires on_disk { 8 ≤ disk.sectors }
    ensures { IfErr result IsUnserved }
{
    let mut disk = disk;
    match has_unsealed_number(&mut disk) {
        Ok(true) => {}
        Ok(false) => {
            return Ok(Readied {
                disk,
                skipped: None,
            });
        }
        Err(_) => return Err(stopped(disk.why())),
    }
    let mut session = Session::new(alloc, id, nodes, disk, setting, u64::from(id.number()));
    if let Err(error) = session.feed(b"recover\n") {
        return Err(Status::Failed(io::Error::from(error)));
    }
    let skipped = match session.kept() {
        Some((count, _, _)) => Some(count),
        None => None,
    };
    let has_stopped = session.has_stopped();
    let disk = session.into_disk();
    if has_stopped {
        return Err(stopped(disk.why()));
    }
    Ok(Readied { disk, skipped })
}
