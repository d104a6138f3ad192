ghost use Rattle.std.specs.Prelude.{◌≡◌, []};
ghost use Rattle.node_core.specs.State.{is_down};
ghost use Rattle.durable_node.specs.Calls.{IsCall};
ghost use Rattle.durable_node.specs.Node.{IsNode, node_with};

use crate::fault::NodeFault;
use crate::handle::handle;
use crate::ignore::ignore;
use crate::node_disk::NodeDisk;
use crate::remount::remount;
use crate::setting::NodeSetting;
use crate::step_report::StepReport;
use node_core::{Event, NodeCore, Phase, Wanted};
use sector_disk::SectorDisk;
use wire_msg::Message;

/// One event, over the parts of a node: where it is up, where it is down, and where it mounts its disk. The messages are written into
/// `room`, an empty list. It is part of its caller's code, as [`handle`] is.
#[inline(always)]
pub(crate) fn advance<D: SectorDisk + Drop>(
    setting: NodeSetting,
    core: &mut NodeCore,
    disk: &mut NodeDisk<D>,
    doubt: &mut Option<(Wanted, u64)>,
    mounted: &mut Option<u64>,
    event: &Event,
    room: Vec<Message>,
) -> Result<StepReport, NodeFault>
    requires room { room.items ≡ [] }
    requires node { IsNode D.state setting.id setting.nodes core.old disk.old }
    ensures node { IsNode D.state setting.id setting.nodes core.new disk.new }
    ensures call { IsCall D.state (node_with setting.id setting.nodes core.old disk.old doubt.old mounted.old) (node_with setting.id setting.nodes core.new disk.new doubt.new mounted.new) event.now result }
{
    match disk {
        NodeDisk::Mounted(store) if !is_down(core) => {
            *mounted = None;
            handle(setting, core, store, doubt, event, room)
        }
        _ => match event {
            Event::Recover => remount(setting, core, disk, doubt, mounted),
            _ => {
                *mounted = None;
                Ok(ignore(setting.alloc, core, disk, event))
            }
        },
    }
}

/// Whether the node is down.
pub(crate) fn is_down(core: &NodeCore) -> bool
    ensures { result ≡ is_down core.now.state.phase }
{
    matches!(core.vector().group_state.phase, Phase::Down)
}
