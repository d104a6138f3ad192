// The compaction of a node's journal.
ghost use Rattle.std.specs.Prelude.{◌≡◌, ◌≢◌, IsTrue, IsFalse, IsOk, IfErr, IsErrOf, Some, None};
ghost use Rattle.sector_disk.specs.Run.{Each};
ghost use Rattle.node_core.specs.State.{is_down};
ghost use Rattle.node_store.specs.Store.{durable_of, StaysAs};
ghost use Rattle.job_journal.specs.Compacting.{records_for};
ghost use Rattle.durable_node.specs.Area.{AllEndIn, jobs_in};
ghost use Rattle.durable_node.specs.Carrying.{KeepsSound};
ghost use Rattle.durable_node.specs.Compacting.{Compacts, StaysKept, IsMovedNode, IsMovedInto, IsFallenNode, IsRewrittenCore, moved};
ghost use Rattle.durable_node.specs.Node.{disk_in, store_in, area_in, area_of, IsNode, IsOver, node_with};
ghost use Rattle.durable_node.specs.Refusing.{AnswersTo, compaction_refusal};
ghost use Rattle.durable_node.specs.Stepping.{CountsOf};

use crate::advance::is_down;
use crate::fault::NodeFault;
use crate::node_disk::NodeDisk;
use crate::setting::NodeSetting;
use job_journal::JournalFault;
use node_core::{CoreFault, NodeCore, Wanted};
use node_store::NodeStore;
use sector_disk::SectorDisk;

/// Compacts the journal, over the parts of a node.
pub(crate) fn compact<D: SectorDisk>(
    setting: NodeSetting,
    core: &mut NodeCore,
    disk: &mut NodeDisk<D>,
    doubt: &Option<(Wanted, u64)>,
    mounted: &mut Option<u64>,
) -> Result<(), NodeFault>
    requires node { IsNode D.state setting.id setting.nodes core.old disk.old }
    ensures node { IsNode D.state setting.id setting.nodes core.new disk.new }
    ensures answers { AnswersTo (compaction_refusal (area_in (is_down core.old.state.phase) (store_in disk.old))) result }
    ensures step { Compacts D.state (node_with setting.id setting.nodes core.old disk.old doubt.now mounted.old) (node_with setting.id setting.nodes core.new disk.new doubt.now mounted.new) result }
    ensures moved { IsOk result → IsMovedNode (node_with setting.id setting.nodes core.old disk.old doubt.now mounted.old) (node_with setting.id setting.nodes core.new disk.new doubt.now mounted.new) }
    ensures spelled { IsMovedInto D.state (node_with setting.id setting.nodes core.old disk.old doubt.now mounted.old) (node_with setting.id setting.nodes core.new disk.new doubt.now mounted.new) result }
    ensures fallen { IsErrOf result NodeFault.Device → IsFallenNode (node_with setting.id setting.nodes core.old disk.old doubt.now mounted.old) (node_with setting.id setting.nodes core.new disk.new doubt.now mounted.new) }
    ensures refused { IfErr result (λ fault. fault ≢ NodeFault.Device
        → node_with setting.id setting.nodes core.new disk.new doubt.now mounted.new ≡ node_with setting.id setting.nodes core.old disk.old doubt.now None) }
    ensures images { StaysKept D.state (node_with setting.id setting.nodes core.old disk.old doubt.now mounted.old) (node_with setting.id setting.nodes core.new disk.new doubt.now mounted.new) }
    ensures counts { CountsOf D.state (disk_in disk.old) (disk_in disk.new) result }
{
    *mounted = None;
    match disk {
        NodeDisk::Mounted(store) if !is_down(core) => rewrite(setting, core, store),
        _ => Err(NodeFault::Core(CoreFault::Down)),
    }
}

/// Compacts the journal of a node that is up. After `Device` the core is down.
fn rewrite<D: SectorDisk>(
    setting: NodeSetting,
    core: &mut NodeCore,
    store: &mut NodeStore<D>,
) -> Result<(), NodeFault>
    requires over { IsOver D.state setting.id setting.nodes core.old store.old }
    ensures core { IsRewrittenCore setting.id setting.nodes core.old core.new result }
    ensures answers { AnswersTo (compaction_refusal (Some (area_of store.old))) result }
    ensures done { IsOk result → IsFalse store.new.broken × (area_of store.new ≡ moved (durable_of store.old) (area_of store.old)) }
    ensures spelled { IsTrue (D.state store.old.disk).honest → IsOk result
        → AllEndIn (area_of store.new) (records_for (jobs_in (durable_of store.old))) (D.state store.new.disk) }
    ensures refused { IfErr result (λ fault. fault ≢ NodeFault.Device → store.new ≡ store.old) }
    ensures kept { durable_of store.new ≡ durable_of store.old }
    ensures store { KeepsSound D.state store.old store.new (IsErrOf result NodeFault.Device) }
    ensures images { IsTrue (D.state store.old.disk).honest → Each (D.state store.old.disk) (D.state store.new.disk) (StaysAs store.old) }
{
    match store.compact() {
        Ok(()) => Ok(()),
        Err(JournalFault::Device) => {
            *core = NodeCore::down(setting.alloc, setting.id, setting.nodes);
            Err(NodeFault::Device)
        }
        Err(_) => Err(NodeFault::Exhausted),
    }
}
