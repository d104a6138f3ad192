// A node over a disk in memory: how it opens, and how it crashes.
ghost use Rattle.std.specs.Prelude.{◌≡◌, ◌≤◌, ◌<◌, ◌+◌, ◌*◌, ℕ, IfOk, IsSome, Some, None};
ghost use Rattle.disk_layout.specs.Layout.{sectors_for};
ghost use Rattle.disk_layout.specs.declared.layout.TheConstants.{LEAST_SLOTS, MOST_SLOTS};
ghost use Rattle.job_journal.specs.Journal.{AllWithin};
ghost use Rattle.group_task.specs.declared.node.TheConstants.{NODES};
ghost use Rattle.sector_disk.specs.Memory.{Memory, state_of, all_synced};
ghost use Rattle.sector_disk.specs.Crash.{IsCrashed};
ghost use Rattle.node_core.specs.Start.{down};
ghost use Rattle.histories.specs.After.{after};
ghost use Rattle.durable_node.specs.Arming.{armed_disk, with_left};
ghost use Rattle.durable_node.specs.Forgetting.{forgotten_disk};
ghost use Rattle.durable_node.specs.Fresh.{HasNewDisk, IsFresh};
ghost use Rattle.durable_node.specs.Node.{Stands};
ghost use Rattle.histories.specs.NodeState.{NodeState, opening};
ghost use Rattle.histories.specs.declared.history_event.HistoryEvent.TheVariants.{Crashed};

use crate::node::DurableNode;
use crate::node_disk::NodeDisk;
use disk_layout::sectors_for;
use group_task::NodeId;
use histories::EventOutcome;
use node_core::NodeCore;
use node_store::format;
use sector_disk::MemDisk;
use std::alloc::{AllocError, Global};

impl DurableNode<MemDisk> {
    /// A node on a new disk of two areas of so many slots: formatted, mounted and recovered. Refused where there is no
    /// memory.
    pub fn open(
        alloc: Global,
        id: NodeId,
        nodes: u8,
        slots: u64,
    ) -> Result<DurableNode<MemDisk>, AllocError>
        requires within { id < nodes }
        requires most { nodes ≤ NODES }
        requires least { LEAST_SLOTS ≤ slots }
        requires greatest { slots ≤ MOST_SLOTS }
        ensures id { IfOk result (λ node. node.id ≡ id) }
        ensures nodes { IfOk result (λ node. node.nodes ≡ nodes) }
        ensures opens { IfOk result (λ node. Stands state_of node (opening id)) }
        // Promise: Opened over a disk in memory, a node is Normal in the group of its first count, with no job, and every image of
        // its disk stands for that; no call of the disk failed, and it isn't armed.
        // Also: opens, DurableNode::open_copy, formatted_disk.
        // Refuses: opened_on_a_blank_copy, opening_stays_down, opened_after_a_failure, opened_on_an_armed_disk.
        ensures disk { IfOk result (HasNewDisk (sectors_for slots)) }
        ensures mounted { IfOk result (λ node. node.mounted ≡ None) }
    {
        let disk = formatted_disk(alloc, slots)?;
        DurableNode::open_on(alloc, id, nodes, disk)
    }

    /// A node on a copy of a disk that was just formatted, mounted and recovered. Refused where there is no memory. The
    /// nodes of a simulated cluster open so: one format serves them all.
    pub fn open_copy(
        alloc: Global,
        id: NodeId,
        nodes: u8,
        disk: &MemDisk,
    ) -> Result<DurableNode<MemDisk>, AllocError>
        requires within { id < nodes }
        requires most { nodes ≤ NODES }
        requires fresh { IsFresh disk.now }
        ensures id { IfOk result (λ node. node.id ≡ id) }
        ensures nodes { IfOk result (λ node. node.nodes ≡ nodes) }
        ensures opens { IfOk result (λ node. Stands state_of node (opening id)) }
        ensures disk { IfOk result (HasNewDisk (state_of disk.now).sectors) }
        ensures mounted { IfOk result (λ node. node.mounted ≡ None) }
    {
        let copy = disk.copy(alloc)?;
        DurableNode::open_on(alloc, id, nodes, copy)
    }

    /// A node on a disk that was just formatted, mounted and recovered.
    fn open_on(
        alloc: Global,
        id: NodeId,
        nodes: u8,
        disk: MemDisk,
    ) -> Result<DurableNode<MemDisk>, AllocError>
        requires within { id < nodes }
        requires most { nodes ≤ NODES }
        requires fresh { IsFresh disk }
        ensures id { IfOk result (λ node. node.id ≡ id) }
        ensures nodes { IfOk result (λ node. node.nodes ≡ nodes) }
        ensures opens { IfOk result (λ node. Stands state_of node (opening id)) }
        ensures disk { IfOk result (HasNewDisk (state_of disk).sectors) }
        ensures mounted { IfOk result (λ node. node.mounted ≡ None) }
    {
        let mut node = DurableNode::down(alloc, id, nodes, disk);
        let Ok(came) = node.recover() else {
            return Err(AllocError);
        };
        let EventOutcome::Recovered(_) = came.event_outcome else {
            return Err(AllocError);
        };
        node.disarm();
        Ok(node)
    }

    /// Lets so many more calls of the disk pass, and fails all later ones, until it is armed anew or crashes.
    pub fn arm(&mut self, calls: u64)
        // Promise: Arming and disarming change nothing but how many calls pass.
        // Also: node_store::NodeStore::arm, node_store::NodeStore::disarm.
        // Refuses: armed_for_one_more.
        ensures armed { self.new ≡ record self.old { disk = armed_disk calls self.old.disk; mounted = None } }
        ensures stands { (s : NodeState) → Stands state_of self.old s → Stands state_of self.new s }
    {
        self.disk.arm(calls);
        self.mounted = None;
    }

    // Lets all later calls of the disk pass.
    fn disarm(&mut self)
        ensures disarmed { self.new ≡ record self.old { disk = with_left None self.old.disk; mounted = None } }
        ensures stands { (s : NodeState) → Stands state_of self.old s → Stands state_of self.new s }
    {
        self.disk.disarm();
        self.mounted = None;
    }

    /// Lets the disk forget the moments before this one, as [`MemDisk::forget`] does. What the last call mounted is shown still.
    pub fn forget(&mut self)
        // Promise: Where its disk forgets the earlier moments, nothing else of the node changes, and it stands for what it stood
        // for.
        ensures forgot { self.new ≡ record self.old { disk = forgotten_disk self.old.disk } }
        ensures stands { (s : NodeState) → Stands state_of self.old s → Stands state_of self.new s }
    {
        self.disk.forget();
    }

    /// Stops the node here. It is Down, and its disk has the bytes of `fill` in the sectors that weren't synced, as
    /// [`MemDisk::crash`] says. What is in doubt stays in doubt.
    pub fn crash(&mut self, fill: &[u8])
        // Promise: A crash leaves the node, which has its disk, Down and the disk as `MemDisk::crash` says; the node stands for
        // what it stood for, doubt included.
        // Refuses: crash_forgets_its_fill, doubt_dropped_by_a_crash.
        ensures there { IsSome self.old.disk }
        ensures down { self.new ≡ record self.old { state = down self.old.id; disk = self.new.disk; kept = None; area = None; mounted = None } }
        ensures disk { (was now : Memory) → self.old.disk ≡ Some was → self.new.disk ≡ Some now
            → IsCrashed was fill.now now.contents × (now ≡ all_synced now.contents was.failures) }
        ensures number { (was now : Memory) (bound : ℕ) → self.old.disk ≡ Some was → self.new.disk ≡ Some now → AllWithin bound (state_of was) → AllWithin bound (state_of now) }
        ensures stands { (s : NodeState) → Stands state_of self.old s → Stands state_of self.new (after self.old.id self.old.nodes s Crashed) }
    {
        let mut disk = self.disk.take();
        disk.crash(fill);
        self.disk = NodeDisk::Bare(disk);
        self.core = NodeCore::down(self.setting.alloc, self.setting.id, self.setting.nodes);
        self.mounted = None;
    }
}

/// A new disk of two areas of so many slots, formatted. Refused where there is no memory.
pub fn formatted_disk(alloc: Global, slots: u64) -> Result<MemDisk, AllocError>
    requires least { LEAST_SLOTS ≤ slots }
    requires greatest { slots ≤ MOST_SLOTS }
    ensures sectors { IfOk result (λ disk. (state_of disk).sectors ≡ sectors_for slots) }
    ensures fresh { IfOk result IsFresh }
{
    let mut disk = MemDisk::new(alloc, sectors_for(slots))?;
    if format(&mut disk).is_err() {
        return Err(AllocError);
    }
    disk.forget();
    disk.shrink_to_fit();
    Ok(disk)
}
