// The disk of a node, wherever it stands.
ghost use Rattle.std.specs.Prelude.{◌≡◌, IsSome, Some, None};
ghost use Rattle.durable_node.specs.Arming.{with_left_in};
ghost use Rattle.durable_node.specs.Forgetting.{forgotten_in};
ghost use Rattle.durable_node.specs.Node.{disk_in};

use node_store::NodeStore;
use sector_disk::{MemDisk, SectorDisk};
use std::mem;

/// The disk of a node.
#[derive(Debug, Drop)]
pub(crate) enum NodeDisk<D: SectorDisk> {
    /// By itself: it isn't mounted.
    Bare(D),
    /// Under the store that was mounted on it, also while the node is Down again.
    Mounted(NodeStore<D>),
    /// Moved out, to be mounted or to be crashed. No call leaves a node so.
    Taken,
}

impl<D: SectorDisk> NodeDisk<D> {
    /// The disk alone, as it is.
    pub(crate) fn into_disk(self) -> D
        requires there { IsSome (disk_in self) }
        ensures { disk_in self ≡ Some result }
    {
        match self {
            NodeDisk::Bare(disk) => disk,
            NodeDisk::Mounted(store) => store.into_disk(),
            NodeDisk::Taken => unreachable!(),
        }
    }

    /// Moves the disk out.
    pub(crate) fn take(&mut self) -> D
        requires there { IsSome (disk_in self.old) }
        ensures disk { disk_in self.old ≡ Some result }
        ensures taken { self.new ≡ NodeDisk.Taken }
    {
        mem::replace(self, NodeDisk::Taken).into_disk()
    }
}

impl NodeDisk<MemDisk> {
    /// Arms the disk where it stands.
    pub(crate) fn arm(&mut self, calls: u64)
        ensures { self.new ≡ with_left_in (Some calls) self.old }
    {
        match self {
            NodeDisk::Bare(disk) => disk.arm(calls),
            NodeDisk::Mounted(store) => store.arm(calls),
            NodeDisk::Taken => {}
        }
    }

    /// Disarms the disk where it stands.
    pub(crate) fn disarm(&mut self)
        ensures { self.new ≡ with_left_in None self.old }
    {
        match self {
            NodeDisk::Bare(disk) => disk.disarm(),
            NodeDisk::Mounted(store) => store.disarm(),
            NodeDisk::Taken => {}
        }
    }

    /// Lets the disk forget the moments before this one, where it stands.
    pub(crate) fn forget(&mut self)
        ensures { self.new ≡ forgotten_in self.old }
    {
        match self {
            NodeDisk::Bare(disk) => disk.forget(),
            NodeDisk::Mounted(store) => store.forget(),
            NodeDisk::Taken => {}
        }
    }
}
