// What the command line asks for.
ghost use Rattle.std.specs.Prelude.{◌<◌, ◌≤◌};
ghost use Rattle.group_task.specs.declared.node.TheConstants.{NODES};
ghost use Rattle.disk_layout.specs.declared.layout.TheConstants.{LEAST_SLOTS, MOST_SLOTS};

use file_disk::Stride;
use group_task::NodeId;
use invite_console::Details;
use store_console::Shown;
use threads_console::TraceKind;
use trace_console::Stage;

/// What a round trip between nodes takes where nothing else is said, and at most, in milliseconds of the clock that ticks tell.
pub const ROUND_TRIP: u16 = 20;

pub const MOST_ROUND_TRIP: u16 = 60_000;

/// What the command line asks for.
#[derive(Drop)]
pub enum Invocation {
    /// A command that reads its whole input first.
    Batch(Batch),
    /// The file of this path is to be made, with the jobs of the lines of another one, where that is named, for the cluster of this name.
    Format(String, Making, Option<String>, Option<String>),
    /// A node is to be served, over the file of this path, where a round trip takes so many milliseconds, with its messages sealed where
    /// there are keys, in the cluster of this name, by a process of this life, or of none.
    Node(String, NodePlace, u16, Option<Sealing>, Option<String>, Vec<u8>),
    /// The file of this path is to be made for the leases of a machine, numbered from behind this on.
    FormatLeases(String, NodeId, u64),
    /// A process of leases is to be served, as a node is.
    Lease(String, NodePlace, u16, Option<Sealing>),
    /// What the file of this path holds is to be printed, all of it or its jobs.
    Look(String, Shown),
    /// The jobs of the file of this path are to be printed that can still be read.
    Salvage(String),
    /// A run whose records stand in the files of these paths is to be judged.
    Trace(Stage, Vec<String>),
    /// A run is to be judged as it comes.
    Judge,
}

/// A command that reads its whole input first.
#[derive(Drop)]
pub enum Batch {
    Answer(NodePlace),
    Show,
    Sim(Details),
    /// Over the file of this path.
    Store(String),
    /// Of a run that is over, or of one that may go on.
    Trace(Stage),
    Record,
    /// The trace of a run alone, or with its order.
    Threads(TraceKind),
    /// Of a trace.
    Turns,
    /// Of a trace, the entries that can't be by themselves.
    Contradiction,
}

/// What a file is made for.
#[derive(Clone, Copy)]
pub struct Making {
    pub place: NodePlace,
    pub slots: u64,
    pub first: u64,
    /// How far apart its sectors lie.
    pub stride: Stride,
    ghost least: { LEAST_SLOTS ≤ slots },
    ghost most: { slots ≤ MOST_SLOTS },
}

/// How a node's messages are sealed: by the keys in the file of this path, for the cluster of this name.
#[derive(Drop)]
pub struct Sealing {
    pub key: String,
    pub cluster: String,
}

/// One node of a cluster.
#[derive(Clone, Copy)]
pub struct NodePlace {
    pub id: NodeId,
    pub nodes: u8,
    ghost within: { id < nodes },
    ghost limit: { nodes ≤ NODES },
}
