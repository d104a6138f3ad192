// A command that a node tried on its disk.
use job_model::NodeCommand as Command;

/// A command that was tried on the device, with the answer if it was acknowledged.
#[derive(Clone, Copy, Debug, PartialEq, Eq)]
pub struct Attempt {
    pub command: Command,
    /// The new count, the new id, or the id that is done. None where the device failed: whether the disk keeps the command is
    /// open until it is mounted.
    pub acked: Option<u64>,
}
