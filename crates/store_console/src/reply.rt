use file_disk::OpenFault;
use job_journal::JournalFault;
use node_store::StoreFault;

/// What a request is answered.
#[derive(Clone, Copy, Debug)]
pub enum Reply {
    Done,
    /// The counter's value after a raise, or the id of a job that was put.
    Value(u64),
    /// A change or a list of the store is refused: where nothing is mounted, it is `Broken`.
    Refused(JournalFault),
    /// No store is made or mounted.
    Unmounted(StoreFault),
    /// The file can't be made, opened or read. It is answered as a device that failed, and why is said beside the answers.
    Barred(OpenFault),
    /// Another process has the file open as a disk.
    Locked,
    /// It is a node's file, which no store is made or mounted of.
    Foreign,
    /// The counter and the jobs, as they are.
    Listed,
}
