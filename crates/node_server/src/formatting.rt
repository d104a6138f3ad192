// A node's disk is made.
ghost use Rattle.std.specs.Prelude.{IsTrue, IsOk};
ghost use Rattle.sector_disk.specs.Disk.{AllSynced};
ghost use Rattle.sector_disk.specs.Run.{Each};
ghost use Rattle.job_model.specs.Table.{durable_of};
ghost use Rattle.job_journal.specs.Journal.{IsSound};
ghost use Rattle.node_store.specs.Calls.{Makes};
ghost use Rattle.node_server.specs.Formatted.{HasRoom, IsMade};
ghost use Rattle.node_store.specs.Store.{slots_for};
ghost use Rattle.node_store.specs.Beginning.{HasNoCounter, NothingOr};

use job_model::JobTable;
use node_store::{StoreFault, begin};
use sector_disk::SectorDisk;

/// Makes the store of a node with these jobs on a disk of zeros. Its counter begins with the next id, so the node gives no number of a group, and
/// no id, below that. Refused as [`begin`] refuses it.
pub fn format_node<D: SectorDisk>(disk: &mut D, jobs: &JobTable) -> Result<(), StoreFault>
    requires room { HasRoom (D.state disk.old) jobs.now }
    ensures makes { Makes D.state disk.old disk.new result }
    // Promise: A node that is made keeps the jobs that were given, and the number that was given for its first is the next of its ids and of
    // its groups: each image since the start stands for nothing or for that, and after `Ok` each for that.
    // Also: begun, sound, synced.
    // Refuses: first_ignored.
    ensures images { IsTrue (D.state disk.old).honest → HasNoCounter (D.state disk.old)
        → Each (D.state disk.old) (D.state disk.new) (NothingOr (slots_for (D.state disk.old).sectors) (durable_of jobs.now.next jobs.now)) }
    ensures begun { IsOk result → IsMade (D.state disk.old) (D.state disk.new) jobs.now }
    ensures sound { IsTrue (D.state disk.old).honest → IsOk result
        → IsSound (slots_for (D.state disk.old).sectors) (D.state disk.new) }
    ensures synced { IsTrue (D.state disk.old).honest → IsOk result
        → AllSynced (D.state disk.new) }
{
    begin(disk, jobs.next(), jobs)
}
