//! What the clock and the operator are to do.

ghost use Rattle.std.specs.Prelude.{◌≡◌, IfOk};

use group_task::NodeId;
use job_model::NewJob;
use sector_disk::CrashFill;
use std::alloc::{AllocError, Global};

/// What the operator does.
#[derive(Debug, Drop, PartialEq, Eq)]
pub enum OperatorOrder {
    Submit(NewJob),
    /// The origin of a job in hand, and its id there.
    Finish(NodeId, u64),
    /// So many more calls of the disk pass.
    Arm(u64),
    /// The node crashes, and leaves these bytes in the sectors that weren't synced.
    Crash(CrashFill),
    Recover,
}

impl OperatorOrder {
    /// The same order once more.
    pub fn try_clone(&self, alloc: Global) -> Result<OperatorOrder, AllocError>
        ensures { IfOk result (λ order. order ≡ self.now) }
    {
        match self {
            OperatorOrder::Submit(job) => Ok(OperatorOrder::Submit(job.try_clone(alloc)?)),
            OperatorOrder::Finish(origin, id) => Ok(OperatorOrder::Finish(*origin, *id)),
            OperatorOrder::Arm(calls) => Ok(OperatorOrder::Arm(*calls)),
            OperatorOrder::Crash(fill) => Ok(OperatorOrder::Crash(fill.try_clone(alloc)?)),
            OperatorOrder::Recover => Ok(OperatorOrder::Recover),
        }
    }
}
