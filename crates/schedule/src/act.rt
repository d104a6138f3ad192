ghost use Rattle.std.specs.Prelude.{◌≡◌, IfOk};

use group_task::NodeId;
use job_model::{NewJob, Work};
use node_core::Timer;
use sector_disk::CrashFill;
use std::alloc::{AllocError, Global};
use std::marker::Model;

/// The work of a job that is submitted, kept apart from its act: a schedule is a long list of
/// acts, most of which have none.
#[derive(Debug, Drop)]
pub struct Submitted {
    job: Box<NewJob>,
}

impl Model for Submitted {
    ghost use Rattle.job_model.specs.declared.work.Work.{Work};

    ghost Value = { Work };

    ghost view = { λ a. a.job.value };
}

impl Submitted {
    pub fn new(alloc: Global, job: NewJob) -> Result<Submitted, AllocError>
        // Promise: A job that is submitted has the work that it was made of, and the priority that its line names, which is never
        // 0; 0 where none is named.
        // Also: Submitted::work, read_schedule.
        // Refuses: empty_job_submitted, priority_dropped, priority_0_named.
        ensures { IfOk result (λ submitted. submitted ≡ job) }
    {
        Ok(Submitted {
            job: Box::new(alloc, job)?,
        })
    }

    pub fn work(&self) -> Work
        ensures { result ≡ self.now }
    {
        self.job.work()
    }
}

/// One line of a schedule.
#[derive(Debug, Drop)]
pub enum Act {
    Timer(NodeId, Timer),
    Deliver(u64),
    Lose(u64),
    Cut(NodeId, NodeId),
    Mend(NodeId, NodeId),
    Submit(NodeId, Submitted),
    Finish(NodeId, NodeId, u64),
    Arm(NodeId, u64),
    Crash(NodeId, CrashFill),
    Recover(NodeId),
    Compact(NodeId),
}

const _: () = prove!(size_of::<Act>() <= 16);
