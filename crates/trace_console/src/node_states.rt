//! How a node stands with its disk, as lines.
ghost use Rattle.std.specs.Prelude.{◌≡◌, ◌++◌, OnOk};
ghost use Rattle.std.specs.List.{flat_map};
ghost use Rattle.node_core.specs.Planned.{wanted_by};
ghost use Rattle.node_core.specs.State.{state_of};
ghost use Rattle.trace_console.specs.NodeStates.{asking_text, doubt_text, held_text, jobs_text, node_state_text, numbers_text, pending_text, state_text, task_text};

use console_text::{push_named_number, push_text, push_work};
use group_task::Task;
use job_model::{JobRef, PendingJobs};
use node_core::{HandJobs, InHandRef, Vector, Wanted};
use node_words::{phase_word, push_group, push_group_part, push_ids, push_truth, push_work_of};
use std::alloc::AllocError;
use trace_check::NodeModel;

/// Adds how a node stands: a line, and one for each of its jobs, without the end of the last one.
#[tactic(auto, unfolding(crate::specs::NodeStates::node_state_text))]
pub(crate) fn push_node_state(text: &mut Vec<u8>, node: &NodeModel) -> Result<(), AllocError>
    ensures { OnOk result (text.new.items ≡ text.old.items ++ node_state_text node.now.node) }
{
    push_state(text, node.vector())?;
    push_numbers(text, node)?;
    push_jobs(text, node)?;
    push_doubt(text, node.doubt())
}

/// Adds what the node knows of its group.
#[tactic(auto, unfolding(crate::specs::NodeStates::state_text))]
fn push_state(text: &mut Vec<u8>, vector: &Vector) -> Result<(), AllocError>
    ensures { OnOk result (text.new.items ≡ text.old.items ++ state_text (state_of vector.now)) }
{
    push_text(text, phase_word(vector.group_state.phase))?;
    push_group_part(text, vector)?;
    push_text(text, " up ")?;
    push_ids(text, vector.group_state.up)?;
    push_task(text, &vector.group_state.task)?;
    push_asking(text, vector)
}

#[tactic(auto, unfolding(crate::specs::NodeStates::task_text))]
fn push_task(text: &mut Vec<u8>, task: &Option<Task>) -> Result<(), AllocError>
    ensures { OnOk result (text.new.items ≡ text.old.items ++ task_text task.now) }
{
    let Some(task) = task else {
        return push_text(text, " task - members -");
    };
    push_text(text, " task ")?;
    push_group(text, task.group())?;
    push_text(text, " members ")?;
    push_ids(text, task.members())
}

#[tactic(auto, unfolding(crate::specs::NodeStates::asking_text))]
fn push_asking(text: &mut Vec<u8>, vector: &Vector) -> Result<(), AllocError>
    ensures { OnOk result (text.new.items ≡ text.old.items ++ asking_text (state_of vector.now)) }
{
    push_text(text, " found ")?;
    push_ids(text, vector.group_state.found)?;
    push_text(text, " unready ")?;
    push_ids(text, vector.group_state.unready)?;
    push_text(text, " checking ")?;
    push_truth(text, vector.group_state.checking)?;
    push_text(text, " probing ")?;
    push_truth(text, vector.group_state.probing)
}

/// Adds the node's counter, and the id of its next job.
#[tactic(auto, unfolding(crate::specs::NodeStates::numbers_text))]
fn push_numbers(text: &mut Vec<u8>, node: &NodeModel) -> Result<(), AllocError>
    ensures { OnOk result (text.new.items ≡ text.old.items ++ numbers_text node.now.node.durable) }
{
    push_named_number(text, " count ", node.counter())?;
    push_named_number(text, " next ", node.table().next())
}

/// Adds a line for each job that is pending, and for each that the node works on.
fn push_jobs(text: &mut Vec<u8>, node: &NodeModel) -> Result<(), AllocError>
    ensures { OnOk result (text.new.items ≡ text.old.items ++ jobs_text node.now.node) }
{
    push_all_pending(text, &node.table().pending())?;
    push_all_held(text, &node.vector().hand.jobs())
}

fn push_all_pending(text: &mut Vec<u8>, jobs: &PendingJobs<'_>) -> Result<(), AllocError>
    ensures { OnOk result (text.new.items ≡ text.old.items ++ flat_map pending_text jobs.now) }
{
    for job in jobs.iter() {
        push_pending(text, &job)?;
    }
    Ok(())
}

#[tactic(auto, unfolding(crate::specs::NodeStates::pending_text))]
fn push_pending(text: &mut Vec<u8>, job: &JobRef<'_>) -> Result<(), AllocError>
    ensures { OnOk result (text.new.items ≡ text.old.items ++ pending_text job.now) }
{
    push_named_number(text, "\npending ", job.id())?;
    push_text(text, " ")?;
    push_work(text, job.queue().number(), job.payload(), job.priority())
}

fn push_all_held(text: &mut Vec<u8>, jobs: &HandJobs<'_>) -> Result<(), AllocError>
    ensures { OnOk result (text.new.items ≡ text.old.items ++ flat_map held_text jobs.now) }
{
    for job in jobs.iter() {
        push_held(text, &job)?;
    }
    Ok(())
}

#[tactic(auto, unfolding(crate::specs::NodeStates::held_text))]
fn push_held(text: &mut Vec<u8>, job: &InHandRef<'_>) -> Result<(), AllocError>
    ensures { OnOk result (text.new.items ≡ text.old.items ++ held_text job.now) }
{
    push_named_number(text, "\nhand ", u64::from(job.origin().number()))?;
    push_named_number(text, " ", job.id())?;
    push_text(text, " ")?;
    push_work(text, job.queue().number(), job.payload(), job.priority())
}

/// Adds a line for the command in doubt, where there is one.
fn push_doubt(text: &mut Vec<u8>, doubt: &Wanted) -> Result<(), AllocError>
    ensures { OnOk result (text.new.items ≡ text.old.items ++ doubt_text (wanted_by doubt.now)) }
{
    match doubt {
        Wanted::None => Ok(()),
        Wanted::Raise => push_text(text, "\ndoubt raise"),
        Wanted::Put(work) => {
            push_text(text, "\ndoubt put ")?;
            push_work_of(text, work)
        }
        Wanted::Done(id) => push_named_number(text, "\ndoubt done ", *id),
    }
}
