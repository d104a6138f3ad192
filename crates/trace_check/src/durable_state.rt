ghost use Rattle.std.specs.Prelude.{◌≡◌, ◌≢◌, ◌<◌, ◌-◌, ◌^◌, ◌↔◌, ℕ, [], IfOk, OnOk, OnErr, IsTrue};
ghost use Rattle.job_model.specs.Answer.{answer_to};
ghost use Rattle.job_model.specs.declared.node_command.NodeCommand.TheVariants.{Put, Done};
ghost use Rattle.job_model.specs.Fold.{after_wanted, after_command};
ghost use Rattle.job_model.specs.Table.{durable_of};
ghost use Rattle.node_core.specs.NodeStep.{IsSpent};
ghost use Rattle.node_core.specs.Planned.{lent_by};

use job_model::{Command, JobTable, Work};
use node_core::WantedRef;
use std::alloc::{AllocError, Global};
use std::marker::Model;

/// What a node's disk keeps: the counter of groups and the pending jobs. It takes room as it is needed.
#[derive(Debug, Drop)]
pub(crate) struct DurableState {
    counter: u64,
    table: JobTable,
}

impl Model for DurableState {
    ghost use Rattle.job_model.specs.Durable.{Durable};
    ghost use Rattle.job_model.specs.Table.{durable_of};

    ghost Value = { Durable };

    ghost view = { λ a. durable_of a.counter a.table };
}

impl DurableState {
    /// What the disk of a node keeps that was just opened.
    pub(crate) fn new(alloc: Global) -> Result<DurableState, AllocError>
        ensures { IfOk result (λ durable_state. durable_state ≡ record { counter = 1; next = 0; pending = [] }) }
    {
        Ok(DurableState {
            counter: 1,
            table: JobTable::with_room(alloc, 0)?,
        })
    }

    /// The counter of groups.
    pub(crate) fn counter(&self) -> u64
        ensures { result ≡ self.now.counter }
    {
        self.counter
    }

    /// The pending jobs.
    pub(crate) fn table(&self) -> &JobTable
        ensures next { result.now.next ≡ self.now.next }
        ensures pending { result.now.pending ≡ self.now.pending }
    {
        &self.table
    }

    /// Whether the numbers that the command takes are used up.
    pub(crate) fn is_spent(&self, wants: &WantedRef<'_>) -> bool
        ensures spent { IsTrue result ↔ IsSpent self.now (lent_by wants.now) }
        ensures fits { self.now.counter < 2 ^ 64 }
    {
        let counter = self.counter;
        match wants {
            WantedRef::Raise => counter == u64::MAX,
            WantedRef::Put(_) => self.table.next() == u64::MAX,
            WantedRef::None | WantedRef::Done(_) => false,
        }
    }

    /// Takes the command, and gives its answer.
    #[inline(always)]
    pub(crate) fn take(&mut self, wants: &WantedRef<'_>) -> Result<u64, AllocError>
        requires { IsSpent self.old (lent_by wants.now) → ⊥ }
        ensures step { OnOk result (self.new ≡ after_wanted self.old (lent_by wants.now)) }
        ensures answer { IfOk result (λ answer. answer ≡ answer_to self.old (lent_by wants.now)) }
        ensures refused { OnErr result (self.new ≡ self.old) }
    {
        match wants {
            WantedRef::None => Ok(0),
            WantedRef::Raise => {
                self.counter += 1;
                Ok(self.counter)
            }
            WantedRef::Put(work) => put(&mut self.table, work),
            WantedRef::Done(id) => {
                done(&mut self.table, *id);
                Ok(*id)
            }
        }
    }
}

/// Makes a job pending, and gives its id.
#[inline(never)]
fn put(table: &mut JobTable, work: &Work) -> Result<u64, AllocError>
    requires { table.old.next ≢ 2 ^ 64 - 1 }
    ensures id { IfOk result (λ id. id ≡ table.old.next) }
    ensures step { OnOk result ((counter : ℕ) → durable_of counter table.new ≡ after_command (durable_of counter table.old) (Put work.now)) }
    ensures refused { OnErr result (table.new ≡ table.old) }
{
    let id = table.next();
    table.reserve(1)?;
    table.put(work);
    Ok(id)
}

/// Takes the job of this id out, if it is there.
#[inline(never)]
fn done(table: &mut JobTable, id: u64)
    ensures { (counter : ℕ) → durable_of counter table.new ≡ after_command (durable_of counter table.old) (Done id) }
{
    if table.contains(id) {
        table.apply(Command::Done(id));
    }
}
