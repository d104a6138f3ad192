ghost use Rattle.std.specs.Prelude.{◌≡◌, ◌≢◌, ◌<◌, ◌^◌, ℕ, true, IsOk, IfOk, IfErr, IsErrOf, Some, Ok, Err};
ghost use Rattle.job_model.specs.declared.node_command.NodeCommand.TheVariants.{Done};
ghost use Rattle.job_model.specs.declared.command.Command.TheVariants as command;
ghost use Rattle.job_model.specs.Fold.{is_pending};
ghost use Rattle.job_journal.specs.Journal.{IsSound};
ghost use Rattle.node_core.specs.Planned.{lent_by};
ghost use Rattle.node_store.specs.Calls.{Appends, Tries};
ghost use Rattle.node_store.specs.Store.{append_refusal, durable_of};
ghost use Rattle.durable_node.specs.Faults.{outcome_for};
ghost use Rattle.durable_node.specs.Carrying.{Carried, CantCarry, IsCut, IsReady, KeepsSound, Writes};
ghost use Rattle.durable_node.specs.Node.{area_of};
ghost use Rattle.durable_node.specs.Refusing.{CarriesAs, disk_refusal};

use histories::{EventOutcome, Refusal};
use job_journal::JournalFault;
use job_model::Work;
use node_core::WantedRef;
use node_store::NodeStore;
use sector_disk::SectorDisk;

/// Carries out the command that a plan wants, and gives its answer. Most plans want none. Where it isn't done, this is what came of
/// the event: `Refused` where the disk can't take the command, and else `Faulted`.
#[inline(always)]
#[tactic(auto, using(crate::proofs::AreaLaws::put_area, crate::proofs::AreaLaws::done_area, crate::proofs::AreaLaws::raise_area))]
pub(crate) fn carry<D: SectorDisk>(
    store: &mut NodeStore<D>,
    wants: &WantedRef<'_>,
) -> Result<Option<u64>, EventOutcome>
    requires ready { IsReady D.state store.old }
    requires pending { (id : ℕ) → lent_by wants.now ≡ Some (Done id) → is_pending (durable_of store.old).pending id ≡ true }
    ensures answers { CarriesAs (disk_refusal (durable_of store.old) (area_of store.old) (lent_by wants.now)) result }
    ensures ok { IfOk result (Carried store.old store.new (lent_by wants.now)) }
    ensures failed { IsErrOf result EventOutcome.Faulted → IsCut store.old store.new (lent_by wants.now) }
    ensures refused { IfErr result (λ came. came ≢ EventOutcome.Faulted → (store.new ≡ store.old) × CantCarry store.old.journal.slots (durable_of store.old) (lent_by wants.now) came) }
    ensures store { KeepsSound D.state store.old store.new (IsErrOf result EventOutcome.Faulted) }
    ensures disk { Writes D.state store.old store.new (lent_by wants.now) (IsOk result) }
{
    match wants {
        WantedRef::None => Ok(None),
        WantedRef::Raise => node_answer(store.raise()),
        WantedRef::Put(work) => node_answer(put(store, work)),
        WantedRef::Done(id) => node_answer(store.done(*id)),
    }
}

/// Makes a job pending. It stands apart, since the job that it hands on takes over 400 bytes.
#[inline(never)]
fn put<D: SectorDisk>(store: &mut NodeStore<D>, work: &Work) -> Result<u64, JournalFault>
    requires sound { IsSound store.old.journal.slots (D.state store.old.disk) }
    ensures fits { (durable_of store.old).next < 2 ^ 64 }
    ensures tries { Tries D.state (append_refusal store.old (command.Put work.now)) store.old store.new result }
    ensures appends { Appends D.state (command.Put work.now) store.old store.new result }
{
    let _ = store.table().next();
    store.put(*work)
}

/// What the store answers, as what came of the event where it isn't done.
fn node_answer(answer: Result<u64, JournalFault>) -> Result<Option<u64>, EventOutcome>
    ensures ok { IfOk answer (λ number. result ≡ Ok (Some number)) }
    ensures err { IfErr answer (λ fault. result ≡ Err (outcome_for fault)) }
{
    match answer {
        Ok(number) => Ok(Some(number)),
        Err(JournalFault::Full) => Err(EventOutcome::Refused(Refusal::Full)),
        Err(JournalFault::Exhausted) => Err(EventOutcome::Refused(Refusal::Exhausted)),
        Err(JournalFault::AreaExhausted) => Err(EventOutcome::Refused(Refusal::AreaExhausted)),
        Err(_) => Err(EventOutcome::Faulted),
    }
}
