// The lock round a node.
ghost use Rattle.std.specs.Prelude.{◌≡◌, ◌↔◌, ◌≤◌, ⊤, ℕ, Bool, IsTrue, true, false, length, Ok, Err};
ghost use Rattle.node_lock.specs.HeldView.{HeldInvariant, Takes, Turned, TurnedSome, Unserved};
ghost use Rattle.node_lock.specs.History.{Turn};
ghost use Rattle.node_lock.specs.Planned.{plan_len, turns_of};
ghost use Rattle.node_lock.specs.declared.held.TheConstants.{MOST_ENTRIES};
ghost use Rattle.node_lock.specs.declared.worker.Worker.{Worker as Who};
ghost use Rattle.node_lock.specs.declared.lock.TurnFault.TheVariants.{GateShut, HistoryFull, NoMemory};

use crate::held::{Held, HeldFault};
use crate::worker::Worker;
use group_task::NodeId;
use std::sync::{Mutex, Wait};
use thiserror::Error;

/// The worker's next turn at a node whose lock is held, with what is true of the node before it and after it.
fn turn_kept<G: Gate>(
    held: &mut Held,
    node: NodeId,
    worker: Worker,
    gate: &G,
) -> Result<bool, TurnFault>
    ensures shut { result ≡ Err GateShut → IsTrue (G.may_shut node worker) }
    ensures turned { Turned worker result held.old held.new }
    ensures asked { result ≡ Ok true → G.lets node worker (turns_of held.old.turns worker) }
    ensures was { HeldInvariant held.old }
    ensures is { HeldInvariant held.new }
{
    held.is_kept();
    let answer = turn_held(held, node, worker, gate);
    held.is_kept();
    answer
}

/// The worker's next turn at a node whose lock is held, once the gate lets it pass.
fn turn_held<G: Gate>(
    held: &mut Held,
    node: NodeId,
    worker: Worker,
    gate: &G,
) -> Result<bool, TurnFault>
    ensures used_up { result ≡ Ok false ↔ (plan_len held.old.plans worker ≤ turns_of held.old.turns worker) }
    ensures unchanged { result ≡ Ok false → held.new ≡ held.old }
    ensures taken { result ≡ Ok true → (t : Turn) × Takes held.old worker t held.new }
    ensures asked { result ≡ Ok true → G.lets node worker (turns_of held.old.turns worker) }
    ensures shut { result ≡ Err GateShut → (held.new ≡ held.old) × IsTrue (G.may_shut node worker) }
    ensures full { result ≡ Err HistoryFull → (MOST_ENTRIES ≤ length held.old.history) × (held.new ≡ held.old) }
    ensures memory { result ≡ Err NoMemory → Unserved held.old held.new }
{
    if held.is_used_up(worker) {
        return Ok(false);
    }
    if !gate.pass(node, worker, held.turns(worker) as u64) {
        return Err(TurnFault::GateShut);
    }
    match held.next(worker) {
        Ok(taken) => Ok(taken),
        Err(HeldFault::HistoryFull) => Err(TurnFault::HistoryFull),
        Err(HeldFault::NoMemory) => Err(TurnFault::NoMemory),
    }
}

/// What may hold workers up.
pub trait Gate: Sync {
    /// For which worker of which node the gate may shut: any, unless a gate says less.
    ghost may_shut: { ℕ → Who → Bool } = { λ _ _. true };

    /// What is so where the gate lets a worker of a node take the turn of this number: nothing, unless a gate says more.
    ghost lets: { ℕ → Who → ℕ → Type 0 } = { λ _ _ _. ⊤ };

    /// Called once by each worker, with no lock held. False shuts the gate.
    fn reach(&self, node: NodeId, worker: Worker) -> bool
        ensures { result ≡ false → IsTrue (may_shut node worker) };

    /// Called before each turn, with the node's lock held. False shuts the gate.
    fn pass(&self, node: NodeId, worker: Worker, index: u64) -> bool
        ensures shut { result ≡ false → IsTrue (may_shut node worker) }
        ensures lets { result ≡ true → lets node worker index };
}

/// Why a worker stopped.
#[derive(Clone, Copy, PartialEq, Eq, Debug, Error)]
pub enum TurnFault {
    /// The history has as many turns as it can.
    #[error("the history is full")]
    HistoryFull,
    /// There is no memory. The turn may be taken once more.
    #[error("out of memory")]
    NoMemory,
    /// The gate doesn't let the worker pass: nothing was changed.
    #[error("the gate is shut")]
    GateShut,
}

/// A node that workers take turns at.
#[derive(Drop)]
pub struct NodeLock {
    /// Which node of the run it is: known without the lock.
    pub node: NodeId,
    held: Mutex<Held>,
}

impl NodeLock {
    /// The lock round this node.
    pub fn new(held: Held) -> NodeLock
        ensures { result.node ≡ held.run.node }
    {
        NodeLock {
            node: held.run().node,
            held: Mutex::new(held),
        }
    }

    /// Takes the worker's next turn, once the gate lets it pass. False where its plan is used up.
    ///
    /// What the lock holds is known while it is held and no longer, so the contract says that some state of a locked node was there, and
    /// which one the turn made of it.
    pub fn turn<R: Wait, G: Gate>(
        &self,
        rt: &R,
        worker: Worker,
        gate: &G,
    ) -> Result<bool, TurnFault>
        // Promise: A worker is stopped by the gate only where the gate may shut for this worker of this node, which each gate says
        // (`may_shut`; any, if it says nothing).
        // Refuses: shut_by_an_open_gate.
        ensures shut { result ≡ Err GateShut → IsTrue (G.may_shut self.now.node worker) }
        // Promise: A worker's turn under the lock does what `Held::next` says, and where the gate refuses it nothing: some state
        // was there of which the turn made what was answered. A turn is taken only where the gate lets the worker take this one.
        // Also: turn_held.
        // Refuses: turn_said_and_not_taken, full_answered_as_shut, gate_never_asked, pass_asked_of_another_turn.
        ensures turned { TurnedSome worker (G.lets self.now.node worker) result }
    {
        let mut guard = self.held.lock(rt);
        turn_kept(&mut *guard, self.node, worker, gate)
    }

    /// What the lock holds.
    pub fn into_held(self) -> Held {
        let NodeLock { node: _, held } = self;
        held.into_inner()
    }
}
