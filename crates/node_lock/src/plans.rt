//! The plans of a node's workers.

ghost use Rattle.std.specs.Prelude.{◌≡◌, ◌↔◌, [], ◌∷◌, ◌++◌, IfOk, IsTrue, OnOk};

use crate::order::OperatorOrder;
use group_task::NodeId;
use node_core::Timer;
use std::alloc::{AllocError, Global};
use std::marker::Model;

/// The turns of each worker of a node, in order: which link the intake polls, which timer the clock fires, what the operator does.
#[derive(Debug, Drop)]
pub struct Plans {
    intake: Vec<NodeId>,
    clock: Vec<Timer>,
    operator: Vec<OperatorOrder>,
}

impl Model for Plans {
    ghost use Rattle.node_lock.specs.Planned.{Planned};

    ghost Value = { Planned };

    ghost view = { λ a. record { intake = a.intake.items; clock = a.clock.items; operator = a.operator.items } };
}

impl Plans {
    pub fn new(intake: Vec<NodeId>, clock: Vec<Timer>, operator: Vec<OperatorOrder>) -> Plans
        ensures { result ≡ record { intake = intake.items; clock = clock.items; operator = operator.items } }
    {
        Plans {
            intake,
            clock,
            operator,
        }
    }

    /// Plans of no turns. They take no memory.
    pub fn none(alloc: Global) -> Plans
        ensures { result ≡ record { intake = []; clock = []; operator = [] } }
    {
        Plans::new(Vec::new(alloc), Vec::new(alloc), Vec::new(alloc))
    }

    /// Adds a poll of the link from this node.
    pub fn add_poll(&mut self, from: NodeId) -> Result<(), AllocError>
        ensures { OnOk result (self.new ≡ record self.old { intake = self.old.intake ++ from ∷ [] }) }
    {
        Ok(self.intake.push(from)?)
    }

    /// Adds a timer that fires.
    pub fn add_timer(&mut self, timer: Timer) -> Result<(), AllocError>
        ensures { OnOk result (self.new ≡ record self.old { clock = self.old.clock ++ timer ∷ [] }) }
    {
        Ok(self.clock.push(timer)?)
    }

    /// Adds what the operator does next.
    pub fn add_order(&mut self, order: OperatorOrder) -> Result<(), AllocError>
        ensures { OnOk result (self.new ≡ record self.old { operator = self.old.operator ++ order ∷ [] }) }
    {
        Ok(self.operator.push(order)?)
    }

    /// The nodes whose links are polled.
    pub fn intake(&self) -> &[NodeId]
        ensures { result.now ≡ self.now.intake }
    {
        &self.intake
    }

    /// The timers that fire.
    pub fn clock(&self) -> &[Timer]
        ensures { result.now ≡ self.now.clock }
    {
        &self.clock
    }

    /// What the operator does.
    pub fn operator(&self) -> &[OperatorOrder]
        ensures { result.now ≡ self.now.operator }
    {
        &self.operator
    }

    /// How many turns the workers are to take together.
    pub(crate) fn turns(&self) -> usize {
        self.intake
            .len()
            .saturating_add(self.clock.len())
            .saturating_add(self.operator.len())
    }

    /// The same plans once more.
    pub fn try_clone(&self, alloc: Global) -> Result<Plans, AllocError>
        // Promise: Plans that are cloned are the same, and two plans are compared by what they say.
        // Also: Plans::eq, OperatorOrder::try_clone.
        // Refuses: intake_plan_not_copied, copy_arms_at_once, timers_not_compared.
        ensures { IfOk result (λ plans. plans ≡ self.now) }
    {
        let intake = Vec::from_slice(alloc, &self.intake)?;
        let clock = Vec::from_slice(alloc, &self.clock)?;
        let mut operator = Vec::with_capacity(alloc, self.operator.len())?;
        for order in self.operator.iter() {
            operator.push(order.try_clone(alloc)?)?;
        }
        Ok(Plans {
            intake,
            clock,
            operator,
        })
    }
}

impl PartialEq for Plans {
    ghost use Rattle.std.specs.Cmp.{partial_equiv_from_equiv};
    ghost use Rattle.std.proofs.Common.{rules};
    ghost use Rattle.node_lock.specs.Compared.{same_plans, plans_decided, equiv_of};

    ghost eq = { same_plans ⟦<Timer as PartialEq>⟧.eq ⟦<OperatorOrder as PartialEq>⟧.eq };

    ghost laws = { partial_equiv_from_equiv (equiv_of (plans_decided (λ a b. Prim.search rules) (λ a b. Prim.search rules))) };

    fn eq(&self, other: &Plans) -> bool {
        self.intake == other.intake && self.clock == other.clock && self.operator == other.operator
    }
}

impl Eq for Plans {
    ghost use Rattle.std.proofs.Common.{rules};
    ghost use Rattle.node_lock.specs.Compared.{plans_decided, equiv_of};

    ghost laws = { equiv_of (plans_decided (λ a b. Prim.search rules) (λ a b. Prim.search rules)) };
}
