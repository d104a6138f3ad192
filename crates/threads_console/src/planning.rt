//! Plans that turns are added to.

ghost use Rattle.std.specs.Prelude.{◌≡◌, ◌<◌, IfOk, OnOk, replicate, length, vec_len};
ghost use Rattle.node_threads.specs.Nodes.{PollOthers};
ghost use Rattle.threads_console.specs.Planning.{IsPlaced, TurnFits, no_plans};

use crate::turn::PlanTurn;
use group_task::NodeId;
use node_lock::Plans;
use std::alloc::{AllocError, Global};

/// Plans of no turns for each of so many nodes.
#[tactic(auto, using(crate::proofs::Filling::one_more))]
pub fn no_plans(alloc: Global, nodes: u8) -> Result<Vec<Plans>, AllocError>
    ensures { IfOk result (λ plans. plans.items ≡ replicate nodes no_plans) }
{
    let mut plans = Vec::new(alloc);
    for _node in 0..nodes {
        plans.push(Plans::none(alloc))?;
    }
    Ok(plans)
}

/// Adds a turn to the plans of its node. Intakes that poll other nodes of the cluster alone still do.
pub fn place(plans: &mut Vec<Plans>, node: NodeId, turn: PlanTurn) -> Result<(), AllocError>
    requires { TurnFits (length plans.old.items) (node, turn) }
    ensures placed { OnOk result (IsPlaced (node, turn) plans.old.items plans.new.items) }
    ensures polls { PollOthers plans.old.items → OnOk result (PollOthers plans.new.items) }
{
    push_at(plans, node, turn)
}

/// Adds a turn to the plan of its worker, at its node.
fn push_at(plans: &mut Vec<Plans>, node: NodeId, turn: PlanTurn) -> Result<(), AllocError>
    requires { node < vec_len plans.old }
    ensures { OnOk result (IsPlaced (node, turn) plans.old.items plans.new.items) }
{
    let own = &mut plans[usize::from(node.number())];
    match turn {
        PlanTurn::Poll(from) => own.add_poll(from),
        PlanTurn::Fire(timer) => own.add_timer(timer),
        PlanTurn::Do(order) => own.add_order(order),
    }
}
