//! Whether entries can be taken in an order that is given.
ghost use Rattle.std.specs.Prelude.{◌≡◌, ◌↔◌, ℕ, List, length, reverse, IfOk, IsTrue};
ghost use Rattle.trace_check.specs.Followed.{Follows};
ghost use Rattle.trace_check.specs.Orders.{IsComplete, IsLegal};

use crate::checking::open;
use crate::search::{Judgement, Search, first_left, turn};
use crate::trace::Trace;
use group_task::NodeId;
use std::alloc::{AllocError, Global};

/// Whether all entries can be taken in this order.
pub fn is_order(alloc: Global, trace: &Trace, order: &[NodeId]) -> Result<bool, AllocError>
    // Promise: Whether all entries can be taken in an order that is given is answered exactly.
    ensures { IfOk result (λ is. IsTrue is ↔ (IsLegal trace.now (reverse order.now) × IsComplete trace.now (reverse order.now))) }
{
    let mut search = open(alloc, trace)?;
    for turn in 0..order.len() {
        if !follow(trace, &mut search, order[turn])? {
            return Ok(false);
        }
    }
    Ok(first_left(trace, &search).is_none())
}

/// The node takes its next entry, if it can. Where it can't, the search is of no more use.
fn follow<'a>(trace: &'a Trace, search: &mut Search<'a>, id: NodeId) -> Result<bool, AllocError>
    ensures { IfOk result (Follows trace.now search.old search.new id) }
{
    if usize::from(id.number()) >= search.seats.len() {
        return Ok(false);
    }
    match turn(trace, search, id)? {
        Judgement::Stops => Ok(false),
        Judgement::Waits => Ok(false),
        Judgement::Takes => Ok(true),
    }
}
