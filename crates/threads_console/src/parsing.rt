//! The turn that the words of a line give to a worker.

ghost use Rattle.std.specs.Prelude.{◌≡◌, ◌≤◌, ◌<◌, IfOk, IfSome, option_map};
ghost use Rattle.group_task.specs.declared.node.TheConstants.{NODES};
ghost use Rattle.line_words.specs.Words.{words_of};
ghost use Rattle.node_core.specs.TimerWords.{timer_named};
ghost use Rattle.threads_console.specs.declared.turn.PlanTurn.TheVariants.{Poll};
ghost use Rattle.threads_console.specs.Planning.{PollFits, TurnFits};
ghost use Rattle.threads_console.specs.Turns.{alone_order, line_of, long_order, middle_order, of_one, order_of, other_of, short_order, turn_of};

use crate::fields::{member, other};
use crate::turn::PlanTurn;
use group_task::NodeId;
use line_words::{bytes, cut_word, is_word, number};
use node_core::Timer;
use node_lock::OperatorOrder;
use schedule::fields::{new_job, node, priority};
use sector_disk::CrashFill;
use std::alloc::{AllocError, Global};

/// The node and the turn of a line, in a cluster of so many nodes.
#[tactic(auto, using(crate::proofs::Counts::no_fields))]
pub fn turn_in(
    alloc: Global,
    nodes: u8,
    line: &[u8],
) -> Result<Option<(NodeId, PlanTurn)>, AllocError>
    requires { nodes ≤ NODES }
    ensures value { IfOk result (λ turn. turn ≡ line_of nodes (words_of line.now)) }
    ensures fits { IfOk result (λ turn. IfSome turn (TurnFits nodes)) }
{
    let Some((name, more)) = cut_word(line) else {
        return Ok(None);
    };
    let Some((worker, fields)) = cut_word(more) else {
        return Ok(None);
    };
    let Some(own) = member(nodes, name) else {
        return Ok(None);
    };
    match turn(alloc, nodes, own, worker, fields)? {
        Some(turn) => Ok(Some((own, turn))),
        None => Ok(None),
    }
}

/// The turn of the worker of this name.
fn turn(
    alloc: Global,
    nodes: u8,
    own: NodeId,
    worker: &[u8],
    fields: &[u8],
) -> Result<Option<PlanTurn>, AllocError>
    requires most { nodes ≤ NODES }
    requires own { own < nodes }
    ensures value { IfOk result (λ turn. turn ≡ turn_of nodes own worker.now (words_of fields.now)) }
    ensures fits { IfOk result (λ turn. IfSome turn (PollFits nodes own)) }
{
    if is_word(worker, "intake") {
        Ok(poll(nodes, own, fields))
    } else if is_word(worker, "clock") {
        match fire(fields) {
            Some(timer) => Ok(Some(PlanTurn::Fire(timer))),
            None => Ok(None),
        }
    } else if is_word(worker, "operator") {
        match order(alloc, fields)? {
            Some(order) => Ok(Some(PlanTurn::Do(order))),
            None => Ok(None),
        }
    } else {
        Ok(None)
    }
}

/// A poll of the link from the node that is named.
#[tactic(auto, using(crate::proofs::Counts::more_than_one))]
fn poll(nodes: u8, own: NodeId, fields: &[u8]) -> Option<PlanTurn>
    requires most { nodes ≤ NODES }
    requires own { own < nodes }
    ensures value { result ≡ option_map Poll (of_one (other_of nodes own) (words_of fields.now)) }
    ensures fits { IfSome result (PollFits nodes own) }
{
    match cut_word(fields) {
        None => Some(PlanTurn::Poll(other(nodes, own, fields)?)),
        Some(_) => None,
    }
}

/// The timer that is named.
#[tactic(auto, using(crate::proofs::Counts::more_than_one))]
fn fire(fields: &[u8]) -> Option<Timer>
    ensures { result ≡ of_one timer_named (words_of fields.now) }
{
    match cut_word(fields) {
        None => Timer::from_word(fields),
        Some(_) => None,
    }
}

/// What the operator does.
#[tactic(auto, using(crate::proofs::Counts::too_many))]
fn order(alloc: Global, line: &[u8]) -> Result<Option<OperatorOrder>, AllocError>
    ensures { IfOk result (λ order. order ≡ order_of (words_of line.now)) }
{
    let Some((name, fields)) = cut_word(line) else {
        return alone(alloc, line);
    };
    let Some((first, more)) = cut_word(fields) else {
        return short(alloc, name, fields);
    };
    let Some((second, third)) = cut_word(more) else {
        return middle(alloc, name, first, more);
    };
    match cut_word(third) {
        None => long(alloc, name, first, second, third),
        Some(_) => Ok(None),
    }
}

/// An order with no field.
fn alone(alloc: Global, name: &[u8]) -> Result<Option<OperatorOrder>, AllocError>
    ensures { IfOk result (λ order. order ≡ alone_order name.now) }
{
    if is_word(name, "crash") {
        let fill = CrashFill::new(alloc, Vec::new(alloc))?;
        Ok(Some(OperatorOrder::Crash(fill)))
    } else if is_word(name, "recover") {
        Ok(Some(OperatorOrder::Recover))
    } else {
        Ok(None)
    }
}

/// An order with one field.
fn short(alloc: Global, name: &[u8], field: &[u8]) -> Result<Option<OperatorOrder>, AllocError>
    ensures { IfOk result (λ order. order ≡ short_order name.now field.now) }
{
    if is_word(name, "arm") {
        match number(field) {
            Some(calls) => Ok(Some(OperatorOrder::Arm(calls))),
            None => Ok(None),
        }
    } else if is_word(name, "crash") {
        match bytes(alloc, field)? {
            Some(bytes) => Ok(Some(OperatorOrder::Crash(CrashFill::new(alloc, bytes)?))),
            None => Ok(None),
        }
    } else {
        Ok(None)
    }
}

/// An order with two fields.
fn middle(
    alloc: Global,
    name: &[u8],
    first: &[u8],
    second: &[u8],
) -> Result<Option<OperatorOrder>, AllocError>
    ensures { IfOk result (λ order. order ≡ middle_order name.now first.now second.now) }
{
    if is_word(name, "submit") {
        Ok(new_job(alloc, first, second, Some(0))?.map(OperatorOrder::Submit))
    } else if is_word(name, "finish") {
        match (node(first), number(second)) {
            (Some(origin), Some(id)) => Ok(Some(OperatorOrder::Finish(origin, id))),
            _ => Ok(None),
        }
    } else {
        Ok(None)
    }
}

/// An order with three fields.
fn long(
    alloc: Global,
    name: &[u8],
    first: &[u8],
    second: &[u8],
    third: &[u8],
) -> Result<Option<OperatorOrder>, AllocError>
    ensures { IfOk result (λ order. order ≡ long_order name.now first.now second.now third.now) }
{
    if is_word(name, "submit") {
        Ok(new_job(alloc, first, second, priority(third))?.map(OperatorOrder::Submit))
    } else {
        Ok(None)
    }
}
