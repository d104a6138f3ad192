//! Whether what the nodes of a trace told is what they tell of these entries.
ghost use Rattle.std.specs.Prelude.{◌≡◌, ◌<◌, ◌+◌, length, reverse, IfOk, OnOk, option_map};
ghost use Rattle.trace_text.specs.Tellings.{telling_by, text_said};
ghost use Rattle.trace_check.specs.Followed.{before};
ghost use Rattle.trace_check.specs.Orders.{IsLegal};
ghost use Rattle.node_core.specs.State.{state_of};
ghost use Rattle.trace_console.specs.NodeAnswers.{dropped_answer, gone_answer, group_answer, id_answer, kept_answer, took_answer};
ghost use Rattle.trace_console.specs.Answers.{AnswersDecide, IsFalseAt, IsFirstFalse, is_so, is_so_if, says};
ghost use Rattle.trace_console.specs.Turns.{AreSeats};

use crate::node_answers::{
    dropped_answer, gone_answer, group_answer, id_answer, is_finish, kept_answer, took_answer,
};
use crate::told::Told;
use crate::walk::{NodeCursor, open};
use group_task::NodeId;
use node_core::Vector;
use std::alloc::{AllocError, Global};
use trace_check::{NodeModel, Trace};
use trace_text::{Said, Telling};

/// An entry of which the trace says that something else was told than its node tells.
#[derive(Clone, Copy, Debug)]
pub struct FalseAnswer {
    /// The number of its turn.
    pub turn: usize,
    pub node: NodeId,
    pub index: usize,
}

/// The first entry in this order of which something else is told than its node tells.
pub(crate) fn first_false(
    alloc: Global,
    trace: &Trace,
    told: &Told,
    order: &[NodeId],
) -> Result<Option<FalseAnswer>, AllocError>
    requires { IsLegal trace.now (reverse order.now) }
    ensures { IfOk result (IsFirstFalse trace.now told.now order.now) }
{
    if told.is_silent() {
        return Ok(None);
    }
    let mut before = open(alloc, trace)?;
    let mut behind = open(alloc, trace)?;
    for turn in 0..order.len() {
        step(trace, order, turn, &mut behind)?;
        let found = false_at(alloc, trace, told, order, turn, &before, &behind)?;
        if found.is_some() {
            return Ok(found);
        }
        step(trace, order, turn, &mut before)?;
    }
    Ok(None)
}

/// The turn of this number.
fn step(
    trace: &Trace,
    order: &[NodeId],
    turn: usize,
    seats: &mut Vec<NodeCursor>,
) -> Result<(), AllocError>
    requires more { turn < length order.now }
    requires legal { IsLegal trace.now (reverse order.now) }
    requires seats { AreSeats trace.now (before order.now turn) seats.old.items }
    ensures { OnOk result (AreSeats trace.now (before order.now (turn + 1)) seats.new.items) }
{
    let node = order[turn];
    let node_cursor = &mut seats[usize::from(node.number())];
    let index = node_cursor.index;
    let Some(entry) = trace.entry(node, index) else {
        unreachable!()
    };
    if !node_cursor.node_model.take(&entry)? {
        unreachable!()
    }
    node_cursor.index += 1;
    Ok(())
}

/// The entry of this turn, if something else is told of it than its node tells, as it stood before it and behind it.
fn false_at(
    alloc: Global,
    trace: &Trace,
    told: &Told,
    order: &[NodeId],
    turn: usize,
    old: &[NodeCursor],
    new: &[NodeCursor],
) -> Result<Option<FalseAnswer>, AllocError>
    requires more { turn < length order.now }
    requires legal { IsLegal trace.now (reverse order.now) }
    requires old { AreSeats trace.now (before order.now turn) old.now }
    requires new { AreSeats trace.now (before order.now (turn + 1)) new.now }
    ensures { IfOk result (IsFalseAt trace.now told.now order.now turn) }
{
    let node = order[turn];
    let number = usize::from(node.number());
    let old = &old[number];
    let new = &new[number];
    let index = old.index;
    let entry = trace.entry(node, index);
    let told = told.get(number, index);
    if is_so(
        alloc,
        &told,
        is_finish(&entry),
        &old.node_model,
        &new.node_model,
    )? {
        return Ok(None);
    }
    Ok(Some(FalseAnswer { turn, node, index }))
}

/// Whether what was told of an entry, if something was, is what a node tells that stood so before it, and so behind it.
fn is_so(
    alloc: Global,
    told: &Option<Telling<'_>>,
    is_finished: bool,
    old: &NodeModel,
    new: &NodeModel,
) -> Result<bool, AllocError>
    ensures { IfOk result (λ so. so ≡ is_so_if (option_map telling_by told.now) is_finished old.now.node new.now.node) }
{
    match told {
        Some(told) => are_so(alloc, told, is_finished, old, new),
        None => Ok(true),
    }
}

/// Whether each field that says what was told says what a node tells that stood so before an entry, and so behind it.
fn are_so(
    alloc: Global,
    told: &Telling<'_>,
    is_finished: bool,
    old: &NodeModel,
    new: &NodeModel,
) -> Result<bool, AllocError>
    ensures { IfOk result (λ so. so ≡ is_so (telling_by told.now) is_finished old.now.node new.now.node) }
{
    let group = group_so(alloc, told.group, new.vector())?;
    let took = took_so(alloc, told.took, old.vector(), new.vector())?;
    let dropped = dropped_so(alloc, told.dropped, is_finished, old.vector(), new.vector())?;
    let gone = gone_so(alloc, told.gone, old, new)?;
    let id = id_so(alloc, told.id, old, new)?;
    let kept = kept_so(alloc, told.kept, new)?;
    Ok(told.is_object && group && took && dropped && gone && id && kept)
}

fn group_so(alloc: Global, said: Option<Said<'_>>, new: &Vector) -> Result<bool, AllocError>
    ensures { IfOk result (λ so. so ≡ says (option_map text_said said.entry) (group_answer (state_of new.now))) }
{
    if said.is_none() {
        return Ok(true);
    }
    let text = group_answer(alloc, new)?;
    Ok(says(said, &text))
}

fn took_so(
    alloc: Global,
    said: Option<Said<'_>>,
    old: &Vector,
    new: &Vector,
) -> Result<bool, AllocError>
    ensures { IfOk result (λ so. so ≡ says (option_map text_said said.entry) (took_answer (state_of old.now) (state_of new.now))) }
{
    if said.is_none() {
        return Ok(true);
    }
    let text = took_answer(alloc, old, new)?;
    Ok(says(said, &text))
}

fn dropped_so(
    alloc: Global,
    said: Option<Said<'_>>,
    is_finished: bool,
    old: &Vector,
    new: &Vector,
) -> Result<bool, AllocError>
    ensures { IfOk result (λ so. so ≡ says (option_map text_said said.entry) (dropped_answer is_finished (state_of old.now) (state_of new.now))) }
{
    if said.is_none() {
        return Ok(true);
    }
    let text = dropped_answer(alloc, is_finished, old, new)?;
    Ok(says(said, &text))
}

fn gone_so(
    alloc: Global,
    said: Option<Said<'_>>,
    old: &NodeModel,
    new: &NodeModel,
) -> Result<bool, AllocError>
    ensures { IfOk result (λ so. so ≡ says (option_map text_said said.entry) (gone_answer old.now.node.durable new.now.node.durable)) }
{
    if said.is_none() {
        return Ok(true);
    }
    let text = gone_answer(alloc, old, new)?;
    Ok(says(said, &text))
}

fn id_so(
    alloc: Global,
    said: Option<Said<'_>>,
    old: &NodeModel,
    new: &NodeModel,
) -> Result<bool, AllocError>
    ensures { IfOk result (λ so. so ≡ says (option_map text_said said.entry) (id_answer old.now.node.durable new.now.node.durable)) }
{
    if said.is_none() {
        return Ok(true);
    }
    let text = id_answer(alloc, old, new)?;
    Ok(says(said, &text))
}

fn kept_so(alloc: Global, said: Option<Said<'_>>, new: &NodeModel) -> Result<bool, AllocError>
    ensures { IfOk result (λ so. so ≡ says (option_map text_said said.entry) (kept_answer new.now.node.durable)) }
{
    if said.is_none() {
        return Ok(true);
    }
    let text = kept_answer(alloc, new)?;
    Ok(says(said, &text))
}

/// Whether a field that is there has this text.
fn says(said: Option<Said<'_>>, text: &[u8]) -> bool
    ensures { result ≡ says (option_map text_said said.entry) text.now }
{
    match said {
        Some(Said::Text(said)) => said == text,
        Some(Said::Other) => false,
        None => true,
    }
}

/// Where all entries can be taken in an order, some order is a run in which each node would also have told what the trace says, exactly where nothing
/// else is told of any turn of it.
pub fn answers_decide()
    ensures { AnswersDecide }
{}
