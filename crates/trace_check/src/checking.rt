ghost use Rattle.std.specs.Prelude.{◌≡◌, ◌≤◌, ◌<◌, ◌+◌, [], ℕ, length, slice_get, reverse, IfOk, IsTrue, true, false, MatchOption, Ok, None};
ghost use Rattle.group_task.specs.Ids.{has, without_id};
ghost use Rattle.trace_check.specs.Searches.{Fits, Rests};
ghost use Rattle.trace_check.specs.Leftovers.{AreLeftovers};
ghost use Rattle.trace_check.specs.Orders.{history};
ghost use Rattle.trace_check.specs.Verdicts.{AreTaken, IsVerdict, IsOrderOf, DecidesRun};

use crate::lazy_node::LazyNode;
use crate::leaving::leftovers;
use crate::leftover::Leftover;
use crate::node_model::EntryRoom;
use crate::search::{Judgement, NodeCursor, Search, first_left, turn};
use crate::sent_messages::SentMessages;
use crate::trace::{Trace, Verdict};
use group_task::{Members, NodeId};
use std::alloc::{AllocError, Global};

/// Whether some order of all entries is a run. At each turn the least node whose next entry is possible takes it.
pub fn check(alloc: Global, trace: &Trace) -> Result<Verdict, AllocError>
    // Promise: A verdict is Run, with a run, or NotARun where no more can be taken after some legal order, with the least node that
    // has entries left and its next; each turn takes the entry of the least node that can.
    // Refuses: unsent_message_taken, nodes_repeated, first_not_least, stuck_too_early, receiver_not_compared, receiver_not_woken,
    // waits_answered_as_stops, first_message_put_in_alone.
    ensures verdict { IfOk result (IsVerdict trace.now) }
    // Promise: The verdict is Run exactly where some order is a run.
    // Refuses: always_not_a_run.
    ensures decides { IfOk result (DecidesRun trace.now) }
{
    let search = taken(alloc, trace)?;
    Ok(decided(trace, search))
}

/// A verdict, and the next entry of each node that has entries left where it is no run.
#[derive(Debug, Drop)]
pub struct Examined {
    pub verdict: Verdict,
    pub left: Vec<Leftover>,
    /// The nodes in the order in which their entries were taken, until no entry more could be.
    pub taken: Vec<NodeId>,
}

/// The verdict, as `check` gives it, and why no order takes all entries where none does.
pub fn examine(alloc: Global, trace: &Trace) -> Result<Examined, AllocError>
    ensures verdict { IfOk result (λ examined. IsVerdict trace.now examined.verdict) }
    ensures decides { IfOk result (λ examined. DecidesRun trace.now examined.verdict) }
    ensures left { IfOk result (λ examined. AreLeftovers trace.now examined.left.items) }
    // Promise: The order is handed on in which the entries were taken that can be: that of the verdict where it is a run, else a legal
    // one after which no entry more can be taken.
    // Refuses: run_taken_in_another_order, last_turn_left_out.
    ensures taken { IfOk result (λ examined. AreTaken trace.now examined.verdict examined.taken.items) }
{
    let mut search = taken(alloc, trace)?;
    let left = leftovers(alloc, trace, &mut search)?;
    let taken = search.order.to_vec(alloc)?;
    let verdict = decided(trace, search);
    Ok(Examined {
        verdict,
        left,
        taken,
    })
}

/// A check at its end: no entry more can be taken.
fn taken<'a>(alloc: Global, trace: &'a Trace) -> Result<Search<'a>, AllocError>
    ensures fits { IfOk result (Fits trace.now) }
    ensures none { IfOk result (λ search. search.ready ≡ []) }
    ensures rests { IfOk result (Rests trace.now) }
{
    let mut search = open(alloc, trace)?;
    for _turn in 0..u64::MAX {
        if !take_turn(trace, &mut search)? {
            return Ok(search);
        }
    }
    unreachable!()
}

/// All nodes opened, and no entry is taken. There is room for as many messages as there are entries, which is about as many as are sent.
pub(crate) fn open<'a>(alloc: Global, trace: &'a Trace) -> Result<Search<'a>, AllocError>
    ensures fits { IfOk result (Fits trace.now) }
    ensures order { IfOk result (λ search. search.order.items ≡ []) }
    ensures none { IfOk result (λ search. search.stopped ≡ []) }
{
    let mut entries = 0usize;
    for history in trace.histories() {
        entries = entries.saturating_add(history.len());
    }
    let nodes = trace.nodes();
    let mut seats = Vec::with_capacity(alloc, usize::from(nodes))?;
    for number in 0..nodes {
        let node_model = LazyNode::new(alloc, NodeId::numbered(number), nodes)?;
        seats.push(NodeCursor {
            node_model,
            place: 0,
        })?;
    }
    Ok(Search {
        seats,
        ready: Members::below(nodes),
        stopped: Members::new(),
        posted: SentMessages::with_room(alloc, entries)?,
        room: EntryRoom::new(),
        order: Vec::with_capacity(alloc, entries)?,
    })
}

/// The least node that can takes its next entry. False where none can.
fn take_turn<'a>(trace: &'a Trace, search: &mut Search<'a>) -> Result<bool, AllocError>
    requires { Fits trace.now search.old }
    ensures fits { IfOk result (λ _. Fits trace.now search.new) }
    ensures more { IfOk result (λ more. more ≡ true → length search.new.order.items ≡ length search.old.order.items + 1) }
    ensures none { IfOk result (λ more. more ≡ false → (search.new.ready ≡ []) × (search.new.order.items ≡ search.old.order.items)) }
{
    while let Some(id) = least(&search.ready) {
        if take_next(trace, search, id)? {
            return Ok(true);
        }
    }
    Ok(false)
}

/// The least node of the set.
fn least(ready: &Members) -> Option<NodeId>
    ensures { MatchOption result (ready.now ≡ []) (λ id. (has ready.now id ≡ true) × ((m : ℕ) → m < id → has ready.now m ≡ false) × (length (without_id ready.now id) < length ready.now)) }
{
    let _len = ready.len();
    ready.first()
}

/// The node takes its next entry, if it can.
fn take_next<'a>(trace: &'a Trace, search: &mut Search<'a>, id: NodeId) -> Result<bool, AllocError>
    requires fits { Fits trace.now search.old }
    requires ready { has search.old.ready id ≡ true }
    requires least { (m : ℕ) → m < id → has search.old.ready m ≡ false }
    ensures fits { IfOk result (λ _. Fits trace.now search.new) }
    ensures more { IfOk result (λ more. more ≡ true → length search.new.order.items ≡ length search.old.order.items + 1) }
    ensures none { IfOk result (λ more. more ≡ false → (search.new.ready ≡ without_id search.old.ready id) × (search.new.order.items ≡ search.old.order.items)) }
{
    if usize::from(id.number()) >= search.seats.len() {
        search.ready.remove(id);
        return Ok(false);
    }
    match turn(trace, search, id)? {
        Judgement::Stops => {
            search.ready.remove(id);
            search.stopped.insert(id);
            Ok(false)
        }
        Judgement::Waits => {
            search.ready.remove(id);
            Ok(false)
        }
        Judgement::Takes => {
            search.order.push(id)?;
            Ok(true)
        }
    }
}

/// The verdict, which decides whether some order is a run.
fn decided(trace: &Trace, search: Search<'_>) -> Verdict
    requires { Rests trace.now search }
    ensures verdict { IsVerdict trace.now result }
    ensures decides { DecidesRun trace.now result }
    ensures order { IsOrderOf result search.entry.order.items }
{
    verdict(trace, search)
}

/// The verdict, once no entry more can be taken.
fn verdict(trace: &Trace, search: Search<'_>) -> Verdict
    requires { Rests trace.now search }
    ensures verdict { IsVerdict trace.now result }
    ensures order { IsOrderOf result search.entry.order.items }
{
    match first_left(trace, &search) {
        Some(left) => Verdict::NotARun(left.0, left.1),
        None => Verdict::Run(search.order),
    }
}
