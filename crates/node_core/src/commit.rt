ghost use Rattle.std.specs.Prelude.{◌≡◌, ◌≢◌, ◌≤◌, ◌<◌, ◌+◌, length, None, false, [], ◌∷◌, ◌++◌, ℕ, vec_capacity, vec_len};
ghost use Rattle.group_task.specs.Ids.{has};
ghost use Rattle.node_core.specs.State.{state_of, with_standing};
ghost use Rattle.node_core.specs.Words.{own_group, letter, to_each};
ghost use Rattle.node_core.specs.Start.{alone, entering};
ghost use Rattle.node_core.specs.Consistent.{IsConsistent};

use crate::phase::Phase;
use crate::plan::{StateChange, write_to_each};
use crate::vector::Vector;
use group_task::{GroupNo, Members, NodeId, share};
use job_model::Work;
use wire_msg::{Body, Message};

/// Takes a new standing, and jobs in hand within its room.
pub fn apply(vector: &mut Vector, change: Box<StateChange>)
    requires { length vector.old.hand.jobs + vec_len change.value.gains ≤ vector.old.hand.room }
    ensures { state_of vector.new ≡ with_standing change.value.group_state (vector.old.hand.jobs ++ change.value.gains.items) }
{
    let StateChange { group_state, gains } = Box::into_inner(change);
    vector.hand.append(gains);
    vector.group_state = group_state;
}

/// Stops work, and starts this group.
pub fn regroup(vector: &mut Vector, id: NodeId, group: GroupNo)
    requires { group ≡ own_group id group.count }
    ensures { state_of vector.new ≡ entering vector.old.group_state.phase (own_group id group.count) }
{
    vector.hand.clear();
    let group_state = &mut vector.group_state;
    group_state.found = Members::new();
    group_state.unready = Members::new();
    group_state.task = None;
    group_state.checking = false;
    group_state.probing = false;
    group_state.coordinator = id;
    group_state.group = group;
    group_state.up = Members::new();
}

/// Starts this group, alone in it.
#[tactic(auto, using(group_task::proofs::PublicLaws::none_others, group_task::proofs::PublicLaws::with_has_same))]
pub fn recover(vector: &mut Vector, id: NodeId, group: GroupNo)
    requires own { group ≡ own_group id group.count }
    ensures { state_of vector.new ≡ alone id group.count }
{
    regroup(vector, id, group);
    vector.group_state.task = Some(share(group, Members::new().with(id)));
    vector.group_state.phase = Phase::Normal;
}

/// Takes a new job in hand, or writes the message that sends it to its owner, in the room that is there. It stands apart, since each
/// call of a function pays for the size of its locals, and here a whole message is one.
#[tactic(auto, using(crate::proofs::Sets::more_from, crate::proofs::Sets::one_from))]
#[inline(never)]
pub fn place(
    vector: &mut Vector,
    messages: &mut Vec<Message>,
    id: NodeId,
    to: NodeId,
    job: u64,
    work: &Work,
)
    requires hand { to ≡ id → length vector.old.hand.jobs < vector.old.hand.room }
    requires empty { messages.old.items ≡ [] }
    requires room { 1 ≤ vec_capacity messages.old }
    ensures own { to ≡ id → (state_of vector.new ≡ record (state_of vector.old) {
      hand = vector.old.hand.jobs ++ (record { origin = id; id = job; work = work.now }) ∷ [];
    })
        × (messages.new.items ≡ []) }
    ensures other { to ≢ id → (state_of vector.new ≡ state_of vector.old)
        × (messages.new.items ≡ letter id to (Body.Work vector.old.group_state.group job work.now) ∷ []) }
    ensures consistent { (nodes : ℕ) → IsConsistent nodes id (state_of vector.old) → IsConsistent nodes id (state_of vector.new) }
{
    if to.is(id) {
        vector.hand.push_job(id, job, work);
    } else {
        let order = Body::Work {
            group: vector.group_state.group,
            id: job,
            work: *work,
        };
        messages.push_reserved(Message::between(id, to, order));
    }
}

/// Invites each of these nodes into the group, in the room that is there. It stands apart as [`place`] does.
#[inline(never)]
pub fn invite_each(messages: &mut Vec<Message>, id: NodeId, receivers: Members, group: GroupNo)
    requires others { has receivers id ≡ false }
    requires empty { messages.old.items ≡ [] }
    requires room { length receivers ≤ vec_capacity messages.old }
    ensures { messages.new.items ≡ to_each id receivers (Body.Invitation group) }
{
    write_to_each(messages, id, receivers, &Body::Invitation(group));
}
