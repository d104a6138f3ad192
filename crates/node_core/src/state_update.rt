// The changes that most events make.
ghost use Rattle.std.specs.Prelude.{◌≡◌};
ghost use Rattle.node_core.specs.State.{state_of};
ghost use Rattle.node_core.specs.Noted.{noted, waiting_for};

use crate::commit::regroup;
use crate::phase::Phase;
use crate::vector::Vector;
use group_task::{GroupNo, Members, Task};

/// A change that is told in a few words. It stands beside [`StateChange`](crate::plan::Change), which takes more room than a plan has, and so
/// memory.
#[derive(Clone, Copy, Debug)]
pub enum StateUpdate {
    /// The coordinator checks, and these others answered.
    Found(Members),
    /// The coordinator was accepted by these.
    Accepted(Members),
    /// The node stops its work, and joins this group.
    Joined(GroupNo),
    /// The coordinator shares the queues by this task among those that accepted, and waits until they are ready.
    Shared(Task),
    /// The member was told this task.
    Told(Task),
    /// The coordinator waits until these are ready.
    Awaited(Members),
}

/// Makes the change that is noted.
pub fn take_note(vector: &mut Vector, note: StateUpdate)
    ensures { state_of vector.new ≡ noted note (state_of vector.old) }
{
    match note {
        StateUpdate::Found(found) => {
            vector.group_state.found = found;
            vector.group_state.checking = true;
        }
        StateUpdate::Accepted(up) => vector.group_state.up = up,
        StateUpdate::Joined(group) => {
            regroup(vector, group.creator(), group);
            vector.group_state.phase = Phase::Reorganization;
        }
        StateUpdate::Shared(task) => {
            vector.group_state.task = Some(task);
            vector.group_state.unready = vector.group_state.up;
            vector.group_state.phase = waiting_for(vector.group_state.up);
        }
        StateUpdate::Told(task) => {
            vector.group_state.task = Some(task);
            vector.group_state.phase = Phase::Normal;
        }
        StateUpdate::Awaited(unready) => {
            vector.group_state.unready = unready;
            vector.group_state.phase = waiting_for(unready);
        }
    }
}

/// The phase of a coordinator that waits for these.
fn waiting_for(unready: Members) -> Phase
    ensures { result ≡ waiting_for unready }
{
    if unready.is_empty() {
        Phase::Normal
    } else {
        Phase::Reorganization
    }
}
