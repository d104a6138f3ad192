// When something is due next at a node, and the line that tells it.
ghost use Rattle.std.specs.Prelude.{◌≡◌, ◌<◌, ◌≤◌, ◌^◌, ◌++◌, ◌⊎◌, ◌-◌, ℕ, [], OnOk, is_some, true, Some};
ghost use Rattle.node_core.specs.declared.event.Event.{Event};
ghost use Rattle.node_timers.specs.declared.deadline.Deadline.{Deadline};
ghost use Rattle.node_timers.specs.Policy.{passed, IsDue, MayFire, Runs};
ghost use Rattle.node_timers.specs.Retransmission.{has_come, sent_again};
ghost use Rattle.node_timers.specs.Timers.{wait_of};
ghost use Rattle.node_session.specs.Text.{next_line};

use console_text::{push_number, push_text};
use node_timers::{NodeSnapshot, Retransmission, TimerPolicy};
use std::alloc::AllocError;

/// When a timer fires or a message is sent again next, at a node that stays as it is seen, where it is so late now and the clock doesn't fall back. Before
/// that time nothing is; at it a timer fires, or what is waited for is looked through.
pub(crate) fn next_due(
    pace: &TimerPolicy,
    waiting: &Retransmission,
    snapshot: &NodeSnapshot,
    now: u64,
) -> u64
    // Promise: A tick tells when something is due next, unless the node is Down then, and nothing else does; before that time no
    // timer fires and nothing is sent again, where nothing comes, whatever time is told.
    // Refuses: later_of_the_two_told, nothing_told, node_timers::due_too_late, node_timers::due_too_early.
    ensures quiet { (later : ℕ) → later < result → (event : Event) → MayFire (passed later pace.now) snapshot.now event → ⊥ }
    ensures silent { (later : ℕ) → now ≤ later → later < result → sent_again later waiting.now ≡ [] }
    ensures fires { (d : Deadline) → Runs pace.now snapshot.now d → is_some pace.now.told ≡ true → result < 2 ^ 64 - 1
        → IsDue (passed result pace.now) snapshot.now ⊎ (has_come result waiting.now ≡ true) }
    ensures at_once { ((d : Deadline) → Runs pace.now snapshot.now d → ⊥) → is_some (wait_of snapshot.now) ≡ true → result ≡ 0 }
{
    let timer = pace.due_at(snapshot).unwrap_or(u64::MAX);
    let again = waiting.due_at(now).unwrap_or(u64::MAX);
    timer.min(again)
}

/// Adds when something is due next, where anything will be.
pub(crate) fn push_next(text: &mut Vec<u8>, due: Option<u64>) -> Result<(), AllocError>
    ensures { OnOk result (text.new.items ≡ text.old.items ++ next_line due) }
{
    let Some(due) = due else {
        return Ok(());
    };
    push_text(text, "next ")?;
    push_number(text, due)?;
    push_text(text, "\n")
}
