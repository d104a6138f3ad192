//! What a whole run says of its nodes' disks: the contract of a function that does nothing.

ghost use Rattle.std.specs.Prelude.{◌≡◌, ℕ, List, slice_get, Some, false};
ghost use Rattle.histories.specs.HistoryEvent.{Entry};
ghost use Rattle.histories.specs.Lists.{IsAmong};
ghost use Rattle.link_ring.specs.declared.gathering.LinkEnd.{LinkEnd};
ghost use Rattle.node_lock.specs.History.{entries_of};
ghost use Rattle.node_lock.specs.Kept.{Log};
ghost use Rattle.node_lock.specs.Planned.{Planned};
ghost use Rattle.node_lock.specs.Wearing.{IsAreaExhausted, is_fault};
ghost use Rattle.node_threads.specs.Whole.{IsWhole};
ghost use Rattle.node_threads.specs.declared.size.RunSize.{RunSize};

/// Whatever the plans are, of a node whose disk failed at no call no event says that the device failed; and none is refused since the areas of the
/// disk are used up.
pub fn faults_have_failures()
    // Promise: Of a whole run in threads, an event says that the device failed only at a node of whose disk some call failed.
    // Refuses: node_lock::failures_never_shown.
    ensures failures { (size : RunSize) (plans : List Planned) (histories : List Log) (links : List LinkEnd) → IsWhole size plans histories links
        → (n : ℕ) (h : Log) → slice_get histories n ≡ Some h → h.failures ≡ 0 → (e : Entry) → IsAmong e (entries_of h.turns) → is_fault e.what ≡ false }
    // Promise: Of a whole run in threads, no event is refused since the areas of its node's disk are used up.
    // Refuses: node_lock::threads_refused_as_area_exhausted.
    ensures never_area_exhausted { (size : RunSize) (plans : List Planned) (histories : List Log) (links : List LinkEnd) → IsWhole size plans histories links
        → (n : ℕ) (h : Log) → slice_get histories n ≡ Some h → (e : Entry) → IsAmong e (entries_of h.turns) → IsAreaExhausted e.what → ⊥ }
{}
