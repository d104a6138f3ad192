//! The limits of the crate as numbers: the contract of a function that does nothing.

ghost use Rattle.std.specs.Prelude.{◌≡◌};
ghost use Rattle.disk_layout.specs.declared.layout.TheConstants.{LEAST_SLOTS, MOST_SLOTS};
ghost use Rattle.schedule.specs.declared.size.TheConstants.{LEAST_CAPACITY, MOST_CAPACITY, MOST_ACTS};

/// A journal has from 4 to 4,096 slots, a link room for 1 to 65,536 messages, and a schedule at most 65,536 acts.
pub fn limits()
    // Promise: A journal has from 4 to 4,096 slots, a link between nodes in threads room for 1 to 65,536 messages, and a schedule at
    // most 65,536 acts.
    // Also: most_slots, least_capacity, most_capacity, acts.
    // Refuses: limit_off_by_one, link_of_no_message, link_of_one_message_less.
    ensures least_slots { LEAST_SLOTS ≡ 4 }
    ensures most_slots { MOST_SLOTS ≡ 4096 }
    ensures least_capacity { LEAST_CAPACITY ≡ 1 }
    ensures most_capacity { MOST_CAPACITY ≡ 65536 }
    ensures acts { MOST_ACTS ≡ 65536 }
{}
