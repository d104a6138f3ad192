//! A law of the network, the contract of a function that does nothing.

ghost use Rattle.sim_net.specs.Changes.{DeliveredByChanges};

/// What is delivered is decided by what was done: NoSuch where no message has the number, else Lost where it was lost before,
/// else Cut where the last cut or mend of its two nodes is a cut, else the message that was sent under this number.
pub fn delivered_by_changes()
    ensures { DeliveredByChanges }
{}
