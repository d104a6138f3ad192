ghost use Rattle.group_task.specs.Shares.{OneOwner, IsEven};

/// Of the members of a group exactly one owns each queue, the one that [`owner`](crate::owner)
/// names. This function is the law, and does nothing.
pub fn one_owner()
    // Promise: Of the members of a group exactly one owns each queue.
    // Also: node_core::Vector::members.
    ensures { OneOwner }
{}

/// No member of a group owns two queues more than another. This function is the law, and does
/// nothing.
#[tactic(auto, using(crate::proofs::ShareLaws::even_shares))]
pub fn even_shares()
    // Promise: No member owns two queues more than another.
    ensures { IsEven }
{}
