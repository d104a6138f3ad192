//! Which version spells a message.

ghost use Rattle.std.specs.Prelude.{◌≡◌, ◌∷◌, [], nat_lt};
ghost use Rattle.wire_msg.specs.Spelling.{version_naming, version_of};
ghost use Rattle.wire_msg.specs.declared.version.TheConstants.{NARROW_NODES};

use crate::body::Body;
use group_task::{NodeId, Task};

/// Version 1 names the nodes below this number alone. Version 2 names every node, and spells just the messages that name one that
/// version 1 can't.
pub const NARROW_NODES: u8 = 64;

fn is_narrow(id: NodeId) -> bool
    ensures { result ≡ nat_lt id NARROW_NODES }
{
    id.number() < NARROW_NODES
}

/// The version of a message between these nodes whose body names no node.
#[inline]
pub(crate) fn version_between(sender: NodeId, receiver: NodeId) -> u8
    ensures { result ≡ version_naming (sender ∷ receiver ∷ []) }
{
    if is_narrow(sender) && is_narrow(receiver) {
        1
    } else {
        2
    }
}

/// The version of a message between these nodes whose body names this node alone, as the creator of its group.
#[inline]
pub(crate) fn version_naming(sender: NodeId, receiver: NodeId, creator: NodeId) -> u8
    ensures { result ≡ version_naming (sender ∷ receiver ∷ creator ∷ []) }
{
    if is_narrow(creator) {
        version_between(sender, receiver)
    } else {
        2
    }
}

/// The version of a message that tells this task.
pub(crate) fn version_telling(sender: NodeId, receiver: NodeId, task: &Task) -> u8
    ensures { result ≡ version_naming (sender ∷ receiver ∷ task.now.group.creator ∷ task.now.members) }
{
    if task.members().are_below(NodeId::numbered(NARROW_NODES)) {
        version_naming(sender, receiver, task.group().creator())
    } else {
        2
    }
}

/// The version of a message between these nodes that says this.
#[inline(always)]
pub(crate) fn version_of(sender: NodeId, receiver: NodeId, body: &Body) -> u8
    ensures { result ≡ version_of (record { sender = sender; receiver = receiver; body = body.now }) }
{
    if let Body::Ready(task) = body {
        return version_telling(sender, receiver, task);
    }
    match body.group() {
        Some(group) => version_naming(sender, receiver, group.creator()),
        None => version_between(sender, receiver),
    }
}
