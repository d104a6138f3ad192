ghost use Rattle.std.specs.Prelude.{◌≡◌, IfOk};
ghost use Rattle.link_ring.specs.Sides.{unused, unused_put, Ring};

use crate::put_end::PutEnd;
use crate::take_end::TakeEnd;
use group_task::NodeId;
use rtrb::RingBuffer;
use std::alloc::{AllocError, Global};

/// A link from one node to another, whose ring has slots for so many messages. That many first puts find room, whether or not
/// anything is taken; with no slot at all each put is handed back. A slot takes 16 bytes, and a Ready or a Work that is in it a box of
/// some 450 more.
pub fn link(
    alloc: Global,
    sender: NodeId,
    receiver: NodeId,
    capacity: usize,
) -> Result<(PutEnd, TakeEnd), AllocError>
    // Promise: A link begins with nothing put and nothing taken, and both its ends have one ring; both answer its two nodes, and contracts
    // see how many slots its ring has.
    // Also: PutEnd::sender, PutEnd::receiver, TakeEnd::sender, TakeEnd::receiver.
    // Refuses: two_rings, link_of_fewer_slots, link_turned_round, receiver_for_sender_of_puts, sender_for_receiver_of_puts,
    // receiver_for_sender_of_takes, sender_for_receiver_of_takes.
    ensures { IfOk result (λ ends. (ring : Ring) × (ends.0 ≡ unused_put ring sender receiver capacity) × (ends.1 ≡ unused ring sender receiver capacity)) }
{
    let (producer, consumer) = RingBuffer::new(alloc, capacity)?;
    let put_end = PutEnd::new(alloc, sender, receiver, producer);
    let take_end = TakeEnd::new(alloc, sender, receiver, consumer);
    Ok((put_end, take_end))
}
