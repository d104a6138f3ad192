// The events that acts are, and bring.
ghost use Rattle.std.specs.Prelude.{◌≡◌, None, Some, Err, Ok, IfSome, IsNone, IfOk, IfErr};
ghost use Rattle.sim_net.specs.Network.{delivery};
ghost use Rattle.runs.specs.Events.{event_at};
ghost use Rattle.cluster_sim.specs.Deliveries.{IsDelivery, Delivers};

use group_task::NodeId;
use node_core::Event;
use schedule::Act;
use sim_net::{Net, NetFault};
use wire_msg::Message;

/// Makes the event that an act is, in the place of another one, and answers the node that it comes to. An event is long: so where a timer
/// follows another, only the timer is written. It stands apart, since each call of a function pays for the size of its locals.
#[inline(never)]
pub(crate) fn event_at(act: &Act, event: &mut Event) -> Option<NodeId>
    ensures some { IfSome result (λ id. event_at act.now ≡ Some (id, event.new)) }
    ensures none { IsNone result → event_at act.now ≡ None }
{
    match act {
        Act::Timer(id, timer) => {
            if let Event::Timer(last) = event {
                *last = *timer;
            } else {
                *event = Event::Timer(*timer);
            }
            Some(*id)
        }
        Act::Submit(id, job) => {
            *event = Event::Submit(job.work());
            Some(*id)
        }
        Act::Finish(id, origin, job) => {
            *event = Event::Finish(*origin, *job);
            Some(*id)
        }
        Act::Recover(id) => {
            if !matches!(event, Event::Recover) {
                *event = Event::Recover;
            }
            Some(*id)
        }
        _ => None,
    }
}

/// Reads the message of this number, as it is delivered, in the event of another delivery, and answers its receiver.
pub(crate) fn read_delivery(net: &Net, number: u64, event: &mut Event) -> Result<NodeId, NetFault>
    requires { IsDelivery event.old }
    ensures comes { IfOk result (λ receiver. Delivers (delivery net.now.network number) receiver event.new) }
    ensures refused { IfErr result (λ fault. delivery net.now.network number ≡ Err fault) }
    ensures delivery { IsDelivery event.new }
{
    let Event::Deliver(message) = event else {
        unreachable!()
    };
    match net.deliver_into(number, message) {
        Ok(()) => Ok(message.receiver()),
        Err(fault) => Err(fault),
    }
}

/// The event of some delivery.
pub(crate) fn some_delivery() -> Event
    ensures { IsDelivery result }
{
    Event::Deliver(Message::blank())
}
