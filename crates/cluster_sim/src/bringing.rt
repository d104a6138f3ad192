// What an act brings to a node.
ghost use Rattle.std.specs.Prelude.{◌≡◌, ◌<◌, IfSome};
ghost use Rattle.sim_net.specs.Network.{delivery};
ghost use Rattle.trace_check.specs.Claims.{brought_by as action_brought};
ghost use Rattle.cluster_sim.specs.Bringing.{brought_by, delivered, number_of};
ghost use Rattle.cluster_sim.specs.Traced.{message_if};

use group_task::NodeId;
use node_core::Event;
use schedule::Act;
use sim_net::Net;
use trace_check::TraceAction;

/// What an act brings to a node.
#[derive(Clone, Copy)]
pub(crate) enum Brought {
    Event(Event),
    Arming,
    Crash,
    Compaction,
}

/// The node that an act comes to, in a cluster of so many nodes, and what it brings there. None for an act of the network, and for one
/// that is refused before it comes to a node.
pub(crate) fn brought_by(nodes: u8, net: &Net, act: &Act) -> Option<(NodeId, Brought)>
    ensures value { result ≡ brought_by nodes net.now.network act.now }
    ensures within { IfSome result (λ comes. comes.0 < nodes) }
{
    let (id, brought) = match act {
        Act::Timer(id, timer) => (*id, Brought::Event(Event::Timer(*timer))),
        Act::Deliver(number) => delivered(net, *number)?,
        Act::Submit(id, job) => (*id, Brought::Event(Event::Submit(job.work()))),
        Act::Finish(id, origin, job) => (*id, Brought::Event(Event::Finish(*origin, *job))),
        Act::Recover(id) => (*id, Brought::Event(Event::Recover)),
        Act::Arm(id, _) => (*id, Brought::Arming),
        Act::Crash(id, _) => (*id, Brought::Crash),
        Act::Compact(id) => (*id, Brought::Compaction),
        Act::Lose(_) | Act::Cut(_, _) | Act::Mend(_, _) => return None,
    };
    if id.number() < nodes {
        Some((id, brought))
    } else {
        None
    }
}

/// The message that comes under this number, and its receiver. None where the network keeps it back.
fn delivered(net: &Net, number: u64) -> Option<(NodeId, Brought)>
    ensures { result ≡ delivered (delivery net.now.network number) }
{
    match net.deliver(number) {
        Ok(message) => Some((message.receiver(), Brought::Event(Event::Deliver(message)))),
        Err(_) => None,
    }
}

/// The number of the message that an act brought to a node, where its action says that it was brought one.
pub(crate) fn message_of(act: &Act, action: &TraceAction) -> Option<u64>
    ensures { result ≡ message_if (action_brought action.now) (number_of act.now) }
{
    action.brought()?;
    match act {
        Act::Deliver(number) => Some(*number),
        _ => Some(0),
    }
}
