ghost use Rattle.std.specs.Prelude.{◌≡◌, ◌↔◌, ◌+◌, ◌-◌, ◌<◌, ◌≤◌, length, min, max, Ok, Err, OnOk, OnErr, IfOk, IfErr};
ghost use Rattle.sim_net.specs.Network.{silent, is_cut, message_at, delivery, after_sent, after_lost, after_cut, after_mend};

use crate::fault::NetFault;
use group_task::{Members, NODES, NodeId};
use message_list::MessageList;
use std::alloc::Global;
use std::marker::Model;
use wire_msg::Message;

/// All messages that were ever sent, each under its number, with its mark of loss, and the pairs of nodes that are cut.
///
/// No message ever leaves: what was delivered may come again, at any later time.
#[derive(Debug, Drop)]
pub struct Net {
    sent: MessageList,
    lost: Vec<bool>,
    // in the row of the lesser node of a pair that is cut the greater one
    cuts: [Members; NODES as usize],
}

impl Model for Net {
    ghost use Rattle.std.specs.Prelude.{◌≡◌, ◌+◌, ◌≤◌, length, vec_len, vec_capacity};
    ghost use Rattle.sim_net.specs.Network.{Network, Roomy};

    ghost Value = { Roomy };

    ghost view = { λ a. record { network = record { sent = a.sent.messages; lost = a.lost.items; cuts = a.cuts }; room = a.sent.room } };

    ghost invariant = { λ a. (vec_len a.lost ≡ length a.sent.messages) × (vec_len a.lost + a.sent.room ≤ vec_capacity a.lost) };
}

impl Net {
    /// A network with nothing sent and no pair cut. It takes no memory before it is asked for room.
    pub fn new(alloc: Global) -> Net
        ensures { result ≡ record { network = silent; room = 0 } }
    {
        Net {
            sent: MessageList::new(alloc),
            lost: Vec::new(alloc),
            cuts: [Members::new(); NODES as usize],
        }
    }

    /// All messages that were ever sent, each at the place of its number; the lost ones too.
    pub fn sent(&self) -> &MessageList
        // Promise: All that was sent is shown as a list of messages, the lost ones too.
        ensures { result.now.messages ≡ self.now.network.sent }
    {
        &self.sent
    }

    /// Makes room for so many more messages, whatever they say: sending them takes no memory then.
    pub fn reserve(&mut self, more: usize) -> Result<(), NetFault>
        // Promise: `reserve(n)` makes room for n messages whatever they say; within the room `send` isn't refused, and
        // `send_reserved` asks for none. `deliver`, `deliver_into`, `lose`, `cut`, `mend` take no memory (they answer no NoMemory:
        // it isn't among their answers).
        // Also: Net::send, Net::send_reserved.
        // Refuses: no_room_made.
        ensures network { self.new.network ≡ self.old.network }
        ensures room { OnOk result (self.new.room ≡ max self.old.room more) }
        ensures fault { IfErr result (λ e. e ≡ NetFault.NoMemory) }
        ensures refused { OnErr result ((self.old.room < more) × (self.new ≡ self.old)) }
    {
        self.lost.reserve(more).map_err(|_| NetFault::NoMemory)?;
        self.sent.reserve(more).map_err(|_| NetFault::NoMemory)?;
        Ok(())
    }

    /// Sends a message, and answers its number, counted from 0.
    pub fn send(&mut self, message: &Message) -> Result<u64, NetFault>
        // Promise: A message stays: no call takes one away. Sending adds one at the end, not lost, and answers its number.
        // Also: Net::lose, Net::cut, Net::mend.
        // Refuses: cut_of_one_direction, cut_cuts_nothing, mend_mends_nothing, cut_from_the_start, loss_undone, lost_when_sent,
        // number_before.
        ensures number { IfOk result (λ number. number ≡ length self.old.network.sent) }
        ensures sent { OnOk result (self.new.network ≡ after_sent self.old.network message.now) }
        ensures room { self.old.room ≤ self.new.room + 1 }
        ensures fault { IfErr result (λ e. e ≡ NetFault.NoMemory) }
        ensures refused { OnErr result ((self.old.room ≡ 0) × (self.new ≡ self.old)) }
    {
        self.reserve(1)?;
        let number = self.sent.len() as u64;
        self.send_reserved(message);
        Ok(number)
    }

    /// Sends a message in the room that is there.
    pub fn send_reserved(&mut self, message: &Message)
        requires { 0 < self.old.room }
        ensures { self.new ≡ record { network = after_sent self.old.network message.now; room = self.old.room - 1 } }
    {
        self.lost.push_reserved(false);
        self.sent.push(message);
    }

    /// The message of this number. It stays, and may come again.
    pub fn deliver(&self, number: u64) -> Result<Message, NetFault>
        // Promise: A delivery is NoSuch exactly where no message has the number, else Lost where it was lost, else Cut where the
        // last cut or mend of its two nodes is a cut, else the message that was sent under this number.
        // Also: Net::deliver_into, delivered_by_changes.
        // Refuses: always_lost, cut_ignored, always_the_first.
        ensures { result ≡ delivery self.now.network number }
    {
        let mut message = Message::blank();
        match self.deliver_into(number, &mut message) {
            Ok(()) => Ok(message),
            Err(fault) => Err(fault),
        }
    }

    /// The message of this number, read in the place of another one, which stays where none comes.
    pub fn deliver_into(&self, number: u64, message: &mut Message) -> Result<(), NetFault>
        ensures comes { OnOk result (delivery self.now.network number ≡ Ok message.new) }
        ensures refused { IfErr result (λ fault. delivery self.now.network number ≡ Err fault) }
        ensures unchanged { OnErr result (message.new ≡ message.old) }
    {
        let place = number as usize;
        let Some((sender, receiver)) = self.sent.ends(place) else {
            return Err(NetFault::NoSuch);
        };
        if self.lost[place] {
            return Err(NetFault::Lost);
        }
        if self.is_cut(sender, receiver) {
            return Err(NetFault::Cut);
        }
        if !self.sent.read(place, message) {
            unreachable!()
        }
        Ok(())
    }

    /// Loses the message of this number: from now on it never comes.
    pub fn lose(&mut self, number: u64) -> Result<(), NetFault>
        ensures lost { OnOk result (self.new ≡ record { network = after_lost self.old.network number; room = self.old.room }) }
        // Promise: A refusal changes nothing. `lose` is refused exactly as finding the message is.
        ensures refused { (fault : NetFault) → (result ≡ Err fault) ↔ (message_at self.old.network number ≡ Err fault) }
        ensures unchanged { OnErr result (self.new ≡ self.old) }
    {
        let place = number as usize;
        if place >= self.lost.len() {
            return Err(NetFault::NoSuch);
        }
        if self.lost[place] {
            return Err(NetFault::Lost);
        }
        self.lost[place] = true;
        Ok(())
    }

    /// Cuts two nodes from one another, in both directions. A pair that is cut stays so, and a node isn't cut from itself.
    pub fn cut(&mut self, a: NodeId, b: NodeId)
        ensures { self.new ≡ record { network = after_cut self.old.network a b; room = self.old.room } }
    {
        let (lesser, greater) = in_order(a, b);
        let row = &mut self.cuts[usize::from(lesser.number())];
        row.insert(greater);
    }

    /// Joins two nodes again, in both directions. A pair that isn't cut stays so.
    pub fn mend(&mut self, a: NodeId, b: NodeId)
        ensures { self.new ≡ record { network = after_mend self.old.network a b; room = self.old.room } }
    {
        let (lesser, greater) = in_order(a, b);
        let row = &mut self.cuts[usize::from(lesser.number())];
        row.remove(greater);
    }

    /// Whether the pair of these two nodes is cut.
    fn is_cut(&self, a: NodeId, b: NodeId) -> bool
        ensures { result ≡ is_cut self.now.network.cuts a b }
    {
        let (lesser, greater) = in_order(a, b);
        self.cuts[usize::from(lesser.number())].contains(greater)
    }
}

/// Two nodes, the lesser first.
fn in_order(a: NodeId, b: NodeId) -> (NodeId, NodeId)
    ensures { result ≡ (min a b, max a b) }
{
    if b.number() < a.number() {
        (b, a)
    } else {
        (a, b)
    }
}
