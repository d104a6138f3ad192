ghost use Rattle.std.specs.Prelude.{◌≡◌, ◌<◌, ◌≤◌, ℕ, List, length, take, drop, ◌≢◌, Some, IfSome, IfOk, IsOk, OnOk, IfErr, Ok, option_map, MatchBool, ⊤};
ghost use Rattle.std.specs.Int.{w16, w64};
ghost use Rattle.job_model.specs.declared.payload.TheConstants.{PAYLOAD_CAPACITY};
ghost use Rattle.job_model.specs.declared.queue.TheConstants.{QUEUES};
ghost use Rattle.group_task.specs.declared.node.TheConstants.{NODES};
ghost use Rattle.wire_msg.specs.Envelope.{Envelope};
ghost use Rattle.wire_msg.specs.Kinds.{names_group};
ghost use Rattle.wire_msg.specs.Spelling.{Spells};
ghost use Rattle.wire_msg.specs.Reading.{seen, byte_at, number_at, below_at, truth_at, group_at, members_at, task_at, payload_at, priority_at, work_at, named_at, answer_at, short_at, body_at, whole_at};

use crate::body::{Body, LentWork};
use crate::fault::WireFault;
use crate::message::Message;
use crate::short::{Kind, Short};
use crate::version::version_of;
use group_task::{GroupNo, Members, NodeId, Task, share};
use job_model::{PAYLOAD_CAPACITY, Queue};

/// What is left to read. After a `None` it isn't read any further.
#[derive(Drop)]
struct Reader<'a> {
    rest: &'a [u8],
}

impl<'a> Reader<'a> {
    #[inline(always)]
    fn byte(&mut self) -> Option<u8>
        ensures { seen result self.new.rest.now ≡ byte_at self.old.rest.now }
    {
        let (first, rest) = self.rest.split_first()?;
        self.rest = rest;
        Some(*first)
    }

    #[inline(always)]
    fn u16(&mut self) -> Option<u16>
        ensures { seen result self.new.rest.now ≡ number_at w16 self.old.rest.now }
    {
        if self.rest.len() < 2 {
            return None;
        }
        let (front, rest) = self.rest.split_at(2);
        self.rest = rest;
        Some(u16::from_be_bytes([front[0], front[1]]))
    }

    #[inline(always)]
    fn u64(&mut self) -> Option<u64>
        ensures { seen result self.new.rest.now ≡ number_at w64 self.old.rest.now }
    {
        if self.rest.len() < 8 {
            return None;
        }
        let (front, rest) = self.rest.split_at(8);
        self.rest = rest;
        Some(u64::from_be_bytes([
            front[0], front[1], front[2], front[3], front[4], front[5], front[6], front[7],
        ]))
    }

    #[tactic(auto, unfolding(crate::specs::Reading::below_at))]
    #[inline(always)]
    fn node(&mut self) -> Option<NodeId>
        ensures { seen result self.new.rest.now ≡ below_at NODES self.old.rest.now }
    {
        let number = self.byte()?;
        NodeId::new(number)
    }

    #[tactic(auto, unfolding(crate::specs::Reading::below_at))]
    #[inline(always)]
    fn queue(&mut self) -> Option<Queue>
        ensures { seen result self.new.rest.now ≡ below_at QUEUES self.old.rest.now }
    {
        let number = self.byte()?;
        Queue::new(number)
    }

    #[tactic(auto, unfolding(crate::specs::Reading::truth_at))]
    #[inline(always)]
    fn truth(&mut self) -> Option<bool>
        ensures { seen result self.new.rest.now ≡ truth_at self.old.rest.now }
    {
        match self.byte()? {
            0 => Some(false),
            1 => Some(true),
            _ => None,
        }
    }

    #[tactic(auto, unfolding(crate::specs::Reading::group_at))]
    #[inline(always)]
    fn group(&mut self) -> Option<GroupNo>
        ensures { seen result self.new.rest.now ≡ group_at self.old.rest.now }
    {
        let creator = self.node()?;
        let count = self.u64()?;
        GroupNo::new(creator, count)
    }

    #[inline(always)]
    fn members(&mut self, count: u8) -> Option<Members>
        ensures { seen result self.new.rest.now ≡ members_at count 0 self.old.rest.now }
    {
        let mut members = Members::new();
        let mut low = 0;
        for _ in 0..count {
            let id = self.node()?;
            if id.number() < low {
                return None;
            }
            members.insert(id);
            low = id.number() + 1;
        }
        Some(members)
    }

    #[tactic(auto, unfolding(crate::specs::Reading::task_at))]
    #[inline(always)]
    fn task(&mut self) -> Option<Task>
        ensures { seen result self.new.rest.now ≡ task_at self.old.rest.now }
    {
        let group = self.group()?;
        let count = self.byte()?;
        let members = self.members(count)?;
        if members.contains(group.creator()) {
            Some(share(group, members))
        } else {
            None
        }
    }

    #[tactic(auto, unfolding(crate::specs::Reading::payload_at))]
    #[inline(always)]
    fn payload(&mut self) -> Option<&'a [u8]>
        ensures value { seen (option_map (λ bytes. bytes.now) result) self.new.rest.now ≡ payload_at self.old.rest.now }
        ensures fits { IfSome result (λ bytes. length bytes.now ≤ PAYLOAD_CAPACITY) }
    {
        let len = usize::from(self.u16()?);
        if self.rest.len() < len || len > PAYLOAD_CAPACITY {
            return None;
        }
        let (bytes, rest) = self.rest.split_at(len);
        self.rest = rest;
        Some(bytes)
    }

    /// The priority: 0 where none is written.
    #[tactic(auto, unfolding(crate::specs::Reading::priority_at))]
    #[inline(always)]
    fn priority(&mut self, written: bool) -> Option<u8>
        ensures { seen result self.new.rest.now ≡ priority_at written self.old.rest.now }
    {
        if !written {
            return Some(0);
        }
        let priority = self.byte()?;
        if priority == 0 { None } else { Some(priority) }
    }

    /// Reads a Work into the place where it will stay.
    #[tactic(auto, unfolding(crate::specs::Reading::work_at))]
    #[inline(always)]
    fn work(&mut self, with_priority: bool, body: &mut Body) -> Option<()>
        ensures { option_map (λ _. (body.new, self.new.rest.now)) result ≡ work_at with_priority self.old.rest.now }
    {
        let group = self.group()?;
        let id = self.u64()?;
        let queue = self.queue()?;
        let priority = self.priority(with_priority)?;
        let payload = self.payload()?;
        let work = LentWork {
            group,
            id,
            queue,
            priority,
            payload,
        };
        work.write_to(body);
        Some(())
    }

    /// The creator and the count of the group that a short body names, or 0 and the id that it has.
    #[tactic(auto, unfolding(crate::specs::Reading::named_at))]
    #[inline(always)]
    fn named(&mut self, kind: Kind) -> Option<(NodeId, u64)>
        ensures value { seen (option_map (λ g. record { creator = g.0; count = g.1 }) result) self.new.rest.now ≡ named_at kind self.old.rest.now }
        ensures counted { IfSome result (λ g. MatchBool (names_group kind) (1 ≤ g.1) ⊤) }
    {
        let none = NodeId::numbered(0);
        if kind.names_group() {
            let group = self.group()?;
            return Some((group.creator(), group.count()));
        }
        if kind.has_id() {
            return Some((none, self.u64()?));
        }
        Some((none, 0))
    }

    /// The answer of a short body.
    #[tactic(auto, unfolding(crate::specs::Reading::answer_at))]
    #[inline(always)]
    fn answer(&mut self, kind: Kind) -> Option<bool>
        ensures { seen result self.new.rest.now ≡ answer_at kind self.old.rest.now }
    {
        if kind.has_answer() {
            self.truth()
        } else {
            Some(false)
        }
    }

    /// Reads a short body into the place where it will stay.
    #[tactic(auto, unfolding(crate::specs::Reading::short_at))]
    #[inline(always)]
    fn short(&mut self, kind: Kind, body: &mut Body) -> Option<()>
        ensures { option_map (λ _. (body.new, self.new.rest.now)) result ≡ short_at kind self.old.rest.now }
    {
        let (creator, number) = self.named(kind)?;
        let answer = self.answer(kind)?;
        let short = Short {
            kind,
            answer,
            creator,
            number,
        };
        short.write_to(body);
        Some(())
    }

    /// Reads the body into the place where it will stay, since it has room for the longest payload.
    #[tactic(auto, unfolding(crate::specs::Reading::body_at, crate::specs::Reading::long_at, crate::specs::Reading::ready_at))]
    #[inline(always)]
    fn body(&mut self, kind: u8, body: &mut Body) -> Option<()>
        ensures { option_map (λ _. (body.new, self.new.rest.now)) result ≡ body_at kind self.old.rest.now }
    {
        if let Some(short) = Kind::numbered(kind) {
            return self.short(short, body);
        }
        match kind {
            7 => *body = Body::Ready(self.task()?),
            9 | 11 => self.work(kind == 11, body)?,
            _ => return None,
        }
        Some(())
    }
}

/// Reads all of the bytes: the sender, the receiver, and the body into its place.
#[tactic(auto, unfolding(crate::specs::Reading::whole_at))]
#[inline(always)]
pub(crate) fn read(bytes: &[u8], body: &mut Body) -> Option<(NodeId, NodeId)>
    ensures value { option_map (λ ends. record { sender = ends.0; receiver = ends.1; body = body.new }) result ≡ whole_at bytes.now }
    ensures differ { IfSome result (λ ends. ends.0 ≢ ends.1) }
{
    if bytes.len() < 6 {
        return None;
    }
    let mut reader = Reader { rest: bytes };
    let version = reader.byte()?;
    let kind = reader.byte()?;
    let sender = reader.node()?;
    let receiver = reader.node()?;
    let len = reader.u16()?;
    if reader.rest.len() != usize::from(len) {
        return None;
    }
    reader.body(kind, body)?;
    if !reader.rest.is_empty() || sender == receiver {
        return None;
    }
    if version != version_of(sender, receiver, body) {
        return None;
    }
    Some((sender, receiver))
}

/// The message that the bytes spell, all of them: `Malformed` where they are no spelling, also where more bytes follow one.
pub fn decode(bytes: &[u8]) -> Result<Message, WireFault>
    // What is read is spelled so.
    // Promise: `decode` answers Ok(m) exactly where the bytes are the spelling of m, all of them, and else Malformed, its only
    // fault.
    // Refuses: receiver_as_sender, descending_members, padded_body, equal_ids_taken, truth_of_two_taken, count_of_zero_taken,
    // id_of_128_taken, queue_of_16_taken, payload_beyond_its_length, long_payload_cut, more_than_128_members,
    // creator_outside_its_group, other_version_taken, version_2_with_small_ids, kind_0b_with_priority_0, shorter_body_taken,
    // kinds_mixed_up.
    ensures read { IfOk result (λ m. Spells m bytes.now) }
    // What is spelled so is read.
    ensures only { (m : Envelope) → Spells m bytes.now → result ≡ Ok m }
    ensures fault { IfErr result (λ e. e ≡ WireFault.Malformed) }
{
    let mut message = Message::blank();
    decode_into(bytes, &mut message)?;
    Ok(message)
}

/// Makes `message` the one that the bytes spell, as `decode` reads it, but in place, since a message is long. Where they spell
/// none, it is some message.
pub fn decode_into(bytes: &[u8], message: &mut Message) -> Result<(), WireFault>
    // Promise: `decode_into` reads the same message in the place of another one; `decode_front` that of the frame at the front of
    // some bytes, and answers what is behind it, or none exactly where no frame is whole.
    // Also: decode_front.
    // Refuses: any_bytes_read, front_read_again.
    ensures read { OnOk result (Spells message.new bytes.now) }
    ensures only { (m : Envelope) → Spells m bytes.now → IsOk result × (message.new ≡ m) }
    ensures fault { IfErr result (λ e. e ≡ WireFault.Malformed) }
{
    if message.read(bytes).is_none() {
        return Err(WireFault::Malformed);
    }
    Ok(())
}
