ghost use Rattle.std.specs.Prelude.{◌≡◌, ◌≢◌, ◌+◌, ◌<◌, ◌≤◌, [], ◌∷◌, ◌++◌, length, vec_len, vec_capacity, OnOk, OnErr, IfOk, IfErr};
ghost use Rattle.std.specs.Int.{w16, to_be_bytes};
ghost use Rattle.group_task.specs.declared.node.TheConstants.{NODES};
ghost use Rattle.wire_msg.specs.declared.body.Body.TheVariants.{Ready, Work as WorkMessage};
ghost use Rattle.wire_msg.specs.Kinds.{said, IsCounted};
ghost use Rattle.wire_msg.specs.Spelling.{group as group_bytes, task as task_bytes, priority as priority_bytes, work as work_bytes, answered, front, AreBytes, IsGroup, IsTask, IsWork, Spells};

use crate::body::Body;
use crate::fault::WireFault;
use crate::message::Message;
use crate::short::{Kind, Short};
use crate::version::{version_between, version_naming, version_telling};
use group_task::{GroupNo, Members, NodeId, Task};
use job_model::Work;
use std::alloc::{AllocError, Global};

fn put_bytes(out: &mut Vec<u8>, bytes: &[u8]) -> Result<(), AllocError>
    ensures added { OnOk result (out.new.items ≡ out.old.items ++ bytes.now) }
    ensures are_bytes { AreBytes bytes.now }
{
    out.extend_from_slice(bytes)?;
    Ok(())
}

fn put_group(out: &mut Vec<u8>, group: GroupNo) -> Result<(), AllocError>
    ensures bytes { OnOk result (out.new.items ≡ out.old.items ++ group_bytes group) }
    ensures fits { OnOk result (IsGroup group) }
{
    put_named(out, group.creator(), group.count())
}

/// Writes the group of this creator and this count.
fn put_named(out: &mut Vec<u8>, creator: NodeId, count: u64) -> Result<(), AllocError>
    ensures bytes { OnOk result (out.new.items ≡ out.old.items ++ group_bytes (record { creator = creator; count = count })) }
    ensures creator { creator < NODES }
{
    let bytes = count.to_be_bytes();
    out.push(creator.number())?;
    out.extend_from_slice(&bytes)
}

fn put_task(out: &mut Vec<u8>, task: &Task) -> Result<(), AllocError>
    ensures bytes { OnOk result (out.new.items ≡ out.old.items ++ task_bytes task.now) }
    ensures fits { OnOk result (IsTask task.now) }
{
    put_group(out, task.group())?;
    let members = task.members();
    let many = members.len();
    out.reserve(1 + many)?;
    out.push_reserved(many as u8);
    put_members(out, members);
    Ok(())
}

/// Writes the ids of members in rising order, in the room that is there.
fn put_members(out: &mut Vec<u8>, members: Members)
    requires { vec_len out.old + length members ≤ vec_capacity out.old }
    ensures { out.new.items ≡ out.old.items ++ members }
{
    for id in members.iter() {
        out.push_reserved(id.number());
    }
}

/// Writes a priority, which has no bytes where it is 0.
fn put_priority(out: &mut Vec<u8>, priority: u8) -> Result<(), AllocError>
    ensures { OnOk result (out.new.items ≡ out.old.items ++ priority_bytes priority) }
{
    if priority != 0 {
        out.push(priority)?;
    }
    Ok(())
}

fn put_work(out: &mut Vec<u8>, group: GroupNo, id: u64, work: &Work) -> Result<(), AllocError>
    ensures bytes { OnOk result (out.new.items ≡ out.old.items ++ work_bytes group id work.now) }
    ensures fits { OnOk result (IsWork group id work.now) }
{
    let id_bytes = id.to_be_bytes();
    let len_bytes = (work.payload.len() as u16).to_be_bytes();
    put_group(out, group)?;
    put_bytes(out, &id_bytes)?;
    out.push(work.queue.number())?;
    put_priority(out, work.priority)?;
    put_bytes(out, &len_bytes)?;
    put_bytes(out, work.payload.as_slice())?;
    Ok(())
}

/// Writes what stands in front of a body of so many bytes, and makes room for it.
#[inline]
fn begin(
    out: &mut Vec<u8>,
    version: u8,
    kind: u8,
    ends: (NodeId, NodeId),
    len: u16,
) -> Result<(), AllocError>
    ensures bytes { OnOk result (out.new.items ≡ out.old.items ++ version ∷ kind ∷ ends.0 ∷ ends.1 ∷ to_be_bytes w16 len) }
    ensures nodes { OnOk result ((ends.0 < NODES) × (ends.1 < NODES)) }
{
    let (sender, receiver) = (ends.0.number(), ends.1.number());
    let [high, low] = len.to_be_bytes();
    out.reserve(6 + usize::from(len))?;
    out.extend_from_slice(&[version, kind, sender, receiver, high, low])
}

/// Writes what stands in front of the answer of a short form.
#[inline(always)]
fn put_front(out: &mut Vec<u8>, ends: (NodeId, NodeId), short: Short) -> Result<(), AllocError>
    ensures bytes { OnOk result (out.new.items ≡ out.old.items ++ front ends.0 ends.1 short) }
    ensures nodes { OnOk result ((ends.0 < NODES) × (ends.1 < NODES)) }
{
    let kind = short.kind;
    let kind_number = kind.number();
    let answers = u16::from(kind.has_answer());
    if kind.names_group() {
        let version = version_naming(ends.0, ends.1, short.creator);
        begin(out, version, kind_number, ends, 9 + answers)?;
        return put_named(out, short.creator, short.number);
    }
    let version = version_between(ends.0, ends.1);
    if kind.has_id() {
        let id = short.number.to_be_bytes();
        begin(out, version, kind_number, ends, 8 + answers)?;
        return out.extend_from_slice(&id);
    }
    begin(out, version, kind_number, ends, answers)
}

/// Writes the answer of a kind that has one.
#[inline(always)]
fn put_answer(out: &mut Vec<u8>, kind: Kind, answer: bool) -> Result<(), AllocError>
    ensures { OnOk result (out.new.items ≡ out.old.items ++ answered kind answer) }
{
    if kind.has_answer() {
        out.push(u8::from(answer))?;
    }
    Ok(())
}

/// Writes the spelling of the message between these nodes that has this short form into an empty list.
#[inline(always)]
fn put_short(out: &mut Vec<u8>, ends: (NodeId, NodeId), short: Short) -> Result<(), AllocError>
    requires empty { out.old.items ≡ [] }
    requires ends { ends.0 ≢ ends.1 }
    requires counted { IsCounted short }
    ensures { OnOk result (Spells (record { sender = ends.0; receiver = ends.1; body = said short }) out.new.items) }
{
    let Short { kind, answer, .. } = short;
    put_front(out, ends, short)?;
    put_answer(out, kind, answer)?;
    Ok(())
}

/// Writes the spelling of the Ready between these nodes that tells this task into an empty list.
#[inline(never)]
fn put_ready(out: &mut Vec<u8>, ends: (NodeId, NodeId), task: &Task) -> Result<(), AllocError>
    requires empty { out.old.items ≡ [] }
    requires ends { ends.0 ≢ ends.1 }
    ensures { OnOk result (Spells (record { sender = ends.0; receiver = ends.1; body = Ready task.now }) out.new.items) }
{
    let len = 10 + task.members().len() as u16;
    let version = version_telling(ends.0, ends.1, task);
    begin(out, version, 7, ends, len)?;
    put_task(out, task)?;
    Ok(())
}

/// Writes the spelling of the Work between these nodes that gives this job into an empty list.
#[inline(never)]
fn put_given(
    out: &mut Vec<u8>,
    ends: (NodeId, NodeId),
    group: GroupNo,
    id: u64,
    work: &Work,
) -> Result<(), AllocError>
    requires empty { out.old.items ≡ [] }
    requires ends { ends.0 ≢ ends.1 }
    ensures { OnOk result (Spells (record { sender = ends.0; receiver = ends.1; body = WorkMessage group id work.now }) out.new.items) }
{
    let (kind, priority) = if work.priority == 0 { (9, 0) } else { (11, 1) };
    let len = 20 + priority + work.payload.len() as u16;
    let version = version_naming(ends.0, ends.1, group.creator());
    begin(out, version, kind, ends, len)?;
    put_work(out, group, id, work)?;
    Ok(())
}

/// Writes the spelling into an empty list.
fn spell(out: &mut Vec<u8>, message: &Message) -> Result<(), AllocError>
    requires { out.old.items ≡ [] }
    ensures { OnOk result (Spells message.now out.new.items) }
{
    let ends = (message.sender(), message.receiver());
    match message.body() {
        Body::Ready(task) => put_ready(out, ends, task),
        Body::Work { group, id, work } => put_given(out, ends, *group, *id, work),
        body => put_short(out, ends, body.short().unwrap()),
    }
}

/// The spelling of the message, at most 427 bytes. The only fault is `NoMemory`.
pub fn encode(alloc: Global, message: &Message) -> Result<Vec<u8>, WireFault>
    // Promise: What `encode` gives is the spelling of its message, so `decode` of it is that message; its only fault is NoMemory;
    // `encode_into` writes it in place of what its list held, or leaves that empty.
    // Also: encode_into, decode.
    // Refuses: encode_reports_malformed, last_byte_of_a_spelling_dropped, sender_and_receiver_swapped, length_one_short,
    // answer_not_counted, answer_turned_round.
    ensures ok { IfOk result (λ bytes. Spells message.now bytes.items) }
    ensures fault { IfErr result (λ e. e ≡ WireFault.NoMemory) }
{
    let mut bytes = Vec::new(alloc);
    spell(&mut bytes, message).map_err(|_| WireFault::NoMemory)?;
    Ok(bytes)
}

/// Writes the spelling of the message in place of what `bytes` held. A list that is used again and again takes memory for the
/// longest spelling alone.
pub fn encode_into(bytes: &mut Vec<u8>, message: &Message) -> Result<(), WireFault>
    ensures ok { OnOk result (Spells message.now bytes.new.items) }
    ensures fault { IfErr result (λ e. e ≡ WireFault.NoMemory) }
    ensures none { OnErr result (bytes.new.items ≡ []) }
{
    bytes.clear();
    if spell(bytes, message).is_err() {
        bytes.clear();
        return Err(WireFault::NoMemory);
    }
    Ok(())
}

/// The same for the message between these nodes that has this short form. No message is made for it.
pub fn encode_short_into(
    bytes: &mut Vec<u8>,
    sender: NodeId,
    receiver: NodeId,
    short: Short,
) -> Result<(), WireFault>
    requires ends { sender ≢ receiver }
    requires counted { IsCounted short }
    ensures ok { OnOk result (Spells (record { sender = sender; receiver = receiver; body = said short }) bytes.new.items) }
    ensures fault { IfErr result (λ e. e ≡ WireFault.NoMemory) }
    ensures none { OnErr result (bytes.new.items ≡ []) }
{
    bytes.clear();
    if put_short(bytes, (sender, receiver), short).is_err() {
        bytes.clear();
        return Err(WireFault::NoMemory);
    }
    Ok(())
}
