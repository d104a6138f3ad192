ghost use Rattle.std.specs.Prelude.{◌≡◌, codes, IfOk, IfSome, length, option_map, option_and_then, Some, None, false};
ghost use Rattle.std.specs.Result.{result_ok};
ghost use Rattle.std.specs.Str.{bytes_eq};
ghost use Rattle.serde_json.specs.Find.{as_str};
ghost use Rattle.hex.specs.Hex.{decode_of};
ghost use Rattle.group_task.specs.declared.node.TheConstants.{NODES};
ghost use Rattle.job_model.specs.declared.queue.TheConstants.{QUEUES};
ghost use Rattle.trace_check.specs.LentActions.{FitsEvent, FitsPayload, action_lent, event_lent};
ghost use Rattle.trace_text.specs.Fields.{data_of, fields_by};
ghost use Rattle.trace_text.specs.Entries.{below, bytes_in, spelled_in, message_in, number_in, priority_in, deliver_in, submit_in, finish_in, event_in, device_in, recover_in, action_named, action_in};
ghost use Rattle.trace_text.specs.Places.{IsRead, finish_said, recovery_said, with_device};

use crate::fields::{Field, Fields};
use group_task::{NODES, NodeId};
use job_model::{PAYLOAD_CAPACITY, QUEUES, Queue};
use line_words::{decode_pairs, is_word};
use node_core::Timer;
use std::alloc::AllocError;
use trace_check::{ActionRef, EventRef, RecoverFault};
use wire_msg::{Message, decode_into};

/// The text of a field.
fn text_of<'a>(field: Option<Field<'a>>) -> Option<&'a [u8]>
    ensures { option_map (λ s. s.now) result ≡ option_and_then as_str (option_map data_of field.entry) }
{
    field?.text()
}

/// A whole number of a field.
fn number_of(field: Option<Field<'_>>) -> Option<u64>
    ensures { result ≡ number_in (option_map data_of field.entry) }
{
    field?.number()
}

/// The bytes that a field has as hex digits, if it has some. They stand in the room.
fn bytes_of<'a>(
    room: &'a mut Vec<u8>,
    field: Option<Field<'_>>,
) -> Result<Option<&'a [u8]>, AllocError>
    ensures { IfOk result (λ bytes. option_map (λ b. b.now) bytes ≡ bytes_in (option_map data_of field.entry)) }
{
    match text_of(field) {
        Some(text) => read_bytes(room, text),
        None => Ok(None),
    }
}

/// The bytes of hex digits, if it is some. They stand in the room.
#[inline(always)]
fn read_bytes<'a>(room: &'a mut Vec<u8>, text: &[u8]) -> Result<Option<&'a [u8]>, AllocError>
    ensures { IfOk result (λ bytes. option_map (λ b. b.now) bytes ≡ result_ok (decode_of text.now)) }
{
    if text.len() % 2 == 1 {
        return Ok(None);
    }
    let front = lend_front(room, text.len() / 2)?;
    if decode_pairs(text, front) {
        Ok(Some(front))
    } else {
        Ok(None)
    }
}

/// So many bytes of the room, which grows alone: to shorten it and fill it again would cost more than to read the digits.
fn lend_front(room: &mut Vec<u8>, many: usize) -> Result<&mut [u8], AllocError>
    ensures { IfOk result (λ front. length front.now ≡ many) }
{
    if room.len() < many {
        room.resize(many, 0)?;
    }
    Ok(&mut room[..many])
}

/// The message that a field has as hex digits goes in the place of another, if it has one.
pub(crate) fn read_message(
    room: &mut Vec<u8>,
    field: Field<'_>,
    message: &mut Message,
) -> Result<bool, AllocError>
    ensures { IfOk result (λ some. IsRead some message.new (message_in (Some (data_of field.entry)))) }
{
    match field.text() {
        Some(text) => read_spelled(room, text, message),
        None => Ok(false),
    }
}

/// The message of a text of hex digits goes in the place of another, if it is one.
#[inline(never)]
fn read_spelled(room: &mut Vec<u8>, text: &[u8], message: &mut Message) -> Result<bool, AllocError>
    ensures { IfOk result (λ some. IsRead some message.new (spelled_in text.now)) }
{
    let Some(bytes) = read_bytes(room, text)? else {
        return Ok(false);
    };
    match decode_into(bytes, message) {
        Ok(()) => Ok(true),
        Err(_) => Ok(false),
    }
}

/// What was done, lent from the room and the message in whose place it is read. None where the fields say none.
pub(crate) fn read_action<'a>(
    room: &'a mut Vec<u8>,
    message: &'a mut Message,
    fields: &Fields<'_>,
) -> Result<Option<ActionRef<'a>>, AllocError>
    ensures action { IfOk result (λ action. option_map action_lent action ≡ action_in (fields_by fields.now)) }
    ensures fits { IfOk result (λ action. IfSome action FitsPayload) }
{
    match text_of(fields.name) {
        Some(name) => read_named(room, message, fields, name),
        None => Ok(None),
    }
}

/// What was done, by its name.
#[tactic(auto, using(crate::proofs::Named::deliver_named))]
fn read_named<'a>(
    room: &'a mut Vec<u8>,
    message: &'a mut Message,
    fields: &Fields<'_>,
    name: &[u8],
) -> Result<Option<ActionRef<'a>>, AllocError>
    ensures action { IfOk result (λ action. option_map action_lent action ≡ action_named (fields_by fields.now) name.now) }
    ensures fits { IfOk result (λ action. IfSome action FitsPayload) }
{
    if is_word(name, "deliver") {
        return read_deliver(room, message, fields);
    }
    read_other(room, fields, name)
}

/// What was done other than a delivery, by its name.
fn read_other<'a>(
    room: &'a mut Vec<u8>,
    fields: &Fields<'_>,
    name: &[u8],
) -> Result<Option<ActionRef<'a>>, AllocError>
    requires { bytes_eq name.now (codes "deliver") ≡ false }
    ensures action { IfOk result (λ action. option_map action_lent action ≡ action_named (fields_by fields.now) name.now) }
    ensures fits { IfOk result (λ action. IfSome action FitsPayload) }
{
    if is_word(name, "none") {
        return Ok(Some(ActionRef::Nothing));
    }
    if is_word(name, "crash") {
        return Ok(Some(ActionRef::Crashed));
    }
    if is_word(name, "recover") {
        return match recovery_of(fields) {
            Some((kept, None)) => Ok(Some(ActionRef::Recovered(kept))),
            Some((kept, Some(fault))) => Ok(Some(ActionRef::NotRecovered(kept, fault))),
            None => Ok(None),
        };
    }
    read_done(room, fields, name)
}

/// An event that was handled or in which the device failed, by its name.
fn read_done<'a>(
    room: &'a mut Vec<u8>,
    fields: &Fields<'_>,
    name: &[u8],
) -> Result<Option<ActionRef<'a>>, AllocError>
    requires { bytes_eq name.now (codes "deliver") ≡ false }
    ensures action { IfOk result (λ action. option_map action_lent action ≡ with_device (fields_by fields.now) (event_in (fields_by fields.now) name.now)) }
    ensures fits { IfOk result (λ action. IfSome action FitsPayload) }
{
    match read_event(room, fields, name) {
        Ok(Some(event)) => match read_device(fields.fault) {
            Some(true) => Ok(Some(ActionRef::Faulted(event))),
            Some(false) => Ok(Some(ActionRef::Done(event))),
            None => Ok(None),
        },
        Ok(None) => Ok(None),
        Err(e) => Err(e),
    }
}

/// Whether the device failed.
fn read_device(fault: Option<Field<'_>>) -> Option<bool>
    ensures { result ≡ device_in (option_map data_of fault.entry) }
{
    let Some(fault) = fault else {
        return Some(false);
    };
    if is_word(fault.text()?, "device") {
        Some(true)
    } else {
        None
    }
}

/// What a recovery says: whether the command in doubt was kept, and how it failed.
fn recovery_of(fields: &Fields<'_>) -> Option<(bool, Option<RecoverFault>)>
    ensures { option_map recovery_said result ≡ recover_in (fields_by fields.now) }
{
    let kept = fields.kept?.flag()?;
    let Some(fault) = fields.fault else {
        return Some((kept, None));
    };
    let text = fault.text()?;
    if is_word(text, "mount") {
        return Some((kept, Some(RecoverFault::Mount)));
    }
    if is_word(text, "raise") {
        return Some((kept, Some(RecoverFault::Raise)));
    }
    None
}

/// An event other than a delivery, by its name. None where the fields say none.
fn read_event<'a>(
    room: &'a mut Vec<u8>,
    fields: &Fields<'_>,
    name: &[u8],
) -> Result<Option<EventRef<'a>>, AllocError>
    requires { bytes_eq name.now (codes "deliver") ≡ false }
    ensures event { IfOk result (λ event. option_map event_lent event ≡ event_in (fields_by fields.now) name.now) }
    ensures fits { IfOk result (λ event. IfSome event FitsEvent) }
{
    if let Some(timer) = Timer::from_word(name) {
        return Ok(Some(EventRef::Timer(timer)));
    }
    if is_word(name, "submit") {
        return read_submit(room, fields);
    }
    if !is_word(name, "finish") {
        return Ok(None);
    }
    match finish_of(fields) {
        Some((origin, id)) => Ok(Some(EventRef::Finish(origin, id))),
        None => Ok(None),
    }
}

/// A delivery, whose message is read in the place of another. None where the fields say none.
fn read_deliver<'a>(
    room: &mut Vec<u8>,
    message: &'a mut Message,
    fields: &Fields<'_>,
) -> Result<Option<ActionRef<'a>>, AllocError>
    ensures action { IfOk result (λ action. option_map action_lent action ≡ with_device (fields_by fields.now) (deliver_in (fields_by fields.now))) }
    ensures fits { IfOk result (λ action. IfSome action FitsPayload) }
{
    let Some(failed) = read_device(fields.fault) else {
        return Ok(None);
    };
    let Some(field) = fields.message else {
        return Ok(None);
    };
    if !read_message(room, field, message)? {
        return Ok(None);
    }
    if failed {
        Ok(Some(ActionRef::Faulted(EventRef::Deliver(message))))
    } else {
        Ok(Some(ActionRef::Done(EventRef::Deliver(message))))
    }
}

/// A job that was brought: its payload stands in the room.
fn read_submit<'a>(
    room: &'a mut Vec<u8>,
    fields: &Fields<'_>,
) -> Result<Option<EventRef<'a>>, AllocError>
    ensures event { IfOk result (λ event. option_map event_lent event ≡ submit_in (fields_by fields.now)) }
    ensures fits { IfOk result (λ event. IfSome event FitsEvent) }
{
    let Some(queue) = queue_of(number_of(fields.queue)) else {
        return Ok(None);
    };
    let Some(priority) = priority_of(fields.priority) else {
        return Ok(None);
    };
    let Some(payload) = bytes_of(room, fields.payload)? else {
        return Ok(None);
    };
    if payload.len() > PAYLOAD_CAPACITY {
        return Ok(None);
    }
    Ok(Some(EventRef::Submit(queue, priority, payload)))
}

// A priority is left out where it is 0.
fn priority_of(priority: Option<Field<'_>>) -> Option<u8>
    ensures { result ≡ priority_in (option_map data_of priority.entry) }
{
    let Some(priority) = priority else {
        return Some(0);
    };
    let number = priority.number()?;
    if 0 < number && number < 256 {
        Some(number as u8)
    } else {
        None
    }
}

/// The job that a node finished: the node where it was brought, and its id.
fn finish_of(fields: &Fields<'_>) -> Option<(NodeId, u64)>
    ensures { option_map finish_said result ≡ finish_in (fields_by fields.now) }
{
    let origin = node_of(number_of(fields.origin))?;
    let id = number_of(fields.id)?;
    Some((origin, id))
}

fn queue_of(number: Option<u64>) -> Option<Queue>
    ensures { result ≡ option_and_then (below QUEUES) number }
{
    let number = number?;
    if number < u64::from(QUEUES) {
        Queue::new(number as u8)
    } else {
        None
    }
}

pub(crate) fn node_of(number: Option<u64>) -> Option<NodeId>
    ensures { result ≡ option_and_then (below NODES) number }
{
    let number = number?;
    if number < u64::from(NODES) {
        NodeId::new(number as u8)
    } else {
        None
    }
}
