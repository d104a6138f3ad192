//! Frames at the front of some bytes.

ghost use Rattle.std.specs.Prelude.{◌≡◌, ◌<◌, ◌≤◌, [], ◌∷◌, ◌++◌, ℕ, List, length, take, drop, Some, None, Err, IfOk, IfErr, OnOk, OnErr, MatchOption, true, false};
ghost use Rattle.wire_msg.specs.declared.fault.WireFault.TheVariants.{Malformed, NoMemory};
ghost use Rattle.wire_msg.specs.Envelope.{Envelope};
ghost use Rattle.wire_msg.specs.Spelling.{Spells};
ghost use Rattle.wire_msg.specs.Framing.{frame_len, IsPartial, IsAt, Begins, Breaks};
ghost use Rattle.wire_msg.specs.Contents.{Feeds};

use crate::fault::WireFault;
use crate::message::Message;
use std::slice;

/// Reads the message of the frame at the front in place of `message`, and answers what is behind the frame, or none where it
/// isn't whole. So messages that stand one after another are read without a list of them.
#[inline(always)]
pub fn decode_front<'a>(
    bytes: &'a [u8],
    message: &mut Message,
) -> Result<Option<&'a [u8]>, WireFault>
    // Promise: Where no frame is whole, what stood in the message's place stays; Malformed comes exactly where the frame is no
    // spelling.
    ensures front { IfOk result (λ front. MatchOption front (IsPartial bytes.now × (message.new ≡ message.old)) (λ after. Begins bytes.now message.new after.now)) }

    // A frame that spells nothing leaves some message in `message`.
    ensures fault { IfErr result (λ e. (e ≡ Malformed) × Breaks bytes.now []) }
{
    let Some(len) = whole_frame(bytes) else {
        return Ok(None);
    };
    let (frame, after) = bytes.split_at(len);
    if !read_frame(frame, message) {
        return Err(WireFault::Malformed);
    }
    Ok(Some(after))
}

/// Reads on behind the unfinished frame `rest`, and leaves the next one there. What was added before memory ran out is taken back.
pub(crate) fn read_on(
    rest: &mut Vec<u8>,
    piece: &[u8],
    out: &mut Vec<Message>,
) -> Result<(), WireFault>
    ensures ok { OnOk result (Feeds (Some rest.old.items) piece.now out.old.items out.new.items (Some rest.new.items)) }
    ensures malformed { result ≡ Err Malformed → Feeds (Some rest.old.items) piece.now out.old.items out.new.items None }
    ensures no_memory { result ≡ Err NoMemory → (rest.new.items ≡ rest.old.items) × (out.new.items ≡ out.old.items) }
{
    let had = rest.len();
    let given = out.len();
    let read = if had == 0 {
        read_piece(rest, piece, out)
    } else {
        read_joined(rest, piece, out)
    };
    if let Err(WireFault::NoMemory) = read {
        rest.truncate(had);
        out.truncate(given);
    }
    read
}

/// Where nothing is unfinished, frames are cut straight from the piece.
fn read_piece(rest: &mut Vec<u8>, piece: &[u8], out: &mut Vec<Message>) -> Result<(), WireFault>
    requires { rest.old.items ≡ [] }
    ensures ok { OnOk result (Feeds (Some rest.old.items) piece.now out.old.items out.new.items (Some rest.new.items)) }
    ensures malformed { result ≡ Err Malformed → Feeds (Some rest.old.items) piece.now out.old.items out.new.items None }
    ensures no_memory { result ≡ Err NoMemory → take (length out.old.items) out.new.items ≡ out.old.items }
{
    let taken = take_frames(piece, out)?;
    let Ok(()) = rest.extend_from_slice(&piece[taken..]) else {
        return Err(WireFault::NoMemory);
    };
    Ok(())
}

/// Behind an unfinished frame, the piece is joined to it first.
fn read_joined(rest: &mut Vec<u8>, piece: &[u8], out: &mut Vec<Message>) -> Result<(), WireFault>
    ensures ok { OnOk result (Feeds (Some rest.old.items) piece.now out.old.items out.new.items (Some rest.new.items)) }
    ensures malformed { result ≡ Err Malformed → Feeds (Some rest.old.items) piece.now out.old.items out.new.items None }
    ensures no_memory { result ≡ Err NoMemory → (take (length rest.old.items) rest.new.items ≡ rest.old.items) × (take (length out.old.items) out.new.items ≡ out.old.items) }
{
    let Ok(()) = rest.extend_from_slice(piece) else {
        return Err(WireFault::NoMemory);
    };
    let taken = take_frames(rest, out)?;
    remove_front(rest, taken);
    Ok(())
}

fn remove_front(bytes: &mut Vec<u8>, count: usize)
    requires { count ≤ length bytes.old.items }
    ensures { bytes.new.items ≡ drop count bytes.old.items }
{
    if count > 0 {
        let left = bytes.len() - count;
        bytes.copy_within(count.., 0);
        bytes.truncate(left);
    }
}

/// Adds the messages of the whole frames at the front, and answers how many bytes those have.
fn take_frames(bytes: &[u8], out: &mut Vec<Message>) -> Result<usize, WireFault>
    ensures ok { IfOk result (λ taken. (taken ≤ length bytes.now) × (messages : List Envelope) × (out.new.items ≡ out.old.items ++ messages) × IsAt bytes.now messages (Some (drop taken bytes.now))) }
    ensures malformed { result ≡ Err Malformed → (messages : List Envelope) × (out.new.items ≡ out.old.items ++ messages) × IsAt bytes.now messages None }
    ensures no_memory { result ≡ Err NoMemory → take (length out.old.items) out.new.items ≡ out.old.items }
{
    let blank = Message::blank();
    let mut left = bytes;
    while let Some(len) = whole_frame(left) {
        let (frame, after) = left.split_at(len);
        take_frame(frame, &blank, out)?;
        left = after;
    }
    Ok(bytes.len() - left.len())
}

/// The length of the frame at the front, if it is whole.
#[inline(always)]
fn whole_frame(bytes: &[u8]) -> Option<usize>
    ensures { MatchOption result (IsPartial bytes.now) (λ len. (len ≡ frame_len bytes.now) × (len ≤ length bytes.now)) }
{
    if bytes.len() < 6 {
        return None;
    }
    let len = 6 + usize::from(u16::from_be_bytes([bytes[4], bytes[5]]));
    if len <= bytes.len() { Some(len) } else { None }
}

/// Adds the message of a frame. It is read where it stays, in place of the blank one, since it is long.
#[inline]
fn take_frame(frame: &[u8], blank: &Message, out: &mut Vec<Message>) -> Result<(), WireFault>
    ensures ok { OnOk result ((m : Envelope) × Spells m frame.now × (out.new.items ≡ out.old.items ++ m ∷ [])) }
    ensures malformed { result ≡ Err Malformed → (m : Envelope) → Spells m frame.now → ⊥ }
    ensures err { OnErr result (out.new.items ≡ out.old.items) }
{
    let place = out.len();
    let Ok(()) = out.extend_from_slice(slice::from_ref(blank)) else {
        return Err(WireFault::NoMemory);
    };
    if !read_frame(frame, &mut out[place]) {
        out.truncate(place);
        return Err(WireFault::Malformed);
    }
    Ok(())
}

/// Reads the message of a frame in place of `message`. False says that it spells none.
#[inline(always)]
fn read_frame(frame: &[u8], message: &mut Message) -> bool
    ensures read { result ≡ true → Spells message.new frame.now }
    ensures bad { result ≡ false → (m : Envelope) → Spells m frame.now → ⊥ }
{
    message.read(frame).is_some()
}
