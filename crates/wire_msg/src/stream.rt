ghost use Rattle.std.specs.Prelude.{◌≡◌, [], ℕ, List, Some, None, Ok, Err, OnOk, IsSome};
ghost use Rattle.wire_msg.specs.Framing.{rest_len};
ghost use Rattle.wire_msg.specs.Contents.{Feeds};

use crate::cutting::read_on;
use crate::fault::WireFault;
use crate::message::Message;
use std::alloc::Global;
use std::marker::Model;

/// Bytes from one sender that come in pieces, cut into messages. A frame is six bytes and as many as its fifth and sixth
/// byte say (the higher first); it is judged once it is whole, and what is not whole yet is the rest.
#[derive(Debug, Drop)]
pub struct Stream {
    // the unfinished frame, or none once a frame was malformed
    rest: Option<Vec<u8>>,
}

impl Model for Stream {
    ghost use Rattle.std.specs.Prelude.{ℕ, List, Option, option_map};

    ghost Value = { Option (List ℕ) };

    ghost view = { λ a. option_map (λ v. v.items) a.rest };
}

impl Stream {
    /// A stream of which nothing was read. It takes no memory before its first rest.
    pub fn new(alloc: Global) -> Stream
        // Promise: A new stream has read nothing.
        // Refuses: stream_begins_malformed.
        ensures { result ≡ Some [] }
    {
        Stream {
            rest: Some(Vec::new(alloc)),
        }
    }

    /// How many bytes of an unfinished frame there are; 0 once a frame was malformed.
    pub fn rest(&self) -> u64
        // Promise: `rest` is the number of bytes of the unfinished frame, 0 after Malformed.
        // Refuses: rest_is_capacity, rest_after_malformed.
        ensures { result ≡ rest_len self.now }
    {
        match &self.rest {
            Some(rest) => rest.len() as u64,
            None => 0,
        }
    }

    /// Takes the next piece, of any length, and adds the messages whose frames are whole now to those in `out`.
    /// A refusal for want of memory changes nothing, so the same piece may be fed again.
    pub fn feed(&mut self, piece: &[u8], out: &mut Vec<Message>) -> Result<(), WireFault>
        // Promise: `feed` adds exactly the messages of the frames that the piece makes whole, and keeps the bytes behind them; it
        // is Malformed exactly where a whole frame is no spelling, after the messages before it, and from then on.
        // Refuses: messages_after_malformed, memory_breaks_the_stream, rest_dropped, joined_rest_dropped,
        // given_in_spite_of_no_memory, frame_twice.
        ensures ok { OnOk result (Feeds self.old piece.now out.old.items out.new.items self.new × IsSome self.new) }

        // Where a frame is bad, the messages before it are given; from then on nothing is.
        ensures malformed { result ≡ Err WireFault.Malformed → Feeds self.old piece.now out.old.items out.new.items self.new × (self.new ≡ None) }
        ensures after { self.old ≡ None → result ≡ Err WireFault.Malformed }

        // Promise: Want of memory changes neither the stream nor `out`; since the answer otherwise depends on the stream's value
        // and the piece alone, the same feed made again answers as if it had never been refused.
        // Also: ok, malformed.
        // Refuses: given_in_spite_of_no_memory.
        ensures no_memory { result ≡ Err WireFault.NoMemory → (self.new ≡ self.old) × (out.new.items ≡ out.old.items) }
    {
        let Some(rest) = &mut self.rest else {
            return Err(WireFault::Malformed);
        };
        let read = read_on(rest, piece, out);
        if let Err(WireFault::Malformed) = read {
            self.rest = None;
        }
        read
    }
}
