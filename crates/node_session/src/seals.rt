// The messages of a session under a key.
ghost use Rattle.std.specs.Prelude.{◌≡◌, ◌≤◌, ◌++◌, codes, if◌then◌else◌, length, option_map, take, drop, IfOk, IfSome, IsNone, OnOk, None, Some};
ghost use Rattle.hex.specs.Hex.{encode_lower};
ghost use Rattle.sealed_msg.specs.Lives.{life_key};
ghost use Rattle.line_words.specs.Words.{words_of};
ghost use Rattle.line_words.specs.Lines.{lines_of};
ghost use Rattle.wire_msg.specs.Reading.{message_of};
ghost use Rattle.node_session.specs.declared.asked.Asked.TheVariants as ask;
ghost use Rattle.node_session.specs.Seals.{asked_brought, asked_fresh, asked_sealed, asked_told, brought_by, brought_word, is_fresh, life_words, line_by, message_in, new_seals, number_by, numbered, opened_under, receiver_in, seal_of, sealed_lines, sent_word, taken_brought, taken_fresh, taken_sealed, taken_told, told_life, with_life};

use crate::asked::{Asked, Unsealed, read_line};
use crate::sealing_keys::SealingKeys;
use console_text::{push_hex, push_text};
use group_task::{NODES, NodeId};
use line_words::{bytes, cut_line, cut_word, is_word, push_bytes};
use node_core::Event;
use schedule::fields;
use sealed_msg::{Key, LIFE, OpenedMessage, Stamp};
use std::alloc::{AllocError, Global};
use std::marker::Model;
use wire_msg::{Message, decode};

/// What seals the messages of a session and opens those that come: a key, and maybe another that only opens.
#[derive(Drop)]
pub struct Seal {
    keys: SealingKeys,
    // those of the own life
    opens: Key,
    other: Option<Key>,
    // the stamp of what was taken last of each node
    last: [Stamp; NODES as usize],
    // how many messages were sealed
    number: u64,
    // room for an answer before it is sealed, and for a message
    plain: Vec<u8>,
    bytes: Vec<u8>,
}

impl Model for Seal {
    ghost use Rattle.wire_msg.specs.Reading.{message_of};
    ghost use Rattle.node_session.specs.Seals.{Seals};

    ghost Value = { Seals };

    ghost view = { λ a. record { keys = a.keys; opens = a.opens; other = a.other; last = a.last; number = a.number } };
}

impl Seal {
    /// Seals by the first key, and opens by this and by the other what was sealed for a process of this life, or for one of none where it is empty.
    pub fn new(alloc: Global, own: Key, other: Option<Key>, life: &[u8]) -> Result<Seal, AllocError>
        ensures { IfOk result (λ seal. seal ≡ new_seals own other life.now) }
    {
        let none = Stamp { life: 0, number: 0 };
        let opens = own.of_life(alloc, life)?;
        let other = opening_key(alloc, &other, life)?;
        Ok(Seal {
            keys: SealingKeys::new(alloc, own)?,
            opens,
            other,
            last: [none; NODES as usize],
            number: 0,
            plain: Vec::new(alloc),
            bytes: Vec::new(alloc),
        })
    }

    /// What a line asks for, and keeps the stamp of a message that is taken, or the life that is told.
    pub(crate) fn read(&mut self, alloc: Global, line: &[u8]) -> Result<Asked, AllocError>
        ensures asked { IfOk result (λ asked. asked ≡ asked_sealed self.old line.now) }
        ensures taken { OnOk result (self.new ≡ taken_sealed self.old line.now) }
    {
        match brought_word(line) {
            Some(word) => self.bring(alloc, word),
            None => self.listen(alloc, line),
        }
    }

    #[tactic(auto, using(crate::proofs::Sealings::told_by_line))]
    fn listen(&mut self, alloc: Global, line: &[u8]) -> Result<Asked, AllocError>
        ensures asked { IfOk result (λ asked. asked ≡ asked_told line.now (told_life line.now)) }
        ensures told { OnOk result (self.new ≡ taken_told self.old (told_life line.now)) }
    {
        match told_life(alloc, line)? {
            Some(told) => self.learn(alloc, &told),
            None => read_line(alloc, line),
        }
    }

    fn learn(&mut self, alloc: Global, told: &ToldLife) -> Result<Asked, AllocError>
        ensures asked { IfOk result (λ asked. asked ≡ ask.Nothing) }
        ensures told { OnOk result (self.new ≡ record self.old { keys = with_life self.old.keys told.now.node told.now.life.items }) }
    {
        self.keys.tell(alloc, told.node, &told.life)?;
        Ok(Asked::Nothing)
    }

    fn bring(&mut self, alloc: Global, word: &[u8]) -> Result<Asked, AllocError>
        ensures asked { IfOk result (λ asked. asked ≡ asked_brought self.old (brought_by self.old word.now)) }
        ensures taken { OnOk result (self.new ≡ taken_brought self.old (brought_by self.old word.now)) }
    {
        let Some(bytes) = bytes(alloc, word)? else {
            return Ok(Asked::Bad);
        };
        let Some(opened) = self.opened(&bytes) else {
            return Ok(Asked::Refused(Unsealed::Forged));
        };
        match message_of(opened.message) {
            Some(message) => Ok(self.take(message, opened.stamp)),
            None => Ok(Asked::Bad),
        }
    }

    /// The message and its stamp, where one of the keys of the own life sealed them to these bytes.
    fn opened<'a>(&self, bytes: &'a [u8]) -> Option<OpenedMessage<'a>>
        ensures opened { IfSome result (λ it. opened_under self.now bytes.now ≡ Some (it.message.now, it.stamp)) }
        ensures none { IsNone result → opened_under self.now bytes.now ≡ None }
    {
        match self.opens.open(bytes) {
            Some(opened) => Some(opened),
            None => match &self.other {
                Some(other) => other.open(bytes),
                None => None,
            },
        }
    }

    /// Takes a message that is above all that came of its sender.
    fn take(&mut self, message: Message, stamp: Stamp) -> Asked
        ensures asked { result ≡ asked_fresh (is_fresh self.old message stamp) message }
        ensures taken { self.new ≡ taken_fresh (is_fresh self.old message stamp) self.old message stamp }
    {
        let sender = usize::from(message.sender().number());
        if !stamp.is_above(self.last[sender]) {
            return Asked::Refused(Unsealed::Stale);
        }
        self.last[sender] = stamp;
        Asked::Event(Event::Deliver(message))
    }

    /// Seals the messages in the lines of a text from a place on. Without a life they are left out.
    pub(crate) fn seal_from(
        &mut self,
        text: &mut Vec<u8>,
        start: usize,
        life: Option<u64>,
    ) -> Result<(), AllocError>
        requires { start ≤ length text.old.items }
        // Promise: Each message that an answer hands out is sealed under the first key, for the life of its receiver that was told, and a node that is
        // Down behind a line hands out none.
        // Also: Session::feed, told_life_alone.
        // Refuses: fallen_node_sends, sealed_for_another_life.
        ensures text { OnOk result (text.new.items ≡ take start text.old.items ++ sealed_lines self.old.keys life self.old.number (lines_of (drop start text.old.items))) }
        ensures number { OnOk result (self.new ≡ record self.old { number = numbered life self.old.number (lines_of (drop start text.old.items)) }) }
    {
        self.plain.clear();
        self.plain.extend_from_slice(&text[start..])?;
        text.truncate(start);
        push_lines(
            &self.keys,
            life,
            &mut self.number,
            &mut self.bytes,
            &self.plain,
            text,
        )
    }
}

/// The key of this life, where there is a key.
fn opening_key(alloc: Global, key: &Option<Key>, life: &[u8]) -> Result<Option<Key>, AllocError>
    ensures { IfOk result (λ opens. opens ≡ option_map (λ key. life_key key life.now) key.now) }
{
    match key {
        Some(key) => Ok(Some(key.of_life(alloc, life)?)),
        None => Ok(None),
    }
}

/// What a line tells of the process of a node.
#[derive(Drop)]
struct ToldLife {
    node: NodeId,
    life: Vec<u8>,
}

/// The life that a line tells. A dash tells that there is none.
fn told_life(alloc: Global, line: &[u8]) -> Result<Option<ToldLife>, AllocError>
    ensures { IfOk result (λ told. option_map (λ it. (it.node, it.life.items)) told ≡ told_life line.now) }
{
    let Some((node, word)) = life_words(line) else {
        return Ok(None);
    };
    let Some(node) = fields::node(node) else {
        return Ok(None);
    };
    match bytes(alloc, word)? {
        Some(life) if life.is_empty() || life.len() == LIFE => Ok(Some(ToldLife { node, life })),
        _ => Ok(None),
    }
}

/// The words of the node and its life, of a line that tells it.
#[tactic(auto, using(crate::proofs::Reading::tells_more))]
fn life_words(line: &[u8]) -> Option<(&[u8], &[u8])>
    ensures some { IfSome result (λ it. life_words (words_of line.now) ≡ Some (it.0.now, it.1.now)) }
    ensures none { IsNone result → life_words (words_of line.now) ≡ None }
{
    let (name, fields) = cut_word(line)?;
    let (node, word) = cut_word(fields)?;
    if !is_word(name, "life") {
        return None;
    }
    match cut_word(word) {
        None => Some((node, word)),
        Some(_) => None,
    }
}

/// The message that bytes spell.
fn message_of(bytes: &[u8]) -> Option<Message>
    ensures { result ≡ message_of bytes.now }
{
    match decode(bytes) {
        Ok(message) => Some(message),
        Err(_) => None,
    }
}

/// The word behind `deliver`, of a line that has this one alone.
fn brought_word(line: &[u8]) -> Option<&[u8]>
    ensures some { IfSome result (λ word. brought_word (words_of line.now) ≡ Some word.now) }
    ensures none { IsNone result → brought_word (words_of line.now) ≡ None }
{
    let (name, word) = cut_word(line)?;
    if name != b"deliver".as_slice() || cut_word(word).is_some() {
        return None;
    }
    Some(word)
}

/// The word of a message, of a line that hands one out.
#[tactic(auto, using(crate::proofs::Reading::sends_more))]
fn sent_word(line: &[u8]) -> Option<&[u8]>
    ensures some { IfSome result (λ word. sent_word (words_of line.now) ≡ Some word.now) }
    ensures none { IsNone result → sent_word (words_of line.now) ≡ None }
{
    let (name, fields) = cut_word(line)?;
    let (_receiver, word) = cut_word(fields)?;
    if !is_word(name, "send") {
        return None;
    }
    match cut_word(word) {
        None => Some(word),
        Some(_) => None,
    }
}

/// The node that a line hands a message out to.
fn receiver(line: &[u8]) -> Option<NodeId>
    ensures { result ≡ receiver_in (words_of line.now) }
{
    let (_name, words) = cut_word(line)?;
    let (receiver, _word) = cut_word(words)?;
    fields::node(receiver)
}

/// Adds the lines of an answer, with each message sealed. `bytes` is room for one.
fn push_lines(
    keys: &SealingKeys,
    life: Option<u64>,
    number: &mut u64,
    bytes: &mut Vec<u8>,
    plain: &[u8],
    text: &mut Vec<u8>,
) -> Result<(), AllocError>
    ensures text { OnOk result (text.new.items ≡ text.old.items ++ sealed_lines keys.now life number.old (lines_of plain.now)) }
    ensures number { OnOk result (number.new ≡ numbered life number.old (lines_of plain.now)) }
{
    let mut left = plain;
    while let Some((line, behind)) = cut_line(left) {
        push_line(keys, life, number, bytes, line, text)?;
        left = behind;
    }
    text.extend_from_slice(left)
}

fn push_line(
    keys: &SealingKeys,
    life: Option<u64>,
    number: &mut u64,
    bytes: &mut Vec<u8>,
    line: &[u8],
    text: &mut Vec<u8>,
) -> Result<(), AllocError>
    ensures text { OnOk result (text.new.items ≡ text.old.items ++ line_by keys.now life number.old line.now (message_in line.now)) }
    ensures number { OnOk result (number.new ≡ number_by life number.old (message_in line.now)) }
{
    if !read_message(bytes, line)? {
        return push_plain(text, line);
    }
    let Some(life) = life else {
        return Ok(());
    };
    let Some(next) = number.checked_add(1) else {
        return Err(AllocError);
    };
    *number = next;
    let key = keys.key_to(receiver(line));
    push_sealed(key, Stamp { life, number: next }, line, bytes, text)
}

fn push_plain(text: &mut Vec<u8>, line: &[u8]) -> Result<(), AllocError>
    ensures { OnOk result (text.new.items ≡ text.old.items ++ (line.now ++ codes "\n")) }
{
    text.extend_from_slice(line)?;
    push_text(text, "\n")
}

/// Adds a line with the seal of its message behind it.
fn push_sealed(
    key: &Key,
    stamp: Stamp,
    line: &[u8],
    message: &mut Vec<u8>,
    text: &mut Vec<u8>,
) -> Result<(), AllocError>
    ensures { OnOk result (text.new.items ≡ text.old.items ++ (line.now ++ encode_lower (seal_of key.now message.old.items stamp) ++ codes "\n")) }
{
    text.extend_from_slice(line)?;
    push_seal(key, stamp, message, text)?;
    push_text(text, "\n")
}

/// Reads the message that a line of an answer hands out, if it does.
fn read_message(bytes: &mut Vec<u8>, line: &[u8]) -> Result<bool, AllocError>
    ensures { IfOk result (λ is. message_in line.now ≡ (if is then Some bytes.new.items else None)) }
{
    bytes.clear();
    match sent_word(line) {
        Some(word) => push_bytes(bytes, word),
        None => Ok(false),
    }
}

/// Adds the seal of a message, which is sealed in its place.
fn push_seal(
    key: &Key,
    stamp: Stamp,
    message: &mut Vec<u8>,
    text: &mut Vec<u8>,
) -> Result<(), AllocError>
    ensures { OnOk result (text.new.items ≡ text.old.items ++ encode_lower (seal_of key.now message.old.items stamp)) }
{
    let end = message.len();
    key.seal(message, stamp)?;
    push_hex(text, &message[end..])
}
