//! The order of a run that was recorded, beside its trace.
//!
//! It stands under the key `order`, two words a turn: the node, and the number of the message that it was brought, or a dash. A reader of
//! the trace passes over the key, and who asks for the order passes over all other keys.

ghost use Rattle.std.specs.Prelude.{◌≡◌, ◌↔◌, ◌<◌, ◌≤◌, ◌++◌, ◌∷◌, [], length, decimal, codes, string_bytes, IfOk, IfErr, OnOk, IfSome, MatchOption, Ok, Some, None, option_map, option_and_then};
ghost use Rattle.json.specs.Find.{as_str};
ghost use Rattle.json.specs.Json.{members, parse_map, value};
ghost use Rattle.json.specs.Token.{begin_object, end_object, key, string};
ghost use Rattle.serde_json.specs.Written.{compact_text};
ghost use Rattle.group_task.specs.declared.node.TheConstants.{NODES};
ghost use Rattle.trace_text.specs.Fits.{IsUnwritable, IsWritable, TraceFits};
ghost use Rattle.trace_text.specs.Ordered.{CutsTurn, IsEven, IsLacking, MessageFits, PassesMember, TurnsFit, message_in, message_word, order_of, order_text, ordered_by, ordered_data, space_if, turn_text, turns_of, words_at, words_behind, words_from, words_in};
ghost use Rattle.line_words.specs.Words.{words_of};
ghost use Rattle.trace_text.specs.Parts.{ordered_end};
ghost use Rattle.trace_text.specs.Tokens.{Adds, ordered_tokens};
ghost use Rattle.trace_text.specs.Wholes.{trace_of};

use crate::fault::WriteFault;
use crate::reading::node_of;
use crate::writable::is_writable;
use crate::writing::{end_histories, write_head, write_histories};
use group_task::NodeId;
use itoa::Buffer;
use json::{Error, Reader, Scratch, Token, Value, Writer};
use line_words::{cut_word, is_word, number, numbers};
use simdutf8::basic::from_utf8;
use std::alloc::{AllocError, Global};
use trace_check::{Order, Trace};

/// A turn at the front of a text of turns.
#[derive(Clone, Copy, Drop)]
pub struct OrderedTurn<'a> {
    pub node: NodeId,
    pub message: Option<u64>,
    /// The turns behind it, if there are some.
    pub behind: Option<&'a [u8]>,
}

/// The order that a text has beside its trace. None where it has none, or what stands there isn't two words for each turn.
pub fn read_order(alloc: Global, text: &[u8]) -> Result<Option<Order>, AllocError>
    // Promise: The order that a text has beside its trace is read exactly: the text under the key `order`, two words a turn.
    // Refuses: order_under_another_key, first_of_equal_orders_counts, dash_read_as_message_0.
    ensures { IfOk result (λ order. option_map ordered_by order ≡ order_of text.now) }
{
    let Ok(text) = from_utf8(text) else {
        return Ok(None);
    };
    let mut scratch = Scratch::new(alloc);
    let mut reader = Reader::new(text, &mut scratch)?;
    match find_words(alloc, &mut reader) {
        Ok(Some(words)) => read_turns(alloc, words.as_bytes()),
        Ok(None) => Ok(None),
        Err(Error::OutOfMemory) => Err(AllocError),
        Err(_) => Ok(None),
    }
}

/// The text under the key `order`.
fn find_words<'a>(alloc: Global, reader: &mut Reader<'a>) -> Result<Option<&'a str>, Error>
    ensures ok { IfOk result (λ words. option_map (λ s. s.now) words ≡ words_at reader.old) }
    ensures err { IfErr result (IsLacking (words_at reader.old)) }
{
    open_object(reader)?;
    let words = find_member(alloc, reader)?;
    if reader.next().is_some() {
        return Err(Error::Invalid);
    }
    Ok(words)
}

/// Passes the brace that begins an object.
fn open_object(reader: &mut Reader<'_>) -> Result<(), Error>
    ensures ok { OnOk result (reader.old ≡ begin_object ∷ reader.new) }
    ensures err { IfErr result (IsLacking (words_at reader.old)) }
{
    let Some(token) = reader.next() else {
        return Err(Error::Invalid);
    };
    let Token::BeginObject = token else {
        return Err(Error::Invalid);
    };
    Ok(())
}

/// The text under the key among members, from behind a brace on.
fn find_member<'a>(alloc: Global, reader: &mut Reader<'a>) -> Result<Option<&'a str>, Error>
    ensures ok { IfOk result (λ words. parse_map (words_from None) (members (value 126) (length reader.old) reader.old) ≡ Some (option_map (λ s. s.now) words, reader.new)) }
    ensures err { IfErr result (IsLacking (members (value 126) (length reader.old) reader.old)) }
{
    let mut found = None;
    'members: while let Some(key) = reader.next_key()? {
        pass_member(alloc, reader, key, &mut found)?;
    }
    Ok(found)
}

/// Passes the value of a member, and keeps the text that it has under the key.
fn pass_member<'a>(
    alloc: Global,
    reader: &mut Reader<'a>,
    key: &str,
    found: &mut Option<&'a str>,
) -> Result<(), Error>
    ensures ok { OnOk result (PassesMember key.now reader.old reader.new (option_map (λ s. s.now) found.old) (option_map (λ s. s.now) found.new)) }
    ensures err { IfErr result (IsLacking (value 126 reader.old)) }
    ensures shorter { OnOk result (length reader.new < length reader.old) }
{
    if is_word(key.as_bytes(), "order") {
        let value = Value::read(alloc, reader, 126)?;
        *found = value.as_str();
    } else {
        reader.skip_value(126)?;
    }
    Ok(())
}

/// The turns of a text.
fn read_turns(alloc: Global, text: &[u8]) -> Result<Option<Order>, AllocError>
    ensures { IfOk result (λ order. option_map ordered_by order ≡ turns_of (words_in text.now)) }
{
    let mut nodes = Vec::new(alloc);
    let mut messages = Vec::new(alloc);
    let mut left = some_words(text);
    'turns: while let Some(words) = left {
        let Some(turn) = cut_turn(words) else {
            return Ok(None);
        };
        nodes.push(turn.node)?;
        messages.push(turn.message)?;
        left = turn.behind;
    }
    Ok(Some(Order { nodes, messages }))
}

/// The text, if it has words.
fn some_words(text: &[u8]) -> Option<&[u8]>
    ensures { words_behind result ≡ words_in text.now }
{
    if text.is_empty() { None } else { Some(text) }
}

/// The first turn of a text that isn't empty.
fn cut_turn(text: &[u8]) -> Option<OrderedTurn<'_>>
    ensures { MatchOption result (turns_of (words_of text.now) ≡ None) (λ turn. CutsTurn text.now turn) }
{
    let (node, more) = cut_word(text)?;
    let (message, behind) = match cut_word(more) {
        Some((message, behind)) => (message, Some(behind)),
        None => (more, None),
    };
    Some(OrderedTurn {
        node: node_of(number(node))?,
        message: message_of(message)?,
        behind,
    })
}

fn message_of(word: &[u8]) -> Option<Option<u64>>
    ensures { result ≡ message_in word.now }
{
    if is_word(word, "-") {
        return Some(None);
    }
    match number(word) {
        Some(number) => Some(Some(number)),
        None => None,
    }
}

/// The text of a trace with the order of its turns.
pub fn write_ordered(alloc: Global, trace: &Trace, order: &Order) -> Result<Vec<u8>, WriteFault>
    // Promise: A trace is written with its order as the compact text of the JSON value that the definitions give them, and both are read
    // back; it is refused exactly where its trace is, or where its turns don't each have a node and a number or none.
    // Refuses: messages_of_turns_left_out, last_turn_left_out.
    ensures text { IfOk result (λ text. text.items ≡ compact_text (ordered_data trace.now (ordered_by order.now))) }
    ensures reads_back { IfOk result (λ text. trace_of text.items ≡ Ok trace.now) }
    ensures order_back { IfOk result (λ text. order_of text.items ≡ Some (ordered_by order.now)) }
    ensures refused { IsUnwritable result ↔ ((IsWritable trace.now × IsEven (ordered_by order.now)) → ⊥) }
{
    if order.nodes.len() != order.messages.len() || !is_writable(trace) {
        return Err(WriteFault::Unwritable);
    }
    let text = ordered_text(alloc, trace, order)?;
    Ok(text)
}

/// The same, of an order that may have turns without a node or without a message: none is written behind the first of these.
fn ordered_text(alloc: Global, trace: &Trace, order: &Order) -> Result<Vec<u8>, AllocError>
    ensures text { IfOk result (λ text. text.items ≡ compact_text (ordered_data trace.now (ordered_by order.now))) }
    ensures reads_back { IfOk result (λ text. IsWritable trace.now → trace_of text.items ≡ Ok trace.now) }
    ensures order_back { IfOk result (λ text. IsEven (ordered_by order.now) → order_of text.items ≡ Some (ordered_by order.now)) }
{
    numbers();
    let words = order_words(alloc, order)?;
    let mut out = Writer::new(Vec::new(alloc));
    write_all(alloc, &mut out, trace, &words)?;
    Ok(out.into_inner())
}

/// Writes a trace, and this text of its order.
fn write_all(alloc: Global, out: &mut Writer, trace: &Trace, words: &str) -> Result<(), AllocError>
    ensures text { OnOk result (Adds out.old out.new (ordered_tokens trace.now words.now)) }
    ensures most { length trace.now ≤ NODES }
    ensures fits { OnOk result (TraceFits trace.now) }
{
    let nodes = trace.nodes();
    write_head(out)?;
    write_histories(alloc, out, trace.histories())?;
    end_histories(out, nodes)?;
    write_words(out, words)
}

/// Ends the text of a trace of so many nodes behind its histories, as [`end_trace`](crate::end_trace) does, with the order of its turns.
pub fn end_ordered(
    alloc: Global,
    text: Vec<u8>,
    nodes: u8,
    order: &Order,
) -> Result<Vec<u8>, AllocError>
    ensures { IfOk result (λ whole. whole.items ≡ text.items ++ ordered_end nodes (order_text (ordered_by order.now))) }
{
    let words = order_words(alloc, order)?;
    let mut out = Writer::new(text);
    end_histories(&mut out, nodes)?;
    write_words(&mut out, &words)?;
    Ok(out.into_inner())
}

/// Ends the whole behind the text of an order.
fn write_words(out: &mut Writer, words: &str) -> Result<(), AllocError>
    ensures { OnOk result (Adds out.old out.new (key (codes "order") ∷ string words.now ∷ end_object ∷ [])) }
{
    out.key("order")?;
    out.string(words)?;
    out.end_object()
}

/// The text of an order.
fn order_words(alloc: Global, order: &Order) -> Result<String, AllocError>
    ensures text { IfOk result (λ text. string_bytes text ≡ order_text (ordered_by order.now)) }
    ensures fits { IfOk result (λ _. TurnsFit order.now.nodes.items order.now.messages.items) }
{
    let mut text = String::new(alloc);
    let turns = order.nodes.len().min(order.messages.len());
    for place in 0..turns {
        push_turn(
            &mut text,
            place > 0,
            order.nodes[place],
            order.messages[place],
        )?;
    }
    Ok(text)
}

/// Adds a turn to a text, and says whether others stand before it.
fn push_turn(
    text: &mut String,
    later: bool,
    node: NodeId,
    message: Option<u64>,
) -> Result<(), AllocError>
    ensures text { OnOk result (string_bytes text.new ≡ string_bytes text.old ++ (space_if later ++ turn_text node message)) }
    ensures fits { OnOk result ((node < NODES) × MessageFits message) }
{
    if later {
        text.push_str(" ")?;
    }
    push_number(text, u64::from(node.number()))?;
    text.push_str(" ")?;
    match message {
        Some(number) => push_number(text, number),
        None => text.push_str("-"),
    }
}

fn push_number(text: &mut String, number: u64) -> Result<(), AllocError>
    ensures { OnOk result (string_bytes text.new ≡ string_bytes text.old ++ decimal number) }
{
    let mut digits = Buffer::new();
    text.push_str(digits.format(number))
}
