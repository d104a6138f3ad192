//! Reading a trace entry by entry, in one pass, with no tree of the text beside it.
//!
//! Behind a bad entry the reading goes on, since the shape of the whole is judged first, and a later member of the same key may stand
//! in its place.

ghost use Rattle.std.specs.Prelude.{◌≡◌, ◌<◌, ◌≤◌, ◌∷◌, [], ◌++◌, length, true, false, IfOk, IfErr, IfSome, IsSome, IsTrue, MatchBool, OnOk, option_and_then, option_map, Ok, Err, Some, None, if◌then◌else◌};
ghost use Rattle.std.specs.Option.{option_or};
ghost use Rattle.json.specs.Json.{parse_map};
ghost use Rattle.json.specs.Lex.{tokens};
ghost use Rattle.json.specs.Reads.{token_of};
ghost use Rattle.serde_json.specs.Find.{as_array};
ghost use Rattle.trace_check.specs.Claims.{Claim};
ghost use Rattle.group_task.specs.declared.node.TheConstants.{NODES};
ghost use Rattle.trace_text.specs.Entries.{claim_in, messages_in};
ghost use Rattle.trace_text.specs.Drafts.{drafted_by, judged_by, listed_by, parted_by};
ghost use Rattle.trace_text.specs.Pieces.{Comes, IsCut, IsNone, Leads, begun_on, entries_on, list_on, lists_on, open_on, open_parts_on, open_text_on, over, parts_on, put_on, text_on, then_parts, whole_on};
ghost use Rattle.trace_text.specs.Streams.{data_at, drafted_in, drafted_put, items_at, judged_in, members_at, sent_in, shaped};
ghost use Rattle.trace_text.specs.Wholes.{IsFaultOf, trace_of};

use crate::fault::{Location, TraceFault};
use crate::fields::Fields;
use crate::reading::{read_action, read_message};
use crate::values::{enter_object, open_list, open_object, read_field};
use group_task::NODES;
use json::{Invalid, Reader, Scratch, Token};
use line_words::is_word;
use memchr::memchr;
use memchr::memmem::find;
use message_list::MessageList;
use simdutf8::basic::from_utf8;
use std::alloc::{AllocError, Global};
use trace_check::{History, Sent, Trace};
use wire_msg::Message;

/// So many bytes of a text a piece has at least.
const PIECE: usize = 65536;

/// For so many messages of an entry memory is taken at once.
const MANY: usize = 16;

/// Why the reading stopped.
#[derive(Clone, Copy, Debug)]
pub(crate) enum Halt {
    /// The text is no JSON.
    NoJson,
    NoMemory,
}

impl From<AllocError> for Halt {
    ghost use Rattle.std.specs.Prelude.{◌≡◌};
    ghost use Rattle.trace_text.specs.declared.stream.Halt.TheVariants.{NoMemory};

    ghost from_gives = { λ _ e. e ≡ NoMemory };

    fn from(_e: AllocError) -> Halt {
        Halt::NoMemory
    }
}

impl From<Invalid> for Halt {
    ghost use Rattle.std.specs.Prelude.{◌≡◌};
    ghost use Rattle.trace_text.specs.declared.stream.Halt.TheVariants.{NoJson};

    ghost from_gives = { λ _ e. e ≡ NoJson };

    fn from(_e: Invalid) -> Halt {
        Halt::NoJson
    }
}

/// An entry that is being read. It is used again for the next one.
#[derive(Drop)]
pub struct Draft<'a> {
    pub fields: Fields<'a>,
    /// Whether it has a field `sent`, and that is a list of messages.
    pub has_sent: bool,
    pub sent: MessageList,
    /// The bytes of a text of hex digits.
    pub room: Vec<u8>,
    /// Where the message that was brought is read, and where each that was sent: one of the kind of the last one takes less.
    pub brought: Message,
    pub message: Message,
}

impl<'a> Draft<'a> {
    fn new(alloc: Global) -> Result<Draft<'a>, AllocError> {
        let mut sent = MessageList::new(alloc);
        sent.reserve(MANY)?;
        Ok(Draft {
            fields: Fields::new(),
            has_sent: false,
            sent,
            room: Vec::new(alloc),
            brought: Message::blank(),
            message: Message::blank(),
        })
    }
}

/// The entries of a list, as far as they were read.
#[derive(Drop)]
pub struct Entries {
    pub history: History,
    /// The first bad one: behind it the history counts for nothing.
    pub bad: Option<Location>,
}

impl Entries {
    fn new(alloc: Global) -> Entries
        ensures { (result.history ≡ []) × (result.bad ≡ None) }
    {
        Entries {
            history: History::new(alloc),
            bad: None,
        }
    }
}

/// The lists of entries, as far as they were read.
#[derive(Drop)]
pub struct Histories {
    /// Whether each item is a list.
    pub all_lists: bool,
    pub histories: Vec<History>,
    /// The first bad entry.
    pub bad: Option<Location>,
    /// The list that is being read.
    pub entries: Entries,
}

impl Histories {
    fn new(alloc: Global) -> Histories
        ensures { (result.all_lists ≡ true) × (result.histories.items ≡ []) × (result.bad ≡ None) }
    {
        Histories {
            all_lists: true,
            histories: Vec::new(alloc),
            bad: None,
            entries: Entries::new(alloc),
        }
    }
}

/// The whole, as far as it was read. A piece of the text ends in a list of entries, behind an entry.
#[derive(Drop)]
pub struct Parts {
    pub nodes: Option<u64>,
    pub histories: Option<Histories>,
}

impl Parts {
    fn new() -> Parts
        ensures { (result.nodes ≡ None) × (result.histories ≡ None) }
    {
        Parts {
            nodes: None,
            histories: None,
        }
    }
}

/// The trace of a text.
pub fn read(alloc: Global, text: &[u8]) -> Result<Trace, TraceFault>
    // Promise: A text is read as the trace that the definitions see in it, and refused exactly where they see none, with the place.
    // Refuses: always_empty_trace, last_bad_entry_named, other_fault_passed_over, raise_read_as_mount, nodes_not_counted,
    // messages_of_the_entry_before, delivery_read_as_failed.
    ensures ok { IfOk result (λ trace. trace_of text.now ≡ Ok trace) }
    ensures err { IfErr result (IsFaultOf (trace_of text.now)) }
{
    let Ok(text) = from_utf8(text) else {
        return Err(TraceFault::BadTrace(None));
    };
    match read_text(alloc, text) {
        Ok(parts) => judge(parts),
        Err(Halt::NoJson) => Err(TraceFault::BadTrace(None)),
        Err(Halt::NoMemory) => Err(TraceFault::NoMemory),
    }
}

/// The trace of what was read, if it has the shape of one.
fn judge(parts: Parts) -> Result<Trace, TraceFault>
    ensures ok { IfOk result (λ trace. shaped (parted_by parts) ≡ Ok trace) }
    ensures err { IfErr result (IsFaultOf (shaped (parted_by parts))) }
{
    let Some(nodes) = parts.nodes else {
        return Err(TraceFault::BadTrace(None));
    };
    let Some(read) = parts.histories else {
        return Err(TraceFault::BadTrace(None));
    };
    if !read.all_lists || nodes == 0 || nodes > u64::from(NODES) {
        return Err(TraceFault::BadTrace(None));
    }
    if read.histories.len() as u64 != nodes {
        return Err(TraceFault::BadTrace(None));
    }
    match read.bad {
        Some(location) => Err(TraceFault::BadTrace(Some(location))),
        None => Ok(Trace::new(read.histories)),
    }
}

/// The whole of a text: piece by piece, or all at once where it can't be read so.
fn read_text(alloc: Global, text: &str) -> Result<Parts, Halt>
    ensures ok { IfOk result (λ parts. begun_on None None (tokens text.now) ≡ Some (shaped (parted_by parts), [])) }
    ensures err { result ≡ Err Halt.NoJson → IsNone (begun_on None None) (tokens text.now) }
{
    let mut scratch = Scratch::new(alloc);
    match read_pieces(alloc, text, &mut scratch)? {
        Some(parts) => Ok(parts),
        None => read_last(alloc, text, &mut scratch, Parts::new()),
    }
}

/// The whole of a text, piece by piece: its reader takes as much memory as a piece has bytes. None where it can't be read so.
fn read_pieces(
    alloc: Global,
    text: &str,
    scratch: &mut Scratch,
) -> Result<Option<Parts>, AllocError>
    ensures { IfOk result (λ parts. IfSome parts (λ p. begun_on None None (tokens text.now) ≡ Some (shaped (parted_by p), []))) }
{
    let mut parts = Parts::new();
    let mut left = text;
    'pieces: while let Some((piece, behind)) = cut_piece(left) {
        if !pass_piece(alloc, piece, scratch, &mut parts)? {
            return Ok(None);
        }
        left = behind;
    }
    match read_last(alloc, left, scratch, parts) {
        Ok(parts) => Ok(Some(parts)),
        Err(Halt::NoJson) => Ok(None),
        Err(Halt::NoMemory) => Err(AllocError),
    }
}

/// The first piece of a text, and what stands behind the comma that ends it. None where the text is short, or none is found.
fn cut_piece(text: &str) -> Option<(&str, &str)>
    ensures { IfSome result (λ p. IsCut text.now p.0.now p.1.now) }
{
    if text.len() < PIECE {
        return None;
    }
    let end = PIECE + find(&text.as_bytes()[PIECE..], b"},{")?;
    let (piece, rest) = text.split_at_checked(end + 1)?;
    if memchr(b'\\', piece.as_bytes()).is_some() {
        return None;
    }
    let (_, behind) = rest.split_at_checked(1)?;
    Some((piece, behind))
}

/// Reads a piece that others follow. False where it can't be read so.
fn pass_piece(
    alloc: Global,
    piece: &str,
    scratch: &mut Scratch,
    parts: &mut Parts,
) -> Result<bool, AllocError>
    ensures { IfOk result (λ passed. IsTrue passed → Leads (text_on parts.old) (open_text_on parts.new) (tokens piece.now) [] × IsSome parts.new.histories) }
{
    let mut reader = Reader::new(piece, scratch)?;
    match read_piece(alloc, &mut reader, parts) {
        Ok(over) => Ok(!over),
        Err(Halt::NoJson) => Ok(false),
        Err(Halt::NoMemory) => Err(AllocError),
    }
}

/// Reads the last piece of a text.
fn read_last(alloc: Global, text: &str, scratch: &mut Scratch, parts: Parts) -> Result<Parts, Halt>
    ensures ok { IfOk result (λ read. text_on parts (tokens text.now) ≡ Some (shaped (parted_by read), [])) }
    ensures err { result ≡ Err Halt.NoJson → IsNone (text_on parts) (tokens text.now) }
{
    let mut reader = Reader::new(text, scratch)?;
    let mut parts = parts;
    if !read_piece(alloc, &mut reader, &mut parts)? {
        return Err(Halt::NoJson);
    }
    match reader.next() {
        Some(_) => Err(Halt::NoJson),
        None => Ok(parts),
    }
}

/// Goes on with a piece. False where it ends in a list of entries.
fn read_piece(alloc: Global, reader: &mut Reader<'_>, parts: &mut Parts) -> Result<bool, Halt>
    ensures ok { IfOk result (λ done. Comes done (text_on parts.old) (over (shaped (parted_by parts.new))) (open_text_on parts.new) reader.old reader.new) }
    ensures open { result ≡ Ok false → IsSome parts.new.histories }
    ensures err { result ≡ Err Halt.NoJson → text_on parts.old reader.old ≡ None }
{
    let mut draft = Draft::new(alloc)?;
    match parts.histories.take() {
        Some(histories) => resume(alloc, reader, &mut draft, histories, parts),
        None => read_whole(alloc, reader, &mut draft, parts),
    }
}

/// The rest of a text whose last piece ended in these lists.
fn resume<'a>(
    alloc: Global,
    reader: &mut Reader<'a>,
    draft: &mut Draft<'a>,
    histories: Histories,
    parts: &mut Parts,
) -> Result<bool, Halt>
    ensures ok { IfOk result (λ done. Comes done (whole_on parts.old.nodes histories) (over (parted_by parts.new)) (open_parts_on parts.new) reader.old reader.new) }
    ensures open { result ≡ Ok false → IsSome parts.new.histories }
    ensures err { result ≡ Err Halt.NoJson → whole_on parts.old.nodes histories reader.old ≡ None }
{
    let mut histories = histories;
    let done = end_lists(alloc, reader, draft, &mut histories)?;
    parts.histories = Some(histories);
    if !done {
        return Ok(false);
    }
    read_parts(alloc, reader, draft, parts)
}

/// The value of the whole text.
fn read_whole<'a>(
    alloc: Global,
    reader: &mut Reader<'a>,
    draft: &mut Draft<'a>,
    parts: &mut Parts,
) -> Result<bool, Halt>
    ensures ok { IfOk result (λ done. Comes done (begun_on None None) (over (shaped (parted_by parts.new))) (open_text_on parts.new) reader.old reader.new) }
    ensures open { result ≡ Ok false → IsSome parts.new.histories }
    ensures err { result ≡ Err Halt.NoJson → begun_on None None reader.old ≡ None }
{
    *parts = Parts::new();
    if !open_object(reader, 127)? {
        return Ok(true);
    }
    read_parts(alloc, reader, draft, parts)
}

/// The members of the whole, from behind its brace or one of them on.
fn read_parts<'a>(
    alloc: Global,
    reader: &mut Reader<'a>,
    draft: &mut Draft<'a>,
    parts: &mut Parts,
) -> Result<bool, Halt>
    ensures ok { IfOk result (λ done. Comes done (parts_on (parted_by parts.old)) (over (parted_by parts.new)) (open_parts_on parts.new) reader.old reader.new) }
    ensures open { result ≡ Ok false → IsSome parts.new.histories }
    ensures err { result ≡ Err Halt.NoJson → parts_on (parted_by parts.old) reader.old ≡ None }
{
    'members: while let Some(key) = reader.next_key()? {
        if !read_part(alloc, reader, draft, key, parts)? {
            return Ok(false);
        }
    }
    Ok(true)
}

fn read_part<'a>(
    alloc: Global,
    reader: &mut Reader<'a>,
    draft: &mut Draft<'a>,
    key: &str,
    parts: &mut Parts,
) -> Result<bool, Halt>
    ensures ok { IfOk result (λ done. MatchBool done
        (Leads (put_on (parted_by parts.old) key.now) (over (parted_by parts.new)) reader.old reader.new)
        (Leads (λ ts. option_and_then then_parts (put_on (parted_by parts.old) key.now ts)) (open_parts_on parts.new) reader.old [])) }
    ensures open { result ≡ Ok false → IsSome parts.new.histories }
    ensures err { result ≡ Err Halt.NoJson → data_at 126 reader.old ≡ None }
    ensures shorter { OnOk result (length reader.new < length reader.old) }
{
    if is_word(key.as_bytes(), "histories") {
        return read_histories(alloc, reader, draft, parts);
    }
    let field = read_field(reader, 126)?;
    if is_word(key.as_bytes(), "nodes") {
        parts.nodes = field.number();
    }
    Ok(true)
}

/// A list of lists of entries, in place of one that was read.
fn read_histories<'a>(
    alloc: Global,
    reader: &mut Reader<'a>,
    draft: &mut Draft<'a>,
    parts: &mut Parts,
) -> Result<bool, Halt>
    ensures ok { IfOk result (λ done. Comes done (λ ts. parse_map judged_in (data_at 126 ts)) (over (option_and_then judged_by parts.new.histories)) (λ ts. option_and_then (λ h. open_on h ts) parts.new.histories) reader.old reader.new) }
    ensures open { result ≡ Ok false → IsSome parts.new.histories }
    ensures err { result ≡ Err Halt.NoJson → data_at 126 reader.old ≡ None }
    ensures shorter { OnOk result (length reader.new < length reader.old) }
    ensures kept { parts.new.nodes ≡ parts.old.nodes }
{
    let mut histories = Histories::new(alloc);
    if !open_list(reader, 126)? {
        histories.all_lists = false;
        parts.histories = Some(histories);
        return Ok(true);
    }
    let done = read_lists(alloc, reader, draft, &mut histories)?;
    parts.histories = Some(histories);
    Ok(done)
}

/// The lists from behind a bracket or one of them on.
fn read_lists<'a>(
    alloc: Global,
    reader: &mut Reader<'a>,
    draft: &mut Draft<'a>,
    histories: &mut Histories,
) -> Result<bool, Halt>
    ensures ok { IfOk result (λ done. Comes done (lists_on histories.old) (over (judged_by histories.new)) (open_on histories.new) reader.old reader.new) }
    ensures err { result ≡ Err Halt.NoJson → lists_on histories.old reader.old ≡ None }
    ensures shorter { OnOk result (length reader.new ≤ length reader.old) }
{
    'lists: while !reader.take_end_array() {
        if !read_list(alloc, reader, draft, histories)? {
            return Ok(false);
        }
    }
    Ok(true)
}

/// The lists from within one of them on.
fn end_lists<'a>(
    alloc: Global,
    reader: &mut Reader<'a>,
    draft: &mut Draft<'a>,
    histories: &mut Histories,
) -> Result<bool, Halt>
    ensures ok { IfOk result (λ done. Comes done (open_on histories.old) (over (judged_by histories.new)) (open_on histories.new) reader.old reader.new) }
    ensures err { result ≡ Err Halt.NoJson → open_on histories.old reader.old ≡ None }
{
    if !end_list(alloc, reader, draft, histories)? {
        return Ok(false);
    }
    read_lists(alloc, reader, draft, histories)
}

/// An item among the lists.
fn read_list<'a>(
    alloc: Global,
    reader: &mut Reader<'a>,
    draft: &mut Draft<'a>,
    histories: &mut Histories,
) -> Result<bool, Halt>
    ensures ok { IfOk result (λ done. Comes done (list_on histories.old) (lists_on histories.new) (open_on histories.new) reader.old reader.new) }
    ensures err { result ≡ Err Halt.NoJson → list_on histories.old reader.old ≡ None }
    ensures shorter { OnOk result (length reader.new < length reader.old) }
{
    if !open_list(reader, 125)? {
        histories.all_lists = false;
        return Ok(true);
    }
    histories.entries = Entries::new(alloc);
    end_list(alloc, reader, draft, histories)
}

/// The rest of a list of the entries of a node.
fn end_list<'a>(
    alloc: Global,
    reader: &mut Reader<'a>,
    draft: &mut Draft<'a>,
    histories: &mut Histories,
) -> Result<bool, Halt>
    ensures ok { IfOk result (λ done. Comes done (open_on histories.old) (lists_on histories.new) (open_on histories.new) reader.old reader.new) }
    ensures err { result ≡ Err Halt.NoJson → open_on histories.old reader.old ≡ None }
    ensures shorter { OnOk result (length reader.new ≤ length reader.old) }
{
    let node = histories.histories.len();
    if !read_entries(reader, draft, node, &mut histories.entries)? {
        return Ok(false);
    }
    histories.histories.reserve(1)?;
    let entries = std::mem::replace(&mut histories.entries, Entries::new(alloc));
    histories.histories.push_reserved(entries.history);
    histories.bad = first(histories.bad, entries.bad);
    Ok(true)
}

/// The first of two places, if there is one.
fn first(place: Option<Location>, later: Option<Location>) -> Option<Location>
    ensures { result ≡ option_or place later }
{
    match place {
        Some(_) => place,
        None => later,
    }
}

/// The entries from behind a bracket or one of them on.
fn read_entries<'a>(
    reader: &mut Reader<'a>,
    draft: &mut Draft<'a>,
    node: usize,
    entries: &mut Entries,
) -> Result<bool, Halt>
    ensures ok { IfOk result (λ done. Comes done (entries_on node entries.old) (over (listed_by entries.new)) (entries_on node entries.new) reader.old reader.new) }
    ensures err { result ≡ Err Halt.NoJson → entries_on node entries.old reader.old ≡ None }
    ensures shorter { OnOk result (length reader.new ≤ length reader.old) }
{
    'entries: while !reader.take_end_array() {
        let Some(token) = reader.next() else {
            return Ok(false);
        };
        let index = entries.history.len();
        if !read_entry(reader, token, draft, &mut entries.history)? {
            entries.bad = first(entries.bad, Some(Location { node, index }));
        }
    }
    Ok(true)
}

/// Adds the entry that begins with this token, which was read, to a history. False where it is none.
fn read_entry<'a>(
    reader: &mut Reader<'a>,
    token: Token<'a>,
    draft: &mut Draft<'a>,
    history: &mut History,
) -> Result<bool, Halt>
    ensures ok { IfOk result (λ some. parse_map (λ d. option_map (λ (c : Claim). history.old ++ c ∷ []) (claim_in d)) (data_at 124 (token_of token.entry ∷ reader.old)) ≡ Some (if some then Some history.new else None, reader.new)) }
    ensures err { result ≡ Err Halt.NoJson → data_at 124 (token_of token.entry ∷ reader.old) ≡ None }
    ensures shorter { OnOk result (length reader.new ≤ length reader.old) }
{
    if !enter_object(reader, token, 124)? {
        return Ok(false);
    }
    read_members(reader, draft)?;
    if !draft.has_sent {
        return Ok(false);
    }
    match read_action(&mut draft.room, &mut draft.brought, &draft.fields) {
        Ok(Some(action)) => {
            let sent = Sent::part(&draft.sent, 0, draft.sent.len());
            history.push_lent(&action, &sent)?;
            Ok(true)
        }
        Ok(None) => Ok(false),
        Err(_) => Err(Halt::NoMemory),
    }
}

/// The members of an entry, from behind its brace on.
fn read_members<'a>(reader: &mut Reader<'a>, draft: &mut Draft<'a>) -> Result<(), Halt>
    ensures ok { OnOk result (parse_map drafted_in (members_at 123 reader.old) ≡ Some (drafted_by draft.new, reader.new)) }
    ensures err { result ≡ Err Halt.NoJson → members_at 123 reader.old ≡ None }
    ensures shorter { OnOk result (length reader.new ≤ length reader.old) }
{
    draft.fields.clear();
    draft.has_sent = false;
    'members: while let Some(key) = reader.next_key()? {
        read_member(reader, key, draft)?;
    }
    Ok(())
}

fn read_member<'a>(reader: &mut Reader<'a>, key: &str, draft: &mut Draft<'a>) -> Result<(), Halt>
    ensures ok { OnOk result (parse_map (drafted_put (drafted_by draft.old) key.now) (data_at 123 reader.old) ≡ Some (drafted_by draft.new, reader.new)) }
    ensures err { result ≡ Err Halt.NoJson → data_at 123 reader.old ≡ None }
    ensures shorter { OnOk result (length reader.new < length reader.old) }
{
    if is_word(key.as_bytes(), "sent") {
        let has_sent = read_sent(reader, &mut draft.room, &mut draft.message, &mut draft.sent)?;
        draft.has_sent = has_sent;
    } else {
        let field = read_field(reader, 123)?;
        draft.fields.put(key.as_bytes(), field);
    }
    Ok(())
}

/// A list of messages, in place of others. False where it is none.
fn read_sent(
    reader: &mut Reader<'_>,
    room: &mut Vec<u8>,
    message: &mut Message,
    sent: &mut MessageList,
) -> Result<bool, Halt>
    ensures ok { IfOk result (λ some. parse_map sent_in (data_at 123 reader.old) ≡ Some (if some then Some sent.new.messages else None, reader.new)) }
    ensures err { result ≡ Err Halt.NoJson → data_at 123 reader.old ≡ None }
    ensures shorter { OnOk result (length reader.new < length reader.old) }
{
    if !open_list(reader, 123)? {
        return Ok(false);
    }
    read_messages(reader, room, message, sent)
}

/// The messages from behind a bracket on.
fn read_messages(
    reader: &mut Reader<'_>,
    room: &mut Vec<u8>,
    message: &mut Message,
    sent: &mut MessageList,
) -> Result<bool, Halt>
    ensures ok { IfOk result (λ some. parse_map messages_in (items_at 122 reader.old) ≡ Some (if some then Some sent.new.messages else None, reader.new)) }
    ensures err { result ≡ Err Halt.NoJson → items_at 122 reader.old ≡ None }
    ensures shorter { OnOk result (length reader.new ≤ length reader.old) }
{
    sent.clear();
    let mut all = true;
    'messages: while !reader.take_end_array() {
        let field = read_field(reader, 122)?;
        if read_message(room, field, message)? {
            sent.reserve(1)?;
            sent.push(message);
        } else {
            all = false;
        }
    }
    Ok(all)
}
