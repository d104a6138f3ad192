//! Reading what the entries of a trace say that their nodes told, with no value of the text beside it.
//!
//! Who reads the trace passes over the key `told`, and who asks for it passes over all else.

ghost use Rattle.std.specs.Prelude.{◌≡◌, ◌<◌, ◌≤◌, [], length, IfOk, OnOk, Err, MatchResult, Some, None, option_map};
ghost use Rattle.json.specs.Json.{parse_map};
ghost use Rattle.trace_text.specs.Pieces.{IsNone};
ghost use Rattle.trace_text.specs.Streams.{data_at, items_at, members_at};
ghost use Rattle.trace_text.specs.Tellings.{entries_told, histories_told, history_told, lists_told, telling_by, telling_in, telling_seen, tellings_of, told_in, told_put, told_seen, whole_put, whole_seen, whole_told};

use crate::stream::Halt;
use crate::telling::{Said, Telling, Tellings};
use crate::values::{open_list, open_object, read_field};
use json::{Invalid, Reader, Scratch};
use line_words::is_word;
use simdutf8::basic::from_utf8;
use std::alloc::{AllocError, Global};

/// What the entries of a text's histories say that their nodes told. None where the text is no JSON.
pub fn read_tellings(alloc: Global, text: &[u8]) -> Result<Option<Vec<Tellings>>, AllocError>
    // Promise: What the entries of a text say that their nodes told is read exactly: of each history, of each entry, each field's text.
    // Also: Tellings::get.
    // Refuses: took_read_as_dropped, first_of_equal_tellings_counts, told_text_kept_from_the_start, telling_of_no_object_passed_over.
    ensures { IfOk result (λ told. option_map (λ v. v.items) told ≡ tellings_of text.now) }
{
    let Ok(text) = from_utf8(text) else {
        return Ok(None);
    };
    let mut scratch = Scratch::new(alloc);
    let mut reader = Reader::new(text, &mut scratch)?;
    match read_all(alloc, &mut reader) {
        Ok(told) => Ok(Some(told)),
        Err(Halt::NoJson) => Ok(None),
        Err(Halt::NoMemory) => Err(AllocError),
    }
}

/// The whole, with nothing behind it.
fn read_all(alloc: Global, reader: &mut Reader<'_>) -> Result<Vec<Tellings>, Halt>
    ensures ok { IfOk result (λ told. parse_map whole_told (data_at 127 reader.old) ≡ Some (told.items, [])) }
    ensures err { result ≡ Err Halt.NoJson → IsNone (λ ts. parse_map whole_told (data_at 127 ts)) reader.old }
{
    let told = read_whole(alloc, reader)?;
    match reader.next() {
        Some(_) => Err(Halt::NoJson),
        None => Ok(told),
    }
}

/// The value of the whole text.
fn read_whole(alloc: Global, reader: &mut Reader<'_>) -> Result<Vec<Tellings>, Halt>
    ensures ok { IfOk result (λ told. parse_map whole_told (data_at 127 reader.old) ≡ Some (told.items, reader.new)) }
    ensures err { result ≡ Err Halt.NoJson → data_at 127 reader.old ≡ None }
{
    if !open_object(reader, 127)? {
        return Ok(Vec::new(alloc));
    }
    read_parts(alloc, reader)
}

/// The members of the whole, from behind its brace on.
fn read_parts(alloc: Global, reader: &mut Reader<'_>) -> Result<Vec<Tellings>, Halt>
    ensures ok { IfOk result (λ told. parse_map whole_seen (members_at 126 reader.old) ≡ Some (told.items, reader.new)) }
    ensures err { result ≡ Err Halt.NoJson → members_at 126 reader.old ≡ None }
{
    let mut told = Vec::new(alloc);
    'members: while let Some(key) = reader.next_key()? {
        read_part(alloc, reader, key, &mut told)?;
    }
    Ok(told)
}

fn read_part(
    alloc: Global,
    reader: &mut Reader<'_>,
    key: &str,
    told: &mut Vec<Tellings>,
) -> Result<(), Halt>
    ensures ok { OnOk result (parse_map (whole_put told.old.items key.now) (data_at 126 reader.old) ≡ Some (told.new.items, reader.new)) }
    ensures err { result ≡ Err Halt.NoJson → data_at 126 reader.old ≡ None }
    ensures shorter { OnOk result (length reader.new < length reader.old) }
{
    if is_word(key.as_bytes(), "histories") {
        *told = read_histories(alloc, reader)?;
    } else {
        read_field(reader, 126)?;
    }
    Ok(())
}

/// A list of lists of entries.
fn read_histories(alloc: Global, reader: &mut Reader<'_>) -> Result<Vec<Tellings>, Halt>
    ensures ok { IfOk result (λ told. parse_map histories_told (data_at 126 reader.old) ≡ Some (told.items, reader.new)) }
    ensures err { result ≡ Err Halt.NoJson → data_at 126 reader.old ≡ None }
    ensures shorter { OnOk result (length reader.new < length reader.old) }
{
    if !open_list(reader, 126)? {
        return Ok(Vec::new(alloc));
    }
    read_lists(alloc, reader)
}

/// The lists from behind a bracket on.
fn read_lists(alloc: Global, reader: &mut Reader<'_>) -> Result<Vec<Tellings>, Halt>
    ensures ok { IfOk result (λ told. parse_map lists_told (items_at 125 reader.old) ≡ Some (told.items, reader.new)) }
    ensures err { result ≡ Err Halt.NoJson → items_at 125 reader.old ≡ None }
    ensures shorter { OnOk result (length reader.new ≤ length reader.old) }
{
    let mut told = Vec::new(alloc);
    'lists: while !reader.take_end_array() {
        let tellings = read_history(alloc, reader)?;
        told.reserve(1)?;
        told.push_reserved(tellings);
    }
    Ok(told)
}

/// A list of entries.
fn read_history(alloc: Global, reader: &mut Reader<'_>) -> Result<Tellings, Halt>
    ensures ok { IfOk result (λ told. parse_map history_told (data_at 125 reader.old) ≡ Some (told, reader.new)) }
    ensures err { result ≡ Err Halt.NoJson → data_at 125 reader.old ≡ None }
    ensures shorter { OnOk result (length reader.new < length reader.old) }
{
    if !open_list(reader, 125)? {
        return Ok(Tellings::new(alloc));
    }
    read_entries(alloc, reader)
}

/// The entries from behind a bracket on.
fn read_entries(alloc: Global, reader: &mut Reader<'_>) -> Result<Tellings, Halt>
    ensures ok { IfOk result (λ told. parse_map entries_told (items_at 124 reader.old) ≡ Some (told, reader.new)) }
    ensures err { result ≡ Err Halt.NoJson → items_at 124 reader.old ≡ None }
    ensures shorter { OnOk result (length reader.new ≤ length reader.old) }
{
    let mut tellings = Tellings::new(alloc);
    'entries: while !reader.take_end_array() {
        let told = read_told(reader)?;
        tellings.push(&told)?;
    }
    Ok(tellings)
}

/// What an entry says, if it says something.
fn read_told<'a>(reader: &mut Reader<'a>) -> Result<Option<Telling<'a>>, Invalid>
    ensures value { MatchResult result
        (λ told. parse_map told_in (data_at 124 reader.old) ≡ Some (option_map telling_by told, reader.new))
        (λ _. data_at 124 reader.old ≡ None) }
    ensures shorter { OnOk result (length reader.new < length reader.old) }
{
    if !open_object(reader, 124)? {
        return Ok(None);
    }
    Ok(find_told(reader)?)
}

/// The members of an entry, from behind its brace on.
fn find_told<'a>(reader: &mut Reader<'a>) -> Result<Option<Telling<'a>>, Invalid>
    ensures value { MatchResult result
        (λ told. parse_map told_seen (members_at 123 reader.old) ≡ Some (option_map telling_by told, reader.new))
        (λ _. members_at 123 reader.old ≡ None) }
    ensures shorter { OnOk result (length reader.new ≤ length reader.old) }
{
    let mut told = None;
    'members: while let Some(key) = reader.next_key()? {
        pass_member(reader, key, &mut told)?;
    }
    Ok(told)
}

/// Passes the value of a member of an entry, and keeps what it is under the key.
fn pass_member<'a>(
    reader: &mut Reader<'a>,
    key: &str,
    told: &mut Option<Telling<'a>>,
) -> Result<(), Invalid>
    ensures value { MatchResult result
        (λ _. parse_map (told_put (option_map telling_by told.old) key.now) (data_at 123 reader.old) ≡ Some (option_map telling_by told.new, reader.new))
        (λ _. data_at 123 reader.old ≡ None) }
    ensures shorter { OnOk result (length reader.new < length reader.old) }
{
    if is_word(key.as_bytes(), "told") {
        *told = Some(read_telling(reader)?);
    } else {
        read_field(reader, 123)?;
    }
    Ok(())
}

/// What is told.
fn read_telling<'a>(reader: &mut Reader<'a>) -> Result<Telling<'a>, Invalid>
    ensures value { MatchResult result
        (λ telling. parse_map telling_in (data_at 123 reader.old) ≡ Some (telling_by telling, reader.new))
        (λ _. data_at 123 reader.old ≡ None) }
    ensures shorter { OnOk result (length reader.new < length reader.old) }
{
    if !open_object(reader, 123)? {
        return Ok(Telling::new(false));
    }
    Ok(read_members(reader)?)
}

/// The fields of what is told, from behind its brace on.
fn read_members<'a>(reader: &mut Reader<'a>) -> Result<Telling<'a>, Invalid>
    ensures value { MatchResult result
        (λ telling. parse_map telling_seen (members_at 122 reader.old) ≡ Some (telling_by telling, reader.new))
        (λ _. members_at 122 reader.old ≡ None) }
    ensures shorter { OnOk result (length reader.new ≤ length reader.old) }
{
    let mut telling = Telling::new(true);
    'members: while let Some(key) = reader.next_key()? {
        let field = read_field(reader, 122)?;
        telling.put(key.as_bytes(), Said::of(field));
    }
    Ok(telling)
}
