//! Values of JSON at the front of a reader, read or passed over. A text is JSON where `serde_json` reads it, so a number that no float
//! holds is none.

ghost use Rattle.std.specs.Prelude.{◌≡◌, ◌<◌, ◌≤◌, ◌==◌, ◌∷◌, true, false, length, slice_index, OnOk, IsTrue, MatchResult, MatchBool, option_map, Some, None};
ghost use Rattle.json.specs.Json.{parse_map};
ghost use Rattle.json.specs.Reads.{token_of};
ghost use Rattle.json.specs.Token.{begin_array, begin_object};
ghost use Rattle.serde_json.specs.Data.{number};
ghost use Rattle.serde_json.specs.Find.{as_array, as_object};
ghost use Rattle.serde_json.specs.Read.{float_of, number_from, number_of};
ghost use Rattle.trace_text.specs.Fields.{data_of, plain};
ghost use Rattle.trace_text.specs.Streams.{behind, data_at, items_at, members_at};

use crate::fields::Field;
use fast_float::Numeral;
use json::{Invalid, Reader, Token};
use line_words::number;

/// Passes the bracket that begins a list. Another value is passed whole.
pub(crate) fn open_list(reader: &mut Reader<'_>, depth: usize) -> Result<bool, Invalid>
    ensures value { MatchResult result
        (λ opened. MatchBool opened (reader.old ≡ begin_array ∷ reader.new) (parse_map as_array (data_at depth reader.old) ≡ Some (None, reader.new)))
        (λ _. data_at depth reader.old ≡ None) }
    ensures shorter { OnOk result (length reader.new < length reader.old) }
{
    let token = reader.next().ok_or(Invalid)?;
    if let Token::BeginArray = token {
        return Ok(true);
    }
    read_rest(reader, token, depth)?;
    Ok(false)
}

/// Passes the brace that begins an object. Another value is passed whole.
pub(crate) fn open_object(reader: &mut Reader<'_>, depth: usize) -> Result<bool, Invalid>
    ensures value { MatchResult result
        (λ opened. MatchBool opened (reader.old ≡ begin_object ∷ reader.new) (parse_map as_object (data_at depth reader.old) ≡ Some (None, reader.new)))
        (λ _. data_at depth reader.old ≡ None) }
    ensures shorter { OnOk result (length reader.new < length reader.old) }
{
    let token = reader.next().ok_or(Invalid)?;
    if let Token::BeginObject = token {
        return Ok(true);
    }
    read_rest(reader, token, depth)?;
    Ok(false)
}

/// Passes the value that begins with this token, which was read, unless it is the brace that begins an object.
pub(crate) fn enter_object<'a>(
    reader: &mut Reader<'a>,
    token: Token<'a>,
    depth: usize,
) -> Result<bool, Invalid>
    ensures value { MatchResult result
        (λ entered. MatchBool entered (token_of token.entry ∷ reader.old ≡ begin_object ∷ reader.new) (parse_map as_object (data_at depth (token_of token.entry ∷ reader.old)) ≡ Some (None, reader.new)))
        (λ _. data_at depth (token_of token.entry ∷ reader.old) ≡ None) }
    ensures shorter { OnOk result (length reader.new ≤ length reader.old) }
{
    if let Token::BeginObject = token {
        return Ok(true);
    }
    read_rest(reader, token, depth)?;
    Ok(false)
}

/// The value at the front. Lists and objects may nest so deep.
#[cycle(read)]
#[inline(always)]
pub(crate) fn read_field<'a>(reader: &mut Reader<'a>, depth: usize) -> Result<Field<'a>, Invalid>
    ensures value { MatchResult result (λ field. parse_map plain (data_at depth reader.old) ≡ Some (data_of field, reader.new)) (λ _. data_at depth reader.old ≡ None) }
    ensures shorter { OnOk result (length reader.new < length reader.old) }
{
    let token = reader.next().ok_or(Invalid)?;
    read_rest(reader, token, depth)
}

/// The value that begins with this token, which was read.
#[cycle(read)]
#[inline(always)]
fn read_rest<'a>(
    reader: &mut Reader<'a>,
    token: Token<'a>,
    depth: usize,
) -> Result<Field<'a>, Invalid>
    ensures value { MatchResult result (λ field. parse_map plain (data_at depth (token_of token.entry ∷ reader.old)) ≡ Some (data_of field, reader.new)) (λ _. data_at depth (token_of token.entry ∷ reader.old) ≡ None) }
    ensures shorter { OnOk result (length reader.new ≤ length reader.old) }
{
    match token {
        Token::String(text) => Ok(Field::Text(text.as_bytes())),
        Token::Number(text) => number_field(text).ok_or(Invalid),
        Token::Bool(flag) => Ok(Field::Flag(flag)),
        Token::Null => Ok(Field::Other),
        Token::BeginArray => {
            if depth == 0 {
                return Err(Invalid);
            }
            pass_items(reader, depth - 1)?;
            Ok(Field::Other)
        }
        Token::BeginObject => {
            if depth == 0 {
                return Err(Invalid);
            }
            pass_members(reader, depth - 1)?;
            Ok(Field::Other)
        }
        Token::EndObject | Token::EndArray | Token::Key(_) | Token::Bad => Err(Invalid),
    }
}

/// Passes the items from behind a bracket on.
#[cycle(read)]
#[inline(never)]
fn pass_items(reader: &mut Reader<'_>, depth: usize) -> Result<(), Invalid>
    ensures value { MatchResult result (λ _. behind (items_at depth reader.old) ≡ Some reader.new) (λ _. items_at depth reader.old ≡ None) }
    ensures shorter { OnOk result (length reader.new ≤ length reader.old) }
{
    'items: while !reader.take_end_array() {
        read_field(reader, depth)?;
    }
    Ok(())
}

/// Passes the members from behind a brace on.
#[cycle(read)]
#[inline(never)]
fn pass_members(reader: &mut Reader<'_>, depth: usize) -> Result<(), Invalid>
    ensures value { MatchResult result (λ _. behind (members_at depth reader.old) ≡ Some reader.new) (λ _. members_at depth reader.old ≡ None) }
    ensures shorter { OnOk result (length reader.new ≤ length reader.old) }
{
    'members: while let Some(_) = reader.next_key()? {
        read_field(reader, depth)?;
    }
    Ok(())
}

/// The number of a text; None where no float holds it.
fn number_field<'a>(text: &str) -> Option<Field<'a>>
    ensures { option_map data_of result ≡ option_map (λ n. plain (number n)) (number_of text.now) }
{
    let bytes = text.as_bytes();
    if let Some(number) = number(bytes) {
        return Some(Field::Number(number));
    }
    if has_minus(bytes) {
        negative_field(&Numeral::scan(&bytes[1..]))
    } else {
        whole_field(&Numeral::scan(bytes))
    }
}

fn has_minus(bytes: &[u8]) -> bool
    ensures value { result ≡ (slice_index bytes.now 0 == 45) }
    ensures some { IsTrue result → 0 < length bytes.now }
{
    !bytes.is_empty() && bytes[0] == b'-'
}

fn whole_field<'a>(numeral: &Numeral<'_>) -> Option<Field<'a>>
    ensures { option_map data_of result ≡ option_map (λ n. plain (number n)) (number_from false numeral.now) }
{
    match numeral.to_u64() {
        Some(number) => Some(Field::Number(number)),
        None => float_field(false, numeral),
    }
}

fn negative_field<'a>(numeral: &Numeral<'_>) -> Option<Field<'a>>
    ensures { option_map data_of result ≡ option_map (λ n. plain (number n)) (number_from true numeral.now) }
{
    if let Some(number) = numeral.to_i64(true) {
        if number < 0 {
            return Some(Field::Other);
        }
    }
    float_field(true, numeral)
}

fn float_field<'a>(negative: bool, numeral: &Numeral<'_>) -> Option<Field<'a>>
    ensures { option_map data_of result ≡ option_map (λ n. plain (number n)) (float_of negative numeral.now) }
{
    let float: f64 = numeral.to_float(negative);
    if float.is_finite() {
        Some(Field::Other)
    } else {
        None
    }
}
