//! The words that texts are made of, each added to what stands there.

ghost use Rattle.std.specs.Prelude.{◌≡◌, ◌<◌, ◌≤◌, ◌*◌, ◌++◌, OnOk, decimal, length};
ghost use Rattle.hex.specs.Hex.{encode_lower};
ghost use Rattle.console_text.specs.declared.words.TheConstants.{SHORT_DIGITS};
ghost use Rattle.console_text.specs.Words.{ArePairs, bytes_text, pair_of, priority_text, work_text};

use itoa::Buffer;
use std::alloc::AllocError;

/// Adds the letters of a word.
#[inline]
pub fn push_text(text: &mut Vec<u8>, word: &str) -> Result<(), AllocError>
    ensures { OnOk result (text.new.items ≡ text.old.items ++ word.now) }
{
    match word.as_bytes() {
        [byte] => text.push(*byte)?,
        letters => text.extend_from_slice(letters)?,
    }
    Ok(())
}

/// So many bytes are made room for at once where a short number is added.
const SHORT_DIGITS: usize = 8;

/// Adds a number in decimal.
pub fn push_number(text: &mut Vec<u8>, number: u64) -> Result<(), AllocError>
    ensures { OnOk result (text.new.items ≡ text.old.items ++ decimal number) }
{
    if number < 100_000_000 && SHORT_DIGITS <= text.capacity() - text.len() {
        return push_short(text, number);
    }
    push_long(text, number)
}

/// Adds a short number: its digits are written where they are to stand.
#[inline]
fn push_short(text: &mut Vec<u8>, number: u64) -> Result<(), AllocError>
    requires { number < 100000000 }
    ensures { OnOk result (text.new.items ≡ text.old.items ++ decimal number) }
{
    let start = text.len();
    text.extend_from_slice(&[0; SHORT_DIGITS])?;
    let end = start + digits_of(number);
    itoa::write_digits(number, text, end);
    text.truncate(end);
    Ok(())
}

/// How many digits a short number has.
#[inline]
fn digits_of(number: u64) -> usize
    requires { number < 100000000 }
    ensures value { result ≡ length (decimal number) }
    ensures bound { result ≤ SHORT_DIGITS }
{
    if number < 10_000 {
        if number < 100 {
            return if number < 10 { 1 } else { 2 };
        }
        return if number < 1_000 { 3 } else { 4 };
    }
    if number < 1_000_000 {
        return if number < 100_000 { 5 } else { 6 };
    }
    if number < 10_000_000 { 7 } else { 8 }
}

#[inline(never)]
fn push_long(text: &mut Vec<u8>, number: u64) -> Result<(), AllocError>
    ensures { OnOk result (text.new.items ≡ text.old.items ++ decimal number) }
{
    let mut digits = Buffer::new();
    push_text(text, digits.format(number))
}

/// Adds a name, and behind it a number.
pub fn push_named_number(text: &mut Vec<u8>, name: &str, number: u64) -> Result<(), AllocError>
    ensures { OnOk result (text.new.items ≡ text.old.items ++ (name.now ++ decimal number)) }
{
    push_text(text, name)?;
    push_number(text, number)
}

/// The two hex digits of each byte, in the order of the bytes.
const PAIRS: [u8; 512] = *b"000102030405060708090a0b0c0d0e0f101112131415161718191a1b1c1d1e1f\
    202122232425262728292a2b2c2d2e2f303132333435363738393a3b3c3d3e3f\
    404142434445464748494a4b4c4d4e4f505152535455565758595a5b5c5d5e5f\
    606162636465666768696a6b6c6d6e6f707172737475767778797a7b7c7d7e7f\
    808182838485868788898a8b8c8d8e8f909192939495969798999a9b9c9d9e9f\
    a0a1a2a3a4a5a6a7a8a9aaabacadaeafb0b1b2b3b4b5b6b7b8b9babbbcbdbebf\
    c0c1c2c3c4c5c6c7c8c9cacbcccdcecfd0d1d2d3d4d5d6d7d8d9dadbdcdddedf\
    e0e1e2e3e4e5e6e7e8e9eaebecedeeeff0f1f2f3f4f5f6f7f8f9fafbfcfdfeff";

/// The two hex digits of a byte.
#[inline]
fn pair_of(byte: u8) -> [u8; 2]
    ensures { result ≡ pair_of byte }
{
    pair_in(&PAIRS, byte)
}

#[inline]
fn pair_in(pairs: &[u8; 512], byte: u8) -> [u8; 2]
    requires { ArePairs pairs.now }
    ensures { result ≡ pair_of byte }
{
    let place = 2 * usize::from(byte);
    [pairs[place], pairs[place + 1]]
}

fn write_digits(bytes: &[u8], digits: &mut [u8])
    requires room { length digits.old ≡ 2 * length bytes.now }
    ensures { digits.new ≡ encode_lower bytes.now }
{
    for place in 0..bytes.len() {
        let [high, low] = pair_of(bytes[place]);
        digits[2 * place] = high;
        digits[2 * place + 1] = low;
    }
}

/// So many bytes are made room for at once where few bytes are added.
const SHORT_HEX: usize = 48;

/// Adds bytes in hex digits.
pub fn push_hex(text: &mut Vec<u8>, bytes: &[u8]) -> Result<(), AllocError>
    ensures { OnOk result (text.new.items ≡ text.old.items ++ encode_lower bytes.now) }
{
    if bytes.len() <= SHORT_HEX / 2 && SHORT_HEX <= text.capacity() - text.len() {
        return push_short_hex(text, bytes);
    }
    push_long_hex(text, bytes)
}

/// Adds few bytes: their digits are written where they are to stand.
#[inline]
fn push_short_hex(text: &mut Vec<u8>, bytes: &[u8]) -> Result<(), AllocError>
    requires { length bytes.now ≤ 24 }
    ensures { OnOk result (text.new.items ≡ text.old.items ++ encode_lower bytes.now) }
{
    let start = text.len();
    text.extend_from_slice(&[0; SHORT_HEX])?;
    let end = start + 2 * bytes.len();
    write_digits(bytes, &mut text[start..end]);
    text.truncate(end);
    Ok(())
}

#[inline(never)]
fn push_long_hex(text: &mut Vec<u8>, bytes: &[u8]) -> Result<(), AllocError>
    ensures { OnOk result (text.new.items ≡ text.old.items ++ encode_lower bytes.now) }
{
    let start = text.len();
    let Some(count) = bytes.len().checked_mul(2) else {
        return Err(AllocError);
    };
    let Some(end) = start.checked_add(count) else {
        return Err(AllocError);
    };
    text.resize(end, 0)?;
    write_digits(bytes, &mut text[start..]);
    Ok(())
}

/// Adds bytes as a word, where a dash stands for none.
pub fn push_bytes_text(text: &mut Vec<u8>, bytes: &[u8]) -> Result<(), AllocError>
    ensures { OnOk result (text.new.items ≡ text.old.items ++ bytes_text bytes.now) }
{
    match bytes {
        [] => push_text(text, "-"),
        _ => push_hex(text, bytes),
    }
}

/// Adds the words of a job: its queue, its payload, and its priority, which is left out where it is 0.
pub fn push_work(
    text: &mut Vec<u8>,
    queue: u8,
    payload: &[u8],
    priority: u8,
) -> Result<(), AllocError>
    ensures { OnOk result (text.new.items ≡ text.old.items ++ work_text queue payload.now priority) }
{
    push_number(text, u64::from(queue))?;
    push_text(text, " ")?;
    push_bytes_text(text, payload)?;
    push_priority(text, priority)
}

fn push_priority(text: &mut Vec<u8>, priority: u8) -> Result<(), AllocError>
    ensures { OnOk result (text.new.items ≡ text.old.items ++ priority_text priority) }
{
    if priority == 0 {
        return Ok(());
    }
    push_text(text, " ")?;
    push_number(text, u64::from(priority))
}
