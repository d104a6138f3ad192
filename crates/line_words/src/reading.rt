ghost use Rattle.std.specs.Prelude.{◌≡◌, ◌<◌, ◌≤◌, ◌+◌, ◌-◌, ◌*◌, ◌^◌, MatchOption, IfSome, Some, None, if◌then◌else◌, ◌∷◌, [], bytes_eq, length};
ghost use Rattle.line_words.specs.declared.reading.TheConstants.{SAFE_DIGITS};
ghost use Rattle.line_words.specs.Words.{first_word, is_digit, number_of, value_from, with_digit, words_of, CutsWord};

use crate::places::first_place;

/// So many digits always write a number below 2^64.
const SAFE_DIGITS: usize = 19;

/// The first word of a line and what stands behind the space after it, if there is one. Single spaces part words: a space at an end, or
/// a second one, has an empty word beside it.
#[inline]
pub fn cut_word(line: &[u8]) -> Option<(&[u8], &[u8])>
    // Promise: The first word of a line ends before the first space, and the further words stand behind it; a second space, or one
    // at an end, has an empty word beside it; without a space a line is one word.
    // Refuses: tabs_part_words, space_kept.
    ensures { MatchOption result (words_of line.now ≡ line.now ∷ []) (λ cut. CutsWord line.now cut.0.now cut.1.now) }
{
    let end = first_place(b' ', line)?;
    Some((&line[..end], &line[end + 1..]))
}

/// The first word of a line.
pub fn first_word(line: &[u8]) -> &[u8]
    ensures { result.now ≡ first_word (words_of line.now) }
{
    match cut_word(line) {
        Some((word, _)) => word,
        None => line,
    }
}

/// The number that a word spells in decimal, with no sign and no zero in front of other digits.
pub fn number(word: &[u8]) -> Option<u64>
    // Promise: A word is a number exactly where it is decimal digits alone, without a zero in front of others, of a value below
    // 2^64; it is that value.
    // Refuses: leading_zero_taken.
    ensures { result ≡ number_of word.now }
{
    match word {
        [] | [b'0', _, ..] => None,
        _ => value(word),
    }
}

/// The number of these digits; none have the value 0.
fn value(digits: &[u8]) -> Option<u64>
    ensures { result ≡ value_from digits.now 0 }
{
    if digits.len() <= SAFE_DIGITS {
        return short_value(digits);
    }
    let mut value = 0u64;
    for digit in digits {
        value = with(value, *digit)?;
    }
    Some(value)
}

/// The same for so few digits that no sum passes the greatest number.
fn short_value(digits: &[u8]) -> Option<u64>
    requires { length digits.now ≤ SAFE_DIGITS }
    ensures { result ≡ value_from digits.now 0 }
{
    let mut value = 0u64;
    for digit in digits {
        value = with_safe(value, *digit)?;
    }
    Some(value)
}

/// A number with one digit more behind it.
fn with(number: u64, digit: u8) -> Option<u64>
    ensures { result ≡ with_digit number digit }
{
    number.checked_mul(10)?.checked_add(unit(digit)?)
}

/// The same for a number that has less than the most safe digits.
fn with_safe(number: u64, digit: u8) -> Option<u64>
    requires { number < 10 ^ 18 }
    ensures value { result ≡ with_digit number digit }
    ensures bound { IfSome result (λ more. more < 10 * (number + 1)) }
{
    Some(10 * number + unit(digit)?)
}

/// What a digit counts.
fn unit(digit: u8) -> Option<u64>
    ensures { result ≡ (if is_digit digit then Some (digit - 48) else None) }
{
    match digit {
        b'0'..=b'9' => Some(u64::from(digit - b'0')),
        _ => None,
    }
}

/// Whether a word is this name.
#[inline]
pub fn is_word(word: &[u8], name: &str) -> bool
    // Promise: A word is a name exactly where its bytes are the name's.
    // Refuses: first_letter_ignored.
    ensures { result ≡ bytes_eq word.now name.now }
{
    let name = name.as_bytes();
    if word.len() != name.len() {
        return false;
    }
    let mut place = 0;
    while place < name.len() {
        if word[place] != name[place] {
            return false;
        }
        place += 1;
    }
    true
}
