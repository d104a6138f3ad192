ghost use Rattle.std.specs.Prelude.{◌≡◌, ◌*◌, ◌<◌, length, false, true, IfSome, MatchOption, Ok, Some};
ghost use Rattle.std.specs.List.{list_all};
ghost use Rattle.std.specs.Result.{result_ok};
ghost use Rattle.hex.specs.Hex.{decode_pairs, hex_digit_value, is_hex_digit};

// Fewer digits than this are looked up one by one.
const FEW: usize = 64;

// What each byte is worth as a hex digit of either case, and 255 where it is none
#[rattlefmt::skip]
static VALUES: [u8; 256] = [
    255, 255, 255, 255, 255, 255, 255, 255, 255, 255, 255, 255, 255, 255, 255, 255,
    255, 255, 255, 255, 255, 255, 255, 255, 255, 255, 255, 255, 255, 255, 255, 255,
    255, 255, 255, 255, 255, 255, 255, 255, 255, 255, 255, 255, 255, 255, 255, 255,
    0, 1, 2, 3, 4, 5, 6, 7, 8, 9, 255, 255, 255, 255, 255, 255,
    255, 10, 11, 12, 13, 14, 15, 255, 255, 255, 255, 255, 255, 255, 255, 255,
    255, 255, 255, 255, 255, 255, 255, 255, 255, 255, 255, 255, 255, 255, 255, 255,
    255, 10, 11, 12, 13, 14, 15, 255, 255, 255, 255, 255, 255, 255, 255, 255,
    255, 255, 255, 255, 255, 255, 255, 255, 255, 255, 255, 255, 255, 255, 255, 255,
    255, 255, 255, 255, 255, 255, 255, 255, 255, 255, 255, 255, 255, 255, 255, 255,
    255, 255, 255, 255, 255, 255, 255, 255, 255, 255, 255, 255, 255, 255, 255, 255,
    255, 255, 255, 255, 255, 255, 255, 255, 255, 255, 255, 255, 255, 255, 255, 255,
    255, 255, 255, 255, 255, 255, 255, 255, 255, 255, 255, 255, 255, 255, 255, 255,
    255, 255, 255, 255, 255, 255, 255, 255, 255, 255, 255, 255, 255, 255, 255, 255,
    255, 255, 255, 255, 255, 255, 255, 255, 255, 255, 255, 255, 255, 255, 255, 255,
    255, 255, 255, 255, 255, 255, 255, 255, 255, 255, 255, 255, 255, 255, 255, 255,
    255, 255, 255, 255, 255, 255, 255, 255, 255, 255, 255, 255, 255, 255, 255, 255,
];

/// Writes the bytes that pairs of digits spell. False says that there is another byte among them. Of what is written then nothing is known.
pub fn decode_pairs(digits: &[u8], out: &mut [u8]) -> bool
    requires room { length digits.now ≡ 2 * length out.old }
    // Promise: Pairs of hex digits of either case are read into bytes that are there; false exactly where a byte among them is no digit.
    // Refuses: eighth_pair_refused, digit_of_15_refused.
    ensures { MatchOption (result_ok (decode_pairs 0 digits.now)) (result ≡ false) (λ bytes. (result ≡ true) × (out.new ≡ bytes)) }
{
    if digits.len() < FEW {
        return decode_few(digits, out);
    }
    if !are_digits(digits) {
        return false;
    }
    write_pairs(digits, out);
    true
}

/// So few digits are looked up one by one: a loop that looks at many at once takes longer to begin.
fn decode_few(digits: &[u8], out: &mut [u8]) -> bool
    requires room { length digits.now ≡ 2 * length out.old }
    ensures { MatchOption (result_ok (decode_pairs 0 digits.now)) (result ≡ false) (λ bytes. (result ≡ true) × (out.new ≡ bytes)) }
{
    for place in 0..out.len() {
        let Some(high) = digit(digits[2 * place]) else {
            return false;
        };
        let Some(low) = digit(digits[2 * place + 1]) else {
            return false;
        };
        out[place] = high * 16 + low;
    }
    true
}

/// The value of a digit, looked up.
#[inline(always)]
fn digit(byte: u8) -> Option<u8>
    ensures value { result ≡ hex_digit_value byte }
    ensures small { IfSome result (λ value. value < 16) }
{
    let value = VALUES[usize::from(byte)];
    if value < 16 { Some(value) } else { None }
}

/// Every byte is looked at, also where one is no digit, so that many can be at once.
fn are_digits(bytes: &[u8]) -> bool
    ensures { result ≡ list_all is_hex_digit bytes.now }
{
    let mut all = true;
    for byte in bytes {
        all &= is_digit(*byte);
    }
    all
}

/// The bit of 32 is the case of a letter: with it, one test is enough for both.
#[inline]
fn is_digit(byte: u8) -> bool
    ensures { result ≡ is_hex_digit byte }
{
    byte.wrapping_sub(b'0') < 10 || (byte | 32).wrapping_sub(b'a') < 6
}

fn write_pairs(digits: &[u8], out: &mut [u8])
    requires digits { list_all is_hex_digit digits.now ≡ true }
    requires room { length digits.now ≡ 2 * length out.old }
    ensures { decode_pairs 0 digits.now ≡ Ok out.new }
{
    for place in 0..out.len() {
        out[place] = value_of(digits[2 * place]) * 16 + value_of(digits[2 * place + 1]);
    }
}

/// The value of a hex digit. A letter of either case ends in its place among the letters.
#[inline]
fn value_of(digit: u8) -> u8
    requires { is_hex_digit digit ≡ true }
    ensures value { hex_digit_value digit ≡ Some result }
    ensures small { result < 16 }
{
    digit % 16 + 9 * (digit / 64)
}
