// What a line asks for.
ghost use Rattle.std.specs.Prelude.{◌≡◌};
ghost use Rattle.std.specs.List.{list_all};
ghost use Rattle.line_words.specs.Words.{words_of};
ghost use Rattle.lease_session.specs.Reading.{is_printable, meaning_of, meaning_words, meant, name_of, one_field, three_fields, two_fields, user_asks};

use lease_message::{LeaseMessage, LeaseName};
use line_words::{cut_word, is_word, number};

/// What a line asks for, and the time that it tells, in milliseconds of the machine's clock.
#[derive(Clone, Copy, Debug)]
pub(crate) enum Asked<'a> {
    /// The line can't be read.
    Bad,
    Tick(u64),
    /// A message came: the word that has its bytes.
    Deliver(u64, &'a [u8]),
    /// The user of this number asks for the lease of a name.
    Acquire(u64, LeaseName, u64),
    /// And asks no more.
    Release(u64, LeaseName, u64),
}

/// What came, behind the time of its line.
#[derive(Clone, Copy, Debug)]
pub(crate) enum Came {
    Nothing,
    Message(LeaseMessage),
    Unsealed(crate::refusing::Refusal),
    Acquire(LeaseName, u64),
    Release(LeaseName, u64),
}

/// What a line asks for.
#[tactic(auto, using(crate::proofs::Reading::too_many))]
pub(crate) fn read_line(line: &[u8]) -> Asked<'_>
    ensures { meant result ≡ meaning_of line.now }
{
    let Some((name, fields)) = cut_word(line) else {
        return Asked::Bad;
    };
    let Some((time, more)) = cut_word(fields) else {
        return one_field(name, fields);
    };
    let Some((second, third)) = cut_word(more) else {
        return two_fields(name, time, more);
    };
    match cut_word(third) {
        None => three_fields(name, time, second, third),
        Some(_) => Asked::Bad,
    }
}

fn one_field<'a>(name: &[u8], time: &[u8]) -> Asked<'a>
    ensures { meant result ≡ one_field name.now time.now }
{
    if !is_word(name, "tick") {
        return Asked::Bad;
    }
    match number(time) {
        Some(now) => Asked::Tick(now),
        None => Asked::Bad,
    }
}

fn two_fields<'a>(name: &[u8], time: &[u8], word: &'a [u8]) -> Asked<'a>
    ensures { meant result ≡ two_fields name.now time.now word.now }
{
    if !is_word(name, "deliver") {
        return Asked::Bad;
    }
    match number(time) {
        Some(now) => Asked::Deliver(now, word),
        None => Asked::Bad,
    }
}

fn three_fields<'a>(name: &[u8], time: &[u8], lease: &[u8], user: &[u8]) -> Asked<'a>
    ensures { meant result ≡ three_fields name.now time.now lease.now user.now }
{
    match (number(time), lease_name(lease), number(user)) {
        (Some(now), Some(lease), Some(user)) => user_asks(name, now, lease, user),
        _ => Asked::Bad,
    }
}

fn user_asks<'a>(name: &[u8], now: u64, lease: LeaseName, user: u64) -> Asked<'a>
    ensures { meant result ≡ user_asks name.now now lease user }
{
    if is_word(name, "acquire") {
        Asked::Acquire(now, lease, user)
    } else if is_word(name, "release") {
        Asked::Release(now, lease, user)
    } else {
        Asked::Bad
    }
}

/// The name that a word is: 1 to 64 printable letters of ASCII.
fn lease_name(word: &[u8]) -> Option<LeaseName>
    ensures { result ≡ name_of word.now }
{
    if !is_printable(word) {
        return None;
    }
    LeaseName::new(word)
}

fn is_printable(word: &[u8]) -> bool
    ensures { result ≡ list_all is_printable word.now }
{
    let mut all = true;
    for letter in word {
        all &= is_letter(*letter);
    }
    all
}

#[inline]
fn is_letter(byte: u8) -> bool
    ensures { result ≡ is_printable byte }
{
    b'!' <= byte && byte <= b'~'
}
