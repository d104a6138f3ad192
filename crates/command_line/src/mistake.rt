ghost use Rattle.std.specs.Prelude.{◌≡◌};
ghost use Rattle.clap.specs.Words.{first_value, found_of};
ghost use Rattle.command_line.specs.Mistakes.{mistake_by, mistake_in_format, mistake_in_leases};

use crate::asking::{is, is_set, machine, place, round_trip, stride};
use crate::invocation::MOST_ROUND_TRIP;
use clap::ArgMatches;
use disk_layout::{LEAST_SLOTS, MOST_SLOTS};
use group_task::NODES;
use line_words::number;
use std::fmt;
use std::fmt::{Display, Formatter};

/// Which argument of a command is out of its range.
#[derive(Clone, Copy, Debug, PartialEq, Eq)]
pub enum Mistake {
    Place,
    /// That of a file of leases.
    Machine,
    Slots,
    First,
    Stride,
    RoundTrip,
    /// A key without the name of a cluster, or the other way round.
    Sealing,
}

/// What is wrong with the arguments of the command of this name, where it asks for nothing.
pub fn mistake_in(name: &str, words: &ArgMatches<'_>) -> Mistake
    ensures { result ≡ mistake_by name.now (λ id. first_value (found_of words.now) id) }
{
    if is_set(words, "lease") {
        mistake_in_leases(words)
    } else if place(words).is_none() {
        Mistake::Place
    } else if is(name, "format") {
        mistake_in_format(words)
    } else if round_trip(words).is_none() {
        Mistake::RoundTrip
    } else {
        Mistake::Sealing
    }
}

fn mistake_in_leases(words: &ArgMatches<'_>) -> Mistake
    ensures { result ≡ mistake_in_leases (λ id. first_value (found_of words.now) id) }
{
    if machine(words).is_none() {
        Mistake::Machine
    } else {
        Mistake::First
    }
}

fn mistake_in_format(words: &ArgMatches<'_>) -> Mistake
    ensures { result ≡ mistake_in_format (λ id. first_value (found_of words.now) id) }
{
    let slots = match words.get_str("SLOTS") {
        Some(word) => number(word.as_bytes()),
        None => None,
    };
    match slots {
        Some(slots) if LEAST_SLOTS <= slots && slots <= MOST_SLOTS => {}
        _ => return Mistake::Slots,
    }
    if stride(words).is_none() {
        Mistake::Stride
    } else {
        Mistake::First
    }
}

/// What a person reads of it.
impl Display for Mistake {
    ghost use Rattle.std.specs.Prelude.{Some};
    ghost use Rattle.command_line.specs.Mistakes.{mistake_text};

    ghost output = { λ mistake. Some (mistake_text mistake) };

    fn fmt<W: fmt::Write>(&self, f: &mut Formatter<W>) -> fmt::Result {
        match self {
            Mistake::Place => write!(
                f,
                "SELF and NODES are decimal numbers, NODES from 1 to {NODES}, and SELF is below NODES"
            ),
            Mistake::Machine => write!(f, "SELF is a decimal number below {NODES}"),
            Mistake::Slots => write!(
                f,
                "SLOTS is a decimal number from {LEAST_SLOTS} to {MOST_SLOTS}"
            ),
            Mistake::First => f.write_str("FIRST is a decimal number below 2^64"),
            Mistake::Stride => f.write_str("the stride is 512 or 4096"),
            Mistake::RoundTrip => write!(
                f,
                "ROUND_TRIP_MS is a decimal number from 1 to {MOST_ROUND_TRIP}"
            ),
            Mistake::Sealing => f.write_str("--key and --cluster are given together"),
        }
    }
}
