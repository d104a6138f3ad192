// From the words of the command line to what they ask for.
ghost use Rattle.std.specs.Prelude.{◌≡◌, IfOk, Some, bytes_eq, codes, map, option_map, string_bytes};
ghost use Rattle.clap.specs.Words.{first_value, found_of};
ghost use Rattle.command_line.specs.Asked.{answers, asked, asked_by, exports, format_leases_of, format_of, first_of, inspects, is_ongoing, is_ordered, is_set, keyed_by, lease_of, life_of, machine_of, made, making_of, node_of, number_in, placed, place_of, round_trip_of, sealed, sealed_by, stores, stride_of, trace_of, values_of};

use crate::invocation::{
    Batch, Invocation, MOST_ROUND_TRIP, Making, NodePlace, ROUND_TRIP, Sealing,
};
use clap::ArgMatches;
use disk_layout::{LEAST_SLOTS, MOST_SLOTS};
use file_disk::Stride;
use group_task::{NODES, NodeId};
use invite_console::Details;
use line_words::{bytes, number};
use sealed_msg::LIFE;
use std::alloc::{AllocError, Global};
use store_console::Shown;
use threads_console::TraceKind;
use trace_console::Stage;

/// What the command of this name asks for, with these arguments. None where a number is out of its range.
pub fn invocation(
    alloc: Global,
    name: &str,
    words: &ArgMatches<'_>,
) -> Result<Option<Invocation>, AllocError>
    // Promise: The command that is run is the one that was named, with its arguments as numbers, and the exit status is that of its
    // ending.
    // Also: perform.
    // Refuses: one_command_for_another, sim_shows, every_status_zero, turns_passed_over, files_passed_over, inspected_without_verifying.
    ensures { IfOk result (λ invocation. option_map asked invocation ≡ asked_by name.now (λ id. first_value (found_of words.now) id) (λ id. values_of (found_of words.now) id)) }
{
    if is(name, "answer") {
        Ok(answer(words))
    } else if is(name, "show") {
        Ok(Some(Invocation::Batch(Batch::Show)))
    } else if is(name, "sim") {
        Ok(Some(Invocation::Batch(Batch::Sim(sim_details(words)))))
    } else if is(name, "store") {
        store(alloc, words)
    } else if is(name, "trace") {
        trace(alloc, words)
    } else if is(name, "judge") {
        Ok(Some(Invocation::Judge))
    } else if is(name, "record") {
        Ok(Some(Invocation::Batch(Batch::Record)))
    } else if is(name, "threads") {
        Ok(Some(Invocation::Batch(Batch::Threads(trace_kind(words)))))
    } else if is(name, "format") {
        format(alloc, words)
    } else if is(name, "node") {
        node(alloc, words)
    } else if is(name, "lease") {
        lease(alloc, words)
    } else if is(name, "inspect") {
        inspect(alloc, words)
    } else if is(name, "export") {
        export(alloc, words)
    } else {
        Ok(None)
    }
}

fn answer(words: &ArgMatches<'_>) -> Option<Invocation>
    ensures { option_map asked result ≡ option_map answers (place_of (λ id. first_value (found_of words.now) id)) }
{
    Some(Invocation::Batch(Batch::Answer(place(words)?)))
}

fn sim_details(words: &ArgMatches<'_>) -> Details
    ensures names { result.names ≡ is_set (first_value (found_of words.now) (codes "names")) }
    ensures nodes { result.nodes ≡ is_set (first_value (found_of words.now) (codes "nodes")) }
{
    Details {
        names: is_set(words, "names"),
        nodes: is_set(words, "nodes"),
    }
}

/// The turns of the run of standard input, its entries that can't be by themselves, or the verdict on the run of the files that are named, or of standard input where none is.
fn trace(alloc: Global, words: &ArgMatches<'_>) -> Result<Option<Invocation>, AllocError>
    ensures { IfOk result (λ invocation. option_map asked invocation
        ≡ Some (trace_of (λ id. first_value (found_of words.now) id) (λ id. values_of (found_of words.now) id))) }
{
    if is_set(words, "turns") {
        return Ok(Some(Invocation::Batch(Batch::Turns)));
    }
    if is_set(words, "core") {
        return Ok(Some(Invocation::Batch(Batch::Contradiction)));
    }
    let stage = stage(words);
    let files = files(alloc, words)?;
    if files.is_empty() {
        return Ok(Some(Invocation::Batch(Batch::Trace(stage))));
    }
    Ok(Some(Invocation::Trace(stage, files)))
}

/// The files that are named.
fn files(alloc: Global, words: &ArgMatches<'_>) -> Result<Vec<String>, AllocError>
    ensures { IfOk result (λ files. map string_bytes files.items ≡ values_of (found_of words.now) (codes "FILE")) }
{
    match words.get_strs("FILE") {
        Some(named) => texts_of(alloc, named),
        None => Ok(Vec::new(alloc)),
    }
}

fn texts_of(alloc: Global, words: &[&str]) -> Result<Vec<String>, AllocError>
    ensures { IfOk result (λ texts. map string_bytes texts.items ≡ map (λ word. word.now) words.now) }
{
    let mut texts = Vec::new(alloc);
    for word in words {
        texts.push(String::from_str(alloc, word)?)?;
    }
    Ok(texts)
}

/// Whether the run that is judged is over.
fn stage(words: &ArgMatches<'_>) -> Stage
    ensures { is_ongoing result ≡ is_set (first_value (found_of words.now) (codes "ongoing")) }
{
    if is_set(words, "ongoing") {
        Stage::Ongoing
    } else {
        Stage::Over
    }
}

/// Whether the order of a run is printed beside its trace.
fn trace_kind(words: &ArgMatches<'_>) -> TraceKind
    ensures { is_ordered result ≡ is_set (first_value (found_of words.now) (codes "order")) }
{
    if is_set(words, "order") {
        TraceKind::Ordered
    } else {
        TraceKind::Plain
    }
}

fn store(alloc: Global, words: &ArgMatches<'_>) -> Result<Option<Invocation>, AllocError>
    ensures { IfOk result (λ invocation. option_map asked invocation ≡ option_map stores (first_value (found_of words.now) (codes "PATH"))) }
{
    let Some(path) = words.get_str("PATH") else {
        return Ok(None);
    };
    Ok(Some(Invocation::Batch(Batch::Store(String::from_str(alloc, path)?))))
}

fn format(alloc: Global, words: &ArgMatches<'_>) -> Result<Option<Invocation>, AllocError>
    ensures { IfOk result (λ invocation. option_map asked invocation ≡ format_of (λ id. first_value (found_of words.now) id)) }
{
    if is_set(words, "lease") {
        return format_leases(alloc, words);
    }
    let (Some(path), Some(making)) = (words.get_str("FILE"), making(words)) else {
        return Ok(None);
    };
    let jobs = named(alloc, words, "jobs")?;
    let cluster = named(alloc, words, "cluster")?;
    Ok(Some(Invocation::Format(String::from_str(alloc, path)?, making, jobs, cluster)))
}

/// A file of leases: what stands at the place of SLOTS is its SELF, and behind it FIRST.
fn format_leases(alloc: Global, words: &ArgMatches<'_>) -> Result<Option<Invocation>, AllocError>
    ensures { IfOk result (λ invocation. option_map asked invocation ≡ format_leases_of (λ id. first_value (found_of words.now) id)) }
{
    let (Some(path), Some(machine)) = (words.get_str("FILE"), machine(words)) else {
        return Ok(None);
    };
    let Some(first) = lease_first(words) else {
        return Ok(None);
    };
    Ok(Some(Invocation::FormatLeases(String::from_str(alloc, path)?, machine, first)))
}

/// The machine that the word at the place of SLOTS names.
pub(crate) fn machine(words: &ArgMatches<'_>) -> Option<NodeId>
    ensures { result ≡ machine_of (number_in (first_value (found_of words.now) (codes "SLOTS"))) }
{
    let machine = number(words.get_str("SLOTS")?.as_bytes())?;
    if u64::from(NODES) <= machine {
        return None;
    }
    Some(NodeId::numbered(machine as u8))
}

/// The number that the word at the place of SELF names, or 0.
fn lease_first(words: &ArgMatches<'_>) -> Option<u64>
    ensures { result ≡ first_of (first_value (found_of words.now) (codes "SELF")) }
{
    match words.get_str("SELF") {
        Some(word) => number(word.as_bytes()),
        None => Some(0),
    }
}

fn lease(alloc: Global, words: &ArgMatches<'_>) -> Result<Option<Invocation>, AllocError>
    ensures { IfOk result (λ invocation. option_map asked invocation ≡ lease_of (λ id. first_value (found_of words.now) id)) }
{
    let (Some(path), Some(place)) = (words.get_str("FILE"), place(words)) else {
        return Ok(None);
    };
    let Some(round_trip) = round_trip(words) else {
        return Ok(None);
    };
    let Some(sealing) = sealing(alloc, words)? else {
        return Ok(None);
    };
    let path = String::from_str(alloc, path)?;
    Ok(Some(Invocation::Lease(path, place, round_trip, sealing)))
}

/// The value of an option, where it was given.
fn named(alloc: Global, words: &ArgMatches<'_>, option: &str) -> Result<Option<String>, AllocError>
    ensures { IfOk result (λ value. option_map string_bytes value ≡ first_value (found_of words.now) option.now) }
{
    match words.get_str(option) {
        Some(value) => Ok(Some(String::from_str(alloc, value)?)),
        None => Ok(None),
    }
}

fn node(alloc: Global, words: &ArgMatches<'_>) -> Result<Option<Invocation>, AllocError>
    ensures { IfOk result (λ invocation. option_map asked invocation ≡ node_of (λ id. first_value (found_of words.now) id)) }
{
    let (Some(path), Some(place)) = (words.get_str("FILE"), place(words)) else {
        return Ok(None);
    };
    let Some(round_trip) = round_trip(words) else {
        return Ok(None);
    };
    let Some(sealing) = node_sealing(alloc, words)? else {
        return Ok(None);
    };
    let Some(life) = life(alloc, words)? else {
        return Ok(None);
    };
    let cluster = named(alloc, words, "cluster")?;
    let path = String::from_str(alloc, path)?;
    Ok(Some(Invocation::Node(path, place, round_trip, sealing, cluster, life)))
}

/// The life of the process, which is empty where it has none; None where it isn't one.
fn life(alloc: Global, words: &ArgMatches<'_>) -> Result<Option<Vec<u8>>, AllocError>
    ensures { IfOk result (λ life. option_map (λ life. life.items) life ≡ life_of (first_value (found_of words.now) (codes "life"))) }
{
    let Some(word) = words.get_str("life") else {
        return Ok(Some(Vec::new(alloc)));
    };
    match bytes(alloc, word.as_bytes())? {
        Some(life) if life.len() == LIFE => Ok(Some(life)),
        _ => Ok(None),
    }
}

/// A file of keys and the name of a cluster, or no keys; None where keys are given without a name.
fn node_sealing(
    alloc: Global,
    words: &ArgMatches<'_>,
) -> Result<Option<Option<Sealing>>, AllocError>
    ensures { IfOk result (λ given. option_map (λ s. option_map sealed s) given
        ≡ keyed_by (first_value (found_of words.now) (codes "key")) (first_value (found_of words.now) (codes "cluster"))) }
{
    match (words.get_str("key"), words.get_str("cluster")) {
        (None, _) => Ok(Some(None)),
        (Some(key), Some(cluster)) => Ok(Some(Some(sealing_by(alloc, key, cluster)?))),
        _ => Ok(None),
    }
}

/// A file of keys and the name of a cluster, or neither; None where one is given without the other.
fn sealing(alloc: Global, words: &ArgMatches<'_>) -> Result<Option<Option<Sealing>>, AllocError>
    ensures { IfOk result (λ given. option_map (λ s. option_map sealed s) given
        ≡ sealed_by (first_value (found_of words.now) (codes "key")) (first_value (found_of words.now) (codes "cluster"))) }
{
    match (words.get_str("key"), words.get_str("cluster")) {
        (None, None) => Ok(Some(None)),
        (Some(key), Some(cluster)) => Ok(Some(Some(sealing_by(alloc, key, cluster)?))),
        _ => Ok(None),
    }
}

fn sealing_by(alloc: Global, key: &str, cluster: &str) -> Result<Sealing, AllocError>
    ensures { IfOk result (λ sealing. sealed sealing ≡ record { key = key.now; cluster = cluster.now }) }
{
    let key = String::from_str(alloc, key)?;
    let cluster = String::from_str(alloc, cluster)?;
    Ok(Sealing { key, cluster })
}

/// What a round trip takes, in milliseconds.
pub(crate) fn round_trip(words: &ArgMatches<'_>) -> Option<u16>
    ensures { result ≡ round_trip_of (first_value (found_of words.now) (codes "ROUND_TRIP_MS")) }
{
    let Some(word) = words.get_str("ROUND_TRIP_MS") else {
        return Some(ROUND_TRIP);
    };
    let ms = number(word.as_bytes())?;
    if ms == 0 || u64::from(MOST_ROUND_TRIP) < ms {
        return None;
    }
    Some(ms as u16)
}

fn inspect(alloc: Global, words: &ArgMatches<'_>) -> Result<Option<Invocation>, AllocError>
    ensures { IfOk result (λ invocation. option_map asked invocation
        ≡ option_map (inspects (is_set (first_value (found_of words.now) (codes "verify")))) (first_value (found_of words.now) (codes "FILE"))) }
{
    let Some(path) = words.get_str("FILE") else {
        return Ok(None);
    };
    let path = String::from_str(alloc, path)?;
    if is_set(words, "verify") {
        return Ok(Some(Invocation::Look(path, Shown::Verified)));
    }
    Ok(Some(Invocation::Look(path, Shown::All)))
}

fn export(alloc: Global, words: &ArgMatches<'_>) -> Result<Option<Invocation>, AllocError>
    ensures { IfOk result (λ invocation. option_map asked invocation
        ≡ option_map (exports (is_set (first_value (found_of words.now) (codes "salvage")))) (first_value (found_of words.now) (codes "FILE"))) }
{
    let Some(path) = words.get_str("FILE") else {
        return Ok(None);
    };
    let path = String::from_str(alloc, path)?;
    if is_set(words, "salvage") {
        return Ok(Some(Invocation::Salvage(path)));
    }
    Ok(Some(Invocation::Look(path, Shown::Jobs)))
}

/// What FILE is made for, by SLOTS, SELF, NODES, FIRST and its stride.
fn making(words: &ArgMatches<'_>) -> Option<Making>
    ensures { option_map made result ≡ making_of (λ id. first_value (found_of words.now) id) }
{
    let place = place(words)?;
    let slots = number(words.get_str("SLOTS")?.as_bytes())?;
    let first = match words.get_str("FIRST") {
        Some(word) => number(word.as_bytes())?,
        None => 0,
    };
    let stride = stride(words)?;
    if slots < LEAST_SLOTS || MOST_SLOTS < slots {
        return None;
    }
    Some(Making {
        place,
        slots,
        first,
        stride,
    })
}

/// How many bytes of a file there are for each sector.
pub(crate) fn stride(words: &ArgMatches<'_>) -> Option<Stride>
    ensures { result ≡ stride_of (first_value (found_of words.now) (codes "stride")) }
{
    let Some(word) = words.get_str("stride") else {
        return Some(Stride::Packed);
    };
    match number(word.as_bytes())? {
        512 => Some(Stride::Packed),
        4096 => Some(Stride::Spaced),
        _ => None,
    }
}

/// The node that SELF and NODES name.
pub(crate) fn place(words: &ArgMatches<'_>) -> Option<NodePlace>
    ensures { option_map placed result ≡ place_of (λ id. first_value (found_of words.now) id) }
{
    let id = number(words.get_str("SELF")?.as_bytes())?;
    let nodes = number(words.get_str("NODES")?.as_bytes())?;
    if u64::from(NODES) < nodes || nodes <= id {
        return None;
    }
    Some(NodePlace {
        id: NodeId::numbered(id as u8),
        nodes: nodes as u8,
    })
}

/// Whether an option without a value was given.
pub(crate) fn is_set(words: &ArgMatches<'_>, option: &str) -> bool
    ensures { result ≡ is_set (first_value (found_of words.now) option.now) }
{
    match words.get_str(option) {
        Some(word) => is(word, "true"),
        None => false,
    }
}

/// Whether a word is this name.
pub(crate) fn is(word: &str, name: &str) -> bool
    ensures { result ≡ bytes_eq word.now name.now }
{
    word.as_bytes() == name.as_bytes()
}
