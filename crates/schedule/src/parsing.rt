ghost use Rattle.std.specs.Prelude.{◌≡◌, IfOk, IfSome, Some};
ghost use Rattle.line_words.specs.Words.{words_of};
ghost use Rattle.schedule.specs.Acts.{act_of, act_with, short_act, middle_act, long_act, longest_act, submit_act};
ghost use Rattle.schedule.specs.declared.act.Act.TheVariants.{Deliver};
ghost use Rattle.schedule.specs.declared.verb.Verb.TheVariants.{Cut, Mend, Arm, Crash, Finish};

use crate::act::{Act, Submitted};
use crate::fields::{new_job, node, priority};
use crate::verb::Verb;
use line_words::{bytes, cut_word, number};
use node_core::Timer;
use sector_disk::CrashFill;
use std::alloc::{AllocError, Global};

/// The act of the words of a line.
#[tactic(auto, using(crate::proofs::Counts::alone))]
pub fn act(alloc: Global, line: &[u8]) -> Result<Option<Act>, AllocError>
    ensures { IfOk result (λ act. act ≡ act_of (words_of line.now)) }
{
    let Some((name, fields)) = cut_word(line) else {
        return Ok(None);
    };
    match Verb::from_word(name) {
        Some(verb) => act_with(alloc, verb, fields),
        None => Ok(None),
    }
}

/// The message that a line delivers. It is known by the line's first bytes: most lines of a run deliver one. None also stands for a delivery that can't be read.
#[inline]
pub fn delivered(line: &[u8]) -> Option<u64>
    ensures { IfSome result (λ place. act_of (words_of line.now) ≡ Some (Deliver place)) }
{
    match line {
        [b'd', b'e', b'l', b'i', b'v', b'e', b'r', b' ', place @ ..] => number(place),
        _ => None,
    }
}

/// The act of a verb with the fields that are the words of this text.
#[tactic(auto, using(crate::proofs::Counts::too_many))]
fn act_with(alloc: Global, verb: Verb, fields: &[u8]) -> Result<Option<Act>, AllocError>
    ensures { IfOk result (λ act. act ≡ act_with verb (words_of fields.now)) }
{
    let Some((first, more)) = cut_word(fields) else {
        return short(alloc, verb, fields);
    };
    let Some((second, rest)) = cut_word(more) else {
        return middle(alloc, verb, first, more);
    };
    let Some((third, fourth)) = cut_word(rest) else {
        return long(alloc, verb, first, second, rest);
    };
    match cut_word(fourth) {
        None => longest(alloc, verb, first, second, third, fourth),
        Some(_) => Ok(None),
    }
}

/// A verb with one field.
fn short(alloc: Global, verb: Verb, field: &[u8]) -> Result<Option<Act>, AllocError>
    ensures { IfOk result (λ act. act ≡ short_act verb field.now) }
{
    match verb {
        Verb::Timer(timer) => Ok(fire(timer, field)),
        Verb::Deliver => Ok(number(field).map(Act::Deliver)),
        Verb::Lose => Ok(number(field).map(Act::Lose)),
        Verb::Crash => bare_crash(alloc, field),
        Verb::Recover => Ok(node(field).map(Act::Recover)),
        Verb::Compact => Ok(node(field).map(Act::Compact)),
        Verb::Cut | Verb::Mend | Verb::Submit | Verb::Finish | Verb::Arm => Ok(None),
    }
}

/// A verb with two fields.
fn middle(alloc: Global, verb: Verb, first: &[u8], second: &[u8]) -> Result<Option<Act>, AllocError>
    ensures { IfOk result (λ act. act ≡ middle_act verb first.now second.now) }
{
    match verb {
        Verb::Cut => Ok(cut(first, second)),
        Verb::Mend => Ok(mend(first, second)),
        Verb::Arm => Ok(arm(first, second)),
        Verb::Crash => crash(alloc, first, second),
        _ => Ok(None),
    }
}

/// A verb with three fields.
fn long(
    alloc: Global,
    verb: Verb,
    first: &[u8],
    second: &[u8],
    third: &[u8],
) -> Result<Option<Act>, AllocError>
    ensures { IfOk result (λ act. act ≡ long_act verb first.now second.now third.now) }
{
    match verb {
        Verb::Submit => submit(alloc, first, second, third, Some(0)),
        Verb::Finish => Ok(finish(first, second, third)),
        _ => Ok(None),
    }
}

/// A verb with four fields.
fn longest(
    alloc: Global,
    verb: Verb,
    first: &[u8],
    second: &[u8],
    third: &[u8],
    fourth: &[u8],
) -> Result<Option<Act>, AllocError>
    ensures { IfOk result (λ act. act ≡ longest_act verb first.now second.now third.now fourth.now) }
{
    match verb {
        Verb::Submit => submit(alloc, first, second, third, priority(fourth)),
        _ => Ok(None),
    }
}

fn fire(timer: Timer, field: &[u8]) -> Option<Act>
    ensures { result ≡ short_act (Verb.Timer timer) field.now }
{
    Some(Act::Timer(node(field)?, timer))
}

fn cut(first: &[u8], second: &[u8]) -> Option<Act>
    ensures { result ≡ middle_act Cut first.now second.now }
{
    Some(Act::Cut(node(first)?, node(second)?))
}

fn mend(first: &[u8], second: &[u8]) -> Option<Act>
    ensures { result ≡ middle_act Mend first.now second.now }
{
    Some(Act::Mend(node(first)?, node(second)?))
}

fn arm(first: &[u8], second: &[u8]) -> Option<Act>
    ensures { result ≡ middle_act Arm first.now second.now }
{
    Some(Act::Arm(node(first)?, number(second)?))
}

/// A crash that leaves nothing.
fn bare_crash(alloc: Global, field: &[u8]) -> Result<Option<Act>, AllocError>
    ensures { IfOk result (λ act. act ≡ short_act Crash field.now) }
{
    let Some(node) = node(field) else {
        return Ok(None);
    };
    let fill = CrashFill::new(alloc, Vec::new(alloc))?;
    Ok(Some(Act::Crash(node, fill)))
}

fn crash(alloc: Global, first: &[u8], second: &[u8]) -> Result<Option<Act>, AllocError>
    ensures { IfOk result (λ act. act ≡ middle_act Crash first.now second.now) }
{
    let Some(node) = node(first) else {
        return Ok(None);
    };
    match bytes(alloc, second)? {
        Some(bytes) => Ok(Some(Act::Crash(node, CrashFill::new(alloc, bytes)?))),
        None => Ok(None),
    }
}

fn submit(
    alloc: Global,
    first: &[u8],
    second: &[u8],
    third: &[u8],
    priority: Option<u8>,
) -> Result<Option<Act>, AllocError>
    ensures { IfOk result (λ act. act ≡ submit_act first.now second.now third.now priority) }
{
    let (Some(node), Some(job)) = (node(first), new_job(alloc, second, third, priority)?) else {
        return Ok(None);
    };
    Ok(Some(Act::Submit(node, Submitted::new(alloc, job)?)))
}

fn finish(first: &[u8], second: &[u8], third: &[u8]) -> Option<Act>
    ensures { result ≡ long_act Finish first.now second.now third.now }
{
    Some(Act::Finish(node(first)?, node(second)?, number(third)?))
}
