ghost use Rattle.std.specs.Prelude.{◌≡◌, IfOk};
ghost use Rattle.line_words.specs.Words.{words_of};
ghost use Rattle.store_console.specs.Requests.{alone_of, put_named, request_of, slots_of, with_one};

use crate::request::Request;
use disk_layout::{LEAST_SLOTS, MOST_SLOTS};
use job_model::NewJob;
use line_words::{cut_word, is_word, number};
use schedule::fields::{between, new_job, priority};
use std::alloc::{AllocError, Global};

/// The request of the words of a line.
#[tactic(auto, using(crate::proofs::Counts::too_many))]
pub fn request(alloc: Global, line: &[u8]) -> Result<Option<Request>, AllocError>
    ensures { IfOk result (λ request. request ≡ request_of (words_of line.now)) }
{
    let Some((name, fields)) = cut_word(line) else {
        return Ok(alone(line));
    };
    let Some((first, more)) = cut_word(fields) else {
        return Ok(one(name, fields));
    };
    let Some((second, third)) = cut_word(more) else {
        return Ok(put(name, new_job(alloc, first, more, Some(0))?));
    };
    match cut_word(third) {
        None => Ok(put(name, new_job(alloc, first, second, priority(third))?)),
        Some(_) => Ok(None),
    }
}

/// A request with no field.
fn alone(name: &[u8]) -> Option<Request>
    ensures { result ≡ alone_of name.now }
{
    if is_word(name, "mount") {
        Some(Request::Mount)
    } else if is_word(name, "raise") {
        Some(Request::Raise)
    } else if is_word(name, "compact") {
        Some(Request::Compact)
    } else if is_word(name, "list") {
        Some(Request::List)
    } else {
        None
    }
}

/// How many slots a word names.
fn slots(word: &[u8]) -> Option<u64>
    ensures { result ≡ slots_of word.now }
{
    between(LEAST_SLOTS, MOST_SLOTS, word)
}

/// A request with one field.
fn one(name: &[u8], field: &[u8]) -> Option<Request>
    ensures { result ≡ with_one name.now field.now }
{
    if is_word(name, "format") {
        Some(Request::Format(slots(field)?))
    } else if is_word(name, "done") {
        Some(Request::Done(number(field)?))
    } else {
        None
    }
}

/// The job that is put, where the name says so.
fn put(name: &[u8], job: Option<NewJob>) -> Option<Request>
    ensures { result ≡ put_named name.now job }
{
    if is_word(name, "put") {
        Some(Request::Put(job?.work()))
    } else {
        None
    }
}
