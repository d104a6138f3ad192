ghost use Rattle.std.specs.Prelude.{◌≡◌, IfOk, IfErr, OnOk, Ok, Some, [], ◌∷◌, ◌++◌};
ghost use Rattle.line_words.specs.Lines.{IsFaultAt, IsLineFault};
ghost use Rattle.store_console.specs.Requests.{numbered, onto, requests_of};

use crate::parsing::request;
use crate::request::{Request, RequestLine};
use line_words::{LineFault, cut_line};
use std::alloc::{AllocError, Global};

/// The requests of an input, each with the number of its line. Empty lines are passed over, and the last line may lack its line feed. The fault names the
/// first line that can't be read.
#[tactic(auto, using(crate::proofs::Behind::behind_line, crate::proofs::Behind::behind_last, crate::proofs::Behind::behind_fault, crate::proofs::Behind::behind_nothing))]
pub fn read_requests(alloc: Global, input: &[u8]) -> Result<Vec<RequestLine>, LineFault>
    ensures ok { IfOk result (λ requests. requests_of input.now ≡ Ok requests.items) }
    ensures err { IfErr result (IsLineFault (requests_of input.now)) }
{
    let mut requests = Vec::new(alloc);
    let mut number = 0u64;
    let mut left = input;
    while let Some((line, behind)) = cut_line(left) {
        number += 1;
        read_request(alloc, number, line, &mut requests)?;
        left = behind;
    }
    read_request(alloc, number + 1, left, &mut requests)?;
    Ok(requests)
}

/// Adds the request of the line of this number, which is passed over where it is empty.
fn read_request(
    alloc: Global,
    number: u64,
    line: &[u8],
    requests: &mut Vec<RequestLine>,
) -> Result<(), LineFault>
    ensures ok { OnOk result (Some requests.new.items ≡ onto requests.old.items number line.now) }
    ensures err { IfErr result (IsFaultAt number (onto requests.old.items number line.now)) }
{
    if line.is_empty() {
        return Ok(());
    }
    match request(alloc, line)? {
        Some(request) => Ok(push(requests, number, request)?),
        None => Err(LineFault::BadLine(number)),
    }
}

fn push(requests: &mut Vec<RequestLine>, number: u64, request: Request) -> Result<(), AllocError>
    ensures { OnOk result (requests.new.items ≡ requests.old.items ++ numbered number request ∷ []) }
{
    Ok(requests.push(RequestLine { number, request })?)
}
