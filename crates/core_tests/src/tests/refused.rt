//! Pieces of a stream that are refused for want of memory and fed again. In a run of this test by itself there is memory, and no piece is
//! refused; `tests/hostile/refused_tried.py` runs it again and again, and each time refuses one allocation more.
ghost use Rattle.std.specs.Prelude.{◌<◌};

use crate::tests::messages::{all_spellings, expect_all, spelling};
use std::alloc::Global;
use std::io::Print;
use std::process::Abort;
use std::test::Fail;
use wire_msg::{Message, Stream, WireFault};

/// A stream, and the messages that came of it.
#[derive(Drop)]
struct Fed {
    stream: Stream,
    out: Vec<Message>,
}

impl Fed {
    fn new(alloc: Global) -> Fed {
        Fed {
            stream: Stream::new(alloc),
            out: Vec::new(alloc),
        }
    }

    /// Feeds a piece, and feeds it again where it is refused, which is told. A refusal leaves all as it was.
    fn feed<R: Abort + Print>(&mut self, rt: &R, piece: &[u8]) -> Result<bool, Fail> {
        let before = (self.stream.rest(), self.out.len());
        for _time in 0..2 {
            match self.stream.feed(piece, &mut self.out) {
                Ok(()) => return Ok(true),
                Err(WireFault::Malformed) => return Ok(false),
                Err(WireFault::NoMemory) => println!(rt; "refused")?,
            }
            assert_eq!(rt; (self.stream.rest(), self.out.len()), before);
        }
        Err("it is refused again")?
    }

    /// Expects that another stream was fed with the same.
    fn expect_same(&self, rt: &impl Abort, other: &Fed) {
        assert_eq!(rt; self.stream.rest(), other.stream.rest());
        assert!(rt; self.out == other.out);
    }
}

/// Of two streams one at most is refused a piece.
#[test]
fn refused_feed(rt: HostRuntime) -> Result<(), Fail> {
    let bytes = match all_spellings(rt.alloc()) {
        Ok(bytes) => bytes,
        Err(_) => all_spellings(rt.alloc())?,
    };
    for size in [3usize, 50, 1000] {
        let mut fed = Fed::new(rt.alloc());
        let mut twin = Fed::new(rt.alloc());
        feed_both(&rt, &bytes, size, &mut fed, &mut twin)?;
    }
    Ok(())
}

/// Feeds two streams in pieces of this size.
fn feed_both<R: Abort + Print>(
    rt: &R,
    bytes: &[u8],
    size: usize,
    fed: &mut Fed,
    twin: &mut Fed,
) -> Result<(), Fail>
    requires { 0 < size }
{
    for piece in bytes.chunks(size) {
        assert!(rt; fed.feed(rt, piece)?);
        assert!(rt; twin.feed(rt, piece)?);
        fed.expect_same(rt, twin);
    }
    expect_all(rt, &fed.out);
    // From a frame on that is malformed nothing comes.
    for piece in [b"\x01\x01\x00\x00\x00\x00".as_slice(), spelling(0)] {
        assert!(rt; !fed.feed(rt, piece)?);
        assert!(rt; !twin.feed(rt, piece)?);
        fed.expect_same(rt, twin);
    }
    expect_all(rt, &fed.out);
    Ok(())
}
