//! A turn as its history keeps it.

use crate::worker::Worker;
use histories::EventOutcome;
use std::mem::size_of;

/// What came of a turn that handed no event to its node.
#[derive(Clone, Copy, Debug, PartialEq, Eq)]
pub enum Quiet {
    /// A poll took nothing, or the disk was armed.
    Rested,
    /// The node crashed.
    Crashed,
}

/// What came of a turn, as it is kept.
#[derive(Clone, Copy, Debug)]
pub enum PackedHistoryEvent {
    /// What came of an event, and its place in the list of events.
    Handed(EventOutcome, u32),
    Quiet(Quiet),
}

/// So many messages and so many events are kept at most: a line has 32 bits for the place of one.
pub const MOST_KEPT: usize = 4_294_967_295;

/// A turn as it is kept, with its number among the turns of all nodes. What it sent stands in a list of messages from start up to end.
#[derive(Clone, Copy, Debug)]
pub struct Line {
    pub worker: Worker,
    pub index: u32,
    pub number: u32,
    pub what: PackedHistoryEvent,
    pub start: u32,
    pub end: u32,
}

// a history has a line for each turn, and most turns are polls that take nothing
const _: () = prove!(size_of::<Line>() <= 32);
