ghost use Rattle.std.specs.Prelude.{◌≡◌};
ghost use Rattle.node_core.specs.TimerWords.{word_of, timer_named};

use line_words::is_word;

/// The timers of a node. How long one runs, and when it is set, is the driver's choice.
#[derive(Clone, Copy, Debug, PartialEq, Eq)]
pub enum Timer {
    /// A coordinator looks for other coordinators, which it may merge with (the algorithm's Check).
    Check,
    /// A coordinator invites the groups that it found into a new one (Merge).
    Merge,
    /// The time in which invited nodes may accept is over: the task goes out to those that did.
    Accept,
    /// The time in which the members may say that they are ready is over.
    Ready,
    /// A member has not heard of its coordinator for a while (Timeout).
    Coord,
    /// Work that is pending is taken in hand, or sent to its owners once more.
    Dispatch,
}

impl Timer {
    /// The word for it, in schedules, in traces and in the lines of a node.
    pub fn word(self) -> &'static str
        ensures { result.now ≡ word_of self }
    {
        match self {
            Timer::Check => "check",
            Timer::Merge => "merge",
            Timer::Accept => "accept",
            Timer::Ready => "ready",
            Timer::Coord => "coord",
            Timer::Dispatch => "dispatch",
        }
    }

    /// The timer that a word names.
    pub fn from_word(word: &[u8]) -> Option<Timer>
        ensures { result ≡ timer_named word.now }
    {
        if is_word(word, "check") {
            Some(Timer::Check)
        } else if is_word(word, "merge") {
            Some(Timer::Merge)
        } else if is_word(word, "accept") {
            Some(Timer::Accept)
        } else if is_word(word, "ready") {
            Some(Timer::Ready)
        } else if is_word(word, "coord") {
            Some(Timer::Coord)
        } else if is_word(word, "dispatch") {
            Some(Timer::Dispatch)
        } else {
            None
        }
    }
}
