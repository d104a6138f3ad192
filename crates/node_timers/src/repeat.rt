// A message that is waited for, and when it is sent again.
ghost use Rattle.std.specs.Prelude.{◌≡◌};
ghost use Rattle.node_timers.specs.Retransmission.{first, is_due, nearer, pause_behind, rested};

use wire_msg::{Body, Message};

/// The longest that a question of a check rests, in round trips.
pub(crate) const LONGEST_REST: u8 = 8;

/// A message that a node sent and still waits for.
#[derive(Clone, Copy, Debug, PartialEq, Eq)]
pub(crate) struct Repeat {
    pub(crate) message: Message,
    /// At how many times of those to come it isn't sent again.
    pub(crate) left: u8,
    /// How many times it takes from the next one at which it is sent again to the one behind that.
    pub(crate) pause: u8,
}

impl Repeat {
    /// It was sent just now: not at the next time, which may come at once, but at the one behind that it is sent again.
    pub(crate) fn first(message: &Message) -> Repeat
        ensures { result ≡ first message.now }
    {
        Repeat {
            message: *message,
            left: 1,
            pause: pause_behind(message.body(), 1),
        }
    }

    pub(crate) fn is_due(&self) -> bool
        ensures { result ≡ is_due self.now }
    {
        self.left == 0
    }

    /// A time went by without it.
    pub(crate) fn nearer(&self) -> Repeat
        ensures { result ≡ nearer self.now }
    {
        Repeat {
            message: self.message,
            left: self.left.saturating_sub(1),
            pause: self.pause,
        }
    }

    /// It was sent again.
    pub(crate) fn rested(&self) -> Repeat
        ensures { result ≡ rested self.now }
    {
        Repeat {
            message: self.message,
            left: self.pause.saturating_sub(1),
            pause: pause_behind(self.message.body(), self.pause),
        }
    }
}

/// How long a message rests behind a rest of so many times. All nodes ask all others in a check, so its questions are sent again more and more rarely:
/// what makes their answers late mustn't be that they are asked for.
fn pause_behind(body: &Body, pause: u8) -> u8
    ensures { result ≡ pause_behind body.now pause }
{
    match body {
        Body::AreYouCoordinator => pause.saturating_mul(2).min(LONGEST_REST),
        _ => pause,
    }
}
