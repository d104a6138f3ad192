ghost use Rattle.std.specs.Prelude.{◌≡◌};
ghost use Rattle.durable_node.specs.Changes.{Foresees, body_moves, move_of, timer_moves};

use node_core::{Event, Timer};
use wire_msg::Body;

/// How the jobs in hand may move.
#[derive(Clone, Copy, Debug, PartialEq, Eq)]
pub(crate) enum HandMove {
    /// They stay as they are.
    Stays,
    /// Others may come behind them, of which none is in hand.
    Grows,
    /// Others may come behind them, or all go, as where a device fails.
    Falls,
    /// Any may come or go.
    Turns,
}

impl HandMove {
    /// How an event may move them, at any node.
    #[tactic(auto, using(crate::proofs::Moves::foreseen))]
    pub(crate) fn of(event: &Event) -> HandMove
        ensures { Foresees event.now result }
    {
        HandMove::of_event(event)
    }

    fn of_event(event: &Event) -> HandMove
        ensures { result ≡ move_of event.now }
    {
        match event {
            Event::Timer(timer) => HandMove::of_timer(*timer),
            Event::Deliver(message) => HandMove::of_body(message.body()),
            Event::Submit(_) | Event::Recover => HandMove::Falls,
            Event::Finish(_, _) => HandMove::Turns,
        }
    }

    fn of_timer(timer: Timer) -> HandMove
        ensures { result ≡ timer_moves timer }
    {
        match timer {
            Timer::Check | Timer::Accept => HandMove::Stays,
            Timer::Dispatch => HandMove::Grows,
            Timer::Merge | Timer::Ready | Timer::Coord => HandMove::Falls,
        }
    }

    fn of_body(body: &Body) -> HandMove
        ensures { result ≡ body_moves body.now }
    {
        match body {
            Body::AreYouCoordinator
            | Body::Coordinator(_)
            | Body::AreYouThere(_)
            | Body::Accept(_)
            | Body::Ready(_)
            | Body::ReadyAck(_) => HandMove::Stays,
            Body::Work { .. } => HandMove::Grows,
            Body::Here(_, _) | Body::Invitation(_) | Body::Done(_) => HandMove::Falls,
        }
    }
}
