// What a message says to the policy of timers.
ghost use Rattle.std.specs.Prelude.{◌≡◌};
ghost use Rattle.node_timers.specs.Hearing.{is_of_any_group, told_by};

use crate::timer_policy::TimerPolicy;
use wire_msg::{Body, Message};

impl TimerPolicy {
    /// This message came. Its sender isn't silent, unless who is in any group says so: whether somebody coordinates is asked and answered by all,
    /// and a member asks its coordinator besides.
    pub fn delivered(&mut self, message: &Message)
        // Promise: Whether somebody coordinates is asked and answered in any group, and ends no silence; any other message does, and but for an invitation moves
        // no deadline. Who looks for coordinators is heard to ask.
        // Refuses: any_word_ends_silence, leader_kept_as_member, stranger_kept_as_member.
        ensures { self.new ≡ told_by message.now self.old }
    {
        match message.body() {
            Body::Here(group, _) => self.here_came(*group),
            Body::Coordinator(_) => self.answer_came(),
            Body::Invitation(group) => self.invited(group.creator()),
            _ => {}
        }
        if let Body::AreYouCoordinator = message.body() {
            self.asked(message.sender());
        } else if !is_of_any_group(message.body()) {
            self.heard(message.sender());
        }
    }
}

/// Whether this may be said by who is in any group.
fn is_of_any_group(body: &Body) -> bool
    ensures { result ≡ is_of_any_group body.now }
{
    match body {
        Body::AreYouCoordinator => true,
        Body::Coordinator(_) => true,
        _ => false,
    }
}
