// How long one who asks waits for what. All times are in milliseconds of the machine's clock, and scale with the round trip between machines.
ghost use Rattle.std.specs.Prelude.{◌≡◌, ◌≤◌, ◌<◌, ◌*◌, ◌+◌, true, false};

use rand_core::utils::NextWord;
use rand_pcg::Pcg32;

/// For how long a voter keeps a grant, where a round trip between machines takes so many milliseconds: a hundred of them.
pub fn keeps_for(round_trip: u16) -> u64
    ensures { result ≡ 100 * round_trip }
{
    100 * u64::from(round_trip)
}

/// How long answers took lately, by which it is judged how long one waits for the next ones: machines and networks at work take longer than the round
/// trip that is set. What comes to a machine that was stopped is old by then, and says nothing of them.
#[derive(Clone, Copy, Debug)]
pub(crate) struct AnswerTime {
    slowest: u64,
    // whether a request was given up for want of answers, and none of those that were late counts yet
    ran_out: bool,
}

impl AnswerTime {
    /// Nothing was answered yet.
    pub(crate) fn new() -> AnswerTime {
        AnswerTime {
            slowest: 0,
            ran_out: false,
        }
    }

    /// The last request was answered after so long, of which at most sixteen round trips count. What took longer before is forgotten by a quarter with
    /// each answer. An answer that nobody waits so long for counts for nothing: this machine was stopped meanwhile.
    pub(crate) fn answered(&mut self, after: u64, round_trip: u16)
        ensures stopped { 32 * round_trip < after → self.new ≡ self.old }
    {
        let round_trip = u64::from(round_trip);
        if after > 32 * round_trip {
            return;
        }
        let counted = after.min(16 * round_trip);
        self.slowest = counted.max(self.slowest - self.slowest / 4);
    }

    /// A request was given up since its answers weren't there in time.
    pub(crate) fn ran_out(&mut self)
        ensures { self.new ≡ record self.old { ran_out = true } }
    {
        self.ran_out = true;
    }

    /// An answer came to a request that is closed. Where one was given up for want of answers, they take twice as long as was thought, at least four round
    /// trips and at most sixteen: that counts once for each that was given up.
    pub(crate) fn late(&mut self, round_trip: u16)
        ensures other { self.old.ran_out ≡ false → self.new ≡ self.old }
        ensures once { self.new.ran_out ≡ false }
    {
        if !self.ran_out {
            return;
        }
        let round_trip = u64::from(round_trip);
        let longer = self.slowest.saturating_mul(2);
        self.slowest = longer.max(4 * round_trip).min(16 * round_trip);
        self.ran_out = false;
    }

    /// How long the answers to a request are waited for: twice the slowest answer, at least four round trips and at most 32.
    pub(crate) fn patience(&self, round_trip: u16) -> u64
        ensures { result ≤ 32 * 65535 + 1 }
    {
        let round_trip = u64::from(round_trip);
        let twice = self.slowest.saturating_mul(2);
        twice.max(4 * round_trip).min(32 * round_trip) + 1
    }

    /// How long behind its asking a renewal is asked for again that isn't answered, where a client relies on its lease for so long: twice the slowest
    /// answer, at least a twelfth of that time and at most a third.
    pub(crate) fn renewed_again(&self, relies_for: u64) -> u64 {
        let twice = self.slowest.saturating_mul(2);
        twice.max(relies_for / 12).min(relies_for / 3).max(1)
    }
}

/// How long one who was refused rests, drawn anew each time.
pub(crate) fn rest(random: &mut Pcg32, round_trip: u16, tries: u8) -> u64 {
    let most = longest_rest(round_trip, tries);
    1 + u64::from(random.next_word()) % (most + 1)
}

/// The longest rest of one who was refused so often in a row: two round trips, then four, eight and sixteen. Where votes are split the next ones
/// are asked for the more apart.
fn longest_rest(round_trip: u16, tries: u8) -> u64
    ensures { result ≤ 16 * 65535 }
{
    let round_trip = u64::from(round_trip);
    match tries {
        0 => 2 * round_trip,
        1 => 4 * round_trip,
        2 => 8 * round_trip,
        _ => 16 * round_trip,
    }
}

/// How long behind the time at which it was asked for a lease is renewed: a third of the time for which a client relies on it.
pub(crate) fn renewal(relies_for: u64) -> u64 {
    relies_for / 3
}
