// Why something isn't done, and how a process ends.
ghost use Rattle.std.specs.Prelude.{◌≡◌};
ghost use Rattle.lease_session.specs.Rows.{refusal_word};

/// Why a line, or what it brings, isn't taken.
#[derive(Clone, Copy, Debug, PartialEq, Eq)]
pub enum Refusal {
    /// It can't be read.
    Bad,
    /// Its time is before that of a line that came, or too late for any clock.
    Time,
    /// The message speaks of another list of machines, or of another time for which a grant is kept.
    Terms,
    /// The message was sealed by no machine of the list.
    Forged,
    /// As late or later a message of its sender was taken.
    Stale,
    /// Somebody here asks for the name.
    Claimed,
    /// Each name that is kept is in use.
    Full,
    /// No number is left for one who asks, or no epoch.
    Exhausted,
    /// An earlier process of the machine kept grants for longer, and that time isn't over.
    Waiting,
    /// Nobody here asks for the name under this number.
    Unclaimed,
}

impl Refusal {
    /// Its name in lines.
    pub fn word(self) -> &'static str
        ensures { result.now ≡ refusal_word self }
    {
        match self {
            Refusal::Bad => "Bad",
            Refusal::Time => "Time",
            Refusal::Terms => "Terms",
            Refusal::Forged => "Forged",
            Refusal::Stale => "Stale",
            Refusal::Claimed => "Claimed",
            Refusal::Full => "Full",
            Refusal::Exhausted => "Exhausted",
            Refusal::Waiting => "Waiting",
            Refusal::Unclaimed => "Unclaimed",
        }
    }
}

/// Why a process goes on no more.
#[derive(Clone, Copy, Debug, PartialEq, Eq)]
pub enum Halt {
    NoMemory,
    Device,
}
