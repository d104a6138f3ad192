// Which command was tried, without the work of a job.
ghost use Rattle.std.specs.Prelude.{◌≡◌, Some};
ghost use Rattle.histories.specs.EventOutcomes.{command_with, work_of};

use job_model::{NodeCommand as Command, Work};
use node_core::Event;

/// Which command was tried at an event, for who has the event: a [`Command`] holds the work of a job.
#[derive(Clone, Copy, Debug, PartialEq, Eq)]
pub enum CommandKind {
    /// The counter of groups rises by one.
    Raise,
    /// The job that the event submits becomes pending.
    Put,
    /// The job of this id, which is pending, is done.
    Done(u64),
}

impl CommandKind {
    /// The whole command, by the work that the event submits ([`submitted`]). None for a Put where there is no work.
    pub fn command(self, work: Option<Work>) -> Option<Command>
        ensures { result ≡ command_with work (Some self) }
    {
        match self {
            CommandKind::Raise => Some(Command::Raise),
            CommandKind::Put => Some(Command::Put(work?)),
            CommandKind::Done(id) => Some(Command::Done(id)),
        }
    }
}

/// The work that an event submits.
pub fn submitted(event: &Event) -> Option<Work>
    ensures { result ≡ work_of event.now }
{
    match event {
        Event::Submit(work) => Some(*work),
        _ => None,
    }
}
