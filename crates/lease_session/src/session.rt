// A process of leases, fed with lines, and what it answers.
ghost use Rattle.std.specs.Prelude.{◌≡◌, ◌<◌, ◌∷◌, ◌++◌, [], List, ℕ, length, IfOk, OnOk, None, Some, true};
ghost use Rattle.line_words.specs.Lines.{lines_of};
ghost use Rattle.lease_session.specs.Feeding.{Answers, AreAnswered, Fed, IsNew, at};

use crate::participant::Participant;
use crate::process::Start;
use crate::seals::LeaseSeal;
use crate::store::EpochStore;
use lease_machine::LeaseTerms;
use line_words::cut_line;
use std::alloc::{AllocError, Global};
use std::mem;

/// A process that votes for leases and asks for them, over what keeps its epochs, and what it has answered so far.
#[derive(Drop)]
pub struct LeaseSession<S: EpochStore> {
    participant: Participant<S>,
    unread: Vec<u8>,
    stopped: bool,
}

impl<S: EpochStore + Drop> LeaseSession<S> {
    /// A process by these terms, with a round trip between machines of so many milliseconds, over what keeps its epochs.
    pub fn begin(
        alloc: Global,
        terms: LeaseTerms,
        round_trip: u16,
        start: Start,
        store: S,
    ) -> Result<LeaseSession<S>, AllocError>
        ensures new { IfOk result (λ it. IsNew terms start it.unread.items (at it.participant.process it.participant.told it.stopped (S.bound it.participant.store))) }
        ensures plain { IfOk result (λ it. (it.participant.process.seal ≡ None) × (it.participant.process.text.items ≡ []) × (it.participant.store ≡ store) × (it.unread.items ≡ [])) }
    {
        Ok(LeaseSession {
            participant: Participant::begin(alloc, terms, round_trip, start, store)?,
            unread: Vec::new(alloc),
            stopped: false,
        })
    }

    /// From now on messages are sealed, and taken sealed alone.
    pub fn seal(&mut self, seal: LeaseSeal)
        ensures process { self.new.participant.process ≡ record self.old.participant.process { seal = Some seal } }
        ensures same { (self.new.participant.told ≡ self.old.participant.told) × (self.new.participant.store ≡ self.old.participant.store) × (self.new.stopped ≡ self.old.stopped) × (self.new.unread ≡ self.old.unread) }
    {
        self.participant.process.seal_by(seal);
    }

    /// What was answered since the last clearing.
    pub fn text(&self) -> &[u8]
        ensures { result.now ≡ self.now.participant.process.text.items }
    {
        &self.participant.process.text
    }

    /// What was answered is written, and forgotten.
    pub fn clear(&mut self)
        ensures text { self.new.participant.process.text.items ≡ [] }
        ensures process { self.new.participant.process ≡ record self.old.participant.process { text = self.new.participant.process.text } }
        ensures same { (self.new.participant.told ≡ self.old.participant.told) × (self.new.participant.store ≡ self.old.participant.store) × (self.new.stopped ≡ self.old.stopped) × (self.new.unread ≡ self.old.unread) }
    {
        self.participant.process.clear();
    }

    /// Whether the device failed. The answer that says it is the last one.
    pub fn has_stopped(&self) -> bool
        ensures { result ≡ self.now.stopped }
    {
        self.stopped
    }

    /// Whether a user was told that it holds a lease, and not since that this is lost.
    pub fn has_told_of_leases(&self) -> bool
        ensures { result ≡ true → 0 < length self.now.participant.process.told.items }
    {
        !self.participant.process.told.is_empty()
    }

    /// What keeps the epochs alone, as it is.
    pub fn into_store(self) -> S
        ensures { result ≡ self.participant.store }
    {
        let LeaseSession { participant, .. } = self;
        let Participant { store, .. } = participant;
        store
    }

    /// Takes a piece of the input, and answers each line that is whole now. Where memory runs out, it says so, and nothing more is to be written.
    pub fn feed(&mut self, piece: &[u8]) -> Result<(), AllocError>
        // Promise: Each line that is whole with the bytes that are fed is answered once, in their order, and what stands behind the last is
        // kept; the text that is added is that of the answers, one behind another.
        // Also: LeaseSession::answer_line, any_cutting.
        // Refuses: line_skipped, rest_is_dropped, fault_goes_on.
        // Promise: What a line asks for is a function of its bytes, and so is the message that it brings, under the keys and the stamps that were
        // taken before. A line that can't be read is answered by `refused Bad`, and one of an earlier time by `refused Time`: they make
        // no step. What comes of any other are steps that the process may take, at the time that the line tells.
        // Also: Participant::answer, Participant::deliver, Participant::come, LeaseProcess::open, read_line.
        // Refuses: bad_line_ignored, unsealed_message_taken, stale_message_taken, user_is_the_time.
        // Promise: Behind each line the machine grants no epoch above what the store says that it reserved, or the floor that the process
        // began with: only a store that says so raises it.
        // Also: LeaseSession::answer_line, Participant::reserve, Participant::begin_where_due, LeaseProcess::raise, LeaseProcess::begin.
        // Refuses: bound_raised_without_the_store, begun_above_the_store.
        ensures { OnOk result (Fed self.old.unread.items piece.now self.new.unread.items
            (at self.old.participant.process self.old.participant.told self.old.stopped (S.bound self.old.participant.store))
            (at self.new.participant.process self.new.participant.told self.new.stopped (S.bound self.new.participant.store))) }
    {
        let mut whole = mem::replace(&mut self.unread, Vec::new(self.participant.process.alloc));
        whole.extend_from_slice(piece)?;
        let left = self.answer_lines(&whole)?;
        self.unread.extend_from_slice(left)?;
        Ok(())
    }

    /// Answers the whole lines of a text, and gives what stands behind the last.
    fn answer_lines<'a>(&mut self, whole: &'a [u8]) -> Result<&'a [u8], AllocError>
        ensures unread { self.new.unread ≡ self.old.unread }
        ensures lines { IfOk result (λ left. (lines : List (List ℕ)) × (lines_of whole.now ≡ lines ++ left.now ∷ []) × AreAnswered lines
            (at self.old.participant.process self.old.participant.told self.old.stopped (S.bound self.old.participant.store))
            (at self.new.participant.process self.new.participant.told self.new.stopped (S.bound self.new.participant.store))) }
    {
        let mut left = whole;
        while let Some((line, behind)) = cut_line(left) {
            self.answer_line(line)?;
            left = behind;
        }
        Ok(left)
    }

    fn answer_line(&mut self, line: &[u8]) -> Result<(), AllocError>
        ensures unread { self.new.unread ≡ self.old.unread }
        ensures line { OnOk result (Answers line.now
            (at self.old.participant.process self.old.participant.told self.old.stopped (S.bound self.old.participant.store))
            (at self.new.participant.process self.new.participant.told self.new.stopped (S.bound self.new.participant.store))) }
    {
        if self.stopped || line.is_empty() {
            return Ok(());
        }
        self.participant.answer(line);
        let due = self.participant.due();
        self.stopped = self.participant.process.end_line(due)?;
        Ok(())
    }
}
