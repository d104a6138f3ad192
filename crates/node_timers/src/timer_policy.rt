ghost use Rattle.std.specs.Prelude.{◌≡◌, ◌≢◌, ◌↔◌, ◌<◌, ◌≤◌, ◌^◌, ◌-◌, ◌+◌, ◌%◌, ℕ, if◌then◌else◌, IfSome, IsNone, IsTrue, is_some, true, Some, None};
ghost use Rattle.node_core.specs.declared.event.Event.TheVariants as on;
ghost use Rattle.node_core.specs.declared.timer.Timer.TheVariants as timer;
ghost use Rattle.node_core.specs.declared.event.Event.{Event};
ghost use Rattle.node_timers.specs.Jitter.{behind_word, drawn};
ghost use Rattle.node_timers.specs.declared.deadline.Deadline.{Deadline};
ghost use Rattle.node_timers.specs.declared.wait.Wait.{Wait};
ghost use Rattle.node_timers.specs.Timers.{comes_soon, jitter_of, least_at, least_of, patience, prompted_left, raise_of, soon_left, wait_of};
ghost use Rattle.node_timers.specs.Policy.{aged, all_answered, answer_came, answer_since, answer_took, here_came, slowest_at, slowest_held, slowest_late, asked_at, asked_by, fresh, gives_up, heard_from, in_new_group, invited_by, is_silent, jitter_at, paced_at, random_at, has_silent, event_at, looked_at, may_dispatch, passed, rests, since, spent, trip_with, without_asked, work_left, Runs, HasCome, IsDue, IsWorkDue, MayFire, Counts, Dispatches, MovesDeadline, Sets, Prompts, SetsDeadline};

use crate::deadline::Deadline;
use crate::questions::Questions;
use crate::snapshot::NodeSnapshot;
use crate::timer_settings::TimerSettings;
use crate::wait::Wait;
use group_task::{GroupNo, Members, NODES, NodeId};
use node_core::{Event, Phase, Timer};
use rand_core::utils::NextWord;
use rand_pcg::Pcg32;
use std::marker::Model;

/// When the timers of one node fire. It is given a snapshot of the node and the time, in milliseconds of any clock: what it waits for is counted from
/// one time that is told to the next.
#[derive(Debug, Drop)]
pub struct TimerPolicy {
    id: NodeId,
    setting: TimerSettings,
    random: Pcg32,
    // the time that was told last, and how many milliseconds from there on aren't waited for
    told: Option<u64>,
    skip: u64,
    deadline: Option<Deadline>,
    // whether a check was made or heard of in the node's group
    settled: bool,
    // how many checks were fired, and how many of them before each node was last heard
    checks: u64,
    heard: [u64; NODES as usize],
    // the oldest job that was seen, how long work rests, and for how long it has to before it is dispatched; at once where that is 0
    oldest: Option<u64>,
    rested: u64,
    pause: u64,
    // how long the node's last raise took
    raise: u32,
    // how many checks are to come soon: behind a recovery that gives up a silent member
    soon: u8,
    // when the node asked others last, and how long the slowest answer took, or this node itself was held up
    asked: Questions,
    slowest: u32,
    // how long a round trip was measured to take
    round_trip: u16,
    // whether another coordinator's check, or a recovery without a silent member, prompts the node to the next one
    prompted: bool,
}

impl Model for TimerPolicy {
    ghost use Rattle.node_timers.specs.Policy.{Policy};

    ghost Value = { Policy };

    ghost view = { λ a. record {
      id = a.id;
      setting = a.setting;
      random = a.random;
      told = a.told;
      skip = a.skip;
      deadline = a.deadline;
      settled = a.settled;
      checks = a.checks;
      heard = a.heard;
      oldest = a.oldest;
      rested = a.rested;
      pause = a.pause;
      raise = a.raise;
      soon = a.soon;
      asked = a.asked;
      slowest = a.slowest;
      round_trip = a.round_trip;
      prompted = a.prompted;
    } };
}

impl TimerPolicy {
    /// A policy with no deadline set. The seed and the node's identifier decide the jitter.
    #[tactic(auto, unfolding(crate::specs::Jitter::seeded))]
    pub fn new(setting: TimerSettings, id: NodeId, seed: u64) -> TimerPolicy
        // Promise: Jitter is drawn from the Pcg32 of the seed, in the stream of the node's number: nodes of one seed draw other words.
        // Refuses: one_stream_for_all, one_seed_for_all.
        ensures { result ≡ fresh setting id seed }
    {
        TimerPolicy {
            id,
            setting,
            random: Pcg32::new(seed, u64::from(id.number())),
            told: None,
            skip: 0,
            deadline: None,
            settled: false,
            checks: 0,
            heard: [0; NODES as usize],
            oldest: None,
            rested: 0,
            pause: 0,
            raise: 0,
            soon: 0,
            asked: Questions::new(),
            slowest: 0,
            round_trip: setting.unit,
            prompted: false,
        }
    }

    /// A message came from this node, whatever it says.
    pub fn heard(&mut self, from: NodeId)
        // Promise: A message from a node ends that node's silence, and moves no deadline.
        // Refuses: probe_put_off_by_hearing.
        ensures { self.new ≡ heard_from from self.old }
    {
        self.heard[usize::from(from.number())] = self.checks;
    }

    /// This node looks for other coordinators. A member whose coordinator it is asks it at once, and the coordinator of a settled group looks for
    /// others at once. Else, where it is greater, it is to merge first: a merge that waits for its turn waits twice as long.
    pub fn asked(&mut self, from: NodeId)
        // Promise: A member's question is due at once behind a check of its coordinator that it hears, and of nobody else; from then on its
        // group is settled. The coordinator of a settled group looks for others at once behind a check of another one, and merges first.
        // Refuses: question_behind_anyones_check, check_heard_for_nothing, check_of_another_passed_over.
        ensures { self.new ≡ asked_by from self.old }
    {
        let Some(deadline) = self.deadline else {
            return;
        };
        if deadline.is_led_by(from) {
            self.deadline = Some(deadline.at_once());
            self.settled = true;
        } else if self.settled && deadline.is_of_check() {
            self.deadline = Some(deadline.at_once());
            self.prompted = true;
        } else if from.number() > self.id.number() {
            self.deadline = Some(deadline.put_off());
        }
    }

    /// An answer came to what the node asked, and so it is known how long that took.
    pub fn answer_came(&mut self)
        // Promise: Others are waited for as long as the slowest answer took, or twice as long as the node itself was late, up to 1 s, and a coordinator's
        // answer three times as long, and 250 ms at least. That counts a 128th less with each question. A round trip is as long as the longest
        // of the last answers took, each of which counts an eighth less with the next: no longer than set, and a quarter of that at least.
        // Also: TimerPolicy::delivered, TimerPolicy::tick, TimerPolicy::took.
        // Refuses: slow_answer_forgotten, own_hold_up_forgotten, own_hold_up_counts_once, late_where_it_came_at_once, slow_answers_for_ever,
        // slow_answer_waited_for_once, fast_network_waited_for_as_set.
        ensures { self.new ≡ answer_came self.old }
    {
        let questions = self.asked;
        self.took_since(questions.last);
    }

    /// A node says whether this one is a member of that group. It may be one that the node left since: a coordinator that was held up says so then.
    pub fn here_came(&mut self, group: GroupNo)
        // Promise: A coordinator's answer takes as long as since it was asked in its group, also where the node left that and asked in another.
        // Also: Questions::asked_in, Questions::asks.
        // Refuses: answer_to_another_question, question_of_a_left_group_forgotten.
        ensures { self.new ≡ here_came group self.old }
    {
        let questions = self.asked;
        self.took_since(questions.asked_in(group));
    }

    fn took_since(&mut self, asked: Option<u64>)
        ensures { self.new ≡ answer_since asked self.old }
    {
        let Some(asked) = asked else {
            return;
        };
        let told = self.told.unwrap_or(0);
        self.took(told.saturating_sub(asked));
    }

    fn took(&mut self, ms: u64)
        ensures { self.new ≡ answer_took ms self.old }
    {
        self.slowest = self.slowest_with(ms);
        self.round_trip = self.trip_with(ms);
    }

    /// How long a round trip is taken to be once an answer took so long.
    fn trip_with(&self, took: u64) -> u16
        ensures { result ≡ trip_with took self.now }
    {
        let unit = self.setting.unit;
        let kept = self.round_trip.saturating_sub(self.round_trip / 8 + 1);
        let took = u16::try_from(took).unwrap_or(unit);
        took.max(kept).min(unit).max(unit / 4)
    }

    /// All whom the node asked whether they lead have answered, or all that it invited have accepted.
    pub fn answered(&mut self, snapshot: &NodeSnapshot)
        // Promise: A check is over at once where all have answered and none of them leads, or the node waits for nobody's turn. An election is over a
        // round trip after all that were invited have accepted.
        // Refuses: answers_end_no_check, found_coordinator_passed_over, accepted_election_goes_on.
        ensures { self.new ≡ all_answered snapshot.now self.old }
    {
        if let Some(deadline) = self.deadline {
            let found = snapshot.merge_wait.is_some();
            self.deadline = Some(deadline.answered(&self.setting, found));
        }
    }

    /// This node invites the policy's one. Two that invite each other would wait in vain: the lesser one's election is over at once, and the greater
    /// one's invitation, which is sent again, finds it Normal.
    pub fn invited(&mut self, from: NodeId)
        // Promise: Where a greater node invites one in an election, that is over at once.
        // Refuses: lesser_election_goes_on.
        ensures { self.new ≡ invited_by from self.old }
    {
        let Some(deadline) = self.deadline else {
            return;
        };
        if deadline.is_of_accept() && from.number() > self.id.number() {
            self.deadline = Some(deadline.at_once());
        }
    }

    /// The transport gave a node up, and this one asks or leaves: when, the policy isn't told, and so no answer is one to what it asked before.
    pub fn lost(&mut self)
        ensures { self.new ≡ without_asked self.old }
    {
        self.asked = self.asked.forgotten();
    }

    /// The node is in another group than before: the jobs that it keeps are due at once, and no check was made in it.
    pub fn regrouped(&mut self)
        // Promise: In a new group the jobs that the node keeps are due at once, and its first check or question comes sooner.
        // Refuses: new_group_waits_for_work, new_group_is_settled.
        ensures { self.new ≡ in_new_group self.old }
    {
        self.settled = false;
        self.rested = 0;
        self.pause = 0;
    }

    /// The node recovers without a member that is silent, or that the transport gave up: its next two checks come soon, and it merges first.
    pub fn gave_up(&mut self)
        ensures { self.new ≡ gives_up self.old }
    {
        self.soon = 2;
        self.prompted = true;
    }

    /// It is so late now. What is waited for is nearer by the time that went by since it was told last, less what the node spent itself; where
    /// the clock fell back, by nothing.
    pub fn pass(&mut self, now: u64)
        // Promise: A wait advances by the time between two times that are told, less what the node spent itself; by nothing where
        // the clock fell back. It stops at 2^64 - 1.
        // Also: TimerPolicy::spend.
        // Refuses: own_sync_waited_for.
        ensures { self.new ≡ passed now self.old }
    {
        let since = self.since(now);
        self.age(since.saturating_sub(self.skip));
        self.skip = self.skip.saturating_sub(since);
        self.told = Some(now);
    }

    /// The node spent so many milliseconds in a command: they aren't waited for.
    pub fn spend(&mut self, ms: u64)
        ensures { self.new ≡ spent ms self.old }
    {
        self.skip = self.skip.saturating_add(ms);
    }

    /// A raise of the node took so many milliseconds. Who is asked may be in one, so an answer is waited for so much longer.
    pub fn raised(&mut self, ms: u64)
        ensures { self.new ≡ record self.old { raise = raise_of self.old.setting ms } }
    {
        self.raise = self.setting.raise_of(ms);
    }

    /// What is due now. It is one event at most: the caller makes it, looks at the node again, and asks again until nothing
    /// is due.
    pub fn tick(&mut self, snapshot: &NodeSnapshot) -> Option<Event>
        // Promise: Where the wait is over, its timer is fired, before any work.
        // Refuses: tick_fires_nothing, silent_for_one_check_more.
        ensures timer { (d : Deadline) → HasCome self.old snapshot.now d → result ≡ Some (event_at self.old snapshot.now d.wait) }
        ensures work { IsWorkDue self.old snapshot.now → is_some result ≡ true }
        // Promise: Nothing else is fired but work, at a Normal node and when its time has come; where it has come something is
        // fired.
        // Also: work.
        // Refuses: early, merge_after_one_turn, work_dispatched_in_an_election.
        ensures not_early { IfSome result (MayFire self.old snapshot.now) }
        // Promise: At a node that is Down nothing is fired and nothing changes.
        ensures down { wait_of snapshot.now ≡ None → (result ≡ None) × (self.new ≡ self.old) }
        // Promise: From a silence that the process itself may have slept through nothing is concluded: where it looks at a wait for others more than
        // two round trips behind its end, it gives them a round trip more, once. A deadline that has come is removed, any other stays.
        // Refuses: silence_of_a_stopped_process_counts, own_stall_blamed_on_others, grace_as_long_as_the_wait, own_hold_up_forgotten, fires_twice,
        // another_groups_deadline_taken.
        ensures moves { MovesDeadline snapshot.now self.old self.new }
        // Promise: Where no deadline is set, one is, for its wait's length, the jitter that is drawn more, and a raise more where others may be in one. Behind a
        // recovery that gives up a silent member the next check comes at once, and the one behind it two round trips later; each
        // check that was set soon is counted, and nothing else is. The merge behind these, and behind a check to which another one's prompted the
        // node, comes two round trips later, and waits for nobody's turn.
        // Also: prompts, TimerPolicy::gave_up.
        // Refuses: jitter_left_out, generator_stands_still, jitter_above_its_bound, raise_of_others_not_waited_for, no_check_comes_soon, every_check_comes_soon, prompted_merge_waits_for_its_turn,
        // every_merge_comes_soon.
        ensures set { SetsDeadline snapshot.now self.old self.new }
        ensures prompts { Prompts result snapshot.now self.old self.new }
        // Promise: Each check is counted and settles the group; behind a dispatch work rests anew, the longer the longer it did; where the oldest job is
        // another one than was seen, it begins to; nothing else changes.
        // Also: dispatches, kept.
        // Refuses: work_that_moves_dispatched, check_settles_nothing.
        ensures checks { Counts result self.old self.new }
        ensures dispatches { Dispatches result snapshot.now self.old self.new }
        ensures kept { self.new ≡ record self.old {
          random = self.new.random;
          deadline = self.new.deadline;
          settled = self.new.settled;
          checks = self.new.checks;
          oldest = self.new.oldest;
          rested = self.new.rested;
          pause = self.new.pause;
          soon = self.new.soon;
          asked = self.new.asked;
          slowest = self.new.slowest;
          prompted = self.new.prompted;
        } }
    {
        let wait = Wait::of(snapshot)?;
        let Some(deadline) = self.running(wait, snapshot.group) else {
            self.set(wait, snapshot.group);
            return self.dispatch(snapshot);
        };
        let merge_wait = snapshot.merge_wait;
        if deadline.has_come(&self.setting, self.raise, merge_wait) {
            let late = deadline.lateness(&self.setting, self.raise, merge_wait);
            let slowest = self.slowest_held(late);
            if deadline.is_late(&self.setting, self.raise, merge_wait) {
                self.deadline = Some(deadline.graced(&self.setting, self.raise, merge_wait));
                self.slowest = slowest;
                return self.dispatch(snapshot);
            }
            let event = self.fire(wait, snapshot);
            self.deadline = None;
            self.slowest = slowest;
            return Some(event);
        }
        self.dispatch(snapshot)
    }

    /// When something is due next, where the node stays as it is seen and spends no time itself. None where nothing will be: at a node
    /// that is Down, or past the clock's end.
    pub fn due_at(&self, snapshot: &NodeSnapshot) -> Option<u64>
        // Promise: Before the time that is given as the next, nothing may be fired, whatever time is told; at it a wait is over or work is due. It
        // is 0 where no deadline runs yet, and none at a node that is Down.
        // Also: fires, at_once, never.
        // Refuses: due_too_late, due_too_early.
        ensures quiet { IfSome result (λ next. (now : ℕ) → now < next → (event : Event) → MayFire (passed now self.now) snapshot.now event → ⊥) }
        ensures fires { IfSome result (λ next. (d : Deadline) → Runs self.now snapshot.now d → is_some self.now.told ≡ true → IsDue (passed next self.now) snapshot.now) }
        ensures at_once { ((d : Deadline) → Runs self.now snapshot.now d → ⊥) → result ≡ (if is_some (wait_of snapshot.now) then Some 0 else None) }
        ensures never { IsNone result → (now : ℕ) → now < 2 ^ 64 → (event : Event) → MayFire (passed now self.now) snapshot.now event → ⊥ }
    {
        let wait = Wait::of(snapshot)?;
        let Some(deadline) = self.running(wait, snapshot.group) else {
            return Some(0);
        };
        let timer = deadline.left(&self.setting, self.raise, snapshot.merge_wait);
        let left = match snapshot.phase {
            Phase::Normal => timer.min(self.work_left(snapshot)),
            _ => timer,
        };
        self.time_in(left)
    }

    /// The time at which so many milliseconds more will have been waited for; 0 where none are left.
    fn time_in(&self, left: u64) -> Option<u64>
        ensures early { IfSome result (λ next. (now : ℕ) → now < next → since now self.now.told - self.now.skip < left) }
        ensures come { IfSome result (λ next. is_some self.now.told ≡ true → left ≤ since next self.now.told - self.now.skip) }
        ensures none { IsNone result → (now : ℕ) → now < 2 ^ 64 → since now self.now.told - self.now.skip < left }
    {
        if left == 0 {
            return Some(0);
        }
        let told = u128::from(self.told.unwrap_or(0));
        u64::try_from(told + u128::from(self.skip) + u128::from(left)).ok()
    }

    /// How long it is until the work of a Normal node is dispatched; the greatest number where it isn't.
    fn work_left(&self, snapshot: &NodeSnapshot) -> u64
        ensures value { result ≡ work_left self.now snapshot.now }
        ensures fits { self.now.pause < 2 ^ 64 }
    {
        let pause = self.pause;
        if self.may_dispatch(snapshot) {
            pause.saturating_sub(self.rested)
        } else {
            u64::MAX
        }
    }

    /// Whether jobs are dispatched once they rested for long enough, or at once.
    fn may_dispatch(&self, snapshot: &NodeSnapshot) -> bool
        ensures { result ≡ may_dispatch self.now snapshot.now }
    {
        snapshot.oldest.is_some() && (self.pause == 0 || self.rests(snapshot))
    }

    /// Whether the oldest job is the one that was seen: nothing came or went.
    fn rests(&self, snapshot: &NodeSnapshot) -> bool
        ensures { result ≡ rests snapshot.now.oldest self.now.oldest }
    {
        match (snapshot.oldest, self.oldest) {
            (Some(oldest), Some(seen)) => oldest == seen,
            _ => false,
        }
    }

    /// How long ago a time was told, where it is so late now.
    fn since(&self, now: u64) -> u64
        ensures { result ≡ since now self.now.told }
    {
        match self.told {
            Some(told) => now.saturating_sub(told),
            None => 0,
        }
    }

    /// How long answers are reckoned to take where one took so long, or this node itself was held up for so long.
    fn slowest_with(&self, late: u64) -> u32
        ensures { result ≡ slowest_late late self.now }
    {
        let most = u32::from(self.setting.slowest_most);
        let late = u32::try_from(late).unwrap_or(most).min(most);
        self.slowest.max(late)
    }

    /// The same where this node itself was held up, so late for what was over: for twice as long, since it isn't known when that began.
    fn slowest_held(&self, late: u64) -> u32
        ensures { result ≡ slowest_held late self.now }
    {
        let late = late.min(u64::from(self.setting.slowest_most));
        self.slowest_with(2 * late)
    }

    /// So much more was waited for.
    fn age(&mut self, waited: u64)
        ensures { self.new ≡ aged waited self.old }
    {
        self.rested = self.rested.saturating_add(waited);
        if let Some(deadline) = self.deadline {
            self.deadline = Some(deadline.later(waited));
        }
    }

    /// The deadline that is set, where it is the one of this wait, in this group.
    fn running(&self, wait: Wait, group: GroupNo) -> Option<Deadline>
        ensures some { IfSome result (λ d. (self.now.deadline ≡ Some d) × (d.wait ≡ wait) × (d.group ≡ group)) }
        ensures none { IsNone result → (d : Deadline) → self.now.deadline ≡ Some d → d.wait ≡ wait → d.group ≢ group }
    {
        if let Some(deadline) = &self.deadline {
            if deadline.is_of(wait, group) {
                return self.deadline;
            }
        }
        None
    }

    /// What is fired when a wait is over: its timer, but a coordinator whose member fell silent, and that found no other coordinator, gives
    /// its group up at the end of a check.
    fn fire(&mut self, wait: Wait, snapshot: &NodeSnapshot) -> Event
        ensures value { result ≡ event_at self.old snapshot.now wait }
        ensures checks { Counts (Some result) self.old self.new }
        ensures recovers { result ≡ on.Recover → (self.new.soon ≡ 2) × (self.new.prompted ≡ true) }
        ensures goes_on { result ≢ on.Recover → (self.new.soon ≡ self.old.soon) × (self.new.prompted ≡ self.old.prompted) }
        ensures kept { self.new ≡ record self.old { checks = self.new.checks; settled = self.new.settled; soon = self.new.soon; prompted = self.new.prompted } }
    {
        match wait {
            Wait::Check => {
                self.checks = self.checks.saturating_add(1);
                self.settled = true;
            }
            Wait::Merge if snapshot.merge_wait.is_none() && self.has_silent(snapshot.members) => {
                self.gave_up();
                return Event::Recover;
            }
            _ => {}
        }
        Event::Timer(wait.timer())
    }

    /// Whether one of the members, other than the node itself, answered none of the last checks.
    fn has_silent(&self, members: Members) -> bool
        ensures { result ≡ has_silent self.now members }
    {
        for id in members.iter() {
            if self.is_silent(id) {
                return true;
            }
        }
        false
    }

    fn is_silent(&self, id: NodeId) -> bool
        ensures { result ≡ is_silent self.now id }
    {
        let heard = self.heard[usize::from(id.number())];
        !id.is(self.id)
            && u64::from(self.setting.silent_checks) <= self.checks.saturating_sub(heard)
    }

    /// Sets the deadline of this wait, with its jitter.
    fn set(&mut self, wait: Wait, group: GroupNo)
        ensures deadline { (d : Deadline) × (self.new.deadline ≡ Some d) × Sets self.old wait group d }
        ensures kept { self.new ≡ record self.old {
          random = random_at wait self.old;
          deadline = self.new.deadline;
          soon = soon_left self.old.soon wait;
          asked = asked_at wait group self.old;
          slowest = slowest_at wait self.old;
          prompted = prompted_left self.old.soon self.old.prompted wait;
        } }
    {
        let soon = self.comes_soon(wait).is_some();
        let length = self.length(wait);
        self.count(wait, group);
        self.deadline = Some(Deadline {
            wait,
            group,
            length,
            waited: 0,
            put_off: false,
            had_grace: false,
            soon,
        });
    }

    /// Whether what the node waits for comes soon: at once, or two round trips later.
    fn comes_soon(&self, wait: Wait) -> Option<bool>
        ensures { result ≡ comes_soon self.now.soon self.now.prompted wait }
    {
        match wait {
            Wait::Check if self.soon > 0 => Some(self.soon == 1),
            Wait::Merge if self.prompted => Some(true),
            _ => None,
        }
    }

    /// How long this wait is to last.
    fn length(&mut self, wait: Wait) -> u64
        ensures value { let s = paced_at wait self.old
            in result ≡ least_at (comes_soon self.old.soon self.old.prompted wait) s (least_of s self.old.settled wait + jitter_at wait self.old) + patience s wait self.old.raise self.old.slowest }
        ensures jitter { jitter_at wait self.old ≤ jitter_of (paced_at wait self.old) self.old.settled wait }
        ensures kept { self.new ≡ record self.old { random = random_at wait self.old } }
    {
        let soon = self.comes_soon(wait);
        let setting = self.setting.paced(self.round_trip, self.settled, wait);
        let patience = wait.patience(&setting, self.raise, self.slowest);
        if let Some(second) = soon {
            return setting.soon_length(second) + patience;
        }
        let jitter = drawn(&mut self.random, wait.jitter(&setting, self.settled));
        u64::from(wait.least(&setting, self.settled)) + jitter + patience
    }

    /// The deadline of this wait is set.
    fn count(&mut self, wait: Wait, group: GroupNo)
        ensures { self.new ≡ record self.old {
          soon = soon_left self.old.soon wait;
          asked = asked_at wait group self.old;
          slowest = slowest_at wait self.old;
          prompted = prompted_left self.old.soon self.old.prompted wait;
        } }
    {
        match wait {
            Wait::Check => self.soon = self.soon.saturating_sub(1),
            Wait::Merge => self.prompted = self.prompted && self.soon > 0,
            _ => {}
        }
        self.asked = self.asked.asks(wait, group, self.told);
        if wait.is_behind_question() {
            self.slowest = self.slowest.saturating_sub(self.slowest / 128 + 1);
        }
    }

    /// The work of a Normal node is dispatched, the rarer the longer it rests. Where it doesn't rest, it begins to.
    fn dispatch(&mut self, snapshot: &NodeSnapshot) -> Option<Event>
        ensures value { IsTrue (is_some result) ↔ IsWorkDue self.old snapshot.now }
        ensures event { IfSome result (λ e. e ≡ on.Timer timer.Dispatch) }
        ensures dispatches { Dispatches result snapshot.now self.old self.new }
        ensures kept { self.new ≡ record self.old { oldest = self.new.oldest; rested = self.new.rested; pause = self.new.pause } }
    {
        if !matches!(snapshot.phase, Phase::Normal) {
            return None;
        }
        if self.work_left(snapshot) > 0 {
            self.look(snapshot);
            return None;
        }
        self.pause = if self.pause == 0 {
            self.setting.first_pause(snapshot.pending)
        } else {
            self.setting.longer_pause(self.pause)
        };
        self.oldest = snapshot.oldest;
        self.rested = 0;
        Some(Event::Timer(Timer::Dispatch))
    }

    /// Where work doesn't rest, it has to from now on.
    fn look(&mut self, snapshot: &NodeSnapshot)
        ensures { self.new ≡ looked_at snapshot.now self.old }
    {
        if self.rests(snapshot) {
            return;
        }
        self.oldest = snapshot.oldest;
        self.rested = 0;
        self.pause = self.setting.first_pause(snapshot.pending);
    }
}

/// How much longer a wait lasts, up to so many milliseconds.
#[tactic(auto, unfolding(crate::specs::Jitter::drawn, crate::specs::Jitter::behind_word))]
fn drawn(random: &mut Pcg32, most: u32) -> u64
    // Promise: What is drawn as jitter is the generator's next word, modulo one more than the most that it may be, and the generator goes on by it.
    // Also: goes_on, fits.
    // Refuses: no_jitter, jitter_above_its_bound, same_word_drawn_again.
    ensures value { result ≡ drawn most random.old }
    ensures fits { result ≤ most }
    ensures goes_on { random.new ≡ behind_word random.old }
{
    let range = u64::from(most) + 1;
    u64::from(random.next_word()) % range
}
