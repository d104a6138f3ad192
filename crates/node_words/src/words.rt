ghost use Rattle.std.specs.Prelude.{◌≡◌, ◌++◌, OnOk};
ghost use Rattle.console_text.specs.Words.{work_text};
ghost use Rattle.node_core.specs.State.{state_of};
ghost use Rattle.node_words.specs.Words.{answer_part, core_name, event_word, group_part, group_text, id_text, ids_text, kind_word, named_part, phase_text, truth_text};

use console_text::{push_named_number, push_number, push_text, push_work};
use group_task::{GroupNo, Members};
use job_model::Work;
use node_core::{CoreFault, Event, Phase, Vector};
use std::alloc::AllocError;
use wire_msg::Body;

/// Adds `yes` or `no`.
pub fn push_truth(text: &mut Vec<u8>, answer: bool) -> Result<(), AllocError>
    ensures { OnOk result (text.new.items ≡ text.old.items ++ truth_text answer) }
{
    push_text(text, if answer { "yes" } else { "no" })
}

/// Adds a group's number: its creator, a colon, its count.
pub fn push_group(text: &mut Vec<u8>, group: GroupNo) -> Result<(), AllocError>
    ensures { OnOk result (text.new.items ≡ text.old.items ++ group_text group) }
{
    push_number(text, u64::from(group.creator().number()))?;
    push_named_number(text, ":", group.count())
}

/// Adds ids joined by commas; a dash stands for none.
pub fn push_ids(text: &mut Vec<u8>, ids: Members) -> Result<(), AllocError>
    ensures { OnOk result (text.new.items ≡ text.old.items ++ ids_text ids) }
{
    let mut left = ids.iter();
    let Some(first) = left.next() else {
        return push_text(text, "-");
    };
    push_number(text, u64::from(first.number()))?;
    for id in left {
        push_text(text, ",")?;
        push_number(text, u64::from(id.number()))?;
    }
    Ok(())
}

/// The word of a phase.
pub fn phase_word(phase: Phase) -> &'static str
    ensures { result.now ≡ phase_text phase }
{
    match phase {
        Phase::Down => "Down",
        Phase::Election => "Election",
        Phase::Reorganization => "Reorganization",
        Phase::Normal => "Normal",
    }
}

/// Adds the coordinator and the group of a node that is up.
pub fn push_group_part(text: &mut Vec<u8>, vector: &Vector) -> Result<(), AllocError>
    ensures { OnOk result (text.new.items ≡ text.old.items ++ group_part (state_of vector.now)) }
{
    let coordinator = vector.group_state.coordinator;
    push_named_number(text, " coord ", u64::from(coordinator.number()))?;
    push_text(text, " group ")?;
    push_group(text, vector.group_state.group)
}

/// The word of an event, as requests and traces have it.
pub fn event_word(event: &Event) -> &'static str
    ensures { result.now ≡ event_word event.now }
{
    match event {
        Event::Timer(timer) => timer.word(),
        Event::Deliver(_) => "deliver",
        Event::Submit(_) => "submit",
        Event::Finish(_, _) => "finish",
        Event::Recover => "recover",
    }
}

/// The word of a message's kind.
#[inline]
pub fn kind_word(body: &Body) -> &'static str
    ensures { result.now ≡ kind_word body.now }
{
    match body {
        Body::AreYouCoordinator => "AreYouCoordinator",
        Body::Coordinator(_) => "Coordinator",
        Body::AreYouThere(_) => "AreYouThere",
        Body::Here(_, _) => "Here",
        Body::Invitation(_) => "Invitation",
        Body::Accept(_) => "Accept",
        Body::Ready(_) => "Ready",
        Body::ReadyAck(_) => "ReadyAck",
        Body::Work { .. } => "Work",
        Body::Done(_) => "Done",
    }
}

/// Adds the group that a message names, if it names one.
#[inline]
pub fn push_named(text: &mut Vec<u8>, group: Option<GroupNo>) -> Result<(), AllocError>
    ensures { OnOk result (text.new.items ≡ text.old.items ++ named_part group) }
{
    let Some(group) = group else {
        return Ok(());
    };
    push_text(text, " ")?;
    push_group(text, group)
}

/// Adds the answer of a message, if it has one.
#[inline]
pub fn push_answer(text: &mut Vec<u8>, body: &Body) -> Result<(), AllocError>
    ensures { OnOk result (text.new.items ≡ text.old.items ++ answer_part body.now) }
{
    match body {
        Body::Coordinator(answer) | Body::Here(_, answer) => {
            push_text(text, " ")?;
            push_truth(text, *answer)
        }
        _ => Ok(()),
    }
}

/// Adds why the state machine refused an event.
pub fn push_core_fault(text: &mut Vec<u8>, fault: CoreFault) -> Result<(), AllocError>
    ensures { OnOk result (text.new.items ≡ text.old.items ++ core_name fault) }
{
    match fault {
        CoreFault::Stranger => push_text(text, "Stranger"),
        CoreFault::Down => push_text(text, "Down"),
        CoreFault::NotCoordinator(id) => {
            push_named_number(text, "NotCoordinator ", u64::from(id.number()))
        }
        CoreFault::NotNormal => push_text(text, "NotNormal"),
        CoreFault::UnknownJob => push_text(text, "UnknownJob"),
        CoreFault::NoMemory => push_text(text, "NoMemory"),
    }
}

/// Adds the id of a submitted job, if there is one.
pub fn push_id(text: &mut Vec<u8>, id: Option<u64>) -> Result<(), AllocError>
    ensures { OnOk result (text.new.items ≡ text.old.items ++ id_text id) }
{
    match id {
        Some(id) => push_named_number(text, " id ", id),
        None => Ok(()),
    }
}

/// Adds a job's queue, its payload and its priority.
pub fn push_work_of(text: &mut Vec<u8>, work: &Work) -> Result<(), AllocError>
    ensures { OnOk result (text.new.items ≡ text.old.items ++ work_text work.now.queue work.now.payload work.now.priority) }
{
    push_work(
        text,
        work.queue.number(),
        work.payload.as_slice(),
        work.priority,
    )
}
