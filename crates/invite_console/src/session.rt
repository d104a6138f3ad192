ghost use Rattle.std.specs.Prelude.{◌≡◌, ◌<◌, ◌≤◌, ◌++◌, [], IfOk, OnOk, IfSome, true, false, not, is_none, Ok, None};
ghost use Rattle.group_task.specs.declared.node.TheConstants.{NODES};
ghost use Rattle.node_core.specs.Start.{alone};
ghost use Rattle.console_text.specs.Ends.{printout_of};
ghost use Rattle.invite_console.specs.Answer.{is_strange, message_lines};
ghost use Rattle.invite_console.specs.Session.{after_message, Delivers, SameButRoom, TakesNext};
ghost use Rattle.node_core.specs.Quiet.{IsQuiet};

use console_text::{Output, push_hex, push_text};
use group_task::NodeId;
use job_model::JobTable;
use node_core::{CoreFault, NodeCore};
use std::alloc::{AllocError, Global};
use std::marker::Model;
use std::mem;
use wire_msg::{Message, encode_into};

/// The count of the group in which the node begins, Normal and alone.
const FIRST_COUNT: u64 = 1;

/// The count that a new group would take. No message brings one, since the node never asks whether its coordinator is there.
const NEXT_COUNT: u64 = 2;

/// A node that only messages come to, and what it has printed so far. No job is pending, and no message needs the disk.
#[derive(Drop)]
pub(crate) struct Session {
    alloc: Global,
    core: NodeCore,
    table: JobTable,
    text: Vec<u8>,
    // the spelling of the last answer, which is kept for its room
    bytes: Vec<u8>,
    // the list of the last answers, which is kept for its room
    room: Vec<Message>,
}

impl Model for Session {
    ghost use Rattle.std.specs.Prelude.{◌≡◌, []};
    ghost use Rattle.node_core.specs.Quiet.{IsQuiet};
    ghost use Rattle.invite_console.specs.Session.{Progress};

    ghost Value = { Progress };

    ghost view = { λ a. record { id = a.core.id; nodes = a.core.nodes; state = a.core.state; text = a.text.items } };

    ghost invariant = { λ a. (a.table.pending ≡ []) × IsQuiet a.core.state × (a.room.items ≡ []) };
}

impl Session {
    /// A node that is Normal in its own group, and has printed nothing. It prints into `text`, which is empty.
    pub fn new(alloc: Global, id: NodeId, nodes: u8, text: Vec<u8>) -> Result<Session, AllocError>
        requires within { id < nodes }
        requires limit { nodes ≤ NODES }
        requires empty { text.items ≡ [] }
        ensures { IfOk result (λ session. session ≡ record { id = id; nodes = nodes; state = alone id FIRST_COUNT; text = [] }) }
    {
        Ok(Session {
            alloc,
            core: NodeCore::new(alloc, id, nodes, FIRST_COUNT),
            table: JobTable::with_room(alloc, 0)?,
            text,
            bytes: Vec::new(alloc),
            room: Vec::new(alloc),
        })
    }

    /// Takes a message, and prints the node's answers. False says that the message was refused, as a stranger's.
    fn take(&mut self, message: &Message) -> Result<bool, AllocError>
        ensures refused { IfOk result (λ taken. is_strange self.old.nodes self.old.id message.now self.old.state ≡ not taken) }
        ensures stays { result ≡ Ok false → self.new ≡ self.old }
        ensures goes { result ≡ Ok true → self.new ≡ after_message self.old message.now }
    {
        let room = mem::replace(&mut self.room, Vec::new(self.alloc));
        let Some(mut sent) = deliver(&mut self.core, &self.table, message, room)? else {
            return Ok(false);
        };
        push_messages(&mut self.text, &mut self.bytes, &sent)?;
        sent.clear();
        self.room = sent;
        Ok(true)
    }

    /// Takes the next message. False says that it was refused, which is printed.
    pub fn take_next(&mut self, message: &Message) -> Result<bool, AllocError>
        ensures { IfOk result (TakesNext self.old message.now self.new) }
    {
        let taken = self.take(message)?;
        if !taken {
            self.print("refused Stranger\n")?;
        }
        Ok(taken)
    }

    pub fn print(&mut self, word: &str) -> Result<(), AllocError>
        ensures { OnOk result (self.new ≡ record self.old { text = self.old.text ++ word.now }) }
    {
        push_text(&mut self.text, word)
    }

    /// What was printed, where the stream was good or not.
    pub fn ended(self, good: bool) -> Output
        ensures { printout_of result ≡ record { text = self.text; good = good } }
    {
        Output {
            text: self.text,
            good,
        }
    }
}

/// Takes a message, and answers the messages that the node sends, or none where it is refused, as a stranger's. They are
/// written into `room`, an empty list.
fn deliver(
    core: &mut NodeCore,
    table: &JobTable,
    message: &Message,
    room: Vec<Message>,
) -> Result<Option<Vec<Message>>, AllocError>
    requires empty { table.now.pending ≡ [] }
    requires room { room.items ≡ [] }
    requires quiet { IsQuiet core.old.state }
    ensures refused { IfOk result (λ sent. is_strange core.old.nodes core.old.id message.now core.old.state ≡ is_none sent) }
    ensures stays { result ≡ Ok None → SameButRoom core.old core.new }
    ensures sent { IfOk result (λ answers. IfSome answers (λ sent. Delivers core.old message.now core.new sent.items)) }
    ensures still_quiet { IsQuiet core.new.state }
{
    let plan = match core.plan_delivery(message, table, room) {
        Ok(plan) => plan,
        Err(CoreFault::NoMemory) => return Err(AllocError),
        Err(_) => return Ok(None),
    };
    Ok(Some(core.commit_step(plan, NEXT_COUNT)))
}

/// Adds messages, a line of hex for each. A spelling is written in place of what `bytes` held.
fn push_messages(
    text: &mut Vec<u8>,
    bytes: &mut Vec<u8>,
    messages: &[Message],
) -> Result<(), AllocError>
    ensures { OnOk result (text.new.items ≡ text.old.items ++ message_lines messages.now) }
{
    for message in messages {
        if encode_into(bytes, message).is_err() {
            return Err(AllocError);
        }
        push_hex(text, bytes)?;
        text.push(b'\n')?;
    }
    Ok(())
}
