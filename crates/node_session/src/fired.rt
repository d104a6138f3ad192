// The line before what an event brings that a tick or a loss made.
ghost use Rattle.std.specs.Prelude.{◌≡◌, ◌++◌, OnOk};
ghost use Rattle.node_session.specs.Text.{fired_line};

use console_text::push_text;
use node_core::Event;
use node_words::event_word;
use std::alloc::AllocError;

pub(crate) fn push_fired(text: &mut Vec<u8>, event: &Event) -> Result<(), AllocError>
    ensures { OnOk result (text.new.items ≡ text.old.items ++ fired_line event.now) }
{
    push_text(text, "fired ")?;
    push_text(text, event_word(event))?;
    push_text(text, "\n")
}
