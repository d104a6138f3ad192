//! Messages of lists, lent as they are kept, so that a set of them takes 16 bytes for each.

use crate::list::MessageList;
use crate::opened::{count, is_same, mark};
use std::hash::{Hash, Hasher};
use std::marker::Model;

/// A message of a list, lent: none is made for it. Two are equal where the messages are.
#[derive(Debug, Drop)]
pub struct LentMessage<'a> {
    pub(crate) list: &'a MessageList,
    pub(crate) place: usize,
}

impl<'a> Model for LentMessage<'a> {
    ghost use Rattle.std.specs.Prelude.{◌<◌, length};
    ghost use Rattle.wire_msg.specs.Envelope.{Envelope};
    ghost use Rattle.message_list.specs.Lent.{message_at};

    ghost Value = { Envelope };

    ghost view = { λ a. message_at a.list.now.messages a.place };

    ghost invariant = { λ a. a.place < length a.list.now.messages };
}

impl<'a> PartialEq for LentMessage<'a> {
    ghost use Rattle.std.specs.Cmp.{on_equiv, partial_equiv_from_equiv};
    ghost use Rattle.std.proofs.lemmas.Cmp.{nat_list_eq_equiv};
    ghost use Rattle.message_list.specs.Lent.{numbers_of, same_message};

    ghost eq = { same_message };

    ghost laws = { partial_equiv_from_equiv (on_equiv numbers_of nat_list_eq_equiv) };

    fn eq(&self, other: &LentMessage<'a>) -> bool {
        is_same(
            &self.list.opened(self.place),
            &other.list.opened(other.place),
        )
    }
}

impl<'a> Eq for LentMessage<'a> {
    ghost use Rattle.std.specs.Cmp.{on_equiv};
    ghost use Rattle.std.proofs.lemmas.Cmp.{nat_list_eq_equiv};
    ghost use Rattle.message_list.specs.Lent.{numbers_of};

    ghost laws = { on_equiv numbers_of nat_list_eq_equiv };
}

impl<'a> Hash for LentMessage<'a> {
    ghost use Rattle.message_list.specs.Lent.{marked, numbers_of, same_mark};

    ghost hash_input = { λ m. marked (numbers_of m) };

    ghost respects_eq = { same_mark };

    fn hash<H: Hasher>(&self, state: &mut H) {
        let opened = self.list.opened(self.place);
        state.write_u128(mark(&opened));
        state.write_u64(count(&opened));
    }
}
