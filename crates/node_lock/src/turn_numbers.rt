//! Numbers for the turns of all nodes of a run.

ghost use Rattle.std.specs.Prelude.{◌≡◌, [], IfOk};
ghost use Rattle.node_lock.specs.Drawing.{DrawsNext};

use atomic_table::{Play, Seat, Split, Table, TableRule};
use std::alloc::{AllocError, Global};
use std::collections::LinkedList;
use std::marker::Model;
use std::sync::Arc;

/// What is known of one node's numbers: which it drew, the last of them first. No value of it is made.
pub struct Drawn {
    pub numbers: LinkedList<u64>,
}

/// Of all nodes: each number below the count of those that were drawn was drawn once, and no other one was.
pub struct EachOnce;

impl TableRule<(), Drawn, ()> for EachOnce {
    ghost use Rattle.node_lock.specs.Drawing.{AreDrawn, nothing_drawn};

    ghost holds = { λ _. AreDrawn };

    ghost first = { λ _. nothing_drawn };
}

/// The next number is drawn.
struct Next;

impl Play<(), Drawn> for Next {
    ghost use Rattle.node_lock.specs.Drawing.{draws_next};

    ghost then = { draws_next };
}

/// One node more, which drew nothing yet.
struct Another;

impl Split<Drawn> for Another {
    ghost use Rattle.node_lock.specs.Drawing.{nothing_drawn};

    ghost left = { λ v. v };

    ghost right = { λ v. nothing_drawn };
}

/// Gives each turn of all nodes of a run a number of its own, from 0. They suffice for all turns of a run: 128 nodes take at most 2^23.
///
/// A turn draws its number with its node's lock held, once it has the message that it is brought and before any that it sends is on a
/// link. So turns of one node have rising numbers, and the turn that is brought a message has a greater one than the turn that sent it.
#[derive(Drop)]
pub struct TurnNumbers {
    table: Arc<Table<(), Drawn, (), EachOnce, Global>, Global>,
    seat: Seat<(), Drawn>,
}

impl Model for TurnNumbers {
    ghost use Rattle.std.specs.Prelude.{◌≡◌};
    ghost use Rattle.std.specs.Arc.{arc_value};
    ghost use Rattle.node_lock.specs.Drawing.{Numbers};

    ghost Value = { Numbers };

    ghost view = { λ a. record { counter = a.seat.table_id; drawn = a.seat.me.0.numbers } };

    ghost invariant = { λ a. ((arc_value a.table).shared.table_id.words ≡ 1) × (a.seat.table_id ≡ (arc_value a.table).shared.table_id) };
}

impl TurnNumbers {
    pub fn new(alloc: Global) -> Result<TurnNumbers, AllocError>
        ensures { IfOk result (λ numbers. numbers.drawn ≡ []) }
    {
        let (table, seat) = Table::of_words(alloc, &[0], &())?;
        let table = Arc::new(alloc, table)?;
        Ok(TurnNumbers { table, seat })
    }

    /// The same numbers for one more node.
    pub fn try_clone(&mut self) -> Result<TurnNumbers, AllocError>
        ensures none { IfOk result (λ numbers. (numbers.drawn ≡ []) × (numbers.counter ≡ self.old.counter)) }
        ensures same { self.new ≡ self.old }
    {
        let table = Arc::try_clone(&self.table)?;
        let seat = self.table.shared.split_seat::<Another>(&mut self.seat);
        Ok(TurnNumbers { table, seat })
    }

    /// The next number.
    pub(crate) fn draw(&mut self) -> u32
        // Promise: Of all nodes of a run, each number from 0 on is drawn by one turn, and none is left out; those of a node rise.
        // Refuses: one_number_for_all, numbers_skipped.
        ensures { DrawsNext self.old result self.new }
    {
        let count = self.table.shared.fetch_add::<Next>(&mut self.seat, 0, 1);
        (count % (1 << 32)) as u32
    }
}
