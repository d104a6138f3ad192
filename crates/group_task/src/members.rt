ghost use Rattle.std.specs.Prelude.{◌≡◌, ◌<◌, ◌≤◌, [], ◌∷◌, length, slice_index, MatchOption, IsTrue, ◌↔◌, true};
ghost use Rattle.std.specs.Iterator.{YieldsFirst, item_count};
ghost use Rattle.group_task.specs.Ids.{IsSet, has, with_id, without_id, either_of, ids_below, are_below};
ghost use Rattle.group_task.specs.declared.node.TheConstants.{NODES};

use crate::node::NodeId;
use std::alloc::{AllocError, Global};
use std::marker::Model;

/// A set of nodes, which contracts see as the rising list of its identifiers.
///
/// Bit `i` of the word stands for node `i`.
#[derive(Clone, Copy, Debug)]
pub struct Members {
    word: u128,
}

impl Model for Members {
    ghost use Rattle.std.specs.Prelude.{ℕ, List, ◌<◌, ◌^◌};
    ghost use Rattle.group_task.specs.Bits.{ids_of, word_of, word_of-ids_of};
    ghost use Rattle.group_task.specs.declared.node.TheConstants.{NODES};
    ghost use Rattle.std.proofs.Common.{ap};

    ghost Value = { List ℕ };

    ghost view = { λ a. ids_of a.word };

    ghost invariant = { λ a. a.word < 2 ^ NODES };

    ghost inverse = { λ xs. record { word = word_of xs } };

    ghost inverse_ok = { λ a h. ap (λ w. record { word = w }) (word_of-ids_of a.word h) };
}

impl Members {
    /// The empty set.
    #[tactic(auto, unfolding(crate::specs::Bits::ids_of))]
    #[inline]
    pub fn new() -> Members
        // Promise: A set of nodes is a rising list of ids below 128, whatever the word of bits behind it.
        // Also: Members::below, Members::len, Members::is_empty, Members::contains, Members::first, Members::get, Members::iter,
        // job_model::JobTable::next, Members::insert, Members::remove, Members::pop_first, Members::with, Members::without,
        // Members::or, Members::are_below.
        // Refuses: node_0_in_the_empty_set, node_0_left_out, absent_nodes_counted, one_node_counted_as_none, absent_for_present,
        // greatest_for_first, owner_by_wrong_bit_of_the_upper_word, place_before, nothing_gone_over, same_node_again_and_again,
        // member_added_twice_is_out, all_others_removed, least_member_stays, with_takes_out, without_puts_in, both_for_either,
        // other_sets_are_equal.
        ensures { result ≡ [] }
    {
        Members { word: 0 }
    }

    /// All nodes of a cluster of so many.
    pub fn below(nodes: u8) -> Members
        requires { nodes ≤ NODES }
        ensures { result ≡ ids_below nodes }
    {
        let mut all = Members::new();
        for number in 0..nodes {
            all.insert(NodeId::numbered(number));
        }
        all
    }

    /// The nodes stand in rising order, each once, and below [`NODES`](crate::NODES). This function is the law, and does nothing.
    #[tactic(auto, using(crate::proofs::Words::set_word))]
    #[inline]
    pub(crate) fn rise(&self)
        ensures { IsSet self.now }
    {
        let _word = self.word;
    }

    /// How many nodes the set has.
    #[tactic(auto, using(crate::proofs::Words::length_word, crate::proofs::Words::set_word, crate::proofs::Words::few_members))]
    #[inline]
    pub fn len(&self) -> usize
        ensures value { result ≡ length self.now }
        ensures set { IsSet self.now }
        ensures few { length self.now ≤ NODES }
    {
        self.word.count_ones() as usize
    }

    /// Whether the set has no node.
    #[inline]
    pub fn is_empty(&self) -> bool
        ensures { IsTrue result ↔ (self.now ≡ []) }
    {
        self.len() == 0
    }

    /// Whether the node is in the set.
    #[tactic(auto, using(crate::proofs::Words::contains_word))]
    #[inline]
    pub fn contains(&self, id: NodeId) -> bool
        ensures { result ≡ has self.now id }
    {
        self.word >> id.number() & 1 == 1
    }

    /// Whether all nodes of the set are below this one.
    #[tactic(auto, using(crate::proofs::Words::below_word))]
    #[inline]
    pub fn are_below(&self, limit: NodeId) -> bool
        ensures { result ≡ are_below limit self.now }
    {
        self.word >> limit.number() == 0
    }

    /// The node of the least identifier: the others are the set without it.
    #[inline]
    pub fn first(&self) -> Option<NodeId>
        ensures { MatchOption result (self.now ≡ []) (λ id. self.now ≡ id ∷ without_id self.now id) }
    {
        NodeId::new(self.word.trailing_zeros() as u8)
    }

    /// The node at this place of the rising order, counted from 0.
    pub fn get(&self, place: usize) -> NodeId
        requires { place < length self.now }
        ensures value { result ≡ slice_index self.now place }
        ensures member { has self.now result ≡ true }
    {
        let mut left = *self;
        for _ in 0..place {
            left.pop_first();
        }
        left.pop_first().unwrap()
    }

    /// The nodes in rising order.
    #[inline]
    pub fn iter(&self) -> Iter
        ensures { result ≡ self.now }
    {
        Iter { left: *self }
    }

    /// Adds a node, which may be there already.
    #[tactic(auto, using(crate::proofs::Words::insert_word, crate::proofs::Words::or_fits))]
    #[inline]
    pub fn insert(&mut self, id: NodeId)
        ensures { self.new ≡ with_id self.old id }
    {
        self.word |= 1 << id.number();
    }

    /// Takes a node out, which may be absent.
    #[tactic(auto, using(crate::proofs::Words::remove_word))]
    #[inline]
    pub fn remove(&mut self, id: NodeId)
        ensures { self.new ≡ without_id self.old id }
    {
        self.word &= !(1 << id.number());
    }

    /// Takes the node of the least identifier out.
    #[tactic(auto, using(crate::proofs::Words::pop_word))]
    #[inline]
    pub fn pop_first(&mut self) -> Option<NodeId>
        ensures { MatchOption result ((self.old ≡ []) × (self.new ≡ [])) (λ id. self.old ≡ id ∷ self.new) }
    {
        let first = self.first()?;
        // the lowest bit is the first node's
        self.word &= self.word - 1;
        Some(first)
    }

    /// The set with this node in it.
    #[inline]
    pub fn with(self, id: NodeId) -> Members
        ensures { result ≡ with_id self id }
    {
        let mut ids = self;
        ids.insert(id);
        ids
    }

    /// The set without this node.
    #[inline]
    pub fn without(self, id: NodeId) -> Members
        ensures { result ≡ without_id self id }
    {
        let mut ids = self;
        ids.remove(id);
        ids
    }

    /// The nodes of either set.
    #[tactic(auto, using(crate::proofs::Words::either_word, crate::proofs::Words::or_fits))]
    #[inline]
    pub fn or(self, other: Members) -> Members
        ensures { result ≡ either_of self other }
    {
        Members {
            word: self.word | other.word,
        }
    }
}

impl PartialEq for Members {
    ghost use Rattle.std.specs.Prelude.{nat_eq};
    ghost use Rattle.std.specs.Cmp.Lexicographic.{pointwise};
    ghost use Rattle.std.specs.Cmp.{partial_equiv_from_equiv};
    ghost use Rattle.std.proofs.lemmas.Cmp.{nat_list_eq_equiv};

    ghost eq = { pointwise nat_eq };

    ghost laws = { partial_equiv_from_equiv nat_list_eq_equiv };

    #[tactic(auto, using(crate::proofs::Words::same_word))]
    #[inline]
    fn eq(&self, other: &Members) -> bool {
        self.word == other.word
    }
}

impl Eq for Members {
    ghost use Rattle.std.proofs.lemmas.Cmp.{nat_list_eq_equiv};

    ghost laws = { nat_list_eq_equiv };
}

impl IntoIterator for Members {
    type Item = NodeId;

    type IntoIter = Iter;

    ghost into_iter_gives = { λ s r. r ≡ s };

    #[inline]
    fn into_iter(self) -> Iter {
        self.iter()
    }
}

impl<'a> IntoIterator for &'a Members {
    type Item = NodeId;

    type IntoIter = Iter;

    ghost into_iter_gives = { λ s r. r ≡ s.now };

    #[inline]
    fn into_iter(self) -> Iter {
        self.iter()
    }
}

/// A set takes no memory, so collecting never fails; the allocator is what the trait has.
impl FromIterator<NodeId> for Members {
    ghost use Rattle.group_task.specs.Ids.{with_all};

    type Alloc = Global;

    ghost from_iter_gives = { λ ids made. made ≡ with_all [] ids };

    #[tactic(auto, using(crate::proofs::Words::with_all_more))]
    fn from_iter<U: IntoIterator<Item = NodeId>>(
        _alloc: Global,
        iter: U,
    ) -> Result<Members, AllocError> {
        let mut made = Members::new();
        for id in iter {
            made.insert(id);
        }
        Ok(made)
    }
}

/// The nodes of a set, from the least identifier on.
#[derive(Clone, Copy, Debug)]
pub struct Iter {
    left: Members,
}

impl Model for Iter {
    ghost use Rattle.std.specs.Prelude.{ℕ, List};

    ghost Value = { List ℕ };

    ghost view = { λ a. a.left };

    ghost inverse = { λ xs. record { left = xs } };
}

impl Iterator for Iter {
    type Item = NodeId;

    ghost next_gives = { YieldsFirst (λ s. s) };

    ghost remaining = { item_count (λ s. s) };

    #[inline]
    fn next(&mut self) -> Option<NodeId> {
        self.left.pop_first()
    }
}
