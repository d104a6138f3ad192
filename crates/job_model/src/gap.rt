//! Items of which some in the middle are free, as in an editor's text: beside the free ones others are taken out without a move.

ghost use Rattle.std.specs.Prelude.{◌≡◌, ◌+◌, ◌-◌, ◌<◌, ◌≤◌, ◌++◌, length, take, drop, slice_get, option_copied, vec_capacity};
ghost use Rattle.job_model.specs.Gaps.{beside, IsWithin};

/// The items from the one place up to the other are free.
#[derive(Clone, Copy, Debug)]
pub(crate) struct Gap {
    before: usize,
    behind: usize,
    // how many items have moved in place of the gap since it did
    moved: usize,
}

impl Gap {
    /// Nothing is free.
    pub(crate) fn none() -> Gap
        ensures { result ≡ record { before = 0; behind = 0; moved = 0 } }
    {
        Gap {
            before: 0,
            behind: 0,
            moved: 0,
        }
    }

    /// How many items are free.
    #[inline]
    pub(crate) fn width(self) -> usize
        requires { self.before ≤ self.behind }
        ensures { result ≡ self.behind - self.before }
    {
        self.behind - self.before
    }
}

/// The items before the gap, and those behind it.
#[inline]
pub(crate) fn sides<T>(items: &[T], gap: Gap) -> (&[T], &[T])
    requires { IsWithin gap (length items.now) }
    ensures before { result.0.now ≡ take gap.before items.now }
    ensures behind { result.1.now ≡ drop gap.behind items.now }
    ensures count { length result.0.now + length result.1.now ≤ length items.now }
{
    (&items[..gap.before], &items[gap.behind..])
}

/// The item in this place, of those before a gap and those behind it.
#[inline]
#[tactic(auto, using(crate::proofs::Gapped::item_before, crate::proofs::Gapped::item_behind))]
pub(crate) fn item_at<'a, T>(before: &'a [T], behind: &'a [T], place: usize) -> Option<&'a T>
    ensures { option_copied result ≡ slice_get (before.now ++ behind.now) place }
{
    if place < before.len() {
        before.get(place)
    } else {
        behind.get(place - before.len())
    }
}

/// Takes the item in this place out, and the gap moves there: so items that go one beside another move no others.
///
/// Where there are fewer items behind the place than between it and the gap, those move in place of the gap, until as many have moved as
/// the gap would. So in all at most three times as many items move as if always the shorter side did.
pub(crate) fn take_out<T: Copy>(items: &mut Vec<T>, gap: &mut Gap, place: usize)
    requires within { IsWithin gap.old (length items.old.items) }
    requires there { place < length (beside gap.old items.old.items) }
    ensures items { beside gap.new items.new.items ≡ take place (beside gap.old items.old.items) ++ drop (place + 1) (beside gap.old items.old.items) }
    ensures within { IsWithin gap.new (length items.new.items) }
    ensures capacity { vec_capacity items.new ≡ vec_capacity items.old }
{
    if place < gap.before {
        take_out_before(items, gap, place);
        return;
    }
    let between = place - gap.before;
    let at = gap.behind + between;
    let after = items.len() - 1 - at;
    if after == 0 || after < between && gap.moved < between {
        items.remove(at);
        gap.moved = gap.moved.saturating_add(after);
    } else {
        items.as_mut_slice().copy_within(gap.behind..at, gap.before);
        *gap = Gap {
            before: place,
            behind: at + 1,
            moved: 0,
        };
    }
}

// Takes the item in this place before the gap out: those between it and the gap move behind the gap.
fn take_out_before<T: Copy>(items: &mut Vec<T>, gap: &mut Gap, place: usize)
    requires within { IsWithin gap.old (length items.old.items) }
    requires there { place < gap.old.before }
    ensures items { beside gap.new items.new.items ≡ take place (beside gap.old items.old.items) ++ drop (place + 1) (beside gap.old items.old.items) }
    ensures within { IsWithin gap.new (length items.new.items) }
    ensures capacity { vec_capacity items.new ≡ vec_capacity items.old }
{
    let from = place + 1;
    let behind = gap.behind - (gap.before - from);
    items.as_mut_slice().copy_within(from..gap.before, behind);
    *gap = Gap {
        before: place,
        behind,
        moved: 0,
    };
}

/// The items behind the gap move to those before it.
pub(crate) fn close<T: Copy>(items: &mut Vec<T>, gap: &mut Gap)
    requires { IsWithin gap.old (length items.old.items) }
    ensures items { items.new.items ≡ beside gap.old items.old.items }
    ensures gap { gap.new ≡ record { before = 0; behind = 0; moved = 0 } }
    ensures capacity { vec_capacity items.new ≡ vec_capacity items.old }
{
    cut(items, gap.before, gap.behind);
    *gap = Gap::none();
}

/// Takes the items from one place up to another out.
pub(crate) fn cut<T: Copy>(items: &mut Vec<T>, from: usize, to: usize)
    requires { (from ≤ to) × (to ≤ length items.old.items) }
    ensures items { items.new.items ≡ take from items.old.items ++ drop to items.old.items }
    ensures capacity { vec_capacity items.new ≡ vec_capacity items.old }
{
    let left = items.len() - (to - from);
    items.as_mut_slice().copy_within(to.., from);
    items.truncate(left);
}
