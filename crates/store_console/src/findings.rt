//! What the bytes of a store show of rot.

/// What no crash leaves, or what may tell of an older state.
#[derive(Clone, Copy, Debug, PartialEq, Eq)]
pub enum Finding {
    /// The numbers in both slots of the counter, of which none is one above the other.
    CounterSlots(u64, u64),
    /// The same of the area cell.
    AreaSlots(u64, u64),
    /// The number that comes next stands in a slot of the counter that isn't sealed.
    CounterUnsealed(u64),
    /// The first slot behind the journal's end that is sealed, by its body's sector.
    SealedBehind(u64),
    /// The next id of the other area, and that of the present one, which is smaller.
    OtherAreaNextId(u64, u64),
    /// The job of this id stands in both areas, and not the same.
    JobDiffers(u64),
}
