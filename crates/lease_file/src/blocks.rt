// Blocks of 2^32 epochs: a count of them allows the epochs of its own block and of those below it.
ghost use Rattle.std.specs.Prelude.{◌≡◌, ◌/◌, ◌^◌, ◌<◌};
ghost use Rattle.lease_file.specs.Blocks.{bound_of};

/// The count that allows the last epoch of 64 bits.
pub(crate) const LAST: u64 = 4_294_967_295;

/// The greatest epoch of 64 bits that a count allows.
pub(crate) fn bound_of(count: u64) -> u64
    ensures { result ≡ bound_of count }
{
    if count >= LAST {
        return u64::MAX;
    }
    (count + 1) * 4_294_967_296 - 1
}

/// The least count that allows an epoch.
pub(crate) fn block_of(epoch: u64) -> u64
    ensures value { result ≡ epoch / 2 ^ 32 }
    ensures fits { result < 2 ^ 32 }
{
    epoch / 4_294_967_296
}
