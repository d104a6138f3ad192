// What users were told that they hold.
ghost use Rattle.std.specs.Prelude.{◌≡◌, ◌≤◌, ◌++◌, [], ◌∷◌, Some, IfSome, IsNone, OnOk, true};
ghost use Rattle.lease_session.specs.Holding.{last_told};
ghost use Rattle.lease_session.specs.Telling.{NoneUpTo, told_of, without};

use lease_message::LeaseName;
use std::alloc::AllocError;

/// A lease that the user of a name was told last that it holds, and not since that it is lost.
#[derive(Clone, Copy, Debug, PartialEq, Eq)]
pub(crate) struct Told {
    pub(crate) name: LeaseName,
    pub(crate) user: u64,
    pub(crate) epoch: u64,
    pub(crate) until: u64,
}

/// The epoch under which the user of a name was told so.
fn told_epoch(told: &[Told], name: &LeaseName) -> Option<u64>
    ensures { result ≡ told_of name.now told.now }
{
    for entry in told {
        if entry.name == *name {
            return Some(entry.epoch);
        }
    }
    None
}

/// The epoch under which the user of a name was told so, where it is up to this one.
pub(crate) fn told_up_to(told: &[Told], name: &LeaseName, epoch: u64) -> Option<u64>
    ensures some { IfSome result (λ t. (told_of name.now told.now ≡ Some t) × (t ≤ epoch)) }
    ensures none { IsNone result → NoneUpTo name.now epoch told.now }
{
    match told_epoch(told, name) {
        Some(told) if told <= epoch => Some(told),
        _ => None,
    }
}

/// The user of a name isn't told any more that it holds its lease.
pub(crate) fn forget_told(told: &mut Vec<Told>, name: &LeaseName)
    ensures { told.new.items ≡ without name.now told.old.items }
{
    told.retain(|entry| entry.name != *name);
}

/// What the user of a name was told last, where it wasn't told since that its lease is lost.
fn last_told(told: &[Told], name: &LeaseName) -> Option<Told>
    ensures { result ≡ last_told name.now told.now }
{
    for entry in told {
        if entry.name == *name {
            return Some(*entry);
        }
    }
    None
}

/// Whether this is what its user was told last.
pub(crate) fn is_told(told: &[Told], news: &Told) -> bool
    ensures { result ≡ true → last_told news.now.name told.now ≡ Some news.now }
{
    match last_told(told, &news.name) {
        Some(entry) => entry == *news,
        None => false,
    }
}

/// The user of a name is told that it holds its lease so, and not otherwise.
pub(crate) fn keep_told(told: &mut Vec<Told>, news: &Told) -> Result<(), AllocError>
    ensures { OnOk result (told.new.items ≡ without news.now.name told.old.items ++ news.now ∷ []) }
{
    forget_told(told, &news.name);
    told.push(*news)?;
    Ok(())
}
