//! After the run: the two ends of each link are put together.

ghost use Rattle.std.specs.Prelude.{◌≢◌, ◌<◌, IfOk, IfSome, OnOk, vec_len};
ghost use Rattle.node_threads.specs.Links.{AreGathered, GatheredMore, TookEnds};

use crate::ends::Left;
use crate::fault::ThreadsFault;
use link_ring::{LinkEnd, PutEnd, TakeEnd, gather};
use std::alloc::Global;

/// A link for each ordered pair of different nodes, by sender and then receiver.
pub(crate) fn gather_links(alloc: Global, mut left: Vec<Left>) -> Result<Vec<LinkEnd>, ThreadsFault>
    ensures { IfOk result (λ links. AreGathered left.items links.items) }
{
    let mut links = Vec::new(alloc);
    for sender in 0..left.len() {
        gather_sender(sender, &mut left, &mut links)?;
    }
    Ok(links)
}

/// The links from one node to each other one.
fn gather_sender(
    sender: usize,
    left: &mut Vec<Left>,
    links: &mut Vec<LinkEnd>,
) -> Result<(), ThreadsFault>
    requires { sender < vec_len left.old }
    ensures { OnOk result (GatheredMore sender left.old.items left.new.items links.old.items links.new.items) }
{
    for receiver in 0..left.len() {
        if receiver != sender {
            let (put, take) = next_ends(sender, receiver, left).ok_or(ThreadsFault::Unpaired)?;
            let Ok(link) = gather(put, take) else {
                return Err(ThreadsFault::Unpaired);
            };
            links.reserve(1).map_err(|_| ThreadsFault::NoMemory)?;
            links.push_reserved(link);
        }
    }
    Ok(())
}

/// The next two ends of one link: the sender's to another node, and the receiver's from another node.
fn next_ends(sender: usize, receiver: usize, left: &mut Vec<Left>) -> Option<(PutEnd, TakeEnd)>
    requires { (sender < vec_len left.old) × (receiver < vec_len left.old) × (receiver ≢ sender) }
    ensures { IfSome result (λ ends. TookEnds sender receiver ends.0 ends.1 left.old.items left.new.items) }
{
    let put = left[sender].next_put()?;
    let take = left[receiver].next_take()?;
    Some((put, take))
}
