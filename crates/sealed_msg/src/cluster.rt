// The key of a cluster.
ghost use Rattle.std.specs.Prelude.{◌≡◌, IfOk};
ghost use Rattle.sealed_msg.specs.Cluster.{cluster_key};

use crate::hmac::Key;
use std::alloc::{AllocError, Global};

/// The key of the cluster of so many nodes and of this name, by the secret that its operator gave. Clusters with one secret, but another name or
/// number of nodes, have other keys.
pub fn cluster_key(alloc: Global, secret: &[u8], nodes: u8, name: &[u8]) -> Result<Key, AllocError>
    // Promise: The key of a cluster is the tag, under the secret, of the format, the number of nodes and the name; no two contexts
    // are one.
    // Also: clusters_are_apart.
    // Refuses: key_of_another_cluster_taken, nodes_not_bound, secret_not_bound.
    ensures { IfOk result (λ key. key ≡ cluster_key secret.now nodes name.now) }
{
    let mut context = Vec::from_slice(alloc, b"dumgerok sealed 1")?;
    context.push(nodes)?;
    context.extend_from_slice(name)?;
    Ok(Key::new(Key::new(secret).tag(&context).as_slice()))
}
