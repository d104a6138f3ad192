// The key of a cluster's leases.
ghost use Rattle.std.specs.Prelude.{◌≡◌, ℕ, List, IfOk};
ghost use Rattle.sealed_msg.specs.Cluster.{context};
ghost use Rattle.lease_session.specs.Key.{lease_context, lease_key};

use sealed_msg::Key;
use std::alloc::{AllocError, Global};

/// The key by which so many machines of the cluster of this name seal messages of leases, by the secret that their operator gave.
pub fn lease_key(
    alloc: Global,
    secret: &[u8],
    machines: u8,
    cluster: &[u8],
) -> Result<Key, AllocError>
    // Promise: The key of a cluster's leases is the tag, under the secret, of the format, the number of machines and the name. No text of
    // which such a key is made is one of which a key of nodes is made, and no two clusters have one.
    // Also: leases_are_apart.
    // Refuses: leases_sealed_as_nodes.
    ensures { IfOk result (λ key. key ≡ lease_key secret.now machines cluster.now) }
{
    let mut context = Vec::from_slice(alloc, b"dumgerok leases 1")?;
    context.push(machines)?;
    context.extend_from_slice(cluster)?;
    Ok(Key::new(Key::new(secret).tag(&context).as_slice()))
}

/// What the key of leases is bound to is nothing to which a key of nodes is bound, and tells clusters apart.
pub fn leases_are_apart()
    ensures nodes { (m n : ℕ) (one other : List ℕ) → lease_context m one ≡ context n other → ⊥ }
    ensures clusters { (m n : ℕ) (one other : List ℕ) → lease_context m one ≡ lease_context n other → (m ≡ n) × (one ≡ other) }
{}
