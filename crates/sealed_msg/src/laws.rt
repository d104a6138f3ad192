// Laws of seals: the contracts of functions that do nothing.
ghost use Rattle.std.specs.Prelude.{◌≡◌, ◌↔◌, ◌<◌, ◌^◌, List, ℕ, Some};
ghost use Rattle.sealed_msg.specs.Sealing.{opened, sealed, AreBytes};
ghost use Rattle.sealed_msg.specs.Cluster.{context};
ghost use Rattle.sealed_msg.specs.Lives.{life_text};
ghost use Rattle.sealed_msg.specs.declared.stamp.Stamp.{Stamp};

/// Bytes are opened to a message and a stamp exactly where these are sealed to them under the key; so they are the sealing of one message
/// at most, with one stamp.
pub fn opened_as_sealed()
    ensures { (key bytes message : List ℕ) (stamp : Stamp) → AreBytes bytes → stamp.life < 2 ^ 64 → stamp.number < 2 ^ 64 → (opened key bytes ≡ Some (message, stamp)) ↔ (bytes ≡ sealed key message stamp) }
{}

/// What the key of a cluster is bound to tells clusters apart: one context is of one name, and of one number of nodes.
pub fn clusters_are_apart()
    ensures { (m n : ℕ) (one other : List ℕ) → context m one ≡ context n other → (m ≡ n) × (one ≡ other) }
{}

/// What the key of a life is bound to tells lives apart.
pub fn lives_are_apart()
    ensures { (one other : List ℕ) → life_text one ≡ life_text other → one ≡ other }
{}
