// The keys that seal messages.
ghost use Rattle.std.specs.Prelude.{◌≡◌, replicate, IfOk, OnOk, None};
ghost use Rattle.node_session.specs.Seals.{key_to, new_keys, with_life};

use group_task::{NODES, NodeId};
use sealed_msg::Key;
use std::alloc::{AllocError, Global};
use std::marker::Model;

/// The keys that seal messages: that of the cluster, and those of the lives that were told.
#[derive(Drop)]
pub(crate) struct SealingKeys {
    own: Key,
    // of each node whose process told its life
    lives: Vec<Option<Key>>,
}

impl Model for SealingKeys {
    ghost use Rattle.std.specs.Prelude.{◌≡◌, length};
    ghost use Rattle.node_session.specs.Seals.{SealKeys};

    ghost Value = { SealKeys };

    ghost view = { λ keys. record { own = keys.own; lives = keys.lives.items } };

    ghost invariant = { λ keys. length keys.lives.items ≡ 128 };
}

impl SealingKeys {
    /// No life was told yet.
    pub(crate) fn new(alloc: Global, own: Key) -> Result<SealingKeys, AllocError>
        ensures { IfOk result (λ keys. keys ≡ new_keys own) }
    {
        let lives = no_lives(alloc)?;
        Ok(SealingKeys { own, lives })
    }

    /// From now on messages to a node are sealed for a process of this life.
    pub(crate) fn tell(
        &mut self,
        alloc: Global,
        node: NodeId,
        life: &[u8],
    ) -> Result<(), AllocError>
        ensures { OnOk result (self.new ≡ with_life self.old node life.now) }
    {
        let key = self.own.of_life(alloc, life)?;
        self.lives[usize::from(node.number())] = Some(key);
        Ok(())
    }

    /// The key of messages to a node; to one that isn't named it is the cluster's.
    pub(crate) fn key_to(&self, node: Option<NodeId>) -> &Key
        ensures { result.now ≡ key_to self.now node }
    {
        let Some(node) = node else {
            return &self.own;
        };
        match &self.lives[usize::from(node.number())] {
            Some(key) => key,
            None => &self.own,
        }
    }
}

fn no_lives(alloc: Global) -> Result<Vec<Option<Key>>, AllocError>
    ensures { IfOk result (λ lives. lives.items ≡ replicate 128 None) }
{
    let mut lives = Vec::new(alloc);
    for _node in 0..NODES {
        lives.push(None)?;
    }
    Ok(lives)
}
