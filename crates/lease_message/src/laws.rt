ghost use Rattle.std.specs.Prelude.{◌≡◌, ℕ, List};
ghost use Rattle.lease_message.specs.declared.message.LeaseMessage.{LeaseMessage as Message};
ghost use Rattle.lease_message.specs.Spelling.{Spells};

/// Each message has one spelling, and each spelling is that of one message.
pub fn one_spelling()
    // Promise: A message has one spelling, and bytes spell one message at most. Said over the definition alone.
    ensures bytes { (m : Message) (a b : List ℕ) → Spells m a → Spells m b → a ≡ b }
    ensures message { (m n : Message) (bytes : List ℕ) → Spells m bytes → Spells n bytes → m ≡ n }
{}
