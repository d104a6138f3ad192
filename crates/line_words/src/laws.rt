//! What the definition of numbers says, in other words: the contract of a function that does nothing.

ghost use Rattle.std.specs.Prelude.{◌≡◌, ◌<◌, ◌^◌, ℕ, List, Some};
ghost use Rattle.std.specs.Fmt.{decimal};
ghost use Rattle.line_words.specs.Words.{number_of};

/// Each number below 2^64 is read from its decimal digits, and from no other word.
pub fn numbers()
    // Promise: Each number below 2^64 is read from its decimal digits, and from no other word. Said over the definition alone.
    ensures spelled { (n : ℕ) → n < 2 ^ 64 → number_of (decimal n) ≡ Some n }
    ensures only { (word : List ℕ) (n : ℕ) → number_of word ≡ Some n → (word ≡ decimal n) × (n < 2 ^ 64) }
{}
