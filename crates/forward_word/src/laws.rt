//! Laws of collector words.

ghost use Rattle.std.specs.Prelude.{◌≡◌, ◌↔◌, ℕ, ◌<◌, ◌≤◌, ◌^◌, IsTrue};
ghost use Rattle.forward_word.specs.CollectorWords.{collector_word, number_in, target_in, is_old_word};

use crate::words::{NUMBER_BITS, TARGET_BITS};

/// What is written into a collector word is read back, and what is read from a word is what was
/// written into it. A word of 64 bits has room for number and target, and for nothing else.
pub fn words_read_back()
    ensures number { (n t : ℕ) → t < 2 ^ TARGET_BITS → number_in (collector_word n t) ≡ n }
    ensures target { (n t : ℕ) → t < 2 ^ TARGET_BITS → target_in (collector_word n t) ≡ t }
    ensures word { (w : ℕ) → collector_word (number_in w) (target_in w) ≡ w }
    ensures fits { (n t : ℕ) → n < 2 ^ NUMBER_BITS → t < 2 ^ TARGET_BITS
        → collector_word n t < 2 ^ 64 }
    ensures number_bits { (w : ℕ) → w < 2 ^ 64 → number_in w < 2 ^ NUMBER_BITS }
    ensures target_bits { (w : ℕ) → target_in w < 2 ^ TARGET_BITS }
{}

/// An object is old if and only if there was a full collection, and the last one or a later
/// collection claimed the object.
pub fn old_words()
    ensures { (base w : ℕ) → IsTrue (is_old_word base w)
        ↔ ((0 < base) × (base ≤ number_in w)) }
{}
