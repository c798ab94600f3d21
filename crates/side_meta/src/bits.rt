//! Reading, setting and clearing fields of one bit.

ghost use Rattle.std.specs.Prelude.{◌≡◌, ℕ, ◌<◌, ◌≤◌, ◌^◌, true, false, length, slice_index};
ghost use Rattle.side_meta.specs.Fields.{place_word, is_set, ChangesField};

use crate::fields::{field, set_field};
use crate::row::Words;
use crate::spec::Spec;

/// Whether the bit of an address is 1.
pub fn test<W: Words>(words: &W, spec: &Spec, address: u32) -> bool
    requires bit { spec.now.log_bits ≡ 0 }
    requires from { spec.now.heap ≤ address }
    requires index { place_word spec.now address < 2 ^ 32 }
    requires word { place_word spec.now address < length (W.words words.now) }
    ensures { result ≡ is_set (W.words words.now) spec.now address }
{
    field(words, spec, address) == 1
}

/// Sets the bit of an address to 1. No other bit of the row changes.
pub fn set<W: Words>(words: &mut W, spec: &Spec, address: u32)
    requires bit { spec.now.log_bits ≡ 0 }
    requires from { spec.now.heap ≤ address }
    requires index { place_word spec.now address < 2 ^ 32 }
    requires word { place_word spec.now address < length (W.words words.old) }
    ensures set { is_set (W.words words.new) spec.now address ≡ true }
    ensures alone { ChangesField (W.words words.old) (W.words words.new) spec.now address }
    ensures fit { (k : ℕ) → slice_index (W.words words.new) k < 2 ^ 64 }
{
    set_field(words, spec, address, 1);
}

/// Sets the bit of an address to 0. No other bit of the row changes.
pub fn clear<W: Words>(words: &mut W, spec: &Spec, address: u32)
    requires bit { spec.now.log_bits ≡ 0 }
    requires from { spec.now.heap ≤ address }
    requires index { place_word spec.now address < 2 ^ 32 }
    requires word { place_word spec.now address < length (W.words words.old) }
    ensures clear { is_set (W.words words.new) spec.now address ≡ false }
    ensures alone { ChangesField (W.words words.old) (W.words words.new) spec.now address }
    ensures fit { (k : ℕ) → slice_index (W.words words.new) k < 2 ^ 64 }
{
    set_field(words, spec, address, 0);
}
