//! Reading and writing fields of 1 to 64 bits.

ghost use Rattle.std.specs.Prelude.{◌≡◌, ◌-◌, ◌<◌, ◌≤◌, ◌^◌, ℕ, length, slice_index};
ghost use Rattle.side_meta.specs.Fields.{place_word, field_bits, field_value, ChangesField};

use crate::places::place;
use crate::row::Words;
use crate::spec::Spec;
use crate::word::BITS_PER_WORD;

/// The value of the field of an address.
pub fn field<W: Words>(words: &W, spec: &Spec, address: u32) -> u64
    requires from { spec.now.heap ≤ address }
    requires index { place_word spec.now address < 2 ^ 32 }
    requires word { place_word spec.now address < length (W.words words.now) }
    ensures { result ≡ field_value (W.words words.now) spec.now address }
{
    let (word, shift) = place(spec, address);
    words.get(word) >> shift & ones(spec)
}

/// Sets the field of an address to `value`. No other bit of the row changes.
pub fn set_field<W: Words>(words: &mut W, spec: &Spec, address: u32, value: u64)
    requires from { spec.now.heap ≤ address }
    requires index { place_word spec.now address < 2 ^ 32 }
    requires word { place_word spec.now address < length (W.words words.old) }
    requires value { value < 2 ^ field_bits spec.now }
    ensures field { field_value (W.words words.new) spec.now address ≡ value }
    ensures alone { ChangesField (W.words words.old) (W.words words.new) spec.now address }
    ensures fit { (k : ℕ) → slice_index (W.words words.new) k < 2 ^ 64 }
{
    let (word, shift) = place(spec, address);
    let rest = words.get(word) & !(ones(spec) << shift);
    words.set(word, rest | value << shift);
}

/// A field with all bits set, in the low bits of a word.
fn ones(spec: &Spec) -> u64
    ensures { result ≡ 2 ^ field_bits spec.now - 1 }
{
    u64::MAX >> (BITS_PER_WORD - (1u32 << spec.log_bits))
}
