//! The words of a new object.

ghost use Rattle.std.specs.Prelude.{◌≡◌, ℕ, ◌+◌, ◌<◌, ◌≤◌, ◌⊎◌, length, slice_index};
ghost use Rattle.ideal_heap.specs.Names.{IsName, name_code};
ghost use Rattle.object_model.specs.Objects.{size_of, shape_code};

use crate::shape::{COLLECTOR_OFFSET, SHAPE_OFFSET, Shape, encode_shape, size_words};
use ideal_heap::{MAX_NUMS, MAX_REFS, Name};
use shared_row::WordRow;

/// The factor of the birth number in a name word. The mutator is below it.
pub(crate) const BIRTH_UNIT: u64 = 32;

/// The word that encodes an object's name: the mutator in its low 5 bits, the birth number above.
fn encode_name(name: &Name) -> u64
    requires { IsName name.now }
    ensures { result ≡ name_code name.now }
{
    BIRTH_UNIT * name.birth as u64 + name.mutator as u64
}

/// Writes name and shape at `address`, and zeros to the other words of the object. No collection
/// has claimed an object whose collector word is 0.
pub(crate) fn write_words(words: &mut WordRow, address: u32, name: &Name, shape: &Shape)
    requires refs { shape.now.refs ≤ MAX_REFS }
    requires nums { shape.now.nums ≤ MAX_NUMS }
    requires room { address + size_of shape.now.refs shape.now.nums ≤ length words.old }
    requires name { IsName name.now }
    ensures len { length words.new ≡ length words.old }
    ensures name { slice_index words.new address ≡ name_code name.now }
    ensures shape { slice_index words.new (address + SHAPE_OFFSET)
        ≡ shape_code shape.now.refs shape.now.nums }
    ensures blank { (i : ℕ) → COLLECTOR_OFFSET ≤ i → i < size_of shape.now.refs shape.now.nums
        → slice_index words.new (address + i) ≡ 0 }
    ensures others { (i : ℕ)
        → (i < address) ⊎ (address + size_of shape.now.refs shape.now.nums ≤ i)
        → slice_index words.new i ≡ slice_index words.old i }
{
    let at = address as usize;
    let end = at + size_words(shape) as usize;
    words.set(at, encode_name(name));
    words.set(at + SHAPE_OFFSET as usize, encode_shape(shape));
    words.fill(at + COLLECTOR_OFFSET as usize, end);
}
