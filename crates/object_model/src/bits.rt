//! Side metadata with one bit for each address.

ghost use Rattle.std.specs.Prelude.{◌≡◌, ◌↔◌, ℕ, IsTrue};
ghost use Rattle.heap_layout.specs.Zones.{heap_of, IsAddress, IsRowOf};
ghost use Rattle.object_model.specs.Objects.{state_over, IsHeld};

use heap_layout::Layout;
use side_meta::{Spec, Words, test};

/// Metadata with one bit for each address of the heap, which begins at word `zone` of the row.
pub fn bit_spec(layout: &Layout, zone: u32) -> Spec
    ensures zone { result.zone ≡ zone }
    ensures heap { result.heap ≡ heap_of layout.now.blocks }
    ensures region { result.log_region ≡ 0 }
    ensures bits { result.log_bits ≡ 0 }
{
    Spec {
        zone,
        heap: layout.heap_base(),
        log_region: 0,
        log_bits: 0,
    }
}

/// Whether the start bit of an address is set in a row of any kind of words.
pub(crate) fn is_held<W: Words>(words: &W, layout: &Layout, address: u32) -> bool
    requires extent { IsRowOf layout.now (W.words words.now) }
    requires address { IsAddress layout.now.blocks address }
    ensures { (number base : ℕ) → IsTrue result
        ↔ IsHeld (state_over (W.words words.now) layout.now number base) address }
{
    let starts = bit_spec(layout, layout.start_base());
    test(words, &starts, address)
}
