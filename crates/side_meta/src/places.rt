//! The position of a field in the row.

ghost use Rattle.std.specs.Prelude.{◌≡◌, ◌<◌, ◌≤◌, ◌^◌};
ghost use Rattle.side_meta.specs.Fields.{place_word, place_shift};

use crate::spec::Spec;

/// The position of the field of an address: the index of its word, and the index of its lowest bit
/// in that word.
pub fn place(spec: &Spec, address: u32) -> (u32, u32)
    requires from { spec.now.heap ≤ address }
    requires word { place_word spec.now address < 2 ^ 32 }
    ensures { result ≡ (place_word spec.now address, place_shift spec.now address) }
{
    let index = (address - spec.heap) >> spec.log_region;
    let bit = (index as u64) << spec.log_bits;
    ((spec.zone as u64 + (bit >> 6)) as u32, (bit & 63) as u32)
}
