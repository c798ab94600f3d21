//! The description of one kind of side metadata.

ghost use Rattle.std.specs.Prelude.{◌≤◌};

/// One kind of side metadata: each region of `2 ^ log_region` addresses has a field of
/// `2 ^ log_bits` bits.
///
/// The fields lie side by side from bit 0 of word `zone` on. The first field belongs to the region
/// that starts at address `heap`. MMTk has the same side metadata, in bytes instead of words.
#[derive(Clone, Copy, Debug, PartialEq, Eq)]
pub struct Spec {
    /// The index of the first word that contains fields.
    pub zone: u32,
    /// The first address that has a field.
    pub heap: u32,
    /// The binary logarithm of the number of addresses per region, at most 31.
    pub log_region: u32,
    /// The binary logarithm of the number of bits per field, at most 6: a field is at most a word.
    pub log_bits: u32,
    pub ghost region: { log_region ≤ 31 },
    pub ghost bits: { log_bits ≤ 6 },
}
