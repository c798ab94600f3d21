//! Side metadata (MMTk): a field of bits for each region of a heap, packed in a row of words.
#![tactic(auto)]

mod bits;
mod fields;
mod places;
mod row;
mod single_bits;
mod spec;
mod word;

pub use bits::{clear, set, test};
pub use fields::{field, set_field};
pub use places::place;
pub use row::Words;
pub use single_bits::{clear_bit, set_bit, test_bit};
pub use spec::Spec;
pub use word::BITS_PER_WORD;

#[cfg(test)]
mod tests;
