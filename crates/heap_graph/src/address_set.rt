//! A set of heap addresses.

ghost use Rattle.std.specs.Prelude.{◌≡◌, ◌*◌, length};
ghost use Rattle.heap_layout.specs.declared.layout.TheConstants.{BLOCK_BIT_WORDS};

use heap_layout::{BLOCK_BIT_WORDS, Layout};
use object_model::bit_spec;
use side_meta::{set, test};
use std::alloc::{AllocError, Global};

/// A set of addresses, with one bit for each word of the heap.
#[derive(Debug, Drop)]
pub(crate) struct AddressSet {
    words: Vec<u64>,
    layout: Layout,
    pub ghost extent: { length words.items ≡ BLOCK_BIT_WORDS * layout.blocks },
}

impl AddressSet {
    ghost use Rattle.std.specs.Prelude.{◌≡◌, ◌≢◌, ℕ, true, false, not, OnOk, IfOk};
    ghost use Rattle.heap_layout.specs.Zones.{IsAddress};
    ghost use Rattle.heap_graph.specs.AddressSets.{has_address};

    /// An empty set. It allocates 512 bytes a block.
    pub(crate) fn new(alloc: Global, layout: &Layout) -> Result<AddressSet, AllocError>
        ensures blocks { IfOk result (λ s. s.layout.blocks ≡ layout.now.blocks) }
        ensures empty { IfOk result (λ s. (a : ℕ) → has_address s a ≡ false) }
    {
        let words = vec![in alloc; 0; (BLOCK_BIT_WORDS * layout.blocks()) as usize]?;
        Ok(AddressSet {
            words,
            layout: *layout,
        })
    }

    /// Adds an address. True if the set did not have it before.
    pub(crate) fn insert(&mut self, address: u32) -> bool
        requires { IsAddress self.old.layout.blocks address }
        ensures blocks { self.new.layout.blocks ≡ self.old.layout.blocks }
        ensures new { result ≡ not (has_address self.old address) }
        ensures there { has_address self.new address ≡ true }
        ensures others { (x : ℕ) → IsAddress self.old.layout.blocks x → x ≢ address
            → has_address self.new x ≡ has_address self.old x }
    {
        let bits = bit_spec(&self.layout, 0);
        if test(&self.words, &bits, address) {
            return false;
        }
        set(&mut self.words, &bits, address);
        true
    }
}
