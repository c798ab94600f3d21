//! Tails and holes: regions that objects fill from the front.
//!
//! Called for plans without cells. Reads and writes nothing.

ghost use Rattle.std.specs.Prelude.{◌≡◌, ◌+◌, ◌≤◌};
ghost use Rattle.block_regions.specs.Regions.{without_first};

use heap_layout::{BLOCK_WORDS, Region};

/// What an object of `size` words at the start of the region leaves of it.
#[inline(always)]
pub(crate) fn rest_of(region: &Region, size: u32) -> Region
    requires room { region.now.next + size ≤ region.now.end }
    requires end { region.now.end ≤ BLOCK_WORDS }
    ensures { result ≡ without_first size region.now }
{
    Region {
        next: region.next + size,
        end: region.end,
    }
}
