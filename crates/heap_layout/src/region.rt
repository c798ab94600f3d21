//! Bump allocation in a free region of a block.

ghost use Rattle.std.specs.Prelude.{◌≡◌, ◌+◌, ◌-◌, ◌<◌, ◌≤◌, ◌↔◌, IsNone, IfSome, IfNone};

/// A free region of a block. Offsets count words from the start of the block.
#[derive(Clone, Copy, Debug, PartialEq, Eq)]
pub struct Region {
    /// The offset of the first free word.
    pub next: u32,
    /// The offset after the last free word.
    pub end: u32,
}

/// Allocates `size` words at the start of the region and returns their offset. Returns `None` and
/// changes nothing if the region has fewer words.
pub fn bump(region: &mut Region, size: u32) -> Option<u32>
    requires { region.old.next ≤ region.old.end }
    ensures none { IsNone result ↔ (region.old.end - region.old.next < size) }
    ensures same { IfNone result (region.new ≡ region.old) }
    ensures taken { IfSome result (λ at. (at ≡ region.old.next)
        × (region.new ≡ record region.old { next = region.old.next + size })) }
    ensures room { IfSome result (λ at. at + size ≤ region.new.end) }
{
    if region.end - region.next < size {
        return None;
    }
    let at = region.next;
    region.next += size;
    Some(at)
}
