//! The two regions that a mutator fills under a plan with lines, as in Immix.

ghost use Rattle.std.specs.Prelude.{◌≡◌, ◌≤◌, IfSome, IfNone};
ghost use Rattle.plan_api.specs.Prelude.{PlacesInRegion, LacksRoom};

use heap_layout::{LINE_WORDS, Region, bump};

/// The hole region and the overflow region of a mutator, and the block in which each lies.
#[derive(Clone, Copy, Debug, PartialEq, Eq)]
pub struct Cursors {
    /// What is left of the hole that is filled.
    pub hole: Region,
    /// The block of the hole region.
    pub hole_block: u32,
    /// What is left of the block that takes objects above a line, if the hole region lacks room.
    pub over: Region,
    /// The block of the overflow region.
    pub over_block: u32,
}

/// Places an object of `size` words: at the start of the hole region if this has room, else, if the
/// object is above a line, at the start of the overflow region. Answers the object's block and
/// offset, and the region then begins after the object. Answers `None` and changes nothing exactly
/// where no region that it tries has room.
pub fn place_in(cursors: &mut Cursors, size: u32) -> Option<(u32, u32)>
    requires hole { cursors.old.hole.next ≤ cursors.old.hole.end }
    requires over { cursors.old.over.next ≤ cursors.old.over.end }
    ensures placed { IfSome result (λ place.
        PlacesInRegion cursors.old cursors.new size place.0 place.1) }
    ensures none { IfNone result (LacksRoom cursors.old size) }
    ensures same { IfNone result (cursors.new ≡ cursors.old) }
{
    if let Some(at) = bump(&mut cursors.hole, size) {
        return Some((cursors.hole_block, at));
    }
    if size <= LINE_WORDS {
        return None;
    }
    let at = bump(&mut cursors.over, size)?;
    Some((cursors.over_block, at))
}
