//! The colour of an object, by the kind of its block.

ghost use Rattle.std.specs.Prelude.{◌≡◌, ◌∷◌, []};
ghost use Rattle.heap_picture.specs.Drawn.{are_none as are_all_none, block_colour as colour_of_blocks, class_of as class_of_colour, colour_of as colour_of_object};

use crate::forms::{KindCounts, Place};
use object_model::MAX_MEDIUM_WORDS;

/// The colour of an object, by the kind of its block.
#[derive(Clone, Copy, Debug, PartialEq, Eq)]
pub(crate) enum Colour {
    Bump,
    Young,
    Mature,
    Immix,
    Cells,
    Large,
    Kept,
    /// A kind that the text doesn't tell.
    Several,
}

// Whether all of these numbers are 0.
fn are_none(counts: &[u64]) -> bool
    ensures { result ≡ are_all_none counts.now }
{
    for count in counts {
        if *count != 0 {
            return false;
        }
    }
    true
}

/// The kind of the blocks that have small and medium objects: the one that has blocks.
pub(crate) fn block_colour(k: &KindCounts) -> Colour
    ensures { result ≡ colour_of_blocks k.now }
{
    if are_none(&[k.young, k.mature, k.immix, k.cells, k.kept]) {
        Colour::Bump
    } else if are_none(&[k.bump, k.mature, k.immix, k.cells, k.kept]) {
        Colour::Young
    } else if are_none(&[k.bump, k.young, k.immix, k.cells, k.kept]) {
        Colour::Mature
    } else if are_none(&[k.bump, k.young, k.mature, k.cells, k.kept]) {
        Colour::Immix
    } else if are_none(&[k.bump, k.young, k.mature, k.immix, k.kept]) {
        Colour::Cells
    } else if are_none(&[k.bump, k.young, k.mature, k.immix, k.cells]) {
        Colour::Kept
    } else {
        Colour::Several
    }
}

/// The colour of an object, where small and medium ones have the colour `blocks`.
pub(crate) fn colour_of(blocks: Colour, place: &Place) -> Colour
    ensures { result ≡ colour_of_object blocks place.now }
{
    if place.size <= MAX_MEDIUM_WORDS {
        blocks
    } else {
        Colour::Large
    }
}

/// The class of a colour.
pub(crate) fn class_of(colour: Colour) -> &'static [u8]
    ensures { result.now ≡ class_of_colour colour }
{
    match colour {
        Colour::Bump => b"b",
        Colour::Young => b"y",
        Colour::Mature => b"m",
        Colour::Immix => b"i",
        Colour::Cells => b"c",
        Colour::Large => b"l",
        Colour::Kept => b"k",
        Colour::Several => b"s",
    }
}
