//! The bar of an object: the rectangles that have the squares of its words.

ghost use Rattle.std.specs.Prelude.{◌≡◌, ◌≤◌, ◌<◌, ◌^◌, ◌++◌, OnOk};
ghost use Rattle.std.specs.List.{flat_map};
ghost use Rattle.heap_picture.specs.Bars.{bar_rects, part_rects, whole_rects};
ghost use Rattle.heap_picture.specs.Drawn.{full_rect_text, rect_text};

use crate::forms::Place;
use crate::parts::{Part, draw_parts};
use object_model::MAX_MEDIUM_WORDS;
use std::alloc::AllocError;

/// A rectangle of the picture, in words and rows.
#[derive(Clone, Copy, Debug, PartialEq, Eq)]
pub(crate) struct Rect {
    pub(crate) x: u64,
    pub(crate) y: u64,
    pub(crate) width: u64,
    pub(crate) height: u64,
}

/// Appends a rectangle as a part of a path.
pub(crate) fn draw_full(rect: Rect, to: &mut Vec<u8>) -> Result<(), AllocError>
    ensures { OnOk result (to.new.items ≡ to.old.items ++ full_rect_text rect) }
{
    draw_parts(
        &[
            Part::Text(b"M"),
            Part::Number(rect.x),
            Part::Text(b" "),
            Part::Number(rect.y),
            Part::Text(b"h"),
            Part::Number(rect.width),
            Part::Text(b"v"),
            Part::Number(rect.height),
            Part::Text(b"h-"),
            Part::Number(rect.width),
            Part::Text(b"z"),
        ],
        to,
    )
}

// Appends a rectangle as a part of a path, unless it is empty.
fn draw_rect(rect: Rect, to: &mut Vec<u8>) -> Result<(), AllocError>
    ensures { OnOk result (to.new.items ≡ to.old.items ++ rect_text rect) }
{
    if rect.width == 0 || rect.height == 0 {
        return Ok(());
    }
    draw_full(rect, to)
}

// Appends the rectangles of words `from` to `end` of a block.
fn draw_part(block: u64, from: u64, end: u64, to: &mut Vec<u8>) -> Result<(), AllocError>
    requires few { block < 2 ^ 33 }
    requires rise { from ≤ end }
    requires most { end < 2 ^ 33 }
    ensures { OnOk result (to.new.items
        ≡ to.old.items ++ flat_map rect_text (part_rects block from end)) }
{
    let x = 256 * (block % 16);
    let y = 16 * (block / 16);
    let (first, last) = (from / 256, end / 256);
    if first == last {
        return draw_rect(
            Rect {
                x: x + from % 256,
                y: y + first,
                width: end - from,
                height: 1,
            },
            to,
        );
    }
    draw_rect(
        Rect {
            x: x + from % 256,
            y: y + first,
            width: 256 - from % 256,
            height: 1,
        },
        to,
    )?;
    draw_rect(
        Rect {
            x,
            y: y + first + 1,
            width: 256,
            height: last - first - 1,
        },
        to,
    )?;
    draw_rect(
        Rect {
            x,
            y: y + last,
            width: end % 256,
            height: 1,
        },
        to,
    )
}

// Appends the rectangles of so many whole blocks.
fn draw_whole(block: u64, count: u64, to: &mut Vec<u8>) -> Result<(), AllocError>
    requires few { block < 2 ^ 32 }
    requires short { count < 2 ^ 32 }
    ensures { OnOk result (to.new.items
        ≡ to.old.items ++ flat_map rect_text (whole_rects block count)) }
{
    let y = 16 * (block / 16);
    let here = count.min(16 - block % 16);
    draw_rect(
        Rect {
            x: 256 * (block % 16),
            y,
            width: 256 * here,
            height: 16,
        },
        to,
    )?;
    draw_rect(
        Rect {
            x: 0,
            y: y + 16,
            width: 256 * (count - here),
            height: 16,
        },
        to,
    )
}

/// Appends the rectangles of an object's bar.
pub(crate) fn draw_bar(place: &Place, to: &mut Vec<u8>) -> Result<(), AllocError>
    ensures { OnOk result (to.new.items
        ≡ to.old.items ++ flat_map rect_text (bar_rects place.now)) }
{
    let (block, word) = (u64::from(place.block), u64::from(place.word));
    let size = u64::from(place.size);
    if size <= u64::from(MAX_MEDIUM_WORDS) {
        return draw_part(block, word, word + size, to);
    }
    draw_whole(block, size / 4096, to)?;
    draw_part(block + size / 4096, 0, size % 4096, to)
}
