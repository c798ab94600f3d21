//! Parts of a text.

ghost use Rattle.std.specs.Prelude.{◌≡◌, ◌++◌, OnOk};
ghost use Rattle.std.specs.List.{flat_map};
ghost use Rattle.heap_picture.specs.Drawn.{part_text};

use std::alloc::AllocError;
use trace_text::print_decimal;

/// A part of a text.
#[derive(Clone, Copy)]
pub(crate) enum Part<'a> {
    Text(&'a [u8]),
    Number(u64),
}

// Appends a part.
fn draw_part(part: Part, to: &mut Vec<u8>) -> Result<(), AllocError>
    ensures { OnOk result (to.new.items ≡ to.old.items ++ part_text part.entry) }
{
    match part {
        Part::Text(bytes) => to.extend_from_slice(bytes),
        Part::Number(number) => print_decimal(number, to),
    }
}

/// Appends these parts, in order.
pub(crate) fn draw_parts(parts: &[Part], to: &mut Vec<u8>) -> Result<(), AllocError>
    ensures { OnOk result (to.new.items ≡ to.old.items ++ flat_map part_text parts.now) }
{
    for part in parts {
        draw_part(*part, to)?;
    }
    Ok(())
}
