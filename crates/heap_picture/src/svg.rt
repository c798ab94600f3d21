//! The picture of a run: plain SVG.

ghost use Rattle.std.specs.Prelude.{◌≡◌, ◌<◌, ◌^◌, ◌++◌, codes, OnOk, IfOk};
ghost use Rattle.std.specs.List.{flat_map};
ghost use Rattle.command_line.specs.Orders.{plan_in};
ghost use Rattle.std.specs.Fmt.{decimal};
ghost use Rattle.heap_picture.specs.Drawn.{bar_class as class_of_bar, bar_head, bar_text, bar_title, cell_text, cells_text, counts_text, head_text, is_marked as has_mark, kinds_text, pair_text, picture_text, plan_text};
ghost use Rattle.heap_picture.specs.Reading.{begun};
ghost use Rattle.sessions.specs.Plans.{plan_word};

use crate::bars::{Rect, draw_bar, draw_full};
use crate::colours::{Colour, block_colour, class_of, colour_of};
use crate::forms::{KindCounts, Place};
use crate::parts::{Part, draw_parts};
use crate::reader::{Reader, Report};
use command_line::PlanName;
use std::alloc::{AllocError, Global};

/// The end of the tag of the file, the colours, and the filling of a cell, which marks its lines of
/// 16 words.
pub(crate) const STYLE: &[u8] = b"\" font-family=\"monospace\" font-size=\"13\">\n\
<style>path{stroke:#fff;stroke-width:.4;vector-effect:non-scaling-stroke}\
.f{fill:url(#f);stroke:#777}.b{fill:#69c}.y{fill:#fc6}.m{fill:#c93}.i{fill:#5a8}.c{fill:#98c}\
.l{fill:#b66}.k{fill:#666}.s{fill:#8aa}.n{fill:#000}g path{fill-opacity:.8}</style>\n\
<pattern id=\"f\" width=\"16\" height=\"1\" patternUnits=\"userSpaceOnUse\">\
<rect width=\"16\" height=\"1\" fill=\"#eee\"/>\
<rect width=\"3\" height=\"1\" fill=\"#bbb\"/></pattern>\n";

/// The legend, and the beginning of the cells. In them, a word is as wide as a quarter of a point,
/// and a row of words is four points high.
pub(crate) const LEGEND: &[u8] =
    b"<path class=\"b\" d=\"M8 158h12v12h-12z\"/><text x=\"24\" y=\"169\">bump</text>\
<path class=\"y\" d=\"M80 158h12v12h-12z\"/><text x=\"96\" y=\"169\">young</text>\
<path class=\"m\" d=\"M160 158h12v12h-12z\"/><text x=\"176\" y=\"169\">mature</text>\
<path class=\"i\" d=\"M248 158h12v12h-12z\"/><text x=\"264\" y=\"169\">immix</text>\
<path class=\"c\" d=\"M328 158h12v12h-12z\"/><text x=\"344\" y=\"169\">cells</text>\
<path class=\"l\" d=\"M408 158h12v12h-12z\"/><text x=\"424\" y=\"169\">large</text>\
<path class=\"k\" d=\"M488 158h12v12h-12z\"/><text x=\"504\" y=\"169\">kept</text>\
<path class=\"s\" d=\"M560 158h12v12h-12z\"/><text x=\"576\" y=\"169\">one of several kinds</text>\
<path class=\"n\" d=\"M760 158h12v12h-12z\"/><text x=\"776\" y=\"169\">of the mutator</text>\n\
<g transform=\"translate(8 184) scale(.25 4)\">\n";

// The name of a plan.
fn word_of(plan: PlanName) -> &'static [u8]
    ensures { result.now ≡ plan_word (plan_in plan) }
{
    match plan {
        PlanName::NoGc => b"nogc",
        PlanName::MarkSweep => b"marksweep",
        PlanName::SemiSpace => b"semispace",
        PlanName::GenCopy => b"gencopy",
        PlanName::Immix => b"immix",
        PlanName::StickyImmix => b"stickyimmix",
    }
}

// Whether the object is of the mutator that is marked.
fn is_marked(names: Option<u32>, place: &Place) -> bool
    ensures { result ≡ has_mark names place.now }
{
    match names {
        None => false,
        Some(mutator) => mutator == place.mutator,
    }
}

// The class of an object's bar.
fn bar_class(names: Option<u32>, blocks: Colour, place: &Place) -> &'static [u8]
    ensures { result.now ≡ class_of_bar names blocks place.now }
{
    if is_marked(names, place) {
        b"n"
    } else {
        class_of(colour_of(blocks, place))
    }
}

// Appends what stands before the rectangles of a bar.
fn draw_bar_head(class: &[u8], to: &mut Vec<u8>) -> Result<(), AllocError>
    ensures { OnOk result (to.new.items ≡ to.old.items
        ++ (codes "<path class=\"" ++ (class.now ++ codes "\" d=\""))) }
{
    draw_parts(
        &[
            Part::Text(b"<path class=\""),
            Part::Text(class),
            Part::Text(b"\" d=\""),
        ],
        to,
    )
}

// Appends what stands after the rectangles of a bar.
fn draw_bar_title(place: &Place, to: &mut Vec<u8>) -> Result<(), AllocError>
    ensures { OnOk result (to.new.items ≡ to.old.items ++ bar_title place.now) }
{
    draw_parts(
        &[
            Part::Text(b"\"><title>"),
            Part::Number(u64::from(place.mutator)),
            Part::Text(b"."),
            Part::Number(u64::from(place.birth)),
            Part::Text(b" "),
            Part::Number(u64::from(place.size)),
            Part::Text(b" words</title></path>\n"),
        ],
        to,
    )
}

// Appends the bar of an object.
fn draw_object(
    names: Option<u32>,
    blocks: Colour,
    place: &Place,
    to: &mut Vec<u8>,
) -> Result<(), AllocError>
    ensures { OnOk result (to.new.items ≡ to.old.items ++ bar_text names blocks place.now) }
{
    draw_bar_head(bar_class(names, blocks, place), to)?;
    draw_bar(place, to)?;
    draw_bar_title(place, to)?;
    Ok(())
}

// Appends the bars of all objects.
fn draw_objects(
    names: Option<u32>,
    blocks: Colour,
    places: &[Place],
    to: &mut Vec<u8>,
) -> Result<(), AllocError>
    ensures { OnOk result (to.new.items
        ≡ to.old.items ++ flat_map (bar_text names blocks) places.now) }
{
    for place in places {
        draw_object(names, blocks, place, to)?;
    }
    Ok(())
}

// Appends the cell of a block.
fn draw_cell(block: u64, to: &mut Vec<u8>) -> Result<(), AllocError>
    requires { block < 2 ^ 32 }
    ensures { OnOk result (to.new.items ≡ to.old.items ++ cell_text block) }
{
    to.extend_from_slice(b"<path class=\"f\" d=\"")?;
    draw_full(
        Rect {
            x: 256 * (block % 16),
            y: 16 * (block / 16),
            width: 256,
            height: 16,
        },
        to,
    )?;
    to.extend_from_slice(b"\"/>\n")?;
    Ok(())
}

// Appends the cells of all blocks.
fn draw_cells(blocks: u32, to: &mut Vec<u8>) -> Result<(), AllocError>
    ensures { OnOk result (to.new.items ≡ to.old.items ++ cells_text blocks) }
{
    for block in 0..blocks {
        draw_cell(u64::from(block), to)?;
    }
    Ok(())
}

// Appends a line of two words, each with a number, at this height.
fn draw_pair<'a>(
    height: &'a [u8],
    word: &'a [u8],
    number: u64,
    other: &'a [u8],
    second: u64,
    to: &mut Vec<u8>,
) -> Result<(), AllocError>
    ensures { OnOk result (to.new.items ≡ to.old.items
        ++ pair_text height.now word.now number other.now second) }
{
    draw_parts(
        &[
            Part::Text(b"<text x=\"8\" y=\""),
            Part::Text(height),
            Part::Text(b"\">"),
            Part::Text(word),
            Part::Number(number),
            Part::Text(other),
            Part::Number(second),
            Part::Text(b"</text>\n"),
        ],
        to,
    )
}

// Appends the first line of the report's counts.
fn draw_plan(report: &Report, to: &mut Vec<u8>) -> Result<(), AllocError>
    ensures { OnOk result (to.new.items ≡ to.old.items ++ plan_text report.now) }
{
    draw_parts(
        &[
            Part::Text(b"<text x=\"8\" y=\"16\">plan "),
            Part::Text(word_of(report.plan)),
            Part::Text(b" blocks "),
            Part::Number(u64::from(report.blocks)),
            Part::Text(b" mutators "),
            Part::Number(report.mutators),
            Part::Text(b"</text>\n"),
        ],
        to,
    )
}

// Appends the report's counts of commands, collections and objects.
fn draw_counts(r: &Report, to: &mut Vec<u8>) -> Result<(), AllocError>
    ensures { OnOk result (to.new.items ≡ to.old.items ++ counts_text r.now) }
{
    draw_pair(b"32", b"commands ", r.commands, b" full ", r.full, to)?;
    draw_pair(
        b"48",
        b"collections nursery ",
        r.nursery,
        b" full ",
        r.collected,
        to,
    )?;
    draw_pair(
        b"64",
        b"live objects ",
        r.live,
        b" words ",
        r.live_words,
        to,
    )?;
    draw_pair(
        b"80",
        b"held objects ",
        r.held,
        b" words ",
        r.held_words,
        to,
    )?;
    Ok(())
}

// Appends the report's counts of blocks by kind.
fn draw_kinds(k: &KindCounts, to: &mut Vec<u8>) -> Result<(), AllocError>
    ensures { OnOk result (to.new.items ≡ to.old.items ++ kinds_text k.now) }
{
    draw_pair(b"96", b"blocks free ", k.free, b" bump ", k.bump, to)?;
    draw_pair(b"112", b"blocks young ", k.young, b" mature ", k.mature, to)?;
    draw_pair(b"128", b"blocks immix ", k.immix, b" cells ", k.cells, to)?;
    draw_pair(b"144", b"blocks large ", k.large, b" kept ", k.kept, to)?;
    Ok(())
}

// Appends the head of the file, with the height of the picture, and the colours.
fn draw_head(blocks: u32, to: &mut Vec<u8>) -> Result<(), AllocError>
    ensures { OnOk result (to.new.items ≡ to.old.items ++ head_text blocks) }
{
    let rows = (u64::from(blocks) + 15) / 16;
    draw_parts(
        &[
            Part::Text(b"<svg xmlns=\"http://www.w3.org/2000/svg\" width=\"1040\" height=\""),
            Part::Number(200 + 64 * rows),
            Part::Text(STYLE),
        ],
        to,
    )
}

/// The picture of a run, in which the objects of one mutator may be marked.
///
/// Fails if memory runs out.
pub fn draw(alloc: Global, run: &Reader, names: Option<u32>) -> Result<Vec<u8>, AllocError>
    ensures { IfOk result (λ v. v.items ≡ picture_text names (begun run.now)) }
{
    let report = &run.report;
    let mut text = Vec::new(alloc);
    draw_head(report.blocks, &mut text)?;
    draw_plan(report, &mut text)?;
    draw_counts(report, &mut text)?;
    draw_kinds(&report.kinds, &mut text)?;
    text.extend_from_slice(LEGEND)?;
    draw_cells(report.blocks, &mut text)?;
    draw_objects(
        names,
        block_colour(&report.kinds),
        &run.places.items,
        &mut text,
    )?;
    text.extend_from_slice(b"</g></svg>\n")?;
    Ok(text)
}
