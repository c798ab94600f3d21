//! Worked examples: what a picture says and where it draws.

ghost use Rattle.std.specs.Prelude.{◌≡◌, ◌++◌, None, Some, codes};
ghost use Rattle.heap_picture.specs.Bars.{rect};
ghost use Rattle.heap_picture.specs.Drawn.{bar_text, block_colour, cells_text, class_of, counts_text, full_rect_text, kinds_text, plan_text};
ghost use Rattle.heap_picture.specs.Reading.{no_kinds};
ghost use Rattle.heap_picture.specs.Texts.{report_text};
ghost use Rattle.heap_picture.specs.Worked.{worked_kinds, worked_place, worked_report};
ghost use Rattle.heap_picture.specs.declared.colours.Colour.TheVariants as colours;

/// The class of each colour, and the colour of the blocks where one kind has some.
pub fn colours_by_example()
    ensures classes { (class_of colours.Bump ≡ codes "b") × (class_of colours.Young ≡ codes "y")
        × (class_of colours.Mature ≡ codes "m") × (class_of colours.Immix ≡ codes "i")
        × (class_of colours.Cells ≡ codes "c") × (class_of colours.Large ≡ codes "l")
        × (class_of colours.Kept ≡ codes "k") × (class_of colours.Several ≡ codes "s") }
    ensures one { (block_colour (record no_kinds { free = 1; bump = 2 }) ≡ colours.Bump)
        × (block_colour (record no_kinds { young = 2; large = 1 }) ≡ colours.Young)
        × (block_colour (record no_kinds { mature = 2 }) ≡ colours.Mature)
        × (block_colour (record no_kinds { immix = 2 }) ≡ colours.Immix)
        × (block_colour (record no_kinds { cells = 2 }) ≡ colours.Cells)
        × (block_colour (record no_kinds { kept = 2 }) ≡ colours.Kept) }
    ensures more { (block_colour worked_kinds ≡ colours.Several)
        × (block_colour (record no_kinds { bump = 1; kept = 1 }) ≡ colours.Several) }
{}

/// What a picture says of a report, and the report's text.
pub fn counts_by_example()
    ensures plan { plan_text worked_report
        ≡ codes "<text x=\"8\" y=\"16\">plan gencopy blocks 36 mutators 9</text>\n" }
    ensures counts { counts_text worked_report
        ≡ codes "<text x=\"8\" y=\"32\">commands 10 full 11</text>\n"
        ++ codes "<text x=\"8\" y=\"48\">collections nursery 12 full 13</text>\n"
        ++ codes "<text x=\"8\" y=\"64\">live objects 14 words 15</text>\n"
        ++ codes "<text x=\"8\" y=\"80\">held objects 16 words 17</text>\n" }
    ensures kinds { kinds_text worked_kinds
        ≡ codes "<text x=\"8\" y=\"96\">blocks free 1 bump 2</text>\n"
        ++ codes "<text x=\"8\" y=\"112\">blocks young 3 mature 4</text>\n"
        ++ codes "<text x=\"8\" y=\"128\">blocks immix 5 cells 6</text>\n"
        ++ codes "<text x=\"8\" y=\"144\">blocks large 7 kept 8</text>\n" }
    ensures report { report_text worked_report
        ≡ codes "plan gencopy\nblocks 36\nmutators 9\ncommands 10\nfull 11\n"
        ++ codes "collections nursery 12 full 13\nlive objects 14 words 15\n"
        ++ codes "held objects 16 words 17\n"
        ++ codes "kinds free 1 bump 2 young 3 mature 4 immix 5 cells 6 large 7 kept 8\n" }
{}

/// A rectangle, the cells of two blocks, and bars: on three rows, of a large object that goes on in
/// the next row of cells, and of the mutator that is marked.
pub fn bars_by_example()
    ensures rect { full_rect_text (rect 3 5 7 2) ≡ codes "M3 5h7v2h-7z" }
    ensures cells { cells_text 2 ≡ codes "<path class=\"f\" d=\"M0 0h256v16h-256z\"/>\n"
        ++ codes "<path class=\"f\" d=\"M256 0h256v16h-256z\"/>\n" }
    ensures rows { bar_text None colours.Immix (worked_place 17 250 300)
        ≡ codes "<path class=\"i\" d=\"M506 16h6v1h-6zM256 17h256v1h-256zM256 18h38v1h-38z\">"
        ++ codes "<title>2.3 300 words</title></path>\n" }
    ensures large { bar_text (Some 1) colours.Immix (worked_place 15 0 8200)
        ≡ codes "<path class=\"l\" d=\"M3840 0h256v16h-256zM0 16h256v16h-256zM256 16h8v1h-8z\">"
        ++ codes "<title>2.3 8200 words</title></path>\n" }
    ensures marked { bar_text (Some 2) colours.Immix (worked_place 1 8 3)
        ≡ codes "<path class=\"n\" d=\"M264 0h3v1h-3z\"><title>2.3 3 words</title></path>\n" }
{}
