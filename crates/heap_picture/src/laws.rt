//! Laws on bars: where they lie, and that they do not overlap. Laws on lines: they are read exactly
//! where they are printed.

ghost use Rattle.std.specs.Prelude.{◌≡◌, ◌↔◌, ◌+◌, ◌*◌, ◌<◌, ◌≤◌, ◌++◌, ◌∷◌, ℕ, Bool, List, length, map, Option, Some, Ok, IsTrue, true};
ghost use Rattle.std.specs.Fmt.{decimal};
ghost use Rattle.command_line.specs.Orders.{plan_in};
ghost use Rattle.command_line.specs.declared.order.PlanName.{PlanName as AnyPlanName};
ghost use Rattle.driver.specs.MapPlaces.{HasWord, IsMapOf, LiesInBlocks};
ghost use Rattle.driver.specs.Texts.{IsSessionText, map_part, place_line, replies_part, report_part};
ghost use Rattle.ideal_heap.specs.Ideal.{IdealHeap};
ghost use Rattle.object_model.specs.Objects.{blocks_for};
ghost use Rattle.sessions.specs.Plans.{rules_of};
ghost use Rattle.sessions.specs.Sessions.{IsSound, IsWhole, Moment, Setting};
ghost use Rattle.std.specs.List.{All, AllPairs, flat_map};
ghost use Rattle.heap_picture.specs.Bars.{AreApart, BarCovers, Covers, cell_rect, map_place, word_shown};
ghost use Rattle.heap_picture.specs.Forms.{LARGE, is_no_digit, one_number, place_in, reply_in, two_numbers};
ghost use Rattle.heap_picture.specs.Reading.{Begun, lies_in, text_read};
ghost use Rattle.heap_picture.specs.Texts.{Fits, IsPlaceIn, IsReplyLine, IsRunText, births_in, place_text, replies_from, report_text, two_text, whole};
ghost use Rattle.heap_picture.specs.Drawn.{after_bars, bar_text, before_bars, block_colour, picture_text};
ghost use Rattle.heap_picture.specs.Sessions.{HasNumbers, places_of, replies_in, report_of};
ghost use Rattle.heap_picture.specs.declared.colours.Colour.{Colour as AnyColour};
ghost use Rattle.heap_picture.specs.declared.forms.Pair.{Pair as AnyPair};
ghost use Rattle.heap_picture.specs.declared.forms.Place.{Place as AnyPlace};
ghost use Rattle.heap_picture.specs.declared.reader.Report.{Report as AnyReport};
ghost use Rattle.trace_text.specs.Text.{ended};

use driver::maps_show_the_ideal_heap;
use heap_layout::MAX_BLOCKS;
use ideal_heap::MAX_MUTATORS;
use session_counts::MAX_OBJECT_WORDS;
use trace_text::MAX_COMMANDS;

/// The bar of an object that lies in the heap's blocks has the squares of its words, and no others.
/// So it lies in the cells of the object's blocks.
pub fn bars_have_their_words()
    ensures words { (blocks : ℕ) (p : AnyPlace) (x y : ℕ) → LiesInBlocks blocks (map_place p)
        → p.size ≤ MAX_OBJECT_WORDS
        → BarCovers p x y ↔ ((x < 4096) × HasWord (map_place p) (word_shown x y)) }
    ensures cells { (blocks : ℕ) (p : AnyPlace) (x y : ℕ) → LiesInBlocks blocks (map_place p)
        → p.size ≤ MAX_OBJECT_WORDS → BarCovers p x y → (b : ℕ) × (p.block ≤ b)
        × (b < p.block + blocks_for p.size) × (b < blocks) × Covers (cell_rect b) x y }
{}

/// The square of a word is in the cell of its block.
pub fn cells_have_their_words()
    ensures { (b x y : ℕ) → Covers (cell_rect b) x y
        ↔ ((x < 4096) × (4096 * b ≤ word_shown x y) × (word_shown x y < 4096 * b + 4096)) }
{}

/// Each place that is read lies in the heap's blocks.
pub fn places_lie_in_blocks()
    ensures lie { (blocks : ℕ) (p : AnyPlace) → IsTrue (lies_in blocks p)
        → LiesInBlocks blocks (map_place p) }
    ensures most { (blocks : ℕ) (p : AnyPlace) → IsTrue (lies_in blocks p)
        → p.size ≤ MAX_OBJECT_WORDS }
{}

/// No two bars of a lawful map overlap, nor of a text that is read.
pub fn bars_are_apart()
    ensures map { (h : IdealHeap) (mutators blocks : ℕ) (places : List AnyPlace)
        → IsMapOf h blocks (map map_place places) → All (IsPlaceIn mutators blocks) places
        → AllPairs AreApart places }
    ensures read { (report : AnyReport) (places : List AnyPlace) (text : List ℕ)
        → IsRunText report places text → AllPairs AreApart places }
{}

/// A bar has at most 200 bytes.
pub fn bars_are_short()
    ensures { (names : Option ℕ) (blocks : AnyColour) (k b : ℕ) (p : AnyPlace)
        → k ≤ MAX_MUTATORS → b ≤ MAX_BLOCKS → IsPlaceIn k b p
        → length (bar_text names blocks p) ≤ 200 }
{}

/// Each line of the map has one bar, and each bar is of one line, in their order. All else in the
/// picture is of the report alone.
pub fn lines_have_bars()
    ensures { (names : Option ℕ) (report : AnyReport) (places : List AnyPlace) (text : List ℕ)
        → (t : IsRunText report places text)
        → (text ≡ replies_from 1 t.replies ++ report_text report
        ++ flat_map place_line (map map_place places))
        × (picture_text names (whole report (births_in t.replies) places) ≡ before_bars report
        ++ flat_map (bar_text names (block_colour report.kinds)) places ++ after_bars) }
{}

/// A line of words and numbers is read exactly where it is printed.
pub fn numbers_are_read_as_printed()
    ensures one { (word line : List ℕ) (n : ℕ) → one_number word LARGE line ≡ Some n
        ↔ ((line ≡ word ++ decimal n) × (n ≤ LARGE)) }
    ensures two { (word other line : List ℕ) (b : ℕ) (x : AnyPair) → is_no_digit b ≡ true
        → two_numbers word (b ∷ other) LARGE line ≡ Some x
        ↔ ((line ≡ two_text word x.first (b ∷ other) x.second)
        × (x.first ≤ LARGE) × (x.second ≤ LARGE)) }
{}

/// A line of the map is read exactly where it is that of the place.
pub fn places_are_read_as_printed()
    ensures read { (line : List ℕ) (p : AnyPlace) → place_in line ≡ Some p
        ↔ ((line ≡ place_text p) × Fits p) }
    ensures line { (p : AnyPlace) → ended (place_text p) ≡ place_line (map_place p) }
{}

/// A line is read as a reply exactly where it is that of a reply.
pub fn replies_are_read_as_printed()
    ensures { (line : List ℕ) (full : Bool) → reply_in line ≡ Some full
        ↔ IsReplyLine line full }
{}

/// What a picture's reader has of a session is what its text prints: the driver's replies, report
/// and map. So the text of a whole session under its plan, of at most 16 traces with at most
/// 1,000,000 commands each, is read, with its report and its places.
pub fn session_texts_are_read()
    ensures replies { (n : ℕ) (last : Moment)
        → replies_from 1 (replies_in n last) ≡ replies_part n last }
    ensures report { (plan : AnyPlanName) (n : ℕ) (last : Moment) (live : List ℕ)
        → report_text (report_of plan n last live) ≡ report_part (plan_in plan) n last live }
    ensures map { (last : Moment) (live : List ℕ)
        → flat_map place_line (map map_place (places_of last.heap live)) ≡ map_part last live }
    ensures read { (t : Setting) (plan : AnyPlanName) (last : Moment) (text : List ℕ)
        → t.rules ≡ rules_of (plan_in plan) → IsSound t last → IsWhole t last
        → 1 ≤ length t.traces → length t.traces ≤ MAX_MUTATORS
        → All (λ trace. length trace ≤ MAX_COMMANDS) t.traces
        → (s : IsSessionText (plan_in plan) (length t.traces) true last text)
        → HasNumbers (report_of plan (length t.traces) last s.live) last.done
        → text_read text ≡ Ok (whole (report_of plan (length t.traces) last s.live)
        (births_in (replies_in (length t.traces) last)) (places_of last.heap s.live)) }
{
    maps_show_the_ideal_heap();
}

/// A text is read exactly where it is that of a run with a map: the replies of its mutators, the
/// report that counts them, and the lines of the places.
pub fn run_texts_are_read_as_printed()
    ensures printed { (report : AnyReport) (places : List AnyPlace) (text : List ℕ)
        → (t : IsRunText report places text)
        → text_read text ≡ Ok (whole report (births_in t.replies) places) }
    ensures read { (text : List ℕ) (s : Begun) → text_read text ≡ Ok s
        → (t : IsRunText s.report s.places text)
        × (s ≡ whole s.report (births_in t.replies) s.places) }
{}
