//! The report on a session, and the map of its objects.

ghost use Rattle.std.specs.Prelude.{◌≡◌, ◌^◌, ◌<◌, ◌++◌, ℕ, All, length, codes, OnOk, IfOk};
ghost use Rattle.std.specs.Fmt.{decimal};
ghost use Rattle.std.specs.List.{flat_map};
ghost use Rattle.driver.specs.Prelude.{Setting, Moment, Closes, ClosesSome, IsSessionText, IsReport, IsPlaceOfObject, addresses_of, heap_state, IsAddress, ended, session_lines, live_line, held_line, kinds_line, map_line, place_line, place_in, IsHeld, count_words_at};

use crate::session_runs::text_of_replies;
use heap_graph::{Place, in_order, reachable};
use heap_layout::{BLOCK_WORDS, Kind, Layout};
use mm_runtime::Manager;
use object_model::{Heap, size_words};
use plan_api::{Plan, block_counts};
use std::alloc::{AllocError, Global};
use trace_text::print_decimal;

// Appends a word and a number.
#[inline(always)]
fn print_part(word: &[u8], number: u64, to: &mut Vec<u8>) -> Result<(), AllocError>
    ensures { OnOk result (to.new.items ≡ to.old.items ++ (word.now ++ decimal number)) }
{
    to.extend_from_slice(word)?;
    print_decimal(number, to)
}

// Appends a line of a word and a number.
pub(crate) fn print_line(word: &[u8], number: u64, to: &mut Vec<u8>) -> Result<(), AllocError>
    ensures { OnOk result (to.new.items ≡ to.old.items ++ ended (word.now ++ decimal number)) }
{
    print_part(word, number, to)?;
    to.push(b'\n')?;
    Ok(())
}

// Appends a line of two words, each with a number.
pub(crate) fn print_pair(
    word: &[u8],
    number: u64,
    other: &[u8],
    second: u64,
    to: &mut Vec<u8>,
) -> Result<(), AllocError>
    ensures { OnOk result (to.new.items ≡ to.old.items
        ++ ended (word.now ++ decimal number ++ other.now ++ decimal second)) }
{
    print_part(word, number, to)?;
    print_line(other, second, to)
}

// Appends the line with a plan's name.
fn print_plan(name: &str, to: &mut Vec<u8>) -> Result<(), AllocError>
    ensures { OnOk result (to.new.items ≡ to.old.items ++ ended (codes "plan " ++ name.now)) }
{
    to.extend_from_slice(b"plan ")?;
    to.extend_from_slice(name.as_bytes())?;
    to.push(b'\n')?;
    Ok(())
}

// Appends what a report says of the session: plan, sizes, commands and collections.
fn print_session<P: Plan>(manager: &Manager<P>, to: &mut Vec<u8>) -> Result<(), AllocError>
    requires { ClosesSome P.rules manager.now }
    ensures { (t : Setting) (last : Moment) → Closes P.rules manager.now t last
        → OnOk result (to.new.items ≡ to.old.items
        ++ session_lines P.plan (length t.traces) last) }
{
    print_plan(P::plan_name(), to)?;
    print_line(b"blocks ", u64::from(manager.heap().layout().blocks()), to)?;
    print_line(b"mutators ", u64::from(manager.mutators()), to)?;
    print_line(b"commands ", manager.commands() as u64, to)?;
    print_line(b"full ", manager.refusals() as u64, to)?;
    let (nursery, full) = manager.collections();
    print_pair(b"collections nursery ", nursery, b" full ", full, to)
}

// The words of the objects at these addresses.
fn words_at(heap: &Heap, live: &[u32]) -> u64
    requires few { length live.now < 2 ^ 32 }
    requires held { All (IsHeld (heap_state heap.now)) live.now }
    ensures { result ≡ count_words_at (heap_state heap.now) live.now }
{
    let mut words: u64 = 0;
    for at in live {
        words += u64::from(size_words(&heap.shape_at(*at)));
    }
    words
}

// Appends the count of live objects.
pub(crate) fn print_live(heap: &Heap, live: &[u32], to: &mut Vec<u8>) -> Result<(), AllocError>
    requires few { length live.now < 2 ^ 32 }
    requires held { All (IsHeld (heap_state heap.now)) live.now }
    ensures { OnOk result (to.new.items ≡ to.old.items
        ++ live_line (heap_state heap.now) live.now) }
{
    print_pair(
        b"live objects ",
        live.len() as u64,
        b" words ",
        words_at(heap, live),
        to,
    )
}

// Appends the counts of live and of held objects.
fn print_objects(heap: &Heap, live: &[u32], to: &mut Vec<u8>) -> Result<(), AllocError>
    requires few { length live.now < 2 ^ 32 }
    requires held { All (IsHeld (heap_state heap.now)) live.now }
    ensures { OnOk result (to.new.items ≡ to.old.items
        ++ live_line (heap_state heap.now) live.now ++ held_line (heap_state heap.now)) }
{
    print_live(heap, live, to)?;
    let (objects, words) = heap.held_count();
    print_pair(b"held objects ", u64::from(objects), b" words ", words, to)
}

// Appends the counts of blocks by kind.
fn print_kinds(heap: &Heap, to: &mut Vec<u8>) -> Result<(), AllocError>
    ensures { OnOk result (to.new.items ≡ to.old.items ++ kinds_line (heap_state heap.now)) }
{
    print_part(b"kinds free ", u64::from(heap.kind_count(Kind::Free)), to)?;
    print_part(b" bump ", u64::from(heap.kind_count(Kind::Bump)), to)?;
    print_part(b" young ", u64::from(heap.kind_count(Kind::Young)), to)?;
    print_part(b" mature ", u64::from(heap.kind_count(Kind::Mature)), to)?;
    print_part(b" immix ", u64::from(heap.kind_count(Kind::Immix)), to)?;
    print_part(b" cells ", u64::from(heap.kind_count(Kind::Cells)), to)?;
    print_part(b" large ", u64::from(block_counts(heap).large), to)?;
    print_line(b" kept ", u64::from(heap.kind_count(Kind::Kept)), to)
}

// Appends where an object lies.
fn print_place(layout: &Layout, place: &Place, to: &mut Vec<u8>) -> Result<(), AllocError>
    requires { IsAddress layout.now.blocks place.now.at }
    ensures { OnOk result (to.new.items
        ≡ to.old.items ++ place_line (place_in layout.now.blocks place.now)) }
{
    let word = place.at - layout.heap_base();
    print_part(b"map ", u64::from(place.name.mutator), to)?;
    print_part(b".", u64::from(place.name.birth), to)?;
    print_part(b" block ", u64::from(word / BLOCK_WORDS), to)?;
    print_part(b" word ", u64::from(word % BLOCK_WORDS), to)?;
    print_line(b" size ", u64::from(place.size), to)
}

// Appends the map: where each of these objects lies.
fn print_map(heap: &Heap, live: &[Place], to: &mut Vec<u8>) -> Result<(), AllocError>
    requires held { All (λ p. IsAddress (heap_state heap.now).blocks p.at) live.now }
    requires each { All (IsPlaceOfObject (heap_state heap.now)) live.now }
    ensures { OnOk result (to.new.items ≡ to.old.items
        ++ flat_map (map_line (heap_state heap.now)) (addresses_of live.now)) }
{
    for place in live {
        print_place(heap.layout(), place, to)?;
    }
    Ok(())
}

/// The report on a session so far, and the map if it is asked for: what follows the replies.
///
/// Fails if memory runs out.
pub(crate) fn report_text<P: Plan>(
    alloc: Global,
    manager: &Manager<P>,
    has_map: bool,
) -> Result<Vec<u8>, AllocError>
    requires { ClosesSome P.rules manager.now }
    ensures { (t : Setting) (last : Moment) → Closes P.rules manager.now t last
        → IfOk result (λ v. IsReport P.plan (length t.traces) has_map last v.items) }
{
    let heap = manager.heap();
    let registers = manager.registers()?;
    let live = reachable(alloc, heap, &registers)?;
    let mut text = Vec::new(alloc);
    print_session(manager, &mut text)?;
    print_objects(heap, &live, &mut text)?;
    print_kinds(heap, &mut text)?;
    if has_map {
        let places = in_order(alloc, heap, &live)?;
        print_map(heap, &places, &mut text)?;
    }
    Ok(text)
}

/// The text of a session so far: the replies of each mutator, the report, and the map if it is
/// asked for. Once every command has its reply, it is that of the whole session.
///
/// Fails if memory runs out.
pub fn session_text<P: Plan>(
    alloc: Global,
    manager: &Manager<P>,
    has_map: bool,
) -> Result<Vec<u8>, AllocError>
    requires { ClosesSome P.rules manager.now }
    ensures { (t : Setting) (last : Moment) → Closes P.rules manager.now t last
        → IfOk result (λ v. IsSessionText P.plan (length t.traces) has_map last v.items) }
{
    let mut text = text_of_replies(alloc, manager)?;
    let report = report_text(alloc, manager, has_map)?;
    text.extend_from_slice(&report)?;
    Ok(text)
}
