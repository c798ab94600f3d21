//! A small list language on a managed heap, under five plans. One mutator builds a list, amid
//! garbage, reverses it and hands it over by a global; the other adds its numbers. An array lies
//! beside it. An element is an object with one reference, to the next element, and one number.
#![tactic(auto)]

ghost use Rattle.std.specs.Prelude.{◌≡◌, ◌≢◌, ◌+◌, ◌*◌, ◌/◌, ◌%◌, ◌^◌, ◌<◌, ◌≤◌, ℕ, IfOk, List, [], ◌∷◌, length, reverse as reversed, sum as sum_of};
ghost use Rattle.ideal_heap.specs.declared.command.Command.TheVariants as command;
ghost use Rattle.ideal_heap.specs.declared.command.TheConstants.{MAX_NUMS, MAX_REFS, REGISTERS};
ghost use Rattle.ideal_heap.specs.Ideal.{IdealHeap};
ghost use Rattle.programs.specs.Lists.{IsList, pops, pushes};
ghost use Rattle.managed_heap.specs.Stopped.{IsManaged};
ghost use Rattle.managed_value.specs.Histories.{StandsFor};
ghost use Rattle.embedding_example.specs.Language.{Does, HoldsList, IsReady, KnowsLists};
ghost use Rattle.embedding_example.specs.Lists.{first_of, numbers_down_from};

use anyhow::{Result, bail, ensure};
use ideal_heap::Reply;
use managed_heap::managed_plans;
use managed_value::{ManagedHeap, Refused};
use plan_api::Plan;
use plans::{GenCopy, Immix, MarkSweep, SemiSpace, StickyImmix};
use std::alloc::Global;
use std::thread::Threads;

/// How many numbers the list gets.
const COUNT: u64 = 2000;

/// The blocks of the heap, of 32 KB each.
const BLOCKS: u32 = 16;

/// The place of the mutator that builds the list, and of the one that adds its numbers.
const BUILDER: u32 = 0;

const ADDER: u32 = 1;

/// What the registers hold: a list, an object that is new, the reversed list, an array.
const LIST: u32 = 0;

const NEW: u32 = 1;

const REVERSED: u32 = 2;

const ARRAY: u32 = 3;

/// The numbers of the array, the index of the last one, and what is written there.
const ARRAY_NUMBERS: u32 = 5000;

const LAST_INDEX: u32 = 4999;

const LAST_NUMBER: u64 = 7;

/// The numbers of an object that is garbage at once.
const GARBAGE_NUMBERS: u32 = 100;

/// The sum of the list, the last number of the array, and how many nursery and full collections
/// were made.
#[derive(Debug, Drop)]
struct Outcome {
    sum: u64,
    last: u64,
    collections: (u64, u64),
}

/// Allocates an object into the builder's register `d`.
fn allocate<P: Plan, R: Threads + Sync>(
    heap: &mut ManagedHeap<P>,
    rt: &R,
    d: u32,
    refs: u32,
    nums: u32,
) -> Result<()>
    requires plan { IsManaged P.rules }
    requires ready { IsReady P.rules heap.old }
    requires register { d < REGISTERS }
    requires refs { refs ≤ MAX_REFS }
    requires nums { nums ≤ MAX_NUMS }
    ensures { IfOk result
        (λ _. Does P.rules heap.old BUILDER (command.New d refs nums ∷ []) heap.new) }
{
    ensure!(heap.may_allocate(BUILDER), "too many objects");
    match heap.new_or_collect(rt, BUILDER, d, refs, nums) {
        Ok(_) => Ok(()),
        Err(Refused::Full) => bail!("the heap is full"),
        Err(Refused::OutOfMemory) => bail!("out of memory"),
    }
}

/// Puts the number `n` at the front of the list in the builder's register `s`.
fn push<P: Plan, R: Threads + Sync>(heap: &mut ManagedHeap<P>, rt: &R, s: u32, n: u64) -> Result<()>
    requires plan { IsManaged P.rules }
    requires ready { IsReady P.rules heap.old }
    requires register { s < REGISTERS }
    ensures { IfOk result (λ _. Does P.rules heap.old BUILDER (pushes NEW s n) heap.new) }
{
    allocate(heap, rt, NEW, 1, 1)?;
    heap.put(BUILDER, NEW, 0, s);
    heap.write(BUILDER, NEW, 0, n);
    heap.move_register(BUILDER, s, NEW);
    Ok(())
}

/// Takes the first number off the list in register `s` of the mutator at place `m`, if it has one.
fn pop<P: Plan>(heap: &mut ManagedHeap<P>, m: u32, s: u32) -> Option<u64>
    requires ready { IsReady P.rules heap.old }
    requires place { m < 2 }
    requires register { s < REGISTERS }
    ensures does { Does P.rules heap.old m (pops s) heap.new }
    ensures first { (i : IdealHeap) (xs : List ℕ) → StandsFor P.rules heap.old i
        → IsList i (m + 1) s xs → result ≡ first_of xs }
{
    let first = heap.read(m, s, 0);
    heap.get(m, s, s, 0);
    match first {
        Reply::Num(number) => Some(number),
        _ => None,
    }
}

/// Builds the list from `count` down to 1. After each push it makes an object that is garbage.
fn build<P: Plan, R: Threads + Sync>(heap: &mut ManagedHeap<P>, rt: &R, count: u64) -> Result<()>
    requires plan { IsManaged P.rules }
    requires empty { KnowsLists P.rules heap.old [] [] }
    ensures { IfOk result (λ _. KnowsLists P.rules heap.new (numbers_down_from count) []) }
{
    for number in 0..count {
        push(heap, rt, LIST, number + 1)?;
        allocate(heap, rt, NEW, 0, GARBAGE_NUMBERS)?;
    }
    Ok(())
}

/// Reverses the list, which has at most `count` numbers, into register `REVERSED`.
fn reverse<P: Plan, R: Threads + Sync>(heap: &mut ManagedHeap<P>, rt: &R, count: u64) -> Result<()>
    requires plan { IsManaged P.rules }
    requires ready { IsReady P.rules heap.old }
    ensures ready { IfOk result (λ _. IsReady P.rules heap.new) }
    ensures reversed { IfOk result (λ _. (xs : List ℕ) → length xs ≤ count
        → KnowsLists P.rules heap.old xs [] → KnowsLists P.rules heap.new [] (reversed xs)) }
{
    for _ in 0..count {
        let Some(number) = pop(heap, BUILDER, LIST) else {
            return Ok(());
        };
        push(heap, rt, REVERSED, number)?;
    }
    Ok(())
}

/// The sum, modulo 2^64, of the list in register `s` of the mutator at place `m`, which has at most
/// `count` numbers. They are taken off.
fn sum<P: Plan>(heap: &mut ManagedHeap<P>, m: u32, s: u32, count: u64) -> u64
    requires ready { IsReady P.rules heap.old }
    requires place { m < 2 }
    requires register { s < REGISTERS }
    ensures { (xs : List ℕ) → length xs ≤ count → HoldsList P.rules heap.old (m + 1) s xs
        → result ≡ sum_of xs % 2 ^ 64 }
{
    let mut total = 0u64;
    for _ in 0..count {
        let Some(number) = pop(heap, m, s) else {
            return total;
        };
        total = total.wrapping_add(number);
    }
    total
}

/// An empty heap with two mutators, of which the first has an array.
fn begin<P: Plan, R: Threads + Sync>(alloc: Global, rt: &R) -> Result<ManagedHeap<P>>
    requires plan { IsManaged P.rules }
    ensures { IfOk result (λ heap. KnowsLists P.rules heap [] []) }
{
    let mut heap = ManagedHeap::<P>::new(alloc, BLOCKS, 2)?;
    allocate(&mut heap, rt, ARRAY, 0, ARRAY_NUMBERS)?;
    heap.write(BUILDER, ARRAY, LAST_INDEX, LAST_NUMBER);
    Ok(heap)
}

/// Makes a full collection.
fn collect<P: Plan, R: Threads + Sync>(heap: &mut ManagedHeap<P>, rt: &R) -> Result<()>
    requires plan { IsManaged P.rules }
    requires ready { IsReady P.rules heap.old }
    ensures ready { IfOk result (λ _. IsReady P.rules heap.new) }
    ensures kept { IfOk result (λ _. (xs ys : List ℕ) → KnowsLists P.rules heap.old xs ys
        → KnowsLists P.rules heap.new xs ys) }
{
    ensure!(heap.may_allocate(BUILDER), "too many collections");
    heap.collect(rt)?;
    Ok(())
}

/// The last number of the array.
fn last_number<P: Plan>(heap: &mut ManagedHeap<P>) -> u64
    requires ready { IsReady P.rules heap.old }
    ensures ready { IsReady P.rules heap.new }
    ensures number { (xs ys : List ℕ) → KnowsLists P.rules heap.old xs ys
        → (result ≡ LAST_NUMBER) × KnowsLists P.rules heap.new xs ys }
{
    match heap.read(BUILDER, ARRAY, LAST_INDEX) {
        Reply::Num(number) => number,
        _ => 0,
    }
}

/// The builder hands over by a global the reversed list, and the adder takes it.
fn hand_over<P: Plan>(heap: &mut ManagedHeap<P>)
    requires ready { IsReady P.rules heap.old }
    ensures ready { IsReady P.rules heap.new }
    ensures list { (xs ys : List ℕ) → KnowsLists P.rules heap.old xs ys
        → HoldsList P.rules heap.new (ADDER + 1) LIST ys }
{
    heap.share(BUILDER, 0, REVERSED);
    heap.load(ADDER, LIST, 0);
}

/// Builds a list of the numbers 1 to `count`, reverses it, hands it over and adds its numbers.
fn run<P: Plan, R: Threads + Sync>(alloc: Global, rt: &R, count: u64) -> Result<Outcome>
    requires plan { IsManaged P.rules }
    ensures sum { IfOk result (λ outcome. outcome.sum ≡ count * (count + 1) / 2 % 2 ^ 64) }
    ensures last { IfOk result (λ outcome. outcome.last ≡ LAST_NUMBER) }
{
    let mut heap = begin::<P, R>(alloc, rt)?;
    build(&mut heap, rt, count)?;
    reverse(&mut heap, rt, count)?;
    collect(&mut heap, rt)?;
    let last = last_number(&mut heap);
    hand_over(&mut heap);
    let sum = sum(&mut heap, ADDER, LIST, count);
    Ok(Outcome {
        sum,
        last,
        collections: heap.collections(),
    })
}

fn main(rt: HostRuntime) -> Result<()> {
    let alloc = rt.alloc();
    managed_plans();
    println!(rt; "SemiSpace {:?}", run::<SemiSpace, _>(alloc, &rt, COUNT)?)?;
    println!(rt; "MarkSweep {:?}", run::<MarkSweep, _>(alloc, &rt, COUNT)?)?;
    println!(rt; "Immix {:?}", run::<Immix, _>(alloc, &rt, COUNT)?)?;
    println!(rt; "GenCopy {:?}", run::<GenCopy, _>(alloc, &rt, COUNT)?)?;
    println!(rt;
        "StickyImmix {:?}",
        run::<StickyImmix, _>(alloc, &rt, COUNT)?
    )?;
    Ok(())
}
