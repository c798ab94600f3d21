//! The calls that read and change objects, registers and globals.

ghost use Rattle.std.specs.Prelude.{◌≡◌, ◌≢◌, ◌⊎◌, ◌<◌, ◌≤◌, ℕ, ⊤, MatchResult, List, [], ◌∷◌, true, false, if◌then◌else◌};
ghost use Rattle.ideal_heap.specs.declared.command.Command.TheVariants as command;
ghost use Rattle.ideal_heap.specs.declared.reply.Reply.{Reply};
ghost use Rattle.ideal_heap.specs.declared.reply.Reply.TheVariants as reply;
ghost use Rattle.object_model.specs.declared.shape.Shape.{Shape};
ghost use Rattle.mutator_core.specs.Machine.{source};
ghost use Rattle.mutator_calls.specs.Effects.{enters, logs, IsFound};
ghost use Rattle.mutator_calls.specs.Accesses.{IsAccess, LacksIndex};

use crate::mutator_steps::MutatorSteps;
use ideal_heap::{Command, GLOBALS, REGISTERS, Reply};
use object_model::Shape;

/// The shape of the object in register `s`, or the reply if the register is nil.
fn shape_in<S: MutatorSteps>(seat: &mut S, s: u32, command: &Command) -> Result<Shape, Reply>
    requires ready { S.is_ready seat.old }
    requires register { s < REGISTERS }
    requires access { IsAccess command.now }
    requires source { source command.now ≡ s }
    ensures ready { S.is_ready seat.new }
    ensures goes { MatchResult result (λ shape. S.only_loads seat.old seat.new
        × S.has_shape seat.new s shape)
        (λ reply. S.makes_steps seat.old (enters command.now reply) seat.new) }
    ensures refused { MatchResult result (λ shape. ⊤) (λ r. r ≢ reply.Done) }
{
    if seat.is_nil(s) {
        seat.answer_null(command);
        return Err(Reply::Null);
    }
    Ok(seat.load_shape(s))
}

/// The shape of the object in register `s`, or the reply if the register is nil or the object
/// lacks reference field `i`.
fn shape_with_field<S: MutatorSteps>(
    seat: &mut S,
    s: u32,
    i: u32,
    command: &Command,
) -> Result<Shape, Reply>
    requires ready { S.is_ready seat.old }
    requires register { s < REGISTERS }
    requires access { IsAccess command.now }
    requires source { source command.now ≡ s }
    requires lacks { (shape : Shape) → shape.refs ≤ i → LacksIndex shape command.now }
    ensures ready { S.is_ready seat.new }
    ensures goes { MatchResult result (λ shape. S.only_loads seat.old seat.new
        × S.has_shape seat.new s shape × (i < shape.refs))
        (λ reply. S.makes_steps seat.old (enters command.now reply) seat.new) }
    ensures refused { MatchResult result (λ shape. ⊤) (λ r. r ≢ reply.Done) }
{
    let shape = shape_in(seat, s, command)?;
    if i >= shape.refs {
        seat.answer_range(command, &shape);
        return Err(Reply::Range);
    }
    Ok(shape)
}

/// The shape of the object in register `s`, or the reply if the register is nil or the object
/// lacks number `j`.
fn shape_with_number<S: MutatorSteps>(
    seat: &mut S,
    s: u32,
    j: u32,
    command: &Command,
) -> Result<Shape, Reply>
    requires ready { S.is_ready seat.old }
    requires register { s < REGISTERS }
    requires access { IsAccess command.now }
    requires source { source command.now ≡ s }
    requires lacks { (shape : Shape) → shape.nums ≤ j → LacksIndex shape command.now }
    ensures ready { S.is_ready seat.new }
    ensures goes { MatchResult result (λ shape. S.only_loads seat.old seat.new
        × S.has_shape seat.new s shape × (j < shape.nums))
        (λ reply. S.makes_steps seat.old (enters command.now reply) seat.new) }
{
    let shape = shape_in(seat, s, command)?;
    if j >= shape.nums {
        seat.answer_range(command, &shape);
        return Err(Reply::Range);
    }
    Ok(shape)
}

/// The reply to a load into register `d`: nil, or the object's name.
fn found<S: MutatorSteps>(seat: &mut S, d: u32) -> Reply
    requires ready { S.is_ready seat.old }
    requires register { d < REGISTERS }
    ensures ready { S.is_ready seat.new }
    ensures looks { S.only_loads seat.old seat.new }
    ensures found { (reply : Reply) → IsFound (S.has_name seat.old) (S.address seat.old d) reply
        → reply ≡ result }
{
    if seat.is_nil(d) {
        return Reply::Nil;
    }
    Reply::Ref(seat.load_name(d))
}

/// Loads reference field `i` of the object in register `s` into register `d`.
pub fn get<S: MutatorSteps>(seat: &mut S, d: u32, s: u32, i: u32) -> Reply
    requires ready { S.is_ready seat.old }
    requires target { d < REGISTERS }
    requires source { s < REGISTERS }
    ensures ready { S.is_ready seat.new }
    ensures goes { S.makes_steps seat.old (enters (command.Get d s i) result) seat.new }
{
    match shape_with_field(seat, s, i, &Command::Get { d, s, i }) {
        Err(reply) => reply,
        Ok(shape) => {
            seat.load_field(d, s, i, &shape);
            found(seat, d)
        }
    }
}

/// Whether a store of a reference into the object in register `s` must log the object: the plan is
/// generational, and the object is old and not logged yet.
fn needs_log<S: MutatorSteps>(seat: &mut S, s: u32) -> bool
    requires ready { S.is_ready seat.old }
    requires register { s < REGISTERS }
    requires some { S.address seat.old s ≢ 0 }
    ensures ready { S.is_ready seat.new }
    ensures looks { S.only_loads seat.old seat.new }
    ensures needed { result ≡ true
        → S.has_ages seat.old × S.is_aged seat.old s × S.is_marked seat.old s }
    ensures barred { result ≡ false → S.may_store_unlogged seat.new s }
    ensures shapes { (q : ℕ) (shape : Shape) → S.has_shape seat.old q shape
        → S.has_shape seat.new q shape }
{
    seat.is_generational() && seat.is_old(s) && seat.is_unlogged(s)
}

/// Stores register `v` into reference field `i` of the object in register `s`, after the barrier.
pub fn put<S: MutatorSteps>(seat: &mut S, s: u32, i: u32, v: u32) -> Reply
    requires ready { S.is_ready seat.old }
    requires target { s < REGISTERS }
    requires source { v < REGISTERS }
    ensures ready { S.is_ready seat.new }
    ensures goes { (logged : List ℕ) × S.makes_steps seat.old
        (logs logged (command.Put s i v) result) seat.new
        × (((logged ≡ []) × (result ≡ reply.Done → (mid : S) × S.only_loads seat.old mid
        × S.may_store_unlogged mid s))
        ⊎ ((logged ≡ S.address seat.old s ∷ []) × (result ≡ reply.Done)
        × S.has_ages seat.old × S.is_aged seat.old s × S.is_marked seat.old s)) }
{
    match shape_with_field(seat, s, i, &Command::Put { s, i, v }) {
        Err(reply) => reply,
        Ok(shape) => {
            if needs_log(seat, s) {
                seat.log_and_store_field(s, i, v, &shape);
            } else {
                seat.store_field(s, i, v, &shape);
            }
            Reply::Done
        }
    }
}

/// Loads number `j` of the object in register `s`.
pub fn read<S: MutatorSteps>(seat: &mut S, s: u32, j: u32) -> Reply
    requires ready { S.is_ready seat.old }
    requires register { s < REGISTERS }
    ensures ready { S.is_ready seat.new }
    ensures goes { S.makes_steps seat.old (enters (command.Read s j) result) seat.new }
{
    match shape_with_number(seat, s, j, &Command::Read { s, j }) {
        Err(reply) => reply,
        Ok(shape) => Reply::Num(seat.load_number(s, j, &shape)),
    }
}

/// Stores number `j` of the object in register `s`.
pub fn write<S: MutatorSteps>(seat: &mut S, s: u32, j: u32, n: u64) -> Reply
    requires ready { S.is_ready seat.old }
    requires register { s < REGISTERS }
    ensures ready { S.is_ready seat.new }
    ensures goes { S.makes_steps seat.old (enters (command.Write s j n) result) seat.new }
{
    match shape_with_number(seat, s, j, &Command::Write { s, j, n }) {
        Err(reply) => reply,
        Ok(shape) => {
            seat.store_number(s, j, n, &shape);
            Reply::Done
        }
    }
}

/// Adds to number `j` of the object in register `s`, modulo 2^64. Replies the number before.
pub fn add<S: MutatorSteps>(seat: &mut S, s: u32, j: u32, n: u64) -> Reply
    requires ready { S.is_ready seat.old }
    requires register { s < REGISTERS }
    ensures ready { S.is_ready seat.new }
    ensures goes { S.makes_steps seat.old (enters (command.Add s j n) result) seat.new }
{
    match shape_with_number(seat, s, j, &Command::Add { s, j, n }) {
        Err(reply) => reply,
        Ok(shape) => Reply::Num(seat.add_number(s, j, n, &shape)),
    }
}

/// `Yes` if a command made its change, else `No`.
fn yes_or_no(changed: bool) -> Reply
    ensures { result ≡ (if changed then reply.Yes else reply.No) }
{
    if changed { Reply::Yes } else { Reply::No }
}

/// Sets number `j` of the object in register `s` to `next` if it is `was`.
pub fn swap<S: MutatorSteps>(seat: &mut S, s: u32, j: u32, was: u64, next: u64) -> Reply
    requires ready { S.is_ready seat.old }
    requires register { s < REGISTERS }
    ensures ready { S.is_ready seat.new }
    ensures goes { S.makes_steps seat.old (enters (command.Swap s j was next) result) seat.new }
{
    match shape_with_number(seat, s, j, &Command::Swap { s, j, was, next }) {
        Err(reply) => reply,
        Ok(shape) => yes_or_no(seat.exchange_number(s, j, was, next, &shape)),
    }
}

/// Copies register `s` to register `d`.
pub fn move_register<S: MutatorSteps>(seat: &mut S, d: u32, s: u32) -> Reply
    requires ready { S.is_ready seat.old }
    requires target { d < REGISTERS }
    requires source { s < REGISTERS }
    ensures ready { S.is_ready seat.new }
    ensures goes { S.makes_steps seat.old (enters (command.Move d s) result) seat.new }
{
    seat.copy_register(d, s);
    Reply::Done
}

/// Clears register `s`.
pub fn drop_register<S: MutatorSteps>(seat: &mut S, s: u32) -> Reply
    requires ready { S.is_ready seat.old }
    requires register { s < REGISTERS }
    ensures ready { S.is_ready seat.new }
    ensures goes { S.makes_steps seat.old (enters (command.DropReg s) result) seat.new }
{
    seat.clear_register(s);
    Reply::Done
}

/// Loads global `g` into register `d`.
pub fn load<S: MutatorSteps>(seat: &mut S, d: u32, g: u32) -> Reply
    requires ready { S.is_ready seat.old }
    requires register { d < REGISTERS }
    requires global { g < GLOBALS }
    ensures ready { S.is_ready seat.new }
    ensures goes { S.makes_steps seat.old (enters (command.Load d g) result) seat.new }
{
    seat.load_global(d, g);
    found(seat, d)
}

/// Stores register `s` into global `g`.
pub fn share<S: MutatorSteps>(seat: &mut S, g: u32, s: u32) -> Reply
    requires ready { S.is_ready seat.old }
    requires register { s < REGISTERS }
    requires global { g < GLOBALS }
    ensures ready { S.is_ready seat.new }
    ensures goes { S.makes_steps seat.old (enters (command.Share g s) result) seat.new }
{
    seat.store_global(g, s);
    Reply::Done
}

/// Pins the object in register `s`: no collection moves it.
pub fn pin<S: MutatorSteps>(seat: &mut S, s: u32) -> Reply
    requires ready { S.is_ready seat.old }
    requires register { s < REGISTERS }
    ensures ready { S.is_ready seat.new }
    ensures goes { S.makes_steps seat.old (enters (command.Pin s) result) seat.new }
{
    if seat.is_nil(s) {
        seat.answer_null(&Command::Pin { s });
        return Reply::Null;
    }
    yes_or_no(seat.set_pin(s))
}

/// Unpins the object in register `s`.
pub fn unpin<S: MutatorSteps>(seat: &mut S, s: u32) -> Reply
    requires ready { S.is_ready seat.old }
    requires register { s < REGISTERS }
    ensures ready { S.is_ready seat.new }
    ensures goes { S.makes_steps seat.old (enters (command.Unpin s) result) seat.new }
{
    if seat.is_nil(s) {
        seat.answer_null(&Command::Unpin { s });
        return Reply::Null;
    }
    yes_or_no(seat.clear_pin(s))
}
