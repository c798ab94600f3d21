//! The trait of a mutator's steps that allocate nothing.

ghost use Rattle.std.specs.Prelude.{◌≡◌, ◌≢◌, ◌↔◌, ◌<◌, ℕ, true, false, IsTrue, [], ◌∷◌, if◌then◌else◌};
ghost use Rattle.ideal_heap.specs.declared.command.Command.{Command};
ghost use Rattle.ideal_heap.specs.declared.command.Command.TheVariants as command;
ghost use Rattle.ideal_heap.specs.declared.reply.Reply.{Reply};
ghost use Rattle.ideal_heap.specs.declared.reply.Reply.TheVariants as reply;
ghost use Rattle.ideal_heap.specs.declared.name.Name.{Name};
ghost use Rattle.object_model.specs.declared.shape.Shape.{Shape};
ghost use Rattle.mutator_core.specs.Machine.{source};
ghost use Rattle.mutator_calls.specs.Effects.{Effect, nothing, enters, logs, raises, and_then, IsFound};
ghost use Rattle.mutator_calls.specs.Accesses.{IsAccess, LacksIndex};

use ideal_heap::{Command, GLOBALS, Name, REGISTERS};
use object_model::Shape;

/// The steps of a mutator at a heap, on its registers, on objects and on globals.
///
/// Each method makes at most one entry in the history of all mutators, and is one atomic step, but
/// for `log_and_store_field`, which clears a bit and stores a word. A register holds an address, or
/// 0 for nil.
///
/// Other mutators may step in between, before a step of this one and after it. So what later steps
/// rest on is said of the state after a load.
pub trait MutatorSteps {
    // No allocation is under way.
    ghost is_ready: { Self → Type 0 };

    // The address in a register.
    ghost address: { Self → ℕ → ℕ };

    // The mutator's steps from the one state to the other have this effect.
    ghost makes_steps: { Self → Effect → Self → Type 0 };

    // From the one state to the other the mutator only loaded words.
    ghost only_loads: { Self → Self → Type 0 };

    // The object in the register has this shape. The mutator knows it until it loads another one's.
    ghost has_shape: { Self → ℕ → Shape → Type 0 };

    // The object at the address has this name.
    ghost has_name: { Self → ℕ → Name → Type 0 };

    // A reference may be stored into the object in the register: the plan is not generational, the
    // object is not old, or it is logged. The mutator knows it until it loads that of another one.
    ghost may_store_unlogged: { Self → ℕ → Type 0 };

    // The plan is generational; the register, one of 16 that is not nil, holds an old object; its
    // unlog bit is set.
    ghost has_ages: { Self → Type 0 };

    ghost is_aged: { Self → ℕ → Type 0 };

    ghost is_marked: { Self → ℕ → Type 0 };

    // The stop word is this number, as the mutator last loaded it.
    ghost has_stop: { Self → ℕ → Type 0 };

    /// Whether the register is nil.
    fn is_nil(&self, register: u32) -> bool
        requires ready { is_ready self.now }
        requires register { register < REGISTERS }
        ensures { IsTrue result ↔ (address self.now register ≡ 0) };

    /// Whether the plan is generational, so that stores into old objects are logged.
    fn is_generational(&self) -> bool
        requires { is_ready self.now }
        ensures ages { result ≡ true → has_ages self.now }
        ensures none { result ≡ false → (s : ℕ) → may_store_unlogged self.now s };

    /// Loads the shape word of the object in the register.
    fn load_shape(&mut self, register: u32) -> Shape
        requires ready { is_ready self.old }
        requires register { register < REGISTERS }
        requires some { address self.old register ≢ 0 }
        ensures ready { is_ready self.new }
        ensures looks { only_loads self.old self.new }
        ensures shape { has_shape self.new register result };

    /// Loads the name word of the object in the register.
    fn load_name(&mut self, register: u32) -> Name
        requires ready { is_ready self.old }
        requires register { register < REGISTERS }
        requires some { address self.old register ≢ 0 }
        ensures ready { is_ready self.new }
        ensures looks { only_loads self.old self.new }
        ensures name { has_name self.old (address self.old register) result };

    /// Loads the collector word of the object in the register: whether the object is old.
    fn is_old(&mut self, register: u32) -> bool
        requires ready { is_ready self.old }
        requires register { register < REGISTERS }
        requires some { address self.old register ≢ 0 }
        ensures ready { is_ready self.new }
        ensures looks { only_loads self.old self.new }
        ensures aged { result ≡ true → is_aged self.old register }
        ensures young { result ≡ false → may_store_unlogged self.new register }
        ensures shapes { (s : ℕ) (shape : Shape) → has_shape self.old s shape
            → has_shape self.new s shape };

    /// Loads the word with the unlog bit of the object in the register: whether the bit is set.
    fn is_unlogged(&mut self, register: u32) -> bool
        requires ready { is_ready self.old }
        requires register { register < REGISTERS }
        requires some { address self.old register ≢ 0 }
        ensures ready { is_ready self.new }
        ensures looks { only_loads self.old self.new }
        ensures marked { result ≡ true → is_marked self.old register }
        ensures logged { result ≡ false → may_store_unlogged self.new register }
        ensures shapes { (s : ℕ) (shape : Shape) → has_shape self.old s shape
            → has_shape self.new s shape };

    /// Answers a command on the object of a nil register: a load of the stop word.
    fn answer_null(&mut self, command: &Command)
        requires ready { is_ready self.old }
        requires access { IsAccess command.now }
        requires none { address self.old (source command.now) ≡ 0 }
        ensures ready { is_ready self.new }
        ensures goes { makes_steps self.old (enters command.now reply.Null) self.new };

    /// Answers a command on a field or number that the object lacks: a load of the stop word.
    fn answer_range(&mut self, command: &Command, shape: &Shape)
        requires ready { is_ready self.old }
        requires shape { has_shape self.old (source command.now) shape.now }
        requires lacks { LacksIndex shape.now command.now }
        ensures ready { is_ready self.new }
        ensures goes { makes_steps self.old (enters command.now reply.Range) self.new };

    /// Copies register `s` to register `d`: a load of the stop word.
    fn copy_register(&mut self, d: u32, s: u32)
        requires ready { is_ready self.old }
        requires target { d < REGISTERS }
        requires source { s < REGISTERS }
        ensures ready { is_ready self.new }
        ensures goes { makes_steps self.old (enters (command.Move d s) reply.Done) self.new };

    /// Clears register `s`: a load of the stop word.
    fn clear_register(&mut self, s: u32)
        requires ready { is_ready self.old }
        requires register { s < REGISTERS }
        ensures ready { is_ready self.new }
        ensures goes { makes_steps self.old (enters (command.DropReg s) reply.Done) self.new };

    /// Loads global `g` into register `d`.
    fn load_global(&mut self, d: u32, g: u32)
        requires ready { is_ready self.old }
        requires register { d < REGISTERS }
        requires global { g < GLOBALS }
        ensures ready { is_ready self.new }
        ensures goes { (reply : Reply)
            × makes_steps self.old (enters (command.Load d g) reply) self.new
            × IsFound (has_name self.new) (address self.new d) reply };

    /// Stores register `s` into global `g`.
    fn store_global(&mut self, g: u32, s: u32)
        requires ready { is_ready self.old }
        requires register { s < REGISTERS }
        requires global { g < GLOBALS }
        ensures ready { is_ready self.new }
        ensures goes { makes_steps self.old (enters (command.Share g s) reply.Done) self.new };

    /// Loads reference field `i` of the object in register `s` into register `d`.
    fn load_field(&mut self, d: u32, s: u32, i: u32, shape: &Shape)
        requires ready { is_ready self.old }
        requires target { d < REGISTERS }
        requires source { s < REGISTERS }
        requires shape { has_shape self.old s shape.now }
        requires field { i < shape.now.refs }
        ensures ready { is_ready self.new }
        ensures goes { (reply : Reply)
            × makes_steps self.old (enters (command.Get d s i) reply) self.new
            × IsFound (has_name self.new) (address self.new d) reply };

    /// Stores register `v` into reference field `i` of the object in register `s`.
    fn store_field(&mut self, s: u32, i: u32, v: u32, shape: &Shape)
        requires ready { is_ready self.old }
        requires target { s < REGISTERS }
        requires source { v < REGISTERS }
        requires shape { has_shape self.old s shape.now }
        requires field { i < shape.now.refs }
        requires barred { may_store_unlogged self.old s }
        ensures ready { is_ready self.new }
        ensures goes { makes_steps self.old (enters (command.Put s i v) reply.Done) self.new };

    /// Logs the object in register `s`, which clears its unlog bit, and then stores register `v`
    /// into its reference field `i`: MMTk's object-remembering barrier.
    fn log_and_store_field(&mut self, s: u32, i: u32, v: u32, shape: &Shape)
        requires ready { is_ready self.old }
        requires target { s < REGISTERS }
        requires source { v < REGISTERS }
        requires shape { has_shape self.old s shape.now }
        requires field { i < shape.now.refs }
        ensures ready { is_ready self.new }
        ensures goes { makes_steps self.old
            (logs (address self.old s ∷ []) (command.Put s i v) reply.Done) self.new };

    /// Loads number `j` of the object in register `s`.
    fn load_number(&mut self, s: u32, j: u32, shape: &Shape) -> u64
        requires ready { is_ready self.old }
        requires register { s < REGISTERS }
        requires shape { has_shape self.old s shape.now }
        requires number { j < shape.now.nums }
        ensures ready { is_ready self.new }
        ensures goes { makes_steps self.old
            (enters (command.Read s j) (reply.Num result)) self.new };

    /// Stores number `j` of the object in register `s`.
    fn store_number(&mut self, s: u32, j: u32, n: u64, shape: &Shape)
        requires ready { is_ready self.old }
        requires register { s < REGISTERS }
        requires shape { has_shape self.old s shape.now }
        requires number { j < shape.now.nums }
        ensures ready { is_ready self.new }
        ensures goes { makes_steps self.old (enters (command.Write s j n) reply.Done) self.new };

    /// Adds to number `j` of the object in register `s`, modulo 2^64. Returns the number before.
    fn add_number(&mut self, s: u32, j: u32, n: u64, shape: &Shape) -> u64
        requires ready { is_ready self.old }
        requires register { s < REGISTERS }
        requires shape { has_shape self.old s shape.now }
        requires number { j < shape.now.nums }
        ensures ready { is_ready self.new }
        ensures goes { makes_steps self.old
            (enters (command.Add s j n) (reply.Num result)) self.new };

    /// The compare-exchange of number `j` of the object in register `s`. Returns whether it was
    /// `was`.
    fn exchange_number(&mut self, s: u32, j: u32, was: u64, next: u64, shape: &Shape) -> bool
        requires ready { is_ready self.old }
        requires register { s < REGISTERS }
        requires shape { has_shape self.old s shape.now }
        requires number { j < shape.now.nums }
        ensures ready { is_ready self.new }
        ensures goes { makes_steps self.old (enters (command.Swap s j was next)
            (if result then reply.Yes else reply.No)) self.new };

    /// Sets the pin bit of the object in register `s`. Returns whether it was clear.
    fn set_pin(&mut self, s: u32) -> bool
        requires ready { is_ready self.old }
        requires register { s < REGISTERS }
        requires some { address self.old s ≢ 0 }
        ensures ready { is_ready self.new }
        ensures goes { makes_steps self.old (enters (command.Pin s)
            (if result then reply.Yes else reply.No)) self.new };

    /// Clears the pin bit of the object in register `s`. Returns whether it was set.
    fn clear_pin(&mut self, s: u32) -> bool
        requires ready { is_ready self.old }
        requires register { s < REGISTERS }
        requires some { address self.old s ≢ 0 }
        ensures ready { is_ready self.new }
        ensures goes { makes_steps self.old (enters (command.Unpin s)
            (if result then reply.Yes else reply.No)) self.new };

    /// Loads the stop word: the number of the mutator that raised a stop, or 0.
    fn load_stop(&mut self) -> u32
        requires { is_ready self.old }
        ensures ready { is_ready self.new }
        ensures looks { only_loads self.old self.new }
        ensures stop { has_stop self.new result };

    /// The compare-exchange of the stop word from 0 to the mutator's number.
    fn raise_stop(&mut self)
        requires { is_ready self.old }
        ensures ready { is_ready self.new }
        ensures goes { makes_steps self.old raises self.new };

    // Loads follow one another, and so do effects.
    ghost looks_at_nothing: { (a : Self) → only_loads a a };

    ghost looks_again: { (a b c : Self) → only_loads a b → only_loads b c → only_loads a c };

    ghost one_after_another: { (a b c : Self) (e f : Effect) → makes_steps a e b → makes_steps b f c
        → makes_steps a (and_then e f) c };

    // A mutator that only loaded words has made no entry and keeps its registers.
    ghost loads_do_nothing: { (a b : Self) → only_loads a b → makes_steps a nothing b };

    ghost registers_stay: { (a b : Self) (s : ℕ) → only_loads a b → address b s ≡ address a s };

    ghost plans_stay: { (a b : Self) → only_loads a b → has_ages b → has_ages a };

    ghost ages_stay: { (a b : Self) (s : ℕ) → only_loads a b → is_aged b s → is_aged a s };

    ghost marks_stay: { (a b : Self) (s : ℕ) → only_loads a b → is_marked b s → is_marked a s };

    ghost shapes_are_of_objects: { (a : Self) (s : ℕ) (shape : Shape) → has_shape a s shape
        → address a s ≢ 0 };
}
