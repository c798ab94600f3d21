//! The steps of a mutator that allocates: it draws a ticket, takes a Free block, stores the words
//! of an object, and sets its start bit last.

ghost use Rattle.std.specs.Prelude.{◌≡◌, ◌≢◌, ◌+◌, ◌<◌, ◌≤◌, ◌^◌, ℕ, [], ◌∷◌, None, true, false};
ghost use Rattle.std.specs.List.{Contains};
ghost use Rattle.heap_layout.specs.Zones.{IsAddress, block_at};
ghost use Rattle.heap_layout.specs.declared.block.Kind.TheVariants as kinds;
ghost use Rattle.ideal_heap.specs.Runs.{entry};
ghost use Rattle.ideal_heap.specs.Names.{IsName, name_code};
ghost use Rattle.ideal_heap.specs.declared.command.Command.TheVariants as command;
ghost use Rattle.ideal_heap.specs.declared.reply.Reply.TheVariants as reply;
ghost use Rattle.object_model.specs.Objects.{size_of, HasKind};
ghost use Rattle.sessions.specs.Fitting.{class_for};
ghost use Rattle.mutator_core.specs.Machine.{birth_word, next_name, taken};
ghost use Rattle.mutator_core.specs.Guards.{HasTicket, MayBegin, MayInitialize};
ghost use Rattle.mutator_core.specs.Seen.{HasSeenUsed};
ghost use Rattle.mutator_core.specs.declared.state.Extent.{Extent};
ghost use Rattle.mutator_core.specs.declared.state.OwnedBlock.{OwnedBlock};
ghost use Rattle.mutator_rule.specs.Seats.{IsSeatOf};
ghost use Rattle.racing_mutator.specs.RacingSeats.{IsReady, Makes, local, holdings, epoch_of_racing};
ghost use Rattle.racing_mutator.specs.Births.{with_ticket, writing, born};

use crate::racing::{BIRTH_UNIT, Racing, one_bit};
use heap_layout::{BUDGET_WORD, BlockWord, encode};
use ideal_heap::{Command, MAX_NUMS, MAX_REFS, Name, REGISTERS};
use mutator_core::Event;
use object_model::{HEADER_WORDS, MAX_MEDIUM_WORDS, SHAPE_OFFSET, Shape, encode_shape, size_words};
use plan_api::Plan;

// The block word of a Free block.
const FREE_WORD: u64 = 0;

/// The initial word at an offset of an object: its name, its shape, else 0.
fn initial_word(name: &Name, shape: &Shape, offset: u32) -> u64
    requires name { IsName name.now }
    requires refs { shape.now.refs ≤ MAX_REFS }
    requires nums { shape.now.nums ≤ MAX_NUMS }
    ensures { result ≡ birth_word name.now shape.now.refs shape.now.nums offset }
{
    if offset == 0 {
        return BIRTH_UNIT * name.birth as u64 + name.mutator as u64;
    }
    if offset == SHAPE_OFFSET {
        return encode_shape(shape);
    }
    0
}

impl<P: Plan> Racing<'_, '_, P> {
    /// Draws a ticket: the budget word rises by 1. The ticket is the number that the step finds.
    pub(crate) fn draw_ticket(&mut self) -> u64
        requires ready { IsReady P.rules self.old }
        requires none { (local self.old).ticket ≡ None }
        ensures ready { IsReady P.rules self.new }
        ensures makes { Makes P.rules self.old [] self.new }
        ensures drawn { local self.new ≡ with_ticket (local self.old) result }
        ensures fits { result < 2 ^ 32 }
        ensures notes { self.new.seat.now.notes ≡ self.old.seat.now.notes }
    {
        self.row.add(self.seat, BUDGET_WORD, 1, &Event::DrawTicket)
    }

    /// Takes the block with the ticket, for objects of `size` words, if it is Free: one exchange.
    pub(crate) fn take_free(&mut self, block: u32, size: u32) -> bool
        requires ready { IsReady P.rules self.old }
        requires block { block < (epoch_of_racing P.rules self.old).before.blocks }
        requires least { HEADER_WORDS ≤ size }
        requires most { size ≤ MAX_MEDIUM_WORDS }
        requires ticket { HasTicket (epoch_of_racing P.rules self.old) (local self.old) }
        ensures ready { IsReady P.rules self.new }
        ensures makes { Makes P.rules self.old [] self.new }
        ensures taken { result ≡ true → local self.new ≡ taken (epoch_of_racing P.rules self.old)
            (local self.old) block (class_for P.rules.fill size) true }
        ensures free { result ≡ true
            → HasKind (epoch_of_racing P.rules self.old).before block kinds.Free }
        ensures fresh { (x : Extent) → result ≡ true → Contains (local self.old).made x
            → block_at (epoch_of_racing P.rules self.old).before.blocks x.address ≢ block }
        ensures kept { result ≡ false
            → holdings (local self.new) ≡ holdings (local self.old) }
        ensures used { result ≡ false → HasSeenUsed (local self.new) block }
        ensures raised { (local self.new).raised ≡ (local self.old).raised }
        ensures births { (local self.new).births ≡ (local self.old).births }
        ensures still { (k : ℕ) → HasSeenUsed (local self.old) k
            → HasSeenUsed (local self.new) k }
        ensures nobody { (o : OwnedBlock) → result ≡ true → Contains (local self.old).owned o
            → o.block ≢ block }
        ensures notes { self.new.seat.now.notes ≡ self.old.seat.now.notes }
    {
        let at = self.row.layout().block_at(block) as usize;
        let class = P::class_for(size);
        let word = encode(&BlockWord {
            kind: P::alloc_kind(),
            class,
            owner: self.seat.number(),
        });
        let event = Event::TakeBlock {
            block: block as u64,
            class: class as u64,
            free: true,
        };
        let found = self.row.exchange(self.seat, at, FREE_WORD, word, &event);
        found == FREE_WORD
    }

    /// The name of the mutator's next object.
    fn next_name(&self) -> Name
        requires { (local self.now).births + 1 < 2 ^ 32 }
        ensures { result ≡ next_name (local self.now) }
    {
        Name {
            mutator: self.seat.number(),
            birth: self.seat.births() + 1,
        }
    }

    /// Stores the word at an offset of the object that the mutator writes.
    fn store_word(&mut self, address: u32, shape: &Shape, name: &Name, offset: u32)
        requires own { IsSeatOf P.rules self.old.row.now self.old.seat.now }
        requires may { MayInitialize (epoch_of_racing P.rules self.old) (local self.old) address
            shape.now.refs shape.now.nums offset }
        requires named { IsName name.now }
        requires name { name.now ≡ next_name (local self.old) }
        requires refs { shape.now.refs ≤ MAX_REFS }
        requires nums { shape.now.nums ≤ MAX_NUMS }
        requires inside { address + offset < self.old.row.now.row.words.table_id.words }
        requires fits { address + offset < 2 ^ 32 }
        ensures own { IsSeatOf P.rules self.new.row.now self.new.seat.now }
        ensures makes { Makes P.rules self.old [] self.new }
        ensures wrote { local self.new
            ≡ writing (local self.old) address shape.now.refs shape.now.nums (offset + 1) }
        ensures notes { self.new.seat.now.notes ≡ self.old.seat.now.notes }
    {
        let value = initial_word(name, shape, offset);
        let event = Event::Initialize {
            address: address as u64,
            refs: shape.refs as u64,
            nums: shape.nums as u64,
            word: offset as u64,
        };
        self.row.put(self.seat, address as usize + offset as usize, value, &event);
    }

    /// Stores the words of a new object, in order.
    fn store_words(&mut self, address: u32, shape: &Shape, name: &Name)
        requires ready { IsReady P.rules self.old }
        requires begins { MayBegin (epoch_of_racing P.rules self.old) (local self.old) address
            shape.now.refs shape.now.nums }
        requires named { IsName name.now }
        requires name { name.now ≡ next_name (local self.old) }
        ensures own { IsSeatOf P.rules self.new.row.now self.new.seat.now }
        ensures makes { Makes P.rules self.old [] self.new }
        ensures wrote { local self.new ≡ writing (local self.old) address shape.now.refs
            shape.now.nums (size_of shape.now.refs shape.now.nums) }
        ensures notes { self.new.seat.now.notes ≡ self.old.seat.now.notes }
    {
        let size = size_words(shape);
        self.store_word(address, shape, name, 0);
        for offset in 1..size {
            self.store_word(address, shape, name, offset);
        }
    }

    /// Stores the words of a new object. Its start bit is not set, so no other mutator sees it.
    pub(crate) fn write(&mut self, address: u32, shape: &Shape)
        requires ready { IsReady P.rules self.old }
        requires begins { MayBegin (epoch_of_racing P.rules self.old) (local self.old) address
            shape.now.refs shape.now.nums }
        ensures own { IsSeatOf P.rules self.new.row.now self.new.seat.now }
        ensures makes { Makes P.rules self.old [] self.new }
        ensures wrote { local self.new ≡ writing (local self.old) address shape.now.refs
            shape.now.nums (size_of shape.now.refs shape.now.nums) }
        ensures notes { self.new.seat.now.notes ≡ self.old.seat.now.notes }
    {
        let name = self.next_name();
        self.store_words(address, shape, &name);
    }

    /// Sets the start bit of an object whose words are stored, by which others see it. Register `d`
    /// holds it. Its name is the mutator's next.
    pub(crate) fn publish(&mut self, d: u32, address: u32, shape: &Shape) -> Name
        requires own { IsSeatOf P.rules self.old.row.now self.old.seat.now }
        requires stored { (local self.old).pending ≡ 0 }
        requires place { IsAddress (epoch_of_racing P.rules self.old).before.blocks address }
        requires written { (local self.old).unpublished ≡ (record {
          address = address;
          refs = shape.now.refs;
          nums = shape.now.nums;
          written = size_of shape.now.refs shape.now.nums;
        }) }
        requires births { (local self.old).births + 1 < 2 ^ 32 }
        requires register { d < REGISTERS }
        ensures ready { IsReady P.rules self.new }
        ensures name { result ≡ next_name (local self.old) }
        ensures makes { Makes P.rules self.old (entry (local self.old).number
            (command.New d shape.now.refs shape.now.nums) (reply.New result) ∷ []) self.new }
        ensures born { local self.new
            ≡ born (local self.old) address d shape.now.refs shape.now.nums }
        ensures notes { self.new.seat.now.notes ≡ self.old.seat.now.notes }
    {
        let name = self.next_name();
        let (at, bit) = self.bit_at(self.row.layout().start_base(), address);
        let event = Event::Perform(Command::New {
            d,
            refs: shape.refs,
            nums: shape.nums,
        });
        self.row
            .publish(self.seat, at, one_bit(bit), d, address, &event);
        name
    }
}
