//! A mutator's seat.

ghost use Rattle.std.specs.Prelude.{◌≡◌, ◌<◌, [], ◌∷◌, slice_index};
ghost use Rattle.mutator_rule.specs.Views.{first_of};

use crate::seat_notes::SeatNotes;
use crate::views::SeatView;
use ideal_heap::REGISTERS;
use mutator_calls::Mutator;
use shared_row::RowSeat;

/// A mutator at a row that others share: its registers, what it knows of the row, and what it notes
/// for itself.
#[derive(Drop)]
pub struct MutatorSeat {
    pub(crate) seat: RowSeat<SeatView>,
    pub(crate) registers: [u32; REGISTERS],
    pub(crate) number: u32,
    pub(crate) births: u32,
    pub(crate) notes: SeatNotes,
    ghost one: { seat.me.0 ≡ first_of seat.me.0 ∷ [] },
    ghost free: { seat.me.1 ≡ [] },
    ghost numbered: { (first_of seat.me.0).local.number ≡ number },
    ghost born: { (first_of seat.me.0).local.births ≡ births },
    ghost held: { (first_of seat.me.0).local.registers ≡ registers },
}

impl MutatorSeat {
    /// The mutator's number.
    #[inline(always)]
    pub fn number(&self) -> u32
        ensures { result ≡ self.now.number }
    {
        self.number
    }

    /// How many objects the mutator has allocated.
    #[inline(always)]
    pub fn births(&self) -> u32
        ensures { result ≡ self.now.births }
    {
        self.births
    }

    /// The address in a register, 0 for nil.
    #[inline(always)]
    pub fn register(&self, register: u32) -> u32
        requires { register < REGISTERS }
        ensures { result ≡ slice_index self.now.registers register }
    {
        self.registers[register as usize]
    }

    /// What the mutator notes for itself, which the steps of a seat leave.
    #[inline(always)]
    pub fn notes(&self) -> &SeatNotes
        ensures { result.now ≡ self.now.notes }
    {
        &self.notes
    }

    pub(crate) fn into_row_seat(self) -> RowSeat<SeatView>
        ensures { result ≡ self.seat }
    {
        let MutatorSeat { seat, .. } = self;
        seat
    }

    /// The mutator, as it stands.
    pub fn mutator(&self) -> Mutator
        ensures { (result.number ≡ self.now.number) × (result.births ≡ self.now.births)
            × (result.registers ≡ self.now.registers) }
    {
        Mutator {
            number: self.number,
            births: self.births,
            registers: self.registers,
        }
    }
}
