//! The numbers that encode block words.

ghost use Rattle.std.specs.Prelude.{◌↔◌, IsTrue, IsSome, ◌≡◌, ◌≢◌, Some, IfSome, IfNone};
ghost use Rattle.heap_layout.specs.Blocks.{code_of, kind_code, kind_of_code, is_block_code, IsValidWord};
ghost use Rattle.heap_layout.specs.declared.block.BlockWord.{BlockWord};

use crate::block::{BlockWord, CLASSES, Kind, LAST_OWNER};

/// The factor of a block's class in its block word. The kind is below it.
pub const CLASS_UNIT: u64 = 256;

/// The number of classes that a block word has room for.
const CLASS_CODES: u64 = 256;

/// The factor of a block's owner in its block word. Kind and class are below it.
pub const OWNER_UNIT: u64 = 65_536;

impl BlockWord {
    /// Whether the kind allows this class and this owner.
    pub fn is_valid(&self) -> bool
        ensures { IsTrue result ↔ IsValidWord self.now }
    {
        let class = self.class;
        let owner = self.owner;
        match self.kind {
            Kind::Free | Kind::LargeTail | Kind::Kept => class == 0 && owner == 0,
            Kind::Bump | Kind::Young | Kind::Mature | Kind::Immix => class == 0
                && owner <= LAST_OWNER,
            Kind::Cells => class < CLASSES as u32 && owner <= LAST_OWNER,
            Kind::LargeHead => 1 <= class && class <= 15 && owner == 0,
        }
    }
}

/// The number that encodes a valid block word: the kind in bits 0 to 7, the class in bits 8 to 15,
/// the owner from bit 16 on.
pub fn encode(word: &BlockWord) -> u64
    requires { IsValidWord word.now }
    ensures { result ≡ code_of word.now }
{
    kind_number(word.kind) + CLASS_UNIT * word.class as u64 + OWNER_UNIT * word.owner as u64
}

/// The valid block word that a number encodes, or `None` if it encodes none.
pub fn decode(code: u64) -> Option<BlockWord>
    ensures some { IfSome result (λ w. IsValidWord w × (code_of w ≡ code)) }
    ensures none { IfNone result ((w : BlockWord) → IsValidWord w → code_of w ≢ code) }
    ensures back { (w : BlockWord) → IsValidWord w → code_of w ≡ code → result ≡ Some w }
    ensures code { IsSome result ↔ IsTrue (is_block_code code) }
{
    let word = BlockWord {
        kind: kind_at(code % CLASS_UNIT)?,
        class: (code / CLASS_UNIT % CLASS_CODES) as u32,
        owner: u32::try_from(code / OWNER_UNIT).ok()?,
    };
    if !word.is_valid() {
        return None;
    }
    Some(word)
}

/// The number that encodes a kind, 0 to 8.
fn kind_number(kind: Kind) -> u64
    ensures { result ≡ kind_code kind }
{
    kind as u64
}

/// The kind that a number encodes, or `None` if the number is above 8.
fn kind_at(number: u64) -> Option<Kind>
    ensures { result ≡ kind_of_code number }
{
    match number {
        0 => Some(Kind::Free),
        1 => Some(Kind::Bump),
        2 => Some(Kind::Young),
        3 => Some(Kind::Mature),
        4 => Some(Kind::Immix),
        5 => Some(Kind::Cells),
        6 => Some(Kind::LargeHead),
        7 => Some(Kind::LargeTail),
        8 => Some(Kind::Kept),
        _ => None,
    }
}
