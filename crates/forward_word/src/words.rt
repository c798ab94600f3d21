//! Writing and reading a collector word.

ghost use Rattle.std.specs.Prelude.{◌≡◌, ◌≢◌, ◌<◌, ◌^◌, Some, None, IfSome, IfNone};
ghost use Rattle.forward_word.specs.CollectorWords.{collector_word, number_in, target_in, is_old_word};

/// The bits of a collector word that have the number. They are above the target's.
pub const NUMBER_BITS: u32 = 40;

/// The bits of a collector word that have the target, enough for an address of any heap.
pub const TARGET_BITS: u32 = 24;

/// The collector word with this collection's number and this target.
pub fn encode(number: u64, target: u32) -> u64
    requires number { number < 2 ^ NUMBER_BITS }
    requires target { target < 2 ^ TARGET_BITS }
    ensures { result ≡ collector_word number target }
{
    number << TARGET_BITS | target as u64
}

/// The number of the last collection that claimed the object, 0 for none.
#[inline(always)]
pub fn number_of(word: u64) -> u64
    ensures { result ≡ number_in word }
{
    word >> TARGET_BITS
}

/// The address at which the object was after that collection.
pub fn target_of(word: u64) -> u32
    ensures { result ≡ target_in word }
{
    (word & ((1 << TARGET_BITS) - 1)) as u32
}

/// The target if collection `number` was the last to claim the object, else `None`.
pub fn claimed(word: u64, number: u64) -> Option<u32>
    ensures some { IfSome result (λ t. (number_in word ≡ number) × (target_in word ≡ t)) }
    ensures none { IfNone result (number_in word ≢ number) }
    ensures same { number_in word ≡ number → result ≡ Some (target_in word) }
    ensures other { number_in word ≢ number → result ≡ None }
{
    if number_of(word) == number {
        Some(target_of(word))
    } else {
        None
    }
}

/// Whether the object is old, in a heap whose last full collection that reclaimed was `base`, 0
/// for none.
#[inline(always)]
pub fn is_old(word: u64, base: u64) -> bool
    ensures { result ≡ is_old_word base word }
{
    0 < base && base <= number_of(word)
}
