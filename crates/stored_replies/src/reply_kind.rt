//! Kinds of replies.

ghost use Rattle.std.specs.Prelude.{◌≡◌, ◌<◌, ◌%◌, ◌^◌, ℕ, count_by, length, slice_index, sum};
ghost use Rattle.stored_replies.specs.Kinds.{kind_of, kind_after, is_next_kind, kind_index, is_of_index, next_name};

use ideal_heap::{Name, Reply};

/// What a reply is, without its name or number. `Range` stands first so that no kind has the tag of
/// its reply: with equal tags LLVM jumps by the tag twice. `Next` is a `new` whose name is the next
/// after that of the `new` before it.
#[derive(Clone, Copy, Debug)]
pub enum ReplyKind {
    Range,
    New,
    Full,
    Ref,
    Nil,
    Num,
    Done,
    Yes,
    No,
    Null,
    Next,
}

/// The number of kinds, where `New` and `Next` are one.
pub const KINDS: usize = 10;

const _: () = prove!(size_of::<ReplyKind>() == 1);

/// Stands for the name of a `new` where none was yet.
pub(crate) const NO_NAME: Name = Name {
    mutator: 0,
    birth: 0,
};

/// The name of the mutator's next object.
#[inline(always)]
pub(crate) fn next_after(name: Name) -> Name
    ensures { result ≡ next_name name }
{
    Name {
        mutator: name.mutator,
        birth: name.birth.wrapping_add(1),
    }
}

impl ReplyKind {
    /// The kind of a reply, if this is the name in the last `new` before it.
    #[inline(always)]
    pub(crate) fn after(last: Name, reply: &Reply) -> ReplyKind
        ensures { result ≡ kind_after last reply.now }
    {
        match reply {
            Reply::New(name) => {
                if *name == next_after(last) {
                    ReplyKind::Next
                } else {
                    ReplyKind::New
                }
            }
            Reply::Full => ReplyKind::Full,
            Reply::Ref(_) => ReplyKind::Ref,
            Reply::Nil => ReplyKind::Nil,
            Reply::Num(_) => ReplyKind::Num,
            Reply::Done => ReplyKind::Done,
            Reply::Yes => ReplyKind::Yes,
            Reply::No => ReplyKind::No,
            Reply::Null => ReplyKind::Null,
            Reply::Range => ReplyKind::Range,
        }
    }

    /// Its index, below `KINDS`.
    #[inline(always)]
    pub fn index(self) -> usize
        ensures index { result ≡ kind_index self }
        ensures within { result < KINDS }
    {
        match self {
            ReplyKind::Next => ReplyKind::New as usize,
            _ => self as usize,
        }
    }

    /// Whether it is `Next`.
    #[inline(always)]
    pub(crate) fn is_next(self) -> bool
        ensures { result ≡ is_next_kind self }
    {
        matches!(self, ReplyKind::Next)
    }
}

/// How many of the kinds have each index.
pub(crate) fn index_counts(kinds: &[ReplyKind]) -> [u64; KINDS]
    ensures len { length result ≡ KINDS }
    ensures counts { (i : ℕ) → i < KINDS
        → slice_index result i ≡ count_by (is_of_index i) kinds.now }
{
    let mut counts = [0; KINDS];
    for kind in kinds {
        counts[kind.index()] += 1;
    }
    counts
}

/// The sum of the numbers, modulo 2^64.
pub(crate) fn sum_of(numbers: &[u64]) -> u64
    ensures { result ≡ sum numbers.now % 2 ^ 64 }
{
    let mut sum: u64 = 0;
    for number in numbers {
        sum = sum.wrapping_add(*number);
    }
    sum
}
