//! The type of replies that are kept.

ghost use Rattle.std.specs.Prelude.{◌≡◌, ◌++◌, ◌∷◌, ◌<◌, ◌%◌, ◌^◌, [], ℕ, length, slice_index, count_by, sum_by, IfOk};
ghost use Rattle.ideal_heap.specs.Runs.{is_full};
ghost use Rattle.stored_replies.specs.Kinds.{is_of_kind, number_replied};

use crate::iter::Iter;
use crate::reply_kind::{KINDS, NO_NAME, ReplyKind, index_counts, sum_of};
use ideal_heap::{Name, Reply};
use std::alloc::{AllocError, Global};
use std::marker::Model;

/// A list of replies with a capacity. For a reply a byte is written, and 8 more for its number or
/// its name, unless that is the next after the name in the `new` before. Clauses see the list, as
/// `items`, and the capacity, in replies.
#[derive(Debug, Drop)]
pub struct StoredReplies {
    kinds: Vec<ReplyKind>,
    // The name in the last `new`.
    last: Name,
    // The number of replies `full`.
    fulls: usize,
    // The names that are stored, and the numbers, each in the order of the replies.
    names: Vec<Name>,
    numbers: Vec<u64>,
}

impl Model for StoredReplies {
    ghost use Rattle.std.specs.Prelude.{◌≡◌, count_by, vec_capacity};
    ghost use Rattle.ideal_heap.specs.Names.{name};
    ghost use Rattle.stored_replies.specs.Kinds.{is_full_kind, last_in, unpacked, HasParts};
    ghost use Rattle.stored_replies.specs.Replies.{Replies};

    ghost Value = { Replies };

    ghost view = { λ s. record {
      items = unpacked (name 0 0) s.kinds.items s.names.items s.numbers.items;
      capacity = vec_capacity s.kinds;
    } };

    ghost invariant = { λ s. HasParts s.kinds.items s.names.items s.numbers.items
        × (vec_capacity s.names ≡ vec_capacity s.kinds)
        × (vec_capacity s.numbers ≡ vec_capacity s.kinds)
        × (s.last ≡ last_in (name 0 0) s.kinds.items s.names.items)
        × (s.fulls ≡ count_by is_full_kind s.kinds.items) };
}

impl StoredReplies {
    /// No reply, with room for so many. Memory is taken for as many names and numbers too, since
    /// any reply may have one. It is written only as they come.
    ///
    /// Fails if memory runs out.
    pub fn with_capacity(alloc: Global, capacity: usize) -> Result<StoredReplies, AllocError>
        ensures items { IfOk result (λ r. r.items ≡ []) }
        ensures capacity { IfOk result (λ r. r.capacity ≡ capacity) }
    {
        Ok(StoredReplies {
            kinds: Vec::with_capacity(alloc, capacity)?,
            last: NO_NAME,
            fulls: 0,
            names: Vec::with_capacity(alloc, capacity)?,
            numbers: Vec::with_capacity(alloc, capacity)?,
        })
    }

    /// The number of replies.
    #[inline(always)]
    pub fn len(&self) -> usize
        ensures { result ≡ length self.now.items }
    {
        self.kinds.len()
    }

    /// The number of replies `full`, which is kept.
    #[inline(always)]
    pub fn fulls(&self) -> usize
        ensures { result ≡ count_by is_full self.now.items }
    {
        self.fulls
    }

    /// How many replies there are of each kind, from the bytes of their kinds alone.
    pub fn kind_counts(&self) -> [u64; KINDS]
        ensures len { length result ≡ KINDS }
        ensures counts { (i : ℕ) → i < KINDS
            → slice_index result i ≡ count_by (is_of_kind i) self.now.items }
    {
        index_counts(&self.kinds)
    }

    /// The sum of the numbers in the replies, modulo 2^64.
    pub fn number_sum(&self) -> u64
        ensures { result ≡ sum_by number_replied self.now.items % 2 ^ 64 }
    {
        sum_of(&self.numbers)
    }

    /// Adds a reply, for which there is room.
    #[inline(always)]
    pub fn push_reserved(&mut self, reply: Reply)
        requires { length self.old.items < self.old.capacity }
        ensures items { self.new.items ≡ self.old.items ++ reply ∷ [] }
        ensures capacity { self.new.capacity ≡ self.old.capacity }
    {
        let kind = ReplyKind::after(self.last, &reply);
        self.kinds.push_reserved(kind);
        match reply {
            Reply::New(name) => {
                self.last = name;
                if !kind.is_next() {
                    self.names.push_reserved(name);
                }
            }
            Reply::Ref(name) => self.names.push_reserved(name),
            Reply::Full => self.fulls += 1,
            Reply::Num(number) => self.numbers.push_reserved(number),
            _ => {}
        }
    }

    /// The replies in order.
    #[inline(always)]
    pub fn iter(&self) -> Iter<'_>
        ensures { result ≡ self.now.items }
    {
        Iter::new(&self.kinds, &self.names, &self.numbers)
    }

    /// The replies, each in full.
    ///
    /// Fails if memory runs out.
    pub fn to_vec(&self, alloc: Global) -> Result<Vec<Reply>, AllocError>
        ensures { IfOk result (λ v. v.items ≡ self.now.items) }
    {
        let mut replies = Vec::with_capacity(alloc, self.len())?;
        for reply in self.iter() {
            replies.push(reply)?;
        }
        Ok(replies)
    }
}
