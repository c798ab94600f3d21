//! Laws on the printed text.

ghost use Rattle.std.specs.Prelude.{◌≡◌, ℕ, ◌++◌, ◌∷◌, [], List, codes, map, take, drop, replicate};
ghost use Rattle.std.specs.List.{range_with_len};
ghost use Rattle.driver.specs.Prelude.{name, IsBefore, entry, alone, empty_heap, MutatorState, NoGc, map_line, report_part, summary_part, replies_part, count_words_at, kinds_line, Command, empty, mutator_text, HasFullLine, Setting, Moment, IsWhole, HeapState};
ghost use Rattle.driver.specs.Prelude.command;
ghost use Rattle.driver.specs.Prelude.reply;

/// The summary of a made trace whose replies are all `ok`, and at whose end nothing is reachable.
pub fn summary_of_ok()
    ensures { summary_part 33 (empty_heap 4) [] (replicate 33 reply.Done)
        ≡ codes "make 33\nnew 0\nfull 0\nref 0\nnil 0\nnum 0 sum 0\nok 33\nyes 0\nno 0\nnull 0\n"
        ++ codes "range 0\nlive objects 0 words 0\n" }
{}

/// Each line of a summary counts one kind of reply. The sum of the numbers is modulo 2^64.
pub fn summary_of_each()
    ensures { summary_part 16 (empty_heap 4) []
        (reply.New (name 1 1) ∷ reply.Full ∷ reply.Full ∷ reply.Ref (name 1 1) ∷ reply.Nil
        ∷ reply.Nil ∷ reply.Nil ∷ reply.Num 18446744073709551615 ∷ reply.Num 3
        ∷ reply.Done ∷ reply.Yes ∷ reply.Yes ∷ reply.No ∷ reply.Null ∷ reply.Range
        ∷ reply.Range ∷ [])
        ≡ codes "make 16\nnew 1\nfull 2\nref 1\nnil 3\nnum 2 sum 2\nok 1\nyes 2\nno 1\nnull 1\n"
        ++ codes "range 2\nlive objects 0 words 0\n" }
{}

/// The nine lines of a report on a session of three commands whose last heap has no blocks, and the
/// map line of an object at the first word of a heap.
pub fn report_and_map()
    ensures report { (ms : List MutatorState) → report_part NoGc 3 (record {
      heap = empty_heap 0;
      mutators = ms;
      done = entry 1 command.Gc reply.Done ∷ entry 2 command.Meet reply.Done
          ∷ entry 1 (command.New 0 1 2) reply.Full ∷ [];
      nursery = 4;
      full = 2;
    }) [] ≡ codes "plan nogc\nblocks 0\nmutators 3\ncommands 3\nfull 1\n"
        ++ codes "collections nursery 4 full 2\nlive objects 0 words 0\nheld objects 0 words 0\n"
        ++ codes "kinds free 0 bump 0 young 0 mature 0 immix 0 cells 0 large 0 kept 0\n" }
    ensures map { map_line (record (empty_heap 0) {
      words = replicate 18 0 ++ 97 ∷ 131073 ∷ 0 ∷ [];
    }) 18
        ≡ codes "map 1.3 block 0 word 0 size 6\n" }
{}

/// The replies to a single trace depend on that trace alone, if the line `full` does not stand in
/// their text. With more mutators they depend on the order of commands too.
pub fn printed_of_one()
    ensures { (t : Setting) (trace : List Command) (last : Moment) → t.traces ≡ trace ∷ []
        → IsWhole t last → (HasFullLine (replies_part 1 last) → ⊥)
        → replies_part 1 last ≡ mutator_text 1 (alone empty 1 trace) }
{}

/// The replies are grouped by mutator, in rising order of mutators.
pub fn replies_of_two()
    ensures { (heap : HeapState) (ms : List MutatorState) → replies_part 2 (record {
      heap = heap;
      mutators = ms;
      done = entry 2 command.Gc reply.Done ∷ entry 1 (command.New 0 1 2) reply.Full ∷ [];
      nursery = 0;
      full = 1;
    }) ≡ codes "mutator 1\nfull\nmutator 2\nok\n" }
{}

/// The map line of an object in block 1, the words of listed objects, the count of blocks of each
/// kind, and the order of names.
pub fn texts_of_a_heap()
    ensures place { map_line (record (empty_heap 0) {
      words = replicate 4119 0 ++ 97 ∷ 131073 ∷ 0 ∷ [];
    }) 4119 ≡ codes "map 1.3 block 1 word 5 size 6\n" }
    ensures words { count_words_at (record (empty_heap 0) {
      words = replicate 18 0 ++ 97 ∷ 131073 ∷ 0 ∷ [];
    }) (18 ∷ 18 ∷ []) ≡ 12 }
    ensures kinds { kinds_line (record (empty_heap 12) {
      words = replicate 18 0
          ++ 0 ∷ 1 ∷ 2 ∷ 2 ∷ 3 ∷ 3 ∷ 3 ∷ 4 ∷ 5 ∷ 6 ∷ 7 ∷ 8 ∷ [];
    })
        ≡ codes "kinds free 1 bump 1 young 2 mature 3 immix 1 cells 1 large 2 kept 1\n" }
    ensures births { IsBefore (name 1 1) (name 1 2) }
    ensures mutators { IsBefore (name 1 9) (name 2 1) }
    ensures falls { IsBefore (name 1 2) (name 1 1) → ⊥ }
{}
