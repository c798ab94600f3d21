//! Small programs, computed by hand.

ghost use Rattle.std.specs.Prelude.{◌≡◌, ◌++◌, ℕ, ◌∷◌, [], List, Some, None};
ghost use Rattle.programs.specs.Prelude.{name, empty, Nil, At, alone, heap_after_run, entry, number_of, field_in_heap, IsList, IsGlobalList, heap_after, pushes, pops};
ghost use Rattle.programs.specs.Prelude.command;
ghost use Rattle.programs.specs.Prelude.reply;

/// An object with two numbers: one is written, a sum wraps, a swap meets another number. The object
/// has no third number, and a nil register has none.
pub fn number_examples()
    ensures written { number_of (heap_after empty 1 (command.New 0 0 2 ∷ command.Write 0 1 7
        ∷ [])) 1 0 1 ≡ Some 7 }
    ensures other { number_of (heap_after empty 1 (command.New 0 0 2 ∷ command.Write 0 1 7
        ∷ [])) 1 0 0 ≡ Some 0 }
    ensures lacks { number_of (heap_after empty 1 (command.New 0 0 2 ∷ [])) 1 0 2 ≡ None }
    ensures nil { number_of (heap_after empty 1 (command.New 0 0 2 ∷ [])) 1 1 0 ≡ None }
    ensures wraps { number_of (heap_after empty 1 (command.New 0 0 1
        ∷ command.Write 0 0 18446744073709551615 ∷ command.Add 0 0 2 ∷ [])) 1 0 0 ≡ Some 1 }
    ensures swaps { number_of (heap_after empty 1 (command.New 0 0 1 ∷ command.Swap 0 0 0 5
        ∷ command.Swap 0 0 4 6 ∷ [])) 1 0 0 ≡ Some 5 }
{}

/// Two registers hold one object, and a third another one: what is written by one register is read
/// by the other, and the other object stays. A reference is nil, until a register is stored in it.
pub fn object_examples()
    ensures alias { number_of (heap_after empty 1 (command.New 0 0 1 ∷ command.Move 1 0
        ∷ command.New 2 0 1 ∷ command.Write 1 0 9 ∷ [])) 1 0 0 ≡ Some 9 }
    ensures apart { number_of (heap_after empty 1 (command.New 0 0 1 ∷ command.Move 1 0
        ∷ command.New 2 0 1 ∷ command.Write 1 0 9 ∷ [])) 1 2 0 ≡ Some 0 }
    ensures nil { field_in_heap (heap_after empty 1 (command.New 0 1 0 ∷ [])) 1 0 0 ≡ Some Nil }
    ensures lacks { field_in_heap (heap_after empty 1 (command.New 0 1 0 ∷ [])) 1 0 1 ≡ None }
    ensures stored { field_in_heap (heap_after empty 1 (command.New 0 1 0 ∷ command.New 1 0 0
        ∷ command.Put 0 0 1 ∷ [])) 1 0 0 ≡ Some (At (name 1 2)) }
    ensures got { (heap_after empty 1 (command.New 0 1 0 ∷ command.New 1 0 0
        ∷ command.Put 0 0 1 ∷ command.Get 5 0 0 ∷ [])).registers 1 5 ≡ Some (name 1 2) }
{}

/// The list 1, 2, 3 in register 0: pushed, popped, passed on by global 4 to mutator 2, and with
/// another list on the same tail. A new element's register that is the list's makes a cycle, which
/// is no list.
pub fn list_examples()
    ensures pushed { IsList (heap_after empty 1 (pushes 1 0 3 ++ pushes 1 0 2 ++ pushes 1 0 1))
        1 0 (1 ∷ 2 ∷ 3 ∷ []) }
    ensures popped { IsList (heap_after empty 1 (pushes 1 0 3 ++ pushes 1 0 2 ++ pushes 1 0 1
        ++ pops 0)) 1 0 (2 ∷ 3 ∷ []) }
    ensures replies { alone (heap_after empty 1 (pushes 1 0 3 ++ pushes 1 0 2)) 1
        (pops 0 ++ pops 0 ++ pops 0)
        ≡ reply.Num 2 ∷ reply.Ref (name 1 1) ∷ reply.Num 3 ∷ reply.Nil ∷ reply.Null
        ∷ reply.Null ∷ [] }
    ensures shared { IsGlobalList (heap_after empty 1 (pushes 1 0 3 ++ command.Share 4 0 ∷ []))
        4 (3 ∷ []) }
    ensures loaded { IsList (heap_after (heap_after empty 1
        (pushes 1 0 3 ++ command.Share 4 0 ∷ [])) 2 (command.Load 7 4 ∷ [])) 2 7 (3 ∷ []) }
    ensures tail { IsList (heap_after empty 1 (pushes 1 0 3 ++ command.Move 2 0
        ∷ pushes 1 0 2 ++ pushes 1 2 8)) 1 0 (2 ∷ 3 ∷ []) }
    ensures other { IsList (heap_after empty 1 (pushes 1 0 3 ++ command.Move 2 0
        ∷ pushes 1 0 2 ++ pushes 1 2 8)) 1 2 (8 ∷ 3 ∷ []) }
    ensures cycle { (xs : List ℕ) → IsList (heap_after empty 1 (pushes 0 0 5)) 1 0 xs → ⊥ }
{}

/// A history with a refused allocation, which leaves the heap.
pub fn history_examples()
    ensures { number_of (heap_after_run empty (entry 1 (command.New 0 0 1) (reply.New (name 1 1))
        ∷ entry 1 (command.Write 0 0 6) reply.Done ∷ entry 1 (command.New 0 0 1) reply.Full
        ∷ [])) 1 0 0 ≡ Some 6 }
{}
