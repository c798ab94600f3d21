//! Replies of some commands, computed by hand.

ghost use Rattle.std.specs.Prelude.{◌≡◌, ℕ, ◌^◌, ◌∷◌, [], List, map, Option};
ghost use Rattle.ideal_heap.specs.declared.command.Command.TheVariants as command;
ghost use Rattle.ideal_heap.specs.declared.reply.Reply.TheVariants as reply;
ghost use Rattle.ideal_heap.specs.Names.{name, IsName};
ghost use Rattle.ideal_heap.specs.Ideal.{empty, born, HasShapeOf};
ghost use Rattle.ideal_heap.specs.Commands.{IsValid, size_wanted};
ghost use Rattle.ideal_heap.specs.Reach.{PathReaches};
ghost use Rattle.ideal_heap.specs.Runs.{Entry, IsRun, IsOrder, IsOrderPrefix, alone, heap_after_run, entry, replies_of, trace_of};

/// Numbers: the maximum, a sum that wraps, a swap that fails and one that succeeds, and sums, which
/// reply the number before.
pub fn number_examples()
    ensures wraps { alone empty 1 (command.New 0 0 1 ∷ command.Write 0 0 18446744073709551615
        ∷ command.Add 0 0 1 ∷ command.Read 0 0 ∷ command.Swap 0 0 1 5 ∷ command.Swap 0 0 0 5
        ∷ command.Read 0 0 ∷ [])
        ≡ reply.New (name 1 1) ∷ reply.Done ∷ reply.Num 18446744073709551615 ∷ reply.Num 0
        ∷ reply.No ∷ reply.Yes ∷ reply.Num 5 ∷ [] }
    ensures sums { alone empty 1 (command.New 0 0 2 ∷ command.Write 0 1 5 ∷ command.Add 0 1 4
        ∷ command.Add 0 1 4 ∷ command.Read 0 1 ∷ command.Read 0 0 ∷ [])
        ≡ reply.New (name 1 1) ∷ reply.Done ∷ reply.Num 5 ∷ reply.Num 9 ∷ reply.Num 13
        ∷ reply.Num 0 ∷ [] }
{}

/// Objects: nil registers, indexes out of range, a cycle, a reference that becomes nil, pins.
pub fn object_examples()
    ensures nulls { alone empty 1 (command.Read 3 0 ∷ command.New 0 1 2 ∷ command.Read 0 9
        ∷ command.Read 0 2 ∷ command.Get 1 0 1 ∷ command.Pin 3 ∷ [])
        ≡ reply.Null ∷ reply.New (name 1 1) ∷ reply.Range ∷ reply.Range ∷ reply.Range
        ∷ reply.Null ∷ [] }
    ensures cycle { alone empty 1 (command.New 0 1 0 ∷ command.New 1 1 0 ∷ command.Put 0 0 1
        ∷ command.Put 1 0 0 ∷ command.DropReg 1 ∷ command.Gc ∷ command.Get 2 0 0
        ∷ command.Get 3 2 0 ∷ command.DropReg 0 ∷ command.DropReg 2 ∷ command.DropReg 3
        ∷ command.Gc ∷ [])
        ≡ reply.New (name 1 1) ∷ reply.New (name 1 2) ∷ reply.Done ∷ reply.Done
        ∷ reply.Done ∷ reply.Done ∷ reply.Ref (name 1 2) ∷ reply.Ref (name 1 1)
        ∷ reply.Done ∷ reply.Done ∷ reply.Done ∷ reply.Done ∷ [] }
    ensures fields { alone empty 1 (command.New 0 2 0 ∷ command.Put 0 1 0 ∷ command.Get 1 0 1
        ∷ command.Get 1 0 0 ∷ command.Put 0 1 1 ∷ command.Get 2 0 1 ∷ command.Get 2 1 0
        ∷ [])
        ≡ reply.New (name 1 1) ∷ reply.Done ∷ reply.Ref (name 1 1) ∷ reply.Nil
        ∷ reply.Done ∷ reply.Nil ∷ reply.Null ∷ [] }
    ensures pins { alone empty 1 (command.New 0 0 0 ∷ command.Unpin 0 ∷ command.Pin 0
        ∷ command.Pin 0 ∷ command.Unpin 0 ∷ command.Pin 0 ∷ command.Unpin 1 ∷ [])
        ≡ reply.New (name 1 1) ∷ reply.No ∷ reply.Yes ∷ reply.No ∷ reply.Yes ∷ reply.Yes
        ∷ reply.Null ∷ [] }
{}

/// Registers and globals: several name one object, and any of them can become nil.
pub fn register_examples()
    ensures moves { alone empty 2 (command.New 0 0 1 ∷ command.Move 1 0 ∷ command.Write 1 0 7
        ∷ command.Read 0 0 ∷ command.Move 0 5 ∷ command.Read 0 0 ∷ command.Read 1 0 ∷ [])
        ≡ reply.New (name 2 1) ∷ reply.Done ∷ reply.Done ∷ reply.Num 7 ∷ reply.Done
        ∷ reply.Null ∷ reply.Num 7 ∷ [] }
    ensures shares { alone empty 1 (command.Load 1 9 ∷ command.New 0 0 0 ∷ command.Share 9 0
        ∷ command.DropReg 0 ∷ command.Load 1 9 ∷ command.Share 9 0 ∷ command.Load 2 9
        ∷ command.Load 2 8 ∷ [])
        ≡ reply.Nil ∷ reply.New (name 1 1) ∷ reply.Done ∷ reply.Done
        ∷ reply.Ref (name 1 1) ∷ reply.Done ∷ reply.Nil ∷ reply.Nil ∷ [] }
{}

/// Runs: the next `new` gets the name of a refused one, and what one mutator shares before a `meet`
/// another loads after it. Other clauses show what is no run, order, name or shape.
pub fn run_examples()
    ensures refused { IsRun empty (entry 1 (command.New 0 0 0) reply.Full
        ∷ entry 1 (command.New 0 0 0) (reply.New (name 1 1)) ∷ []) }
    ensures births { (heap_after_run empty (entry 1 (command.New 0 0 0) reply.Full
        ∷ entry 1 (command.New 0 0 0) (reply.New (name 1 1)) ∷ [])).births 1 ≡ 1 }
    ensures run { IsRun empty (entry 1 (command.New 0 0 1) (reply.New (name 1 1))
        ∷ entry 1 (command.Write 0 0 5) reply.Done ∷ entry 1 (command.Share 0 0) reply.Done
        ∷ entry 2 command.Meet reply.Done ∷ entry 1 command.Meet reply.Done
        ∷ entry 2 (command.Load 1 0) (reply.Ref (name 1 1))
        ∷ entry 2 (command.Read 1 0) (reply.Num 5) ∷ []) }
    ensures order { IsOrder ((command.New 0 0 1 ∷ command.Write 0 0 5 ∷ command.Share 0 0
        ∷ command.Meet ∷ []) ∷ (command.Meet ∷ command.Load 1 0 ∷ command.Read 1 0 ∷ [])
        ∷ [])
        (entry 1 (command.New 0 0 1) (reply.New (name 1 1))
        ∷ entry 1 (command.Write 0 0 5) reply.Done ∷ entry 1 (command.Share 0 0) reply.Done
        ∷ entry 2 command.Meet reply.Done ∷ entry 1 command.Meet reply.Done
        ∷ entry 2 (command.Load 1 0) (reply.Ref (name 1 1))
        ∷ entry 2 (command.Read 1 0) (reply.Num 5) ∷ []) }
    ensures unmet { IsOrder ((command.Meet ∷ command.Gc ∷ []) ∷ (command.Gc ∷ []) ∷ [])
        (entry 1 command.Meet reply.Done ∷ entry 1 command.Gc reply.Done
        ∷ entry 2 command.Gc reply.Done ∷ []) → ⊥ }
    ensures early { IsOrder ((command.Meet ∷ command.Gc ∷ []) ∷ (command.Meet ∷ []) ∷ [])
        (entry 1 command.Meet reply.Done ∷ entry 1 command.Gc reply.Done
        ∷ entry 2 command.Meet reply.Done ∷ []) → ⊥ }
    ensures late { IsOrder ((command.Meet ∷ []) ∷ (command.Gc ∷ []) ∷ [])
        (entry 1 command.Meet reply.Done ∷ entry 2 command.Gc reply.Done ∷ []) → ⊥ }
    ensures waits { IsOrderPrefix ((command.Meet ∷ command.Gc ∷ []) ∷ (command.Gc ∷ [])
        ∷ [])
        (entry 1 command.Meet reply.Done ∷ entry 1 command.Gc reply.Done ∷ []) → ⊥ }
    ensures full_is_new { IsRun empty (entry 1 command.Gc reply.Full ∷ []) → ⊥ }
    ensures replies { replies_of 2 (entry 1 command.Gc reply.Done
        ∷ entry 2 (command.Load 0 0) reply.Nil ∷ []) ≡ reply.Nil ∷ [] }
    ensures name { IsName (name 17 1) → ⊥ }
    ensures size { size_wanted (command.New 0 1 2) ≡ 6 }
    ensures no_size { size_wanted command.Gc ≡ 0 }
    ensures shape { HasShapeOf (born 0 1) (born 0 2) → ⊥ }
    ensures refs { HasShapeOf (born 1 0) (born 2 0) → ⊥ }
{}

/// What is no order of the traces, or no prefix of one: an entry of no mutator of the traces, an
/// order that leaves out a command, a prefix with another command, and one whose levels fall.
pub fn order_examples()
    ensures nobody { IsOrder ([] ∷ []) (entry 0 command.Gc reply.Done ∷ []) → ⊥ }
    ensures stranger { IsOrder ([] ∷ []) (entry 2 command.Gc reply.Done ∷ []) → ⊥ }
    ensures prefix { IsOrderPrefix ([] ∷ []) (entry 2 command.Gc reply.Done ∷ []) → ⊥ }
    ensures missing { IsOrder ((command.Gc ∷ []) ∷ []) [] → ⊥ }
    ensures other { IsOrderPrefix ((command.Gc ∷ []) ∷ []) (entry 1 command.Meet reply.Done
        ∷ []) → ⊥ }
    ensures falls { IsOrderPrefix ((command.Meet ∷ []) ∷ (command.Gc ∷ []) ∷ [])
        (entry 1 command.Meet reply.Done ∷ entry 2 command.Gc reply.Done ∷ []) → ⊥ }
{}

/// A mutator's trace, counted from 1. Who is no mutator has none.
pub fn trace_examples()
    ensures { map (trace_of ((command.Gc ∷ []) ∷ (command.Meet ∷ []) ∷ []))
        (0 ∷ 1 ∷ 2 ∷ 3 ∷ [])
        ≡ [] ∷ (command.Gc ∷ []) ∷ (command.Meet ∷ []) ∷ [] ∷ [] }
{}

/// The numbers that a command stores or compares with are below 2 ^ 64.
pub fn command_examples()
    ensures write { IsValid (command.Write 0 0 (2 ^ 64)) → ⊥ }
    ensures add { IsValid (command.Add 0 0 (2 ^ 64)) → ⊥ }
    ensures was { IsValid (command.Swap 0 0 (2 ^ 64) 0) → ⊥ }
    ensures next { IsValid (command.Swap 0 0 0 (2 ^ 64)) → ⊥ }
{}

/// The least and the greatest name of an object, and what lies beyond.
pub fn name_examples()
    ensures least { IsName (name 1 1) }
    ensures most { IsName (name 16 4294967295) }
    ensures nobody { IsName (name 0 1) → ⊥ }
    ensures unborn { IsName (name 1 0) → ⊥ }
    ensures late { IsName (name 1 4294967296) → ⊥ }
{}

/// Paths begin in a register or a global, and go on through each field.
pub fn path_examples()
    ensures register { PathReaches (heap_after_run empty (entry 1 (command.New 5 0 0) (reply.New
        (name 1 1))
        ∷ [])) (name 1 1) }
    ensures global { PathReaches (heap_after_run empty (entry 2 (command.New 0 0 0) (reply.New
        (name 2 1))
        ∷ entry 2 (command.Share 3 0) reply.Done ∷ entry 2 (command.DropReg 0) reply.Done
        ∷ [])) (name 2 1) }
    ensures field { PathReaches (heap_after_run empty (entry 1 (command.New 0 2 0) (reply.New
        (name 1 1))
        ∷ entry 1 (command.New 1 0 0) (reply.New (name 1 2))
        ∷ entry 1 (command.Put 0 0 1) reply.Done ∷ entry 1 (command.DropReg 1) reply.Done
        ∷ [])) (name 1 2) }
{}
