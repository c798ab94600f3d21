//! Worked made traces.

ghost use Rattle.std.specs.Prelude.{◌≡◌, ℕ, ◌++◌, ◌∷◌, [], map, take, drop};
ghost use Rattle.std.specs.List.{range_with_len};
ghost use Rattle.ideal_heap.specs.declared.command.Command.TheVariants as command;
ghost use Rattle.stored_commands.specs.Made.{command_at, in_row, made_trace};

/// How one begins, commands of each row, and later resets and collections.
pub fn made_traces()
    ensures first { take 33 (made_trace 40) ≡ map command.DropReg (range_with_len 0 16)
        ++ map (λ g. command.Share g 0) (range_with_len 0 16) ++ command.Gc ∷ [] }
    ensures rest { drop 33 (made_trace 40) ≡ command.Write 0 28 1432594236
        ∷ command.Swap 12 20 3 1 ∷ command.Share 0 6 ∷ command.Get 12 0 1
        ∷ command.New 15 7 5 ∷ command.New 11 1 8 ∷ command.New 2 7 19 ∷ [] }
    ensures rows { drop 33 (made_trace 63) ≡ command.New 7 3 21 ∷ command.Add 5 9 108862078
        ∷ command.Move 14 5 ∷ command.Read 15 12 ∷ command.Read 1 31 ∷ command.Pin 4
        ∷ command.Add 7 31 1467576682 ∷ command.Share 1 14 ∷ command.Put 14 0 4
        ∷ command.Pin 10 ∷ command.Write 6 31 1255150287 ∷ command.New 10 6 23
        ∷ command.Move 6 6 ∷ command.Add 3 3 1492670376 ∷ command.Swap 14 11 1 3
        ∷ command.Load 4 1 ∷ command.Swap 14 5 1 1 ∷ command.Read 11 29 ∷ command.Put 12 5 0
        ∷ command.Pin 8 ∷ command.Get 12 2 0 ∷ command.Get 8 3 7
        ∷ command.Write 10 16 1281387370
        ∷ command.New 14 1 22 ∷ command.Move 1 15 ∷ command.New 5 3 22 ∷ command.Load 10 11
        ∷ command.New 8 7 24 ∷ command.Get 11 7 5 ∷ command.New 5 3 31 ∷ [] }
    ensures more { take 20 (drop 33 (made_trace 113)) ≡ command.Share 10 1 ∷ command.Share 13 7
        ∷ command.Load 11 12 ∷ command.Add 14 29 233140506 ∷ command.Get 0 10 4
        ∷ command.Read 5 12 ∷ command.Write 10 6 76593114 ∷ command.Put 11 5 10
        ∷ command.Get 8 14 4 ∷ command.New 10 1 18 ∷ command.Move 8 15 ∷ command.Move 12 1
        ∷ command.Get 8 12 5 ∷ command.Put 11 0 4 ∷ command.Put 2 4 2 ∷ command.Move 8 3
        ∷ command.Load 12 11 ∷ command.Swap 3 1 2 1 ∷ command.Read 10 16
        ∷ command.New 15 0 22 ∷ [] }
    ensures later { (x : ℕ) → (command_at 1024 x ≡ (command.DropReg 0, x))
        × (command_at 1055 x ≡ (command.Share 15 0, x))
        × (command_at 1056 x ≡ command_at 33 x)
        × (command_at 32800 x ≡ command_at 33 x) × (command_at 65568 x ≡ (command.Gc, x)) }
    ensures between { (x : ℕ) → command_at 512 x ≡ command_at 33 x }
{}

/// A random command of each row, drawn from one state of the generator.
pub fn made_rows()
    ensures { map (λ row. (in_row row 1665).0) (range_with_len 0 16)
        ≡ command.New 15 6 31 ∷ command.New 15 6 31 ∷ command.New 15 6 31
        ∷ command.New 15 6 31
        ∷ command.Put 15 6 15 ∷ command.Put 15 6 15 ∷ command.Get 15 14 7
        ∷ command.Get 15 14 7
        ∷ command.Read 15 30 ∷ command.Write 15 30 559166303 ∷ command.Add 15 30 559166303
        ∷ command.Swap 15 30 3 2 ∷ command.Move 15 14 ∷ command.Load 15 14
        ∷ command.Share 15 14 ∷ command.Pin 15 ∷ [] }
{}
