//! Laws of the format, and examples.

ghost use Rattle.std.specs.Prelude.{◌≡◌, ◌≤◌, ◌↔◌, ◌⊎◌, ℕ, List, ◌++◌, ◌∷◌, [], length, codes, All};
ghost use Rattle.std.specs.List.{Any};
ghost use Rattle.ideal_heap.specs.declared.command.Command.{Command};
ghost use Rattle.ideal_heap.specs.declared.command.Command.TheVariants as command;
ghost use Rattle.ideal_heap.specs.declared.reply.Reply.{Reply};
ghost use Rattle.ideal_heap.specs.declared.reply.Reply.TheVariants as reply;
ghost use Rattle.ideal_heap.specs.Commands.{IsValid};
ghost use Rattle.ideal_heap.specs.Names.{name};
ghost use Rattle.trace_text.specs.declared.fault.Why.TheVariants as why;
ghost use Rattle.trace_text.specs.declared.fault.TraceFault.TheVariants as fault;
ghost use Rattle.trace_text.specs.Words.{all_ops};
ghost use Rattle.trace_text.specs.Grammar.{line, lines_from, trace};
ghost use Rattle.trace_text.specs.Text.{trace_text, replies_text, mutator_text, IsPrintable, HasFullLine};

use crate::limits::MAX_COMMANDS;

/// Commands that are read are valid, and there are at most `MAX_COMMANDS`.
pub fn traces_are_valid()
    ensures { (bytes : List ℕ) (cs : List Command)
        → trace bytes ≡ Ok cs → All IsValid cs × (length cs ≤ MAX_COMMANDS) }
{}

/// Reading a printed trace gives its commands again. No other text that ends with a newline is read
/// as these commands.
pub fn traces_have_one_text()
    ensures again { (cs : List Command) → All IsValid cs → length cs ≤ MAX_COMMANDS
        → trace (trace_text cs) ≡ Ok cs }
    ensures alone { (text : List ℕ) (cs : List Command)
        → trace (text ++ 10 ∷ []) ≡ Ok cs → text ++ 10 ∷ [] ≡ trace_text cs }
{}

/// The text of a mutator determines its replies, whose numbers have 64 bits. The line `full` stands
/// in it if and only if a reply is `full`. If more text follows, the line may stand there too.
pub fn texts_have_one_list()
    ensures one { (m : ℕ) (xs ys : List Reply) → All IsPrintable xs → All IsPrintable ys
        → mutator_text m xs ≡ mutator_text m ys → xs ≡ ys }
    ensures full { (m : ℕ) (xs : List Reply)
        → HasFullLine (mutator_text m xs) ↔ Any (λ x. x ≡ reply.Full) xs }
    ensures longer { (m : ℕ) (xs : List Reply) (more : List ℕ)
        → HasFullLine (mutator_text m xs ++ more)
        ↔ Any (λ x. x ≡ reply.Full) xs ⊎ HasFullLine more }
{}

/// Examples: how texts are read.
pub fn worked_traces()
    ensures empty { trace [] ≡ Err (fault.Line 1 why.Header) }
    ensures blank_first { trace (codes "\nmmtrace 1\n") ≡ Err (fault.Line 1 why.Header) }
    ensures alone { trace (codes "mmtrace 1") ≡ Ok [] }
    ensures read { trace (codes "mmtrace 1\nread r0 0") ≡ Ok (command.Read 0 0 ∷ []) }
    ensures blank { trace (codes "mmtrace 1\n\n") ≡ Err (fault.Line 2 why.Word) }
    ensures zeros { trace (codes "mmtrace 1\nread r00 0\n") ≡ Err (fault.Line 2 why.Number) }
    ensures count { trace (codes "mmtrace 1\nget r1 r0 0\nread r0")
        ≡ Err (fault.Line 3 why.Count) }
    ensures spaces { trace (codes "mmtrace 1\nread  r0 0\n") ≡ Err (fault.Line 2 why.Count) }
    ensures left { trace (codes "mmtrace 1\nnew r0 x 60001\n") ≡ Err (fault.Line 2 why.Number) }
    ensures great { trace (codes "mmtrace 1\nwrite r0 0 18446744073709551616")
        ≡ Err (fault.Line 2 why.Range) }
    ensures text { trace_text (command.New 0 1 1 ∷ command.Put 3 0 15 ∷ command.Gc ∷ [])
        ≡ codes "mmtrace 1\nnew r0 1 1\nput r3 0 r15\ngc\n" }
{}

/// Examples: how lines are read.
pub fn worked_lines()
    ensures swap { line all_ops (codes "swap r1 2 3 18446744073709551615")
        ≡ Ok (command.Swap 1 2 3 18446744073709551615) }
    ensures share { line all_ops (codes "share g15 r0") ≡ Ok (command.Share 15 0) }
    ensures put { line all_ops (codes "put r0 1023 r15") ≡ Ok (command.Put 0 1023 15) }
    ensures gc { line all_ops (codes "gc") ≡ Ok command.Gc }
    ensures no_argument { line all_ops (codes "gc ") ≡ Err why.Count }
    ensures global { line all_ops (codes "load r0 g16") ≡ Err why.Range }
    ensures letter { line all_ops (codes "load r0 r1") ≡ Err why.Number }
    ensures capital { line all_ops (codes "Drop r0") ≡ Err why.Word }
{}

/// Examples: traces at the limit of `MAX_COMMANDS`.
pub fn worked_limits()
    ensures last { lines_from (line all_ops) 1000001 (codes "gc" ∷ [])
        ≡ Ok (command.Gc ∷ []) }
    ensures too_many { lines_from (line all_ops) 1000001 (codes "gc" ∷ [] ∷ [])
        ≡ Err fault.TooMany }
    ensures bad_before { lines_from (line all_ops) 1000001 (codes "gc 0" ∷ [] ∷ [])
        ≡ Err (fault.Line 1000001 why.Count) }
{}

/// Examples: how replies are printed, and a text with the line `full` and one without it.
pub fn worked_replies()
    ensures each { replies_text (reply.New (name 3 4294967295) ∷ reply.Full
        ∷ reply.Ref (name 16 1) ∷ reply.Nil ∷ reply.Num 0 ∷ reply.Done ∷ reply.Yes
        ∷ reply.No ∷ reply.Null ∷ reply.Range ∷ [])
        ≡ codes "new 3.4294967295\nfull\nref 16.1\nnil\nnum 0\nok\nyes\nno\nnull\nrange\n" }
    ensures full { HasFullLine (codes "mutator 1\nok\nfull\n") }
    ensures counted { HasFullLine (codes "mutator 1\nok\nfull 3\n") → ⊥ }
{}
