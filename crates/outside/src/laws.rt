//! Laws of sources and sinks.

ghost use Rattle.std.specs.Prelude.{◌≡◌, ◌≢◌, ℕ, ◌+◌, ◌<◌, ◌≤◌, List, [], ◌∷◌, ◌++◌, length, take, Some, None, Option, Ok, Err, Result, false};
ghost use Rattle.outside.specs.Outside.{LAST, HasRisen, AppendsText, AppendsPrefix, Opens, MovesBytes, Asked};
ghost use Rattle.outside.specs.Reading.{Moved, TakesMore, TakesAll, AsksFor};
ghost use Rattle.outside.specs.declared.traits.OpenFault.{OpenFault};
ghost use Rattle.outside.specs.declared.reader.ReadFault.{ReadFault};
ghost use Rattle.outside.specs.declared.reader.ReadFault.TheVariants as fault;
ghost use Rattle.outside.specs.declared.reader.TheConstants.{MAX_FILE_BYTES};
ghost use Rattle.outside.specs.declared.memory_sources.MemSources.{MemSources};
ghost use Rattle.outside.specs.declared.memory_sources.SureSources.{SureSources};
ghost use Rattle.outside.specs.declared.memory_sinks.MemSink.{MemSink};
ghost use Rattle.outside.specs.Memory.{sources_state, files_of, left_of, asked_of, faults_of, is_open};
ghost use Rattle.outside.specs.Sure as sure;
ghost use Rattle.outside.specs.Written as written;
ghost use Rattle.outside.specs.Real.{left_of_file};

/// A count below the maximum has not risen if it is unchanged; a count plus one has risen. A prefix
/// that was appended is shorter than the text. After a file could not be opened, no bytes are left.
pub fn faults_and_prefixes()
    ensures unchanged { (n : ℕ) → n < LAST → HasRisen n n → ⊥ }
    ensures rises { (n : ℕ) → HasRisen n (n + 1) }
    ensures prefix { (old text now : List ℕ) → AppendsPrefix (Some old) (Some now) text
        → length now < length old + length text }
    ensures closed { (e : OpenFault) (content left : Option (List ℕ))
        → Opens (Err e) content left → left ≡ Some [] }
{}

/// Of two texts that are written one after the other, all bytes are known: both texts follow what
/// stood before, and if the second failed, a front of it.
pub fn texts_in_turn()
    ensures whole { (old first second : List ℕ) (between after : Option (List ℕ))
        → AppendsText (Some old) between first → AppendsText between after second
        → after ≡ Some (old ++ first ++ second) }
    ensures front { (old first second now : List ℕ) (between : Option (List ℕ))
        → AppendsText (Some old) between first → AppendsPrefix between (Some now) second
        → take (length now) (old ++ first ++ second) ≡ now }
    ensures known { (old text : List ℕ) → AppendsPrefix (Some old) None text → ⊥ }
{}

/// What sources and sinks in memory hold is known: the content of each name, what is left of the
/// open file, the names asked for, the faults, and the bytes written.
pub fn memory_is_known()
    ensures content { (s : MemSources) (name bytes : List ℕ) (files : List (List ℕ × List ℕ))
        → files_of s ≡ (name, bytes) ∷ files → (sources_state s).content name ≡ Some bytes }
    ensures missing { (s : MemSources) (name : List ℕ) → files_of s ≡ []
        → (sources_state s).content name ≡ None }
    ensures closed { (s : MemSources) → is_open s ≡ false → (sources_state s).left ≡ Some [] }
    ensures open { (s : MemSources) → (sources_state s).left ≡ Some (left_of s) }
    ensures counted { (s : MemSources) → ((sources_state s).asked ≡ asked_of s)
        × ((sources_state s).faults ≡ faults_of s) }
    ensures sure { (s : SureSources) (name bytes : List ℕ) (files : List (List ℕ × List ℕ))
        → sure.files_of s ≡ (name, bytes) ∷ files
        → (sure.sources_state s).content name ≡ Some bytes }
    ensures sure_missing { (s : SureSources) (name : List ℕ) → sure.files_of s ≡ []
        → (sure.sources_state s).content name ≡ Some [] }
    ensures sure_counted { (s : SureSources) → ((sure.sources_state s).left ≡ Some (sure.left_of s))
        × ((sure.sources_state s).asked ≡ sure.asked_of s) × ((sure.sources_state s).faults ≡ 0) }
    ensures sink { (s : MemSink) → written.sink_state s
        ≡ record { written = Some (written.bytes_of s); faults = written.faults_of s } }
    ensures real { (remaining : ℕ → Option (List ℕ)) (file : ℕ)
        → left_of_file remaining (Some file) ≡ remaining file }
{}

/// What is read and what is left after it are what was left before. What is taken of a file follows
/// what was taken before: the next bytes, and of a whole file all, which is no longer than the
/// maximum. Each name is asked for once, after all others, unless memory runs out.
pub fn files_are_taken_in_order()
    ensures moved { (n : ℕ) (left buf rest : List ℕ) → MovesBytes n left buf (Some rest)
        → (take n buf ++ rest ≡ left) × (n + length rest ≡ length left) }
    ensures left { (n : ℕ) (left rest : List ℕ) → Moved n left (Some rest)
        → (take n left ++ rest ≡ left) × (n + length rest ≡ length left) }
    ensures next { (n : ℕ) (had has left : List ℕ)
        → TakesMore (λ b. b ≡ had) (λ b. b ≡ has) n (Some left)
        → has ≡ had ++ take n left }
    ensures count { (n : ℕ) (had has : List ℕ) (left : Option (List ℕ))
        → TakesMore (λ b. b ≡ had) (λ b. b ≡ has) n left → length has ≡ length had + n }
    ensures all { (had has content : List ℕ)
        → TakesAll (λ b. b ≡ had) (λ b. b ≡ has) (Some content) → has ≡ had ++ content }
    ensures within { (had has : List ℕ) (content : Option (List ℕ))
        → TakesAll (λ b. b ≡ had) (λ b. b ≡ has) content
        → length has ≤ length had + MAX_FILE_BYTES }
    ensures named { (r : Result (Unit {0}) ReadFault) (name : List ℕ) (count : ℕ)
        (before now : Asked) → AsksFor r name count before now → r ≢ Err fault.OutOfMemory
        → now ≡ before ++ (name, count) ∷ [] }
    ensures kept { (r : Result (Unit {0}) ReadFault) (name : List ℕ) (count : ℕ)
        (before now : Asked) → AsksFor r name count before now
        → take (length before) now ≡ before }
{}
