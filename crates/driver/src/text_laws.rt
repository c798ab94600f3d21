//! Laws on what a session prints at its end, and worked texts.

ghost use Rattle.std.specs.Prelude.{◌≡◌, ◌≢◌, ◌≤◌, ◌⊎◌, ℕ, suc, ◌++◌, ◌∷◌, [], List, length, map, take, replicate, slice_get, codes, true, false, Option, Some, None, IfSome, Ok, Err};
ghost use Rattle.std.specs.List.{flat_map, range_with_len};
ghost use Rattle.driver.specs.Prelude.{code_of, Command, empty, name, alone, replies_of, empty_heap, IsReachable, roots_of, unowned, plain_object, build_heap, Plan, NoGc, GenCopy, StickyImmix, rules_of, Moment, TraceFault, trace, mutator_text, HasFullLine, Job, Work, Files, Made, Asked, SourceState, SinkState, HasRisen, AppendsPrefix, Status, IsExit, Ran, Content, AreTraces, Prints, PrintsPrefix, AsksFirst, AsksPrefix, Unread, IsTooLong, IsBad, IsUsage, IsLong, IsNoTrace, HasFault, HasTraces, EndsAtKnown, WritesFaultLine, job_files, setting_of, IsWholeText, fault_line, usage_line, AreLive, IsSessionText, IsSummary, kinds_line, held_line, map_line, each_kind, replies_part, report_part, summary_part, worked_end};
ghost use Rattle.driver.specs.Prelude.kinds;
ghost use Rattle.driver.specs.Prelude.command;
ghost use Rattle.driver.specs.Prelude.reply;
ghost use Rattle.driver.specs.Prelude.status;

/// The live objects of a worked heap: all that are reachable, each once, in the order of names.
pub fn live_objects()
    ensures live { AreLive worked_end (9195 ∷ 13307 ∷ 1008 ∷ []) }
    ensures by_address { AreLive worked_end (1008 ∷ 9195 ∷ 13307 ∷ []) → ⊥ }
    ensures twice { AreLive worked_end (9195 ∷ 9195 ∷ 13307 ∷ 1008 ∷ []) → ⊥ }
    ensures dead { AreLive worked_end (1003 ∷ 9195 ∷ 13307 ∷ 1008 ∷ []) → ⊥ }
    ensures missing { AreLive worked_end (9195 ∷ 1008 ∷ []) → ⊥ }
{}

/// The texts of a worked end of a session: with and without a map, and as a summary.
pub fn worked_texts()
    ensures map { IsSessionText GenCopy 2 true worked_end
        (codes "mutator 1\nnew 1.1\nfull\nok\nmutator 2\nnew 2.1\nrange\nref 1.2\n"
        ++ codes "plan gencopy\nblocks 5\nmutators 2\ncommands 6\nfull 1\n"
        ++ codes "collections nursery 4 full 3\nlive objects 3 words 2060\n"
        ++ codes "held objects 5 words 2069\n"
        ++ codes "kinds free 2 bump 1 young 0 mature 0 immix 1 cells 0 large 1 kept 0\n"
        ++ codes "map 1.2 block 2 word 0 size 2049\nmap 1.3 block 3 word 16 size 7\n"
        ++ codes "map 2.1 block 0 word 5 size 4\n") }
    ensures no_map { IsSessionText GenCopy 2 false worked_end
        (codes "mutator 1\nnew 1.1\nfull\nok\nmutator 2\nnew 2.1\nrange\nref 1.2\n"
        ++ codes "plan gencopy\nblocks 5\nmutators 2\ncommands 6\nfull 1\n"
        ++ codes "collections nursery 4 full 3\nlive objects 3 words 2060\n"
        ++ codes "held objects 5 words 2069\n"
        ++ codes "kinds free 2 bump 1 young 0 mature 0 immix 1 cells 0 large 1 kept 0\n") }
    ensures summary { IsSummary 40 worked_end
        (codes "make 40\nnew 1\nfull 1\nref 0\nnil 0\nnum 0 sum 0\nok 1\nyes 0\nno 0\nnull 0\n"
        ++ codes "range 0\nlive objects 3 words 2060\n") }
{}

/// Each number of the line of kinds counts the blocks of its kind, whatever their classes.
pub fn kinds_are_counted()
    ensures { kinds_line (record (empty_heap 45) {
      words = replicate 18 0 ++ map code_of
          (unowned kinds.Free 0 ∷ replicate 2 (unowned kinds.Bump 0)
          ++ replicate 3 (unowned kinds.Young 0) ++ replicate 4 (unowned kinds.Mature 0)
          ++ replicate 5 (unowned kinds.Immix 0) ++ replicate 6 (unowned kinds.Cells 9)
          ++ replicate 7 (unowned kinds.Kept 0) ++ replicate 8 (unowned kinds.LargeHead 2)
          ++ replicate 9 (unowned kinds.LargeTail 0));
    })
        ≡ codes "kinds free 1 bump 2 young 3 mature 4 immix 5 cells 6 large 17 kept 7\n" }
{}

/// What is printed of a heap with a block of each kind: a large object's two blocks are in one
/// count, every other block in that of its kind, and each object is held and has its place.
pub fn text_of_each_kind()
    ensures held { held_line each_kind ≡ codes "held objects 7 words 4126\n" }
    ensures kinds { kinds_line each_kind
        ≡ codes "kinds free 1 bump 1 young 1 mature 1 immix 1 cells 1 large 2 kept 1\n" }
    ensures map { flat_map (map_line each_kind)
        (30463 ∷ 26367 ∷ 22271 ∷ 18191 ∷ 14079 ∷ 5887 ∷ 1791 ∷ [])
        ≡ codes "map 1.1 block 7 word 0 size 7\nmap 1.2 block 6 word 0 size 6\n"
        ++ codes "map 1.3 block 5 word 0 size 5\nmap 1.4 block 4 word 16 size 4\n"
        ++ codes "map 1.5 block 3 word 0 size 3\nmap 1.6 block 1 word 0 size 4097\n"
        ++ codes "map 1.7 block 0 word 0 size 4\n" }
{}

/// The setting of a job's session has the rules of its plan, its size, its workers and the traces.
pub fn settings_of_jobs()
    ensures { (work : Work) (traces : List (List Command)) → setting_of (record {
      plan = StickyImmix;
      blocks = 64;
      workers = 3;
      map = true;
      work = work;
    }) traces ≡ record {
      rules = rules_of StickyImmix;
      blocks = 64;
      workers = 3;
      traces = traces;
    } }
{}

/// Files have one trace each. That of a file whose content is known is the content's.
pub fn traces_of_contents()
    ensures number { (content : Content) (files : List (List ℕ)) (traces : List (List Command))
        → AreTraces content files traces → length traces ≡ length files }
    ensures one { (content : Content) (file bytes : List ℕ) (traces : List (List Command))
        (cs : List Command) → content file ≡ Some bytes → trace bytes ≡ Ok cs
        → AreTraces content (file ∷ []) traces → traces ≡ cs ∷ [] }
{}

/// What is printed for one file whose content is known begins with the replies of that content
/// alone, if the line `full` does not stand in it. If writing fails, it is a proper front of that.
pub fn printed_of_one_file()
    ensures whole { (content : Content) (job : Job) (before after : SinkState)
        (file bytes old text : List ℕ) (cs : List Command) → job.work ≡ Files (file ∷ [])
        → content file ≡ Some bytes → trace bytes ≡ Ok cs → before.written ≡ Some old
        → Prints content job before after → after.written ≡ Some (old ++ text)
        → (HasFullLine text → ⊥)
        → (rest : List ℕ) × (text ≡ mutator_text 1 (alone empty 1 cs) ++ rest) }
    ensures front { (content : Content) (job : Job) (before after : SinkState)
        (file bytes old : List ℕ) (cs : List Command) → job.work ≡ Files (file ∷ [])
        → content file ≡ Some bytes → trace bytes ≡ Ok cs → before.written ≡ Some old
        → (p : PrintsPrefix content job before after) → (HasFullLine p.text → ⊥)
        → HasRisen before.faults after.faults × ((rest : List ℕ)
        × AppendsPrefix (Some old) after.written (mutator_text 1 (alone empty 1 cs) ++ rest)) }
{}

/// Files are asked for in their order, after all that was asked for before. The last one that was
/// asked for is the one at fault, and the line names it; those before it have traces.
pub fn files_are_asked_in_order()
    ensures first { (n : ℕ) (files : List (List ℕ)) (before after : Asked)
        → AsksFirst n files before after
        → map (λ a. a.0) after ≡ map (λ a. a.0) before ++ take n files }
    ensures prefix { (files : List (List ℕ)) (before after : Asked)
        → AsksPrefix files before after → (n : ℕ)
        × (map (λ a. a.0) after ≡ map (λ a. a.0) before ++ take n files) }
    ensures unread { (files : List (List ℕ)) (before after : SourceState) (line : List ℕ)
        → (u : Unread files before after (λ l. l ≡ line))
        → AsksFirst (suc u.place) files before.asked after.asked
        × AreTraces before.content (take u.place files) u.at.traces
        × HasRisen before.faults after.faults × ((file : List ℕ)
        × (slice_get files u.place ≡ Some file)
        × (line ≡ codes "mm_drive: cannot read " ++ file ++ codes "\n")) }
    ensures too_long { (files : List (List ℕ)) (before after : SourceState) (line : List ℕ)
        → (u : IsTooLong files before after (λ l. l ≡ line))
        → AsksFirst (suc u.place) files before.asked after.asked
        × AreTraces before.content (take u.place files) u.at.traces × ((file : List ℕ)
        × (slice_get files u.place ≡ Some file) × IfSome (before.content file) IsLong
        × (line ≡ codes "mm_drive: " ++ file ++ codes " is longer than 16777216 bytes\n")) }
    ensures bad { (files : List (List ℕ)) (before after : SourceState) (line : List ℕ)
        → (u : IsBad files before after (λ l. l ≡ line))
        → AsksFirst (suc u.place) files before.asked after.asked
        × AreTraces before.content (take u.place files) u.at.traces × ((file : List ℕ)
        × (slice_get files u.place ≡ Some file) × IfSome (before.content file) (HasFault u.fault)
        × (line ≡ fault_line file u.fault)) }
    ensures usage { (job : Option Job) (before after : SourceState) (line : List ℕ)
        → IsUsage job before after (λ l. l ≡ line)
        → (job ≡ None) × (after ≡ before) × (line ≡ usage_line) }
{}

/// A fault line is on standard error whole, unless writing it failed: then a front of it is. No
/// fault of a write is forgotten.
pub fn fault_lines_are_written()
    ensures whole { (before after : SinkState) (old line : List ℕ)
        → WritesFaultLine before after line → before.written ≡ Some old
        → (HasRisen before.faults after.faults → ⊥) → after.written ≡ Some (old ++ line) }
    ensures front { (before after : SinkState) (old line : List ℕ)
        → WritesFaultLine before after line → before.written ≡ Some old
        → (n : ℕ) × (after.written ≡ Some (old ++ take n line)) }
    ensures later { (before after : SinkState) (line : List ℕ)
        → WritesFaultLine before after line → before.faults ≤ after.faults }
{}

/// The process ends with 2 exactly where the arguments name no job, unless memory runs out. Only
/// with 0 and 6 has it written to the output, and with 0 nothing to standard error. It opens the
/// job's files alone, with 0 each of them.
pub fn exits_have_causes()
    ensures no_job { (n : ℕ) → IsExit None n → (n ≡ 2) ⊎ (n ≡ 7) }
    ensures job { (job : Job) (n : ℕ) → IsExit (Some job) n → n ≢ 2 }
    ensures unwritten { (job : Option Job) (files read : SourceState)
        (out after err err_after : SinkState)
        → Ran job status.BadTrace files read out after err err_after → after ≡ out }
    ensures silent { (job : Option Job) (files read : SourceState)
        (out after err err_after : SinkState)
        → Ran job status.Ok files read out after err err_after → err_after ≡ err }
    ensures printed { (job : Job) (files read : SourceState) (out after err err_after : SinkState)
        → Ran (Some job) status.Ok files read out after err err_after
        → Prints files.content job out after }
    ensures front { (job : Job) (files read : SourceState) (out after err err_after : SinkState)
        → Ran (Some job) status.WriteFault files read out after err err_after
        → PrintsPrefix files.content job out after }
    ensures unread { (s : Status) (files read : SourceState) (out after err err_after : SinkState)
        → Ran None s files read out after err err_after → read.asked ≡ files.asked }
    ensures opened { (job : Job) (s : Status) (files read : SourceState)
        (out after err err_after : SinkState)
        → Ran (Some job) s files read out after err err_after
        → (n : ℕ) × (map (λ a. a.0) read.asked
        ≡ map (λ a. a.0) files.asked ++ take n (job_files job)) }
    ensures all { (job : Job) (files read : SourceState) (out after err err_after : SinkState)
        → Ran (Some job) status.Ok files read out after err err_after
        → map (λ a. a.0) read.asked ≡ map (λ a. a.0) files.asked ++ job_files job }
{}

/// The whole texts of a job of two empty traces, and of one of a made trace without commands: with
/// the job's plan, size and map, and as many mutators as there are traces.
pub fn texts_of_no_commands()
    ensures files { IsWholeText (record {
      plan = GenCopy;
      blocks = 5;
      workers = 3;
      map = true;
      work = Files (codes "a" ∷ codes "b" ∷ []);
    }) ([] ∷ [] ∷ [])
        (codes "mutator 1\nmutator 2\nplan gencopy\nblocks 5\nmutators 2\ncommands 0\nfull 0\n"
        ++ codes "collections nursery 0 full 0\nlive objects 0 words 0\nheld objects 0 words 0\n"
        ++ codes "kinds free 5 bump 0 young 0 mature 0 immix 0 cells 0 large 0 kept 0\n") }
    ensures made { IsWholeText (record {
      plan = GenCopy;
      blocks = 5;
      workers = 3;
      map = false;
      work = Made 0;
    }) ([] ∷ [])
        (codes "make 0\nnew 0\nfull 0\nref 0\nnil 0\nnum 0 sum 0\nok 0\nyes 0\nno 0\nnull 0\n"
        ++ codes "range 0\nlive objects 0 words 0\n") }
{}

/// The text of one file is the replies of its trace alone and more, if the line `full` does not
/// stand in it. Where nothing is reachable, no object is counted or in the map.
pub fn texts_are_of_sessions()
    ensures one { (job : Job) (file text : List ℕ) (cs : List Command)
        → job.work ≡ Files (file ∷ []) → IsWholeText job (cs ∷ []) text
        → (HasFullLine text → ⊥)
        → (rest : List ℕ) × (text ≡ mutator_text 1 (alone empty 1 cs) ++ rest) }
    ensures dead { (plan : Plan) (n : ℕ) (last : Moment) (text : List ℕ)
        → ((a : ℕ) → IsReachable last.heap (roots_of last.mutators) a → ⊥)
        → IsSessionText plan n true last text
        → text ≡ replies_part n last ++ report_part plan n last [] }
    ensures summary { (n : ℕ) (last : Moment) (text : List ℕ)
        → ((a : ℕ) → IsReachable last.heap (roots_of last.mutators) a → ⊥)
        → IsSummary n last text
        → text ≡ summary_part n last.heap [] (replies_of 1 last.done) }
{}

/// Each number of a summary counts the replies of its kind, and their sum has 64 bits. Objects are
/// held in the first words of a heap and in the last.
pub fn replies_and_objects_are_counted()
    ensures replies { summary_part 55 (empty_heap 4) []
        (reply.New (name 1 1) ∷ replicate 2 reply.Full ++ replicate 3 (reply.Ref (name 1 1))
        ++ replicate 4 reply.Nil ++ reply.Num 9223372036854775807 ∷ replicate 4 (reply.Num 2)
        ++ replicate 6 reply.Done ++ replicate 7 reply.Yes ++ replicate 8 reply.No
        ++ replicate 9 reply.Null ++ replicate 10 reply.Range)
        ≡ codes "make 55\nnew 1\nfull 2\nref 3\nnil 4\nnum 5 sum 9223372036854775815\nok 6\n"
        ++ codes "yes 7\nno 8\nnull 9\nrange 10\nlive objects 0 words 0\n" }
    ensures held { held_line (build_heap (record {
      blocks = replicate 4 (unowned kinds.Bump 0);
      objects = plain_object 0 0 1 [] 0 0 ∷ plain_object 3 4093 2 [] 0 0 ∷ [];
      globals = replicate 16 0;
      number = 7;
      base = 7;
    })) ≡ codes "held objects 2 words 6\n" }
{}

/// Contents are known to be traces where each file of a job has one. A made trace needs no file.
/// Reading is known to end at a file that is too long or no trace, if those before it have traces.
pub fn contents_are_known()
    ensures traces { (content : Content) (a b first second : List ℕ) (cs ds : List Command)
        → content a ≡ Some first → content b ≡ Some second → length first ≡ 16777216
        → length second ≡ 16777216 → trace first ≡ Ok cs → trace second ≡ Ok ds
        → HasTraces content (record {
          plan = NoGc;
          blocks = 4;
          workers = 1;
          map = false;
          work = Files (a ∷ b ∷ []);
        }) }
    ensures made { HasTraces (λ _. None) (record {
      plan = NoGc;
      blocks = 4;
      workers = 1;
      map = false;
      work = Made 40;
    }) }
    ensures long { (content : Content) (a b c first second : List ℕ) (cs : List Command)
        → content a ≡ Some first → content b ≡ Some second → length first ≡ 16777216
        → trace first ≡ Ok cs → length second ≡ 16777217
        → EndsAtKnown content (a ∷ b ∷ c ∷ []) IsLong }
    ensures short { (bytes : List ℕ) → length bytes ≡ 16777216 → IsLong bytes → ⊥ }
    ensures no_trace { (content : Content) (a b bytes : List ℕ) (fault : TraceFault)
        → content a ≡ Some bytes → length bytes ≡ 16777216 → trace bytes ≡ Err fault
        → EndsAtKnown content (a ∷ b ∷ []) IsNoTrace }
    ensures read { (bytes : List ℕ) (cs : List Command) → trace bytes ≡ Ok cs
        → IsNoTrace bytes → ⊥ }
    ensures too_long { (bytes : List ℕ) → length bytes ≡ 16777217 → IsNoTrace bytes
        → ⊥ }
{}
