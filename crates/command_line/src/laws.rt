//! Laws of the command line, and examples.

ghost use Rattle.std.specs.Prelude.{◌≡◌, ℕ, List, ◌∷◌, [], codes, true, false, Some, None};
ghost use Rattle.sessions.specs.Plans.{NoGc, MarkSweep, SemiSpace, Immix, GenCopy, StickyImmix};
ghost use Rattle.command_line.specs.Spelling.{SpellsLine};
ghost use Rattle.command_line.specs.Words.{Line, GivenOption, split_line, job_of, Files, Made};

/// Examples: the jobs that command lines name.
pub fn worked_command_lines()
    ensures words { job_of (codes "--plan" ∷ codes "nogc" ∷ codes "--heap" ∷ codes "4"
        ∷ codes "a" ∷ []) ≡ Some (record {
          plan = NoGc;
          blocks = 4;
          workers = 1;
          map = false;
          work = Files (codes "a" ∷ []);
        }) }
    ensures joined { job_of (codes "--heap=4" ∷ codes "--plan=immix" ∷ codes "a" ∷ [])
        ≡ Some (record {
          plan = Immix;
          blocks = 4;
          workers = 1;
          map = false;
          work = Files (codes "a" ∷ []);
        }) }
    ensures mixed { job_of (codes "--map" ∷ codes "--workers=16" ∷ codes "--heap"
        ∷ codes "1024" ∷ codes "--plan=gencopy" ∷ codes "a" ∷ codes "b=c" ∷ [])
        ≡ Some (record {
          plan = GenCopy;
          blocks = 1024;
          workers = 16;
          map = true;
          work = Files (codes "a" ∷ codes "b=c" ∷ []);
        }) }
    ensures made { job_of (codes "--make" ∷ codes "1000000" ∷ codes "--plan"
        ∷ codes "stickyimmix" ∷ codes "--heap=64" ∷ [])
        ≡ Some (record {
          plan = StickyImmix;
          blocks = 64;
          workers = 1;
          map = false;
          work = Made 1000000;
        }) }
    ensures nothing { job_of [] ≡ None }
    ensures help { job_of (codes "--help" ∷ []) ≡ None }
    ensures no_plan { job_of (codes "--heap" ∷ codes "4" ∷ codes "a" ∷ []) ≡ None }
    ensures other_plan { job_of (codes "--plan" ∷ codes "lisp2" ∷ codes "--heap" ∷ codes "4"
        ∷ codes "a" ∷ []) ≡ None }
    ensures no_file { job_of (codes "--plan" ∷ codes "immix" ∷ codes "--heap" ∷ codes "4"
        ∷ []) ≡ None }
    ensures small_heap { job_of (codes "--plan" ∷ codes "immix" ∷ codes "--heap" ∷ codes "3"
        ∷ codes "a" ∷ []) ≡ None }
    ensures twice { job_of (codes "--plan" ∷ codes "immix" ∷ codes "--plan=immix"
        ∷ codes "--heap" ∷ codes "4" ∷ codes "a" ∷ []) ≡ None }
    ensures both { job_of (codes "--plan" ∷ codes "immix" ∷ codes "--heap" ∷ codes "4"
        ∷ codes "--make" ∷ codes "5" ∷ codes "a" ∷ []) ≡ None }
    ensures after_a_file { job_of (codes "--plan" ∷ codes "immix" ∷ codes "a"
        ∷ codes "--heap" ∷ codes "4" ∷ []) ≡ None }
    ensures empty_word { job_of (codes "--plan=immix" ∷ codes "--heap=4" ∷ [] ∷ [])
        ≡ None }
    ensures two_workers { job_of (codes "--heap=4" ∷ codes "--plan=immix" ∷ codes "--workers=2"
        ∷ codes "a" ∷ []) ≡ Some (record {
          plan = Immix;
          blocks = 4;
          workers = 2;
          map = false;
          work = Files (codes "a" ∷ []);
        }) }
    ensures no_worker { job_of (codes "--heap=4" ∷ codes "--plan=immix" ∷ codes "--workers=0"
        ∷ codes "a" ∷ []) ≡ None }
    ensures many_workers { job_of (codes "--heap=4" ∷ codes "--plan=immix" ∷ codes "--workers"
        ∷ codes "17" ∷ codes "a" ∷ []) ≡ None }
    ensures leading_zero { job_of (codes "--heap=4" ∷ codes "--plan=immix" ∷ codes "--workers"
        ∷ codes "01" ∷ codes "a" ∷ []) ≡ None }
    ensures workers_twice { job_of (codes "--workers=1" ∷ codes "--heap=4" ∷ codes "--plan=immix"
        ∷ codes "--workers=2" ∷ codes "a" ∷ []) ≡ None }
    ensures mapped { job_of (codes "--heap=4" ∷ codes "--plan=immix" ∷ codes "--map"
        ∷ codes "a" ∷ []) ≡ Some (record {
          plan = Immix;
          blocks = 4;
          workers = 1;
          map = true;
          work = Files (codes "a" ∷ []);
        }) }
    ensures made_runs { job_of (codes "--heap=4" ∷ codes "--plan=immix" ∷ codes "--make=5" ∷ [])
        ≡ Some (record {
          plan = Immix;
          blocks = 4;
          workers = 1;
          map = false;
          work = Made 5;
        }) }
    ensures stickyimmix { job_of (codes "--heap=4" ∷ codes "--plan=stickyimmix" ∷ codes "a"
        ∷ []) ≡ Some (record {
          plan = StickyImmix;
          blocks = 4;
          workers = 1;
          map = false;
          work = Files (codes "a" ∷ []);
        }) }
    ensures marksweep { job_of (codes "--heap=4" ∷ codes "--plan=marksweep" ∷ codes "a" ∷ [])
        ≡ Some (record {
          plan = MarkSweep;
          blocks = 4;
          workers = 1;
          map = false;
          work = Files (codes "a" ∷ []);
        }) }
    ensures semispace { job_of (codes "--heap=4" ∷ codes "--plan=semispace" ∷ codes "a" ∷ [])
        ≡ Some (record {
          plan = SemiSpace;
          blocks = 4;
          workers = 1;
          map = false;
          work = Files (codes "a" ∷ []);
        }) }
    ensures gencopy { job_of (codes "--heap=4" ∷ codes "--plan=gencopy" ∷ codes "a" ∷ [])
        ≡ Some (record {
          plan = GenCopy;
          blocks = 4;
          workers = 1;
          map = false;
          work = Files (codes "a" ∷ []);
        }) }
    ensures immix { job_of (codes "--heap=4" ∷ codes "--plan=immix" ∷ codes "a" ∷ [])
        ≡ Some (record {
          plan = Immix;
          blocks = 4;
          workers = 1;
          map = false;
          work = Files (codes "a" ∷ []);
        }) }
    ensures one_worker { job_of (codes "--heap=4" ∷ codes "--plan=nogc" ∷ codes "--workers"
        ∷ codes "1" ∷ codes "a" ∷ [])
        ≡ Some (record {
          plan = NoGc;
          blocks = 4;
          workers = 1;
          map = false;
          work = Files (codes "a" ∷ []);
        }) }
{}

/// Words are split into settings and files if and only if they spell them.
pub fn spelled_command_lines()
    ensures spelled { (words : List (List ℕ)) (l : Line) → split_line words ≡ Some l
        → SpellsLine l.settings l.files words }
    ensures read { (settings : List GivenOption) (files words : List (List ℕ))
        → SpellsLine settings files words
        → split_line words ≡ Some (record { settings = settings; files = files }) }
{}
