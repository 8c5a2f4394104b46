//! Laws of the definitions: compiling has one answer.

ghost use Rattle.std.specs.Prelude.{◌≡◌, ◌≤◌, ℕ, List, length};
ghost use Rattle.std.specs.List.{AllByRecursion};
ghost use Rattle.acfg_decls.specs.declared.flags.Flag.{Flag};
ghost use Rattle.acfg_decls.specs.declared.declared.DeclarationsFile.{DeclarationsFile};
ghost use Rattle.acfg_decls.specs.declared.declared.ValuesFile.{ValuesFile};
ghost use Rattle.acfg_decls.specs.declared.faults.DeclWhat.{DeclWhat};
ghost use Rattle.acfg_decls.specs.Compile.{Compiles, FailsToCompile, Holds, all_tests};

/// Declarations and values compile to one list of flags or have one first fault, never both, and they can't be without
/// the two; where all their tests hold, they compile. Compiled flags are at most 65,535.
pub fn one_compiling()
    ensures compiles { («package» container : List ℕ) (files : List DeclarationsFile) (values : List ValuesFile)
        (flags other : List Flag)
        → Compiles «package» container files values flags → Compiles «package» container files values other
        → flags ≡ other }
    ensures fails { («package» container : List ℕ) (files : List DeclarationsFile) (values : List ValuesFile)
        (file place other_file other_place : ℕ) (fault other : DeclWhat)
        → FailsToCompile (all_tests «package» container files values) file place fault
        → FailsToCompile (all_tests «package» container files values) other_file other_place other
        → (file ≡ other_file) × (place ≡ other_place) × (fault ≡ other) }
    ensures apart { («package» container : List ℕ) (files : List DeclarationsFile) (values : List ValuesFile)
        (flags : List Flag) (file place : ℕ) (fault : DeclWhat)
        → Compiles «package» container files values flags
        → FailsToCompile (all_tests «package» container files values) file place fault → ⊥ }
    ensures some { («package» container : List ℕ) (files : List DeclarationsFile) (values : List ValuesFile)
        → AllByRecursion (AllByRecursion Holds) (all_tests «package» container files values)
        → (flags : List Flag) × Compiles «package» container files values flags }
    ensures either { («package» container : List ℕ) (files : List DeclarationsFile) (values : List ValuesFile)
        → ((flags : List Flag) → Compiles «package» container files values flags → ⊥)
        → ((file place : ℕ) (fault : DeclWhat)
        → FailsToCompile (all_tests «package» container files values) file place fault → ⊥)
        → ⊥ }
    ensures few { («package» container : List ℕ) (files : List DeclarationsFile) (values : List ValuesFile)
        (flags : List Flag)
        → Compiles «package» container files values flags → length flags ≤ 65535 }
{}
