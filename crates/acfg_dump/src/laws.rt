//! Laws of the definitions.

ghost use Rattle.std.specs.Prelude.{◌≡◌, [], ◌∷◌, List, ℕ, codes};
ghost use Rattle.std.specs.List.{flat_map};
ghost use Rattle.acfg_decls.specs.declared.flags.Flag.{Flag};
ghost use Rattle.acfg_dump.specs.declared.conditions.Condition.{Condition};
ghost use Rattle.acfg_dump.specs.declared.parts.Part.{Part};
ghost use Rattle.acfg_dump.specs.Filter.{IsBadCondition, IsFilter};
ghost use Rattle.acfg_dump.specs.Lines.{flag_line, lines};
ghost use Rattle.acfg_dump.specs.Template.{template_of, IsBadPlace, IsTemplate};

/// A text has one template or one first bad place, never both, and it can't be that it has neither.
pub fn one_template()
    ensures one { (text : List ℕ) (parts other : List Part) → IsTemplate text parts → IsTemplate text other
        → parts ≡ other }
    ensures place { (text : List ℕ) (place other : ℕ) → IsBadPlace text place → IsBadPlace text other
        → place ≡ other }
    ensures never_both { (text : List ℕ) (parts : List Part) (place : ℕ)
        → IsTemplate text parts → IsBadPlace (template_of text) place → ⊥ }
    ensures some { (text : List ℕ) → ((parts : List Part) → IsTemplate text parts → ⊥)
        → ((place : ℕ) → IsBadPlace (template_of text) place → ⊥) → ⊥ }
{}

/// A text has one filter or one first bad condition, never both, and it can't be that it has neither.
pub fn one_filter()
    ensures one { (text : List ℕ) (filter other : List (List Condition))
        → IsFilter text filter → IsFilter text other → filter ≡ other }
    ensures place { (text : List ℕ) (place other : ℕ) → IsBadCondition text place → IsBadCondition text other
        → place ≡ other }
    ensures never_both { (text : List ℕ) (filter : List (List Condition)) (place : ℕ)
        → IsFilter text filter → IsBadCondition text place → ⊥ }
    ensures some { (text : List ℕ) → ((filter : List (List Condition)) → IsFilter text filter → ⊥)
        → ((place : ℕ) → IsBadCondition text place → ⊥) → ⊥ }
{}

/// The format `text` with the filter `all` gives each flag its line.
pub fn text_lines()
    ensures { (parts : List Part) (filter : List (List Condition)) → IsTemplate (codes "text") parts
        → IsFilter (codes "all") filter
        → (flags : List Flag) → lines parts filter flags ≡ flat_map flag_line flags }
{}
