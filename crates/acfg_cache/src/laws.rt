//! Laws of the definitions: a cache has one reading or one first fault, and lists have one first clash.

ghost use Rattle.std.specs.Prelude.{◌≡◌, ◌<◌, ◌^◌, ℕ, Bool, List, All, length};
ghost use Rattle.acfg_decls.specs.declared.flags.Flag.{Flag};
ghost use Rattle.acfg_cache.specs.declared.fault.CacheFault.{CacheFault};
ghost use Rattle.acfg_decls.specs.Flags.{AreFlags};
ghost use Rattle.acfg_cache.specs.Reading.{FirstFault, Reads};
ghost use Rattle.acfg_cache.specs.Texts.{HasTexts};
ghost use Rattle.acfg_cache.specs.Writing.{cache};
ghost use Rattle.acfg_cache.specs.Merging.{IsFirstClash, IsMerged};

/// A cache is read as one list of compiled flags or has one first fault, never both; and it isn't that it has neither.
pub fn one_reading()
    ensures flags { (bytes : List ℕ) (flags : List Flag) → Reads bytes flags → AreFlags flags }
    ensures reads { (bytes : List ℕ) (flags other : List Flag)
        → Reads bytes flags → Reads bytes other → flags ≡ other }
    ensures fails { (bytes : List ℕ) (fault other : CacheFault)
        → FirstFault bytes fault → FirstFault bytes other → fault ≡ other }
    ensures apart { (bytes : List ℕ) (flags : List Flag) (fault : CacheFault)
        → Reads bytes flags → FirstFault bytes fault → ⊥ }
    ensures some { (bytes : List ℕ) → ((flags : List Flag) → Reads bytes flags → ⊥)
        → ((fault : CacheFault) → FirstFault bytes fault → ⊥) → ⊥ }
{}

/// What is written is read again: the cache of compiled flags is read as these flags.
pub fn written_is_read()
    ensures { (flags : List Flag) → AreFlags flags → All HasTexts flags → length (cache flags) < 2 ^ 64
        → Reads (cache flags) flags }
{}

/// Lists of compiled flags have one merged list or one first clash, never both; and it isn't that they have neither.
pub fn one_merging()
    ensures merged { (lists : List (List Flag)) (dedup : Bool) (flags other : List Flag)
        → IsMerged lists dedup flags → IsMerged lists dedup other → flags ≡ other }
    ensures some { (lists : List (List Flag)) (dedup : Bool) → All AreFlags lists
        → ((flags : List Flag) → IsMerged lists dedup flags → ⊥)
        → ((i : ℕ) (name : List ℕ) → IsFirstClash lists dedup i name → ⊥) → ⊥ }
    ensures apart { (lists : List (List Flag)) (dedup : Bool) (flags : List Flag) (i : ℕ) (name : List ℕ)
        → IsMerged lists dedup flags → IsFirstClash lists dedup i name → ⊥ }
    ensures clash { (lists : List (List Flag)) (dedup : Bool) (i j : ℕ) (name other : List ℕ)
        → IsFirstClash lists dedup i name → IsFirstClash lists dedup j other → (i ≡ j) × (name ≡ other) }
{}
