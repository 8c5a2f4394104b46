//! The order of texts by their bytes.

ghost use Rattle.std.specs.Prelude.{◌≡◌, ℕ, List};
ghost use Rattle.std.specs.List.Sorted.{IsPermutation, IsSorted};
ghost use Rattle.std.specs.Cmp.Lexicographic.{slice_cmp};
ghost use Rattle.std.specs.Ordering.{nat_cmp};

/// The same texts, sorted by their bytes, are one list.
pub fn one_order()
    ensures { (texts sorted other : List (List ℕ)) → IsPermutation texts sorted → IsPermutation texts other
        → IsSorted (slice_cmp nat_cmp) sorted → IsSorted (slice_cmp nat_cmp) other → sorted ≡ other }
{}
