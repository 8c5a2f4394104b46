//! Rows in order of their keys: what finite maps are kept as.

ghost use Rattle.std.specs.Prelude.{◌≡◌};
ghost use Rattle.std.specs.declared.cmp.Ordering.{Ordering};
ghost use Rattle.acfg_base.specs.Places.{AreInOrder, IsPlace};
ghost use Rattle.acfg_base.specs.Release.{Key, key_cmp};

use std::cmp::Ordering;
use std::marker::Model;

/// A row that has a key, by which rows are in order.
pub trait Row {
    /// The keys.
    ghost Key: { Type 0 };

    /// The key of a row.
    ghost key: { Self → Key };

    /// The order of keys.
    ghost cmp: { Key → Key → Ordering };
}

/// Rows in order of their keys, no two with one key. Contracts see the list of them.
#[derive(Debug, Drop)]
pub struct InOrder<Y: Row> {
    rows: Vec<Y>,
}

impl<Y: Row> Model for InOrder<Y> {
    ghost use Rattle.std.specs.Prelude.{List};
    ghost use Rattle.std.specs.Coded.{coded_list};
    ghost use Rattle.acfg_base.specs.Places.{AreInOrder};

    ghost Value = { List Y };

    ghost coded = { coded_list Y.code };

    ghost view = { λ list. list.rows.items };

    ghost invariant = { λ list. AreInOrder Y.cmp Y.key list.rows.items };
}

impl<Y: Row> InOrder<Y> {
    /// Rows that are in order. It takes no memory.
    pub fn from_sorted(rows: Vec<Y>) -> InOrder<Y>
        requires { AreInOrder Y.cmp Y.key rows.items }
        ensures { result ≡ rows.items }
    {
        InOrder { rows }
    }

    /// The rows.
    pub fn as_slice(&self) -> &[Y]
        ensures all { result.now ≡ self.now }
        ensures order { AreInOrder Y.cmp Y.key result.now }
    {
        self.rows.as_slice()
    }

    /// The rows as a list. It takes no memory.
    pub fn into_vec(self) -> Vec<Y>
        ensures all { result.items ≡ self }
        ensures order { AreInOrder Y.cmp Y.key result.items }
    {
        let InOrder { rows } = self;
        rows
    }
}

/// A row of a flag: its key is a package and a flag.
pub trait FlagRow {
    /// The key of a row.
    ghost flag_key: { Self → Key };

    /// How the row's key stands to another one, by package bytes and then by flag bytes.
    fn compare(&self, package: &str, flag: &str) -> Ordering
        ensures { result ≡ key_cmp (flag_key self.now) («package».now, flag.now) };
}

/// Where a flag stands among rows in order, or where it would stand.
pub fn place<Y: FlagRow>(rows: &[Y], package: &str, flag: &str) -> Result<usize, usize>
    requires { AreInOrder key_cmp Y.flag_key rows.now }
    ensures { IsPlace key_cmp Y.flag_key rows.now («package».now, flag.now) result }
{
    rows.binary_search_by(|row| row.compare(package, flag))
}
