//! Rows of containers in order of their names.

ghost use Rattle.std.specs.Prelude.{◌≡◌, List, ℕ};
ghost use Rattle.acfg_base.specs.Places.{AreInOrder, IsPlace};
ghost use Rattle.acfg_model.specs.State.{name_cmp};

/// A row of a container: its key is the container's name.
pub trait ContainerRow {
    /// The key of a row.
    ghost name_key: { Self → List ℕ };

    /// The container's name.
    fn name(&self) -> &str
        ensures { result.now ≡ name_key self.now };
}

/// Where a container stands among rows in order of their names' bytes, or where it would stand. It takes no memory.
pub fn place_of<Y: ContainerRow>(rows: &[Y], name: &str) -> Result<usize, usize>
    requires { AreInOrder name_cmp Y.name_key rows.now }
    ensures { IsPlace name_cmp Y.name_key rows.now name.now result }
{
    rows.binary_search_by(|row| row.name().cmp(&name))
}
