//! What a set that was checked keeps.

ghost use Rattle.std.specs.Prelude.{◌<◌, ◌^◌};
ghost use Rattle.acfg_images.specs.Faults.{HasNoFault};

use acfg_images::Checked;

/// Without work: what is known of the set.
pub(crate) fn known(set: &Checked<'_>)
    ensures no_fault { HasNoFault set.now }
    ensures few { set.now.flag_map.count < 2 ^ 32 }
{
    let _container = set.container();
    let _count = set.count();
}
