//! The look-up of a package.

ghost use Rattle.std.specs.Prelude.{◌≡◌, ◌+◌, ◌≤◌};
ghost use Rattle.std.specs.Option.{option_map};
ghost use Rattle.acfg_images.specs.Faults.{packages_in};
ghost use Rattle.acfg_lookup.specs.Lookup.{package_named, package_found, package_bucket_size};

use crate::found::PackageAt;
use crate::known::known;
use acfg_images::Checked;
use acfg_sip::bucket;
use acfg_views::Steps;
use std::sync::ledger::Ledger;

/// Looks a package up by its name; `None` exactly where no package has it. A text that is no lawful name, or too long
/// for one, is the name of none.
///
/// At most as many nodes are read as the name's bucket has.
pub fn find_package<L: Ledger>(
    set: &Checked<'_>,
    package: &str,
    steps: &mut Steps<L>,
) -> Option<PackageAt>
    ensures found { result ≡ option_map package_found (package_named (packages_in set.now) «package».now) }
    ensures steps { steps.new ≤ steps.old + package_bucket_size set.now «package».now }
{
    known(set);
    let map = set.package_view();
    let mut next = map.bucket_at(bucket(package.as_bytes(), map.buckets()));
    while next != 0 {
        let node = match map.node_at(next, steps) {
            Ok(node) => node,
            Err(_) => return None,
        };
        if node.name == package {
            return Some(PackageAt {
                id: node.id,
                start: node.start,
            });
        }
        next = node.next;
    }
    None
}
