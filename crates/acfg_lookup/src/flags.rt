//! The look-up of a flag.

ghost use Rattle.std.specs.Prelude.{◌≡◌, ◌+◌, ◌≤◌};
ghost use Rattle.std.specs.Option.{option_map};
ghost use Rattle.acfg_views.specs.Reading.{flag_of};
ghost use Rattle.acfg_images.specs.Faults.{flags_in, parts_in};
ghost use Rattle.acfg_images.specs.Set.{listed};
ghost use Rattle.acfg_lookup.specs.Lookup.{flag_found, flag_named, flag_bucket_size, most_steps};

use crate::found::Found;
use crate::known::known;
use crate::packages::find_package;
use acfg_images::Checked;
use acfg_sip::flag_bucket;
use acfg_views::{FlagNode, Steps};
use std::sync::ledger::Ledger;

/// Looks a flag up by its package's name and its own; `None` exactly where the set lists no such flag. A text that is
/// no lawful name, or too long for one, is the name of none.
///
/// At most as many nodes are read as the package's bucket has and, where the package is there, the flag's bucket.
pub fn find_flag<L: Ledger>(
    set: &Checked<'_>,
    package: &str,
    flag: &str,
    steps: &mut Steps<L>,
) -> Option<Found>
    ensures found { result ≡ option_map flag_found (listed (parts_in set.now) «package».now flag.now) }
    ensures steps { steps.new ≤ steps.old + most_steps set.now «package».now flag.now }
{
    known(set);
    let package = find_package(set, package, steps)?;
    let node = find_node(set, package.id, flag, steps)?;
    let index = package.start + u32::from(node.index);
    Some(Found {
        kind: node.kind,
        value: set.value_at(index),
        bits: set.bits_at(index),
        index,
    })
}

// The node of a package's flag.
fn find_node<'a, L: Ledger>(
    set: &Checked<'a>,
    package_id: u32,
    flag: &str,
    steps: &mut Steps<L>,
) -> Option<FlagNode<'a>>
    ensures found { option_map flag_of result ≡ flag_named (flags_in set.now) package_id flag.now }
    ensures steps { steps.new ≤ steps.old + flag_bucket_size set.now package_id flag.now }
{
    known(set);
    let map = set.flag_view();
    let mut next = map.bucket_at(flag_bucket(package_id, flag.as_bytes(), map.buckets()));
    while next != 0 {
        let node = match map.node_at(next, steps) {
            Ok(node) => node,
            Err(_) => return None,
        };
        if node.package_id == package_id && node.name == flag {
            return Some(node);
        }
        next = node.next;
    }
    None
}
