//! The order of flags: by the bytes of `package.name`.

ghost use Rattle.std.specs.Prelude.{◌≡◌, ◌⊎◌, ◌∷◌, ◌++◌, [], ℕ};
ghost use Rattle.std.specs.Cmp.Lexicographic.{slice_cmp};
ghost use Rattle.std.specs.Ordering.{nat_cmp};
ghost use Rattle.acfg_base.specs.Names.{dot};

use std::cmp::Ordering;

/// How one package and name stand to others, by the bytes of each with a dot between.
pub fn compare_joined(
    package: &[u8],
    name: &[u8],
    other_package: &[u8],
    other_name: &[u8],
) -> Ordering
    ensures { result ≡ slice_cmp nat_cmp («package».now ++ dot ∷ name.now) (other_package.now ++ dot ∷ other_name.now) }
{
    let common = package.len().min(other_package.len());
    let (front, rest) = package.split_at(common);
    let (other_front, other_rest) = other_package.split_at(common);
    front
        .cmp(&other_front)
        .then(compare_rests(rest, name, other_rest, other_name))
}

// The same where one of the packages has ended.
fn compare_rests(rest: &[u8], name: &[u8], other_rest: &[u8], other_name: &[u8]) -> Ordering
    requires { (rest.now ≡ []) ⊎ (other_rest.now ≡ []) }
    ensures { result ≡ slice_cmp nat_cmp (rest.now ++ dot ∷ name.now) (other_rest.now ++ dot ∷ other_name.now) }
{
    match (rest, other_rest) {
        ([], []) => name.cmp(&other_name),
        ([], [byte, behind @ ..]) => b'.'
            .cmp(byte)
            .then(compare_behind(name, behind, other_name)),
        ([byte, behind @ ..], _) => byte
            .cmp(&b'.')
            .then(compare_behind(other_name, behind, name).reverse()),
    }
}

// How a text stands to two others with a dot between.
fn compare_behind(text: &[u8], package: &[u8], name: &[u8]) -> Ordering
    ensures { result ≡ slice_cmp nat_cmp text.now («package».now ++ dot ∷ name.now) }
{
    let common = text.len().min(package.len());
    let (front, rest) = text.split_at(common);
    let (package_front, package_rest) = package.split_at(common);
    front
        .cmp(&package_front)
        .then(compare_ended(rest, package_rest, name))
}

// The same where the text or the package has ended.
fn compare_ended(rest: &[u8], package_rest: &[u8], name: &[u8]) -> Ordering
    requires { (rest.now ≡ []) ⊎ (package_rest.now ≡ []) }
    ensures { result ≡ slice_cmp nat_cmp rest.now (package_rest.now ++ dot ∷ name.now) }
{
    match (rest, package_rest) {
        ([byte, behind @ ..], []) => byte.cmp(&b'.').then(behind.cmp(&name)),
        _ => Ordering::Less,
    }
}
