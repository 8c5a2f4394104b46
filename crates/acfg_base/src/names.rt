//! Which texts are names of flags, packages and containers.

ghost use Rattle.std.specs.Prelude.{◌≡◌, ◌↔◌, IsTrue, Contains};
ghost use Rattle.acfg_base.specs.Bodies.{MayFollow};
ghost use Rattle.acfg_base.specs.Names.{dot, IsName, IsPackage, IsContainer, AreNames};

/// Whether a text names a flag or a namespace: `[a-z][a-z0-9_]*` without `__`, of at most 255 bytes.
pub fn is_name(text: &[u8]) -> bool
    ensures { IsTrue result ↔ IsName text.now }
{
    text.len() <= 255 && are_names(text) && !has_dot(text)
}

/// Whether a text names a package: two or more names joined by `.`, of at most 255 bytes.
pub fn is_package(text: &[u8]) -> bool
    ensures { IsTrue result ↔ IsPackage text.now }
{
    text.len() <= 255 && are_names(text) && has_dot(text)
}

/// Whether a text names a container: one or more names joined by `.`, of at most 100 bytes.
pub fn is_container(text: &[u8]) -> bool
    ensures { IsTrue result ↔ IsContainer text.now }
{
    text.len() <= 100 && are_names(text)
}

fn has_dot(text: &[u8]) -> bool
    ensures { IsTrue result ↔ Contains text.now dot }
{
    text.contains(&b'.')
}

// Whether a text is names joined by dots: it begins as behind a dot, and ends behind another byte.
fn are_names(text: &[u8]) -> bool
    ensures { IsTrue result ↔ AreNames text.now }
{
    let mut previous = b'.';
    for &byte in text {
        if !may_follow(previous, byte) {
            return false;
        }
        previous = byte;
    }
    previous != b'.'
}

fn may_follow(previous: u8, byte: u8) -> bool
    ensures { IsTrue result ↔ MayFollow previous byte }
{
    match byte {
        b'a'..=b'z' => true,
        b'0'..=b'9' | b'.' => previous != b'.',
        b'_' => previous != b'.' && previous != b'_',
        _ => false,
    }
}
