//! Which texts are paths.

ghost use Rattle.std.specs.Prelude.{◌↔◌, IsTrue};
ghost use Rattle.acfg_base.specs.Paths.{IsPath};

/// Whether a text is a path: 1 to 1,024 bytes, none of them below 0x20.
pub fn is_path(text: &str) -> bool
    ensures { IsTrue result ↔ IsPath text.now }
{
    let bytes = text.as_bytes();
    !bytes.is_empty() && bytes.len() <= 1024 && bytes.iter().all(|byte| *byte >= 0x20)
}
