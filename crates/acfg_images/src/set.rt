//! Four files together.

ghost use Rattle.std.specs.Prelude.{◌≡◌};

use std::marker::Model;

/// The bytes of `package.map`, `flag.map`, `flag.val` and `flag.info`. Nothing is tested yet.
#[derive(Debug, Drop)]
pub struct ImageSet {
    package_map: Vec<u8>,
    flag_map: Vec<u8>,
    flag_val: Vec<u8>,
    flag_info: Vec<u8>,
}

impl Model for ImageSet {
    ghost use Rattle.acfg_images.specs.Files.{Files};

    ghost Value = { Files };

    ghost view = { λ set. record {
      package_map = set.package_map.items;
      flag_map = set.flag_map.items;
      flag_val =
          set.flag_val.items;
      flag_info = set.flag_info.items;
    } };
}

impl ImageSet {
    /// The set of these four files.
    pub fn new(
        package_map: Vec<u8>,
        flag_map: Vec<u8>,
        flag_val: Vec<u8>,
        flag_info: Vec<u8>,
    ) -> ImageSet
        ensures package_map { result.package_map ≡ package_map.items }
        ensures flag_map { result.flag_map ≡ flag_map.items }
        ensures flag_val { result.flag_val ≡ flag_val.items }
        ensures flag_info { result.flag_info ≡ flag_info.items }
    {
        ImageSet {
            package_map,
            flag_map,
            flag_val,
            flag_info,
        }
    }

    pub fn package_map(&self) -> &[u8]
        ensures { result.now ≡ self.now.package_map }
    {
        self.package_map.as_slice()
    }

    pub fn flag_map(&self) -> &[u8]
        ensures { result.now ≡ self.now.flag_map }
    {
        self.flag_map.as_slice()
    }

    pub fn flag_val(&self) -> &[u8]
        ensures { result.now ≡ self.now.flag_val }
    {
        self.flag_val.as_slice()
    }

    pub fn flag_info(&self) -> &[u8]
        ensures { result.now ≡ self.now.flag_info }
    {
        self.flag_info.as_slice()
    }

    /// The four files, in the order of `new`.
    pub fn into_files(self) -> (Vec<u8>, Vec<u8>, Vec<u8>, Vec<u8>)
        ensures package_map { result.0.items ≡ self.package_map }
        ensures flag_map { result.1.items ≡ self.flag_map }
        ensures flag_val { result.2.items ≡ self.flag_val }
        ensures flag_info { result.3.items ≡ self.flag_info }
    {
        (
            self.package_map,
            self.flag_map,
            self.flag_val,
            self.flag_info,
        )
    }
}
