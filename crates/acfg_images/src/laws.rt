//! Laws of sets. Each is what a function without parameters and without work ensures, so that a caller gets the fact
//! by a call.

ghost use Rattle.acfg_images.specs.ImageLaw.{CachesMakeReleases, ImagesAreSets};
ghost use Rattle.acfg_images.specs.Laws.{FaultlessAreSets, SetsAreFaultless};

/// No fault stands in four files exactly where they are a set, of one container, one release and its notes.
pub fn faultless_are_sets()
    ensures faultless { FaultlessAreSets }
    ensures sets { SetsAreFaultless }
{}

/// The image of flags that have one is a set for the release that they make, without notes; and the flags of caches
/// make the release of the compile step.
pub fn images_are_sets()
    ensures sets { ImagesAreSets }
    ensures releases { CachesMakeReleases }
{}
