//! A set's files and digest, and the check of a small set whose buckets were computed by hand.

ghost use Rattle.std.specs.Prelude.{◌≡◌, IfOk, All, EachIndex, length, slice_index};
ghost use Rattle.acfg_views.specs.Reading.{byte_in};
ghost use Rattle.acfg_images.specs.declared.purpose.Use.TheVariants.{Copy};
ghost use Rattle.acfg_images.specs.Set.{IsInfo, has_read_write};

use acfg_base::Kind;
use acfg_images::*;
use acfg_views::ViewFault;
use std::alloc::{AllocError, Global};
use std::test::Fail;

/// SHA-256 of `abc`, the first example of FIPS 180-4.
const ABC: [u8; 32] = [
    0xba, 0x78, 0x16, 0xbf, 0x8f, 0x01, 0xcf, 0xea, 0x41, 0x41, 0x40, 0xde, 0x5d, 0xae, 0x22, 0x23,
    0xb0, 0x03, 0x61, 0xa3, 0x96, 0x17, 0x7a, 0x9c, 0xb4, 0x10, 0xff, 0x61, 0xf2, 0x00, 0x15, 0xad,
];

#[test]
fn a_set_lends_its_files(rt: HostRuntime) -> Result<(), Fail> {
    let alloc = rt.alloc();
    let set = ImageSet::new(
        b"a".to_vec(alloc)?,
        b"b".to_vec(alloc)?,
        Vec::new(alloc),
        b"c".to_vec(alloc)?,
    );
    assert_eq!(rt; set.package_map(), b"a".as_slice());
    assert_eq!(rt; set.flag_map(), b"b".as_slice());
    assert_eq!(rt; set.flag_val(), b"".as_slice());
    assert_eq!(rt; set.flag_info(), b"c".as_slice());
    assert_eq!(rt; digest(&set), ABC);
    Ok(())
}

/// `package.map` of container `c` with the one package `com.a`.
const PACKAGES: &[u8; 75] =
    b"\x01\0\0\0\x01\0\0\0c\0\x4b\0\0\0\x01\0\0\0\x1a\0\0\0\x36\0\0\0\0\0\0\0\0\0\0\0\x36\0\0\
    \0\0\0\0\0\0\0\0\0\0\0\0\0\0\0\0\0\x05\0\0\0com.a\0\0\0\0\0\0\0\0\0\0\0\0";

/// `flag.map` with the one flag `f`, which is read-write.
const FLAGS: &[u8; 71] =
    b"\x01\0\0\0\x01\0\0\0c\x01\x47\0\0\0\x01\0\0\0\x1a\0\0\0\x36\0\0\0\0\0\0\0\0\0\0\0\0\0\0\
    \0\0\0\0\0\0\0\0\0\0\0\0\0\x36\0\0\0\0\0\0\0\x01\0\0\0f\0\0\0\0\0\0\0\0";

/// `flag.val`, where it is false.
const VALUES: &[u8; 23] = b"\x01\0\0\0\x01\0\0\0c\x02\x17\0\0\0\x01\0\0\0\x16\0\0\0\0";

/// `flag.info`, without notes.
const INFOS: &[u8; 23] = b"\x01\0\0\0\x01\0\0\0c\x03\x17\0\0\0\x01\0\0\0\x16\0\0\0\x02";

/// What a release is told where one byte of one file is another.
const CHANGED: [(FileType, usize, u8, Option<ImageFault>); 11] = [
    (FileType::PackageMap, 0, 1, None),
    (
        FileType::PackageMap,
        0,
        2,
        Some(ImageFault::View(FileType::PackageMap, ViewFault::BadVersion(2))),
    ),
    (
        FileType::FlagMap,
        67,
        0x36,
        Some(ImageFault::Chain(FileType::FlagMap, 54)),
    ),
    (
        FileType::FlagMap,
        67,
        0x48,
        Some(ImageFault::Chain(FileType::FlagMap, 54)),
    ),
    (
        FileType::FlagMap,
        58,
        200,
        Some(ImageFault::Node(FileType::FlagMap, 54)),
    ),
    (
        FileType::FlagVal,
        22,
        2,
        Some(ImageFault::Bits(FileType::FlagVal, 0)),
    ),
    (
        FileType::FlagInfo,
        22,
        3,
        Some(ImageFault::Bits(FileType::FlagInfo, 0)),
    ),
    (
        FileType::FlagInfo,
        22,
        0,
        Some(ImageFault::Disagree(Point2::Kind, 0, 0)),
    ),
    (
        FileType::FlagVal,
        8,
        b'd',
        Some(ImageFault::Disagree(Point2::Container, 2, 0)),
    ),
    (
        FileType::PackageMap,
        63,
        1,
        Some(ImageFault::Disagree(Point2::Id, 0, 1)),
    ),
    (
        FileType::PackageMap,
        67,
        1,
        Some(ImageFault::Disagree(Point2::Index, 0, 0)),
    ),
];

fn changed(
    alloc: Global,
    bytes: &[u8],
    here: bool,
    at: usize,
    byte: u8,
) -> Result<Vec<u8>, AllocError> {
    let mut copy = bytes.to_vec(alloc)?;
    if here && at < copy.len() {
        copy[at] = byte;
    }
    Ok(copy)
}

fn changed_set(alloc: Global, file: FileType, at: usize, byte: u8) -> Result<ImageSet, AllocError> {
    Ok(ImageSet::new(
        changed(alloc, PACKAGES, file == FileType::PackageMap, at, byte)?,
        changed(alloc, FLAGS, file == FileType::FlagMap, at, byte)?,
        changed(alloc, VALUES, file == FileType::FlagVal, at, byte)?,
        changed(alloc, INFOS, file == FileType::FlagInfo, at, byte)?,
    ))
}

#[test]
fn the_first_fault_is_told(rt: HostRuntime) -> Result<(), Fail> {
    for (file, at, byte, fault) in CHANGED {
        let set = changed_set(rt.alloc(), file, at, byte)?;
        assert_eq!(rt;
            check(rt.alloc(), &set, Use::Release).err(),
            fault,
            "byte {at}"
        );
    }
    Ok(())
}

/// `package.map` of container `c` with the one package `com.a`, in one bucket.
const ONE_PACKAGE: &[u8; 51] =
    b"\x01\0\0\0\x01\0\0\0c\0\x33\0\0\0\x01\0\0\0\x1a\0\0\0\x1e\0\0\0\x1e\0\0\0\x05\0\0\0com.a\0\0\
    \0\0\0\0\0\0\0\0\0\0";

/// `flag.map` with the flags `f` and `g` in one bucket. The second is read-only.
const TWO_FLAGS: &[u8; 64] =
    b"\x01\0\0\0\x01\0\0\0c\x01\x40\0\0\0\x02\0\0\0\x1a\0\0\0\x1e\0\0\0\x1e\0\0\0\0\0\0\0\x01\0\0\0f\0\
    \0\0\0\x2f\0\0\0\0\0\0\0\x01\0\0\0g\x01\0\x01\0\0\0\0\0";

/// `flag.val`, where the second is true.
const TWO_VALUES: &[u8; 24] = b"\x01\0\0\0\x01\0\0\0c\x02\x18\0\0\0\x02\0\0\0\x16\0\0\0\0\x01";

/// `flag.info`, without notes.
const TWO_INFOS: &[u8; 24] = b"\x01\0\0\0\x01\0\0\0c\x03\x18\0\0\0\x02\0\0\0\x16\0\0\0\x02\0";

/// What a release is told where two bytes of the two flags' files are others: of `flag.map`, and of the file that is
/// named. Where both changes are faults, the one that comes first in the order is told.
const CHANGED_TWICE: [(usize, u8, FileType, usize, u8, Option<ImageFault>); 7] = [
    (0, 1, FileType::FlagVal, 0, 1, None),
    (
        55,
        b'f',
        FileType::FlagVal,
        0,
        1,
        Some(ImageFault::Twice(FileType::FlagMap, 47)),
    ),
    (
        55,
        b'f',
        FileType::FlagVal,
        22,
        2,
        Some(ImageFault::Twice(FileType::FlagMap, 47)),
    ),
    (
        43,
        0,
        FileType::PackageMap,
        26,
        0,
        Some(ImageFault::Chain(FileType::PackageMap, 26)),
    ),
    (
        26,
        0,
        FileType::FlagVal,
        8,
        b'd',
        Some(ImageFault::Chain(FileType::FlagMap, 26)),
    ),
    (
        47,
        1,
        FileType::PackageMap,
        0,
        1,
        Some(ImageFault::Disagree(Point2::Package, 1, 1)),
    ),
    (
        58,
        2,
        FileType::PackageMap,
        0,
        1,
        Some(ImageFault::Disagree(Point2::Index, 1, 0)),
    ),
];

fn two_flags(
    alloc: Global,
    at: usize,
    byte: u8,
    file: FileType,
    place: usize,
    other: u8,
) -> Result<ImageSet, AllocError> {
    Ok(ImageSet::new(
        changed(
            alloc,
            ONE_PACKAGE,
            file == FileType::PackageMap,
            place,
            other,
        )?,
        changed(alloc, TWO_FLAGS, true, at, byte)?,
        changed(alloc, TWO_VALUES, file == FileType::FlagVal, place, other)?,
        changed(alloc, TWO_INFOS, file == FileType::FlagInfo, place, other)?,
    ))
}

#[test]
fn the_first_of_two_faults_is_told(rt: HostRuntime) -> Result<(), Fail> {
    for (at, byte, file, place, other, fault) in CHANGED_TWICE {
        let set = two_flags(rt.alloc(), at, byte, file, place, other)?;
        assert_eq!(rt;
            check(rt.alloc(), &set, Use::Release).err(),
            fault,
            "byte {at}"
        );
    }
    Ok(())
}

#[test]
fn sizes_and_counts_are_told(rt: HostRuntime) -> Result<(), Fail> {
    let alloc = rt.alloc();
    let set = ImageSet::new(
        vec![in alloc; 0u8; 4_194_305]?,
        Vec::new(alloc),
        Vec::new(alloc),
        Vec::new(alloc),
    );
    let fault = check(alloc, &set, Use::Release).err();
    assert_eq!(rt; fault, Some(ImageFault::TooLarge(4_194_305)));
    let set = ImageSet::new(
        ONE_PACKAGE.to_vec(alloc)?,
        TWO_FLAGS.to_vec(alloc)?,
        VALUES.to_vec(alloc)?,
        TWO_INFOS.to_vec(alloc)?,
    );
    let fault = check(alloc, &set, Use::Copy).err();
    assert_eq!(rt; fault, Some(ImageFault::Disagree(Point2::Count, 1, 2)));
    Ok(())
}

#[test]
fn a_release_is_listed(rt: HostRuntime) -> Result<(), Fail> {
    let set = two_flags(rt.alloc(), 0, 1, FileType::FlagVal, 0, 1)?;
    if let Ok(set) = check(rt.alloc(), &set, Use::Release) {
        assert_eq!(rt; values_of(&set), [(false, 2), (true, 0)]);
        let release = flags_of(rt.alloc(), &set)?;
        let seen = (release.get("com.a", "f"), release.get("com.a", "g"));
        let due = (Some((Kind::ReadWrite, false)), Some((Kind::ReadOnly, true)));
        assert_eq!(rt; seen, due);
        assert_eq!(rt; release.len(), 2);
    } else {
        assert!(rt; false);
    }
    Ok(())
}

// The values and bits at 0 and 1, where there are two.
fn values_of(set: &Checked<'_>) -> [(bool, u8); 2] {
    if set.count() < 2 {
        return [(false, 0); 2];
    }
    [
        (set.value_at(0), set.bits_at(0)),
        (set.value_at(1), set.bits_at(1)),
    ]
}

#[test]
fn a_copy_may_have_notes(rt: HostRuntime) -> Result<(), Fail> {
    let set = changed_set(rt.alloc(), FileType::FlagInfo, 22, 7)?;
    match check(rt.alloc(), &set, Use::Copy) {
        Ok(set) => {
            assert_eq!(rt; set.container(), "c");
            assert_eq!(rt; set.count(), 1);
        }
        Err(_) => assert!(rt; false),
    }
    Ok(())
}

// The bits of a flag with both notes where it is read-write, and else none.
fn noted(bits: u8) -> u8
    ensures lawful { IsInfo Copy result }
    ensures kind { has_read_write result ≡ has_read_write bits }
{
    if bits / 2 % 2 == 1 { 7 } else { 0 }
}

// Such bits for each flag of a set.
fn all_noted(alloc: Global, set: &Checked<'_>) -> Result<Vec<u8>, AllocError>
    ensures count { IfOk result (λ made. length made.items ≡ set.now.infos.count) }
    ensures lawful { IfOk result (λ made. All (IsInfo Copy) made.items) }
    ensures kinds { IfOk result (λ made. EachIndex made.items (λ i. has_read_write (slice_index made.items i) ≡
        has_read_write (byte_in set.now.infos i))) }
{
    let mut made = Vec::new(alloc);
    for i in 0..set.count() {
        made.push(noted(set.bits_at(i)))?;
    }
    Ok(made)
}

// So many values that are true.
fn all_true(alloc: Global, count: u32) -> Result<Vec<u8>, AllocError>
    ensures count { IfOk result (λ made. length made.items ≡ count) }
    ensures values { IfOk result (λ made. EachIndex made.items (λ i. slice_index made.items i ≡ 1)) }
{
    vec![in alloc; 1u8; count as usize]
}

fn restamp_all(alloc: Global, set: &Checked<'_>) -> Result<ImageSet, Fail> {
    set.are_open();
    let infos = all_noted(alloc, set)?;
    let values = all_true(alloc, set.count())?;
    Ok(restamp(alloc, set, &values, &infos)?)
}

#[test]
fn a_copy_is_restamped(rt: HostRuntime) -> Result<(), Fail> {
    let set = two_flags(rt.alloc(), 0, 1, FileType::FlagVal, 0, 1)?;
    let made = match check(rt.alloc(), &set, Use::Release) {
        Ok(set) => restamp_all(rt.alloc(), &set)?,
        Err(_) => return Err("no set".into()),
    };
    assert_eq!(rt; made.flag_map(), set.flag_map());
    assert!(rt; check(rt.alloc(), &made, Use::Release).is_err());
    match check(rt.alloc(), &made, Use::Copy) {
        Ok(copy) => assert_eq!(rt; values_of(&copy), [(true, 7), (true, 0)]),
        Err(_) => assert!(rt; false),
    }
    Ok(())
}
