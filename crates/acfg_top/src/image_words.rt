//! What is wrong with an image set, and with which of its files, as the program says it.

ghost use Rattle.std.specs.Prelude.{◌≡◌};
ghost use Rattle.acfg_top.specs.Query.{faulty_file as faulty, file_name as name_of};

use acfg_images::{BuildFault, FileType, ImageFault, Point2};
use acfg_views::ViewFault;
use std::fmt;

/// The first fault of a set, to be printed.
#[derive(Drop)]
pub struct PrintedFault(pub ImageFault);

impl fmt::Display for PrintedFault {
    ghost use Rattle.std.specs.Prelude.{Some};
    ghost use Rattle.acfg_top.specs.Query.{image_words};

    ghost output = { λ printed. Some (image_words printed.0) };

    fn fmt<W: fmt::Write>(&self, f: &mut fmt::Formatter<W>) -> fmt::Result {
        match self.0 {
            ImageFault::TooLarge(bytes) => write!(f, "too-large {bytes}"),
            ImageFault::View(_, fault) => {
                let fault = PrintedView(fault);
                write!(f, "{fault}")
            }
            ImageFault::Node(_, at) => write!(f, "node at {at}"),
            ImageFault::Twice(_, at) => write!(f, "twice at {at}"),
            ImageFault::Chain(_, at) => write!(f, "chain at {at}"),
            ImageFault::Bits(_, at) => write!(f, "bits at {at}"),
            ImageFault::Disagree(what, a, b) => {
                let what = PrintedPoint(what);
                write!(f, "disagree {what} {a} {b}")
            }
            ImageFault::OutOfMemory => write!(f, "out-of-memory"),
        }
    }
}

/// A limit that an image would pass, to be printed.
#[derive(Drop)]
pub struct PrintedLimit(pub BuildFault);

impl fmt::Display for PrintedLimit {
    ghost use Rattle.std.specs.Prelude.{Some};
    ghost use Rattle.acfg_top.specs.CreateStorage.{limit_words};

    ghost output = { λ printed. Some (limit_words printed.0) };

    fn fmt<W: fmt::Write>(&self, f: &mut fmt::Formatter<W>) -> fmt::Result {
        match self.0 {
            BuildFault::TooManyFlags(count) => write!(f, "too-many-flags {count}"),
            BuildFault::TooLarge(bytes) => write!(f, "too-large {bytes}"),
            BuildFault::OutOfMemory => write!(f, "out-of-memory"),
        }
    }
}

// The first fault of a header.
#[derive(Drop)]
struct PrintedView(ViewFault);

impl fmt::Display for PrintedView {
    ghost use Rattle.std.specs.Prelude.{Some};
    ghost use Rattle.acfg_top.specs.Query.{view_words};

    ghost output = { λ printed. Some (view_words printed.0) };

    fn fmt<W: fmt::Write>(&self, f: &mut fmt::Formatter<W>) -> fmt::Result {
        match self.0 {
            ViewFault::Short => write!(f, "short"),
            ViewFault::BadVersion(version) => write!(f, "bad-version {version}"),
            ViewFault::BadText => write!(f, "bad-text"),
            ViewFault::BadFileType(file_type) => write!(f, "bad-file-type {file_type}"),
            ViewFault::BadSize(size) => write!(f, "bad-size {size}"),
            ViewFault::BadOffsets => write!(f, "bad-offsets"),
            ViewFault::BadKind(kind) => write!(f, "bad-kind {kind}"),
        }
    }
}

// On what the files disagree.
#[derive(Drop)]
struct PrintedPoint(Point2);

impl fmt::Display for PrintedPoint {
    ghost use Rattle.std.specs.Prelude.{Some};
    ghost use Rattle.acfg_top.specs.Query.{point_words};

    ghost output = { λ printed. Some (point_words printed.0) };

    fn fmt<W: fmt::Write>(&self, f: &mut fmt::Formatter<W>) -> fmt::Result {
        match self.0 {
            Point2::Container => write!(f, "container"),
            Point2::Id => write!(f, "id"),
            Point2::Count => write!(f, "count"),
            Point2::Package => write!(f, "package"),
            Point2::Index => write!(f, "index"),
            Point2::Kind => write!(f, "kind"),
        }
    }
}

/// The file that is named with a fault: `package.map` where it is none of one file.
pub fn faulty_file(fault: ImageFault) -> FileType
    ensures { result ≡ faulty fault }
{
    match fault {
        ImageFault::View(file, _)
        | ImageFault::Node(file, _)
        | ImageFault::Twice(file, _)
        | ImageFault::Chain(file, _)
        | ImageFault::Bits(file, _) => file,
        ImageFault::TooLarge(_) | ImageFault::Disagree(..) | ImageFault::OutOfMemory => {
            FileType::PackageMap
        }
    }
}

/// The name of one of a set's files.
pub fn file_name(file: FileType) -> &'static str
    ensures { result.now ≡ name_of file }
{
    match file {
        FileType::PackageMap => "package.map",
        FileType::FlagMap => "flag.map",
        FileType::FlagVal => "flag.val",
        FileType::FlagInfo => "flag.info",
    }
}
