//! What a command has to tell, and how it is said.

ghost use Rattle.std.specs.Prelude.{◌≡◌, ◌++◌, IfErr, IfOk, IsErr, IsTrue, OnErr, OnOk};
ghost use Rattle.acfg_device.specs.Disk.{IsSettled};
ghost use Rattle.acfg_device.specs.Left.{LeavesSince, SaysOnly};
ghost use Rattle.acfg_device.specs.Only.{OnlySays};
ghost use Rattle.acfg_device.specs.Panel.{SaysPart};
ghost use Rattle.acfg_top.specs.Bodies.{refusal_words, IsOf};
ghost use Rattle.acfg_top.specs.Outcome.{Damaged, Refused};

use crate::cache_words::PrintedCache;
use crate::ending::{Ending, Stop};
use crate::image_words::{PrintedFault, PrintedLimit};
use acfg_base::OutOfMemory;
use acfg_cache::CacheFault;
use acfg_commit::say_line;
use acfg_decls::DeclWhat;
use acfg_device::Panel;
use acfg_images::{BuildFault, ImageFault};
use acfg_text::TextWhat;
use std::alloc::{AllocError, AllocFailed, Global};
use std::fmt;

/// What a command has to tell: how it ends, and the words to say.
#[derive(Debug, Drop)]
pub struct Told {
    pub ending: Ending,
    pub text: Vec<u8>,
}

/// Why inputs are judged no further.
#[derive(Debug, Drop)]
pub enum Halt {
    /// One of them is refused, as is to be told.
    Refused(Told),
    /// Memory was refused.
    OutOfMemory,
}

impl From<AllocError> for Halt {
    ghost use Rattle.acfg_top.specs.declared.told.Halt.TheVariants as halt;

    ghost from_gives = { λ _ made. made ≡ halt.OutOfMemory };

    fn from(_refused: AllocError) -> Halt {
        Halt::OutOfMemory
    }
}

impl From<OutOfMemory> for Halt {
    ghost use Rattle.acfg_top.specs.declared.told.Halt.TheVariants as halt;

    ghost from_gives = { λ _ made. made ≡ halt.OutOfMemory };

    fn from(_refused: OutOfMemory) -> Halt {
        Halt::OutOfMemory
    }
}

impl<T: Drop> From<AllocFailed<T>> for Halt {
    ghost use Rattle.acfg_top.specs.declared.told.Halt.TheVariants as halt;

    ghost from_gives = { λ _ made. made ≡ halt.OutOfMemory };

    fn from(_refused: AllocFailed<T>) -> Halt {
        Halt::OutOfMemory
    }
}

// What is wrong with a file of declarations or values, as the program says it.
#[derive(Drop)]
struct Printed(DeclWhat);

impl fmt::Display for Printed {
    ghost use Rattle.std.specs.Prelude.{Some};
    ghost use Rattle.acfg_top.specs.Flags.{what_words};

    ghost output = { λ printed. Some (what_words printed.0) };

    fn fmt<W: fmt::Write>(&self, f: &mut fmt::Formatter<W>) -> fmt::Result {
        match self.0 {
            DeclWhat::Text(TextWhat::BadByte) => write!(f, "bad-byte"),
            DeclWhat::Text(TextWhat::BadEscape) => write!(f, "bad-escape"),
            DeclWhat::Text(TextWhat::OpenString) => write!(f, "open-string"),
            DeclWhat::Text(TextWhat::Unexpected) => write!(f, "unexpected"),
            DeclWhat::Text(TextWhat::TooDeep) => write!(f, "too-deep"),
            DeclWhat::Text(TextWhat::BadUtf8) => write!(f, "bad-utf8"),
            DeclWhat::UnknownField => write!(f, "unknown-field"),
            DeclWhat::TwiceGiven => write!(f, "twice-given"),
            DeclWhat::BadScalar => write!(f, "bad-scalar"),
            DeclWhat::MissingField => write!(f, "missing-field"),
            DeclWhat::BadName => write!(f, "bad-name"),
            DeclWhat::EmptyDescription => write!(f, "empty-description"),
            DeclWhat::BugCount(count) => write!(f, "bug-count {count}"),
            DeclWhat::WrongPackage => write!(f, "wrong-package"),
            DeclWhat::WrongContainer => write!(f, "wrong-container"),
            DeclWhat::Declared => write!(f, "declared"),
            DeclWhat::TooMany => write!(f, "too-many"),
            DeclWhat::FixedFlag => write!(f, "fixed-flag"),
        }
    }
}

/// Why an input is refused. It is printed as the program says it.
#[derive(Clone, Copy, Debug)]
pub enum Refusal<'a> {
    /// There is no such file.
    Missing,
    /// The first fault of a file of declarations or values, and its byte place from 0.
    Declarations(usize, DeclWhat),
    /// The first fault of a set of storage files.
    Image(ImageFault),
    /// The place of the first bad brace of a template.
    Placeholder(usize),
    /// The place of the first bad condition of a filter.
    Filter(usize),
    /// The first fault of a cache.
    Cache(CacheFault),
    /// The position of a cache's first flag that is another container's.
    Stranger(usize),
    /// Two caches have a flag of this `package.name` that don't go together.
    Clash(&'a str),
    /// A limit that an image would pass.
    Limit(BuildFault),
    /// The first bad line of a list of jobs, by its number from 1.
    BadLine(usize),
}

impl fmt::Display for Refusal<'_> {
    ghost use Rattle.std.specs.Prelude.{Some};
    ghost use Rattle.acfg_top.specs.Bodies.{refusal_words};

    ghost output = { λ refusal. Some (refusal_words refusal) };

    fn fmt<W: fmt::Write>(&self, f: &mut fmt::Formatter<W>) -> fmt::Result {
        match self {
            Refusal::Missing => write!(f, "missing"),
            Refusal::Declarations(place, what) => {
                let what = Printed(*what);
                write!(f, "{what} at {place}")
            }
            Refusal::Image(fault) => {
                let fault = PrintedFault(*fault);
                write!(f, "{fault}")
            }
            Refusal::Placeholder(place) => write!(f, "bad-placeholder at {place}"),
            Refusal::Filter(place) => write!(f, "bad-filter at {place}"),
            Refusal::Cache(fault) => {
                let fault = PrintedCache(*fault);
                write!(f, "{fault}")
            }
            Refusal::Stranger(position) => write!(f, "wrong-container flag {position}"),
            Refusal::Clash(name) => write!(f, "clash {name}"),
            Refusal::Limit(fault) => {
                let fault = PrintedLimit(*fault);
                write!(f, "{fault}")
            }
            Refusal::BadLine(number) => write!(f, "bad-line {number}"),
        }
    }
}

/// The refusal of a file.
pub fn refused(alloc: Global, file: &str, refusal: Refusal<'_>) -> Result<Told, AllocError>
    ensures { IfOk result (IsOf (Refused file.now (refusal_words refusal.entry))) }
{
    let text = format!(in alloc; "refused {file}: {refusal}\n")?;
    Ok(Told {
        ending: Ending::Refused,
        text: text.into_bytes(),
    })
}

/// What is to be told of a device directory whose first file at fault is this one.
pub fn damaged(alloc: Global, file: &str) -> Result<Told, AllocError>
    ensures { IfOk result (IsOf (Damaged file.now)) }
{
    let text = format!(in alloc; "damaged {file}\n")?;
    Ok(Told {
        ending: Ending::Damaged,
        text: text.into_bytes(),
    })
}

/// Says what a command has to tell, and answers how it ends.
pub fn tell<P: Panel>(panel: &mut P, told: &Told) -> Result<Ending, Stop>
    ensures ending { IfOk result (λ ending. ending ≡ told.now.ending) }
    ensures ok { IsTrue P.tells → OnOk result (P.said panel.new ≡ P.said panel.old ++ told.now.text.items) }
    ensures err { IsTrue P.tells → OnErr result (SaysPart (P.said panel.old) (P.said panel.new) told.now.text.items) }
    ensures stop { IfErr result (λ stop. stop ≡ Stop.Failed) }
    ensures says { OnlySays P.Panel panel.old panel.new (result ≡ Err Stop.Failed) }
    ensures cut { IsTrue P.tells → IsSettled (P.account panel.old).now
        → LeavesSince (P.account panel.old) (P.account panel.new)
        (SaysOnly (P.files panel.old) (P.said panel.old) told.now.text.items) }
    ensures settled { IsTrue P.tells → IsSettled (P.account panel.old).now → IsSettled (P.account panel.new).now }
{
    say(panel, told.text.as_slice())?;
    Ok(told.ending)
}

/// Says words.
pub fn say<P: Panel>(panel: &mut P, words: &[u8]) -> Result<(), Stop>
    ensures ok { IsTrue P.tells → OnOk result (P.said panel.new ≡ P.said panel.old ++ words.now) }
    ensures err { IsTrue P.tells → OnErr result (SaysPart (P.said panel.old) (P.said panel.new) words.now) }
    ensures stop { IfErr result (λ stop. stop ≡ Stop.Failed) }
    ensures says { OnlySays P.Panel panel.old panel.new (result ≡ Err Stop.Failed) }
    ensures cut { IsTrue P.tells → IsSettled (P.account panel.old).now
        → LeavesSince (P.account panel.old) (P.account panel.new)
        (SaysOnly (P.files panel.old) (P.said panel.old) words.now) }
    ensures settled { IsTrue P.tells → IsSettled (P.account panel.old).now → IsSettled (P.account panel.new).now }
{
    say_line(panel, words)?;
    Ok(())
}
