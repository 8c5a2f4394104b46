//! What changes files, and what a power cut may leave of them.

ghost use Rattle.std.specs.Prelude.{◌≡◌, ◌≢◌, ◌⊎◌, ℕ, ◌+◌, ◌≤◌, List, Some, None, IsTrue, IsErr, IsSome, IsSomeAnd};
ghost use Rattle.std.specs.Prelude.{OnOk, OnErr, length};
ghost use Rattle.std.specs.Option.{option_map};
ghost use Rattle.acfg_device.specs.Calls.{spliced};
ghost use Rattle.acfg_device.specs.Only.{OnlyChanges, OnlySyncs};
ghost use Rattle.acfg_device.specs.Outcomes.{MayHaveRemoved, MayHaveRenamed, MayHaveWritten, MayHaveWrittenAt};
ghost use Rattle.acfg_device.specs.Outcomes.{Removed, Renamed, Synced, SyncedNames, Wrote, WroteAt};

use crate::panel::{Failed, Panel};

/// A panel whose files can be changed.
///
/// Until a file is synced, a cut of power may leave other bytes in the ranges that were written, and any
/// bytes of any number where the file was made or replaced. Until the names are synced, it may undo the
/// newest name changes: making a file, a rename and a removal. After `Ok` a call is done, as `ok` says; after
/// `Failed` it did nothing or is half done, as `err` says. Each call leaves the words said and the files that
/// it doesn't name.
pub trait Device: Panel {
    /// Gives the file these bytes in the place of all that it has, and makes it where there is none.
    fn write(&mut self, name: &str, bytes: &[u8]) -> Result<(), Failed>
        ensures ok { IsTrue Self.tells → OnOk result
            (Wrote (Self.account self.old) (Self.account self.new) name.now bytes.now) }
        ensures err { IsTrue Self.tells → OnErr result
            (MayHaveWritten (Self.account self.old) (Self.account self.new) name.now) }
        ensures file { IsTrue Self.tells → OnOk result (Self.files self.new name.now ≡ Some bytes.now) }
        ensures changes { OnlyChanges Self.Panel (λ other. other ≡ name.now) self.old self.new (IsErr result) };

    /// Puts bytes in the place of as many from that place on. The file has to have them.
    fn write_at(&mut self, name: &str, at: u64, bytes: &[u8]) -> Result<(), Failed>
        requires { IsTrue Self.tells → IsSomeAnd (Self.files self.old name.now)
            (λ held. at + length bytes.now ≤ length held) }
        ensures ok { IsTrue Self.tells → OnOk result
            (WroteAt (Self.account self.old) (Self.account self.new) name.now at bytes.now) }
        ensures err { IsTrue Self.tells
            → OnErr result (MayHaveWrittenAt (Self.account self.old) (Self.account self.new) name.now at
            (length bytes.now)) }
        ensures file { IsTrue Self.tells → OnOk result (Self.files self.new name.now
            ≡ option_map (λ held. spliced held at bytes.now) (Self.files self.old name.now)) }
        ensures changes { OnlyChanges Self.Panel (λ other. other ≡ name.now) self.old self.new (IsErr result) };

    /// Makes the bytes of the file stay. There has to be one.
    fn sync(&mut self, name: &str) -> Result<(), Failed>
        requires { IsTrue Self.tells → IsSome (Self.files self.old name.now) }
        ensures ok { IsTrue Self.tells → OnOk result (Synced (Self.account self.old) (Self.account self.new) name.now) }
        ensures err { IsTrue Self.tells → OnErr result (Self.account self.new ≡ Self.account self.old) }
        ensures syncs { OnlySyncs Self.Panel self.old self.new (IsErr result) };

    /// Gives the file `from` the name `to`. A file that had that name is lost.
    fn rename(&mut self, from: &str, to: &str) -> Result<(), Failed>
        requires there { IsTrue Self.tells → IsSome (Self.files self.old from.now) }
        requires apart { IsTrue Self.tells → from.now ≢ to.now }
        ensures ok { IsTrue Self.tells → OnOk result
            (Renamed (Self.account self.old) (Self.account self.new) from.now to.now) }
        ensures err { IsTrue Self.tells → OnErr result
            (MayHaveRenamed (Self.account self.old) (Self.account self.new) from.now to.now) }
        ensures file { IsTrue Self.tells → OnOk result (Self.files self.new to.now ≡ Self.files self.old from.now) }
        ensures gone { IsTrue Self.tells → OnOk result (Self.files self.new from.now ≡ None) }
        ensures changes { OnlyChanges Self.Panel (λ other. (other ≡ from.now) ⊎ (other ≡ to.now)) self.old self.new
            (IsErr result) };

    /// Takes the name from its file. Where there is none, nothing changes.
    fn remove(&mut self, name: &str) -> Result<(), Failed>
        ensures ok { IsTrue Self.tells → OnOk result
            (Removed (Self.account self.old) (Self.account self.new) name.now) }
        ensures err { IsTrue Self.tells → OnErr result
            (MayHaveRemoved (Self.account self.old) (Self.account self.new) name.now) }
        ensures gone { IsTrue Self.tells → OnOk result (Self.files self.new name.now ≡ None) }
        ensures changes { OnlyChanges Self.Panel (λ other. other ≡ name.now) self.old self.new (IsErr result) };

    /// Makes all the name changes so far stay.
    fn sync_names(&mut self) -> Result<(), Failed>
        ensures ok { IsTrue Self.tells → OnOk result (SyncedNames (Self.account self.old) (Self.account self.new)) }
        ensures err { IsTrue Self.tells → OnErr result (Self.account self.new ≡ Self.account self.old) }
        ensures syncs { OnlySyncs Self.Panel self.old self.new (IsErr result) };
}
