//! Moves on one file.

ghost use Rattle.std.specs.Prelude.{◌≡◌, ◌+◌, ◌≤◌, [], Some, None, IsTrue, IsErr, IsSome, IsSomeAnd, OnOk, length};
ghost use Rattle.std.specs.Map.{update};
ghost use Rattle.std.specs.Option.{option_map};
ghost use Rattle.std.specs.Str.{bytes_eq};
ghost use Rattle.acfg_device.specs.Account.{moment};
ghost use Rattle.acfg_device.specs.Calls.{after_sync, after_write, spliced};
ghost use Rattle.acfg_device.specs.Disk.{IsSettled, MayLeave};
ghost use Rattle.acfg_device.specs.Left.{ChangesAlone, ChangesRange, IsEither, IsReady, IsSyncedAt, LeavesBut};
ghost use Rattle.acfg_device.specs.Left.{LeavesSince};
ghost use Rattle.acfg_device.specs.Only.{OnlyChanges, OnlySyncs};

use acfg_device::{Device, Failed, Panel};

/// Writes a file and syncs it; its name is not synced. Two calls.
///
/// For a file that nothing names yet: a cut may leave any bytes under this name, and none.
pub fn write_synced<D: Device>(device: &mut D, name: &str, bytes: &[u8]) -> Result<(), Failed>
    ensures files { IsTrue D.tells → OnOk result (D.files device.new
        ≡ update bytes_eq (D.files device.old) name.now (Some bytes.now)) }
    ensures changes { OnlyChanges D.Panel (λ other. other ≡ name.now) device.old device.new (IsErr result) }

    // A cut at any moment leaves all other files as a cut at the start might have left them.
    ensures cut { IsTrue D.tells → ChangesAlone (D.account device.old).now name.now
        → LeavesBut (λ other. other ≡ name.now) (D.account device.old) (D.account device.new) }
    ensures ready { IsTrue D.tells → IsReady (D.account device.old).now
        → OnOk result (IsReady (D.account device.new).now) }
    ensures disk { IsTrue D.tells → OnOk result ((D.account device.new).now
        ≡ after_sync (after_write (D.account device.old).now name.now bytes.now) name.now) }
    ensures calls { IsTrue D.tells → OnOk result (moment (D.account device.new) ≡ moment (D.account device.old) + 2) }
{
    device.write(name, bytes)?;
    device.sync(name)?;
    Ok(())
}

/// Puts bytes in the place of as many, in a file that is there, and syncs it. Two calls.
pub fn put_synced<D: Device>(
    device: &mut D,
    name: &str,
    at: u64,
    bytes: &[u8],
) -> Result<(), Failed>
    requires { IsTrue D.tells → IsSomeAnd (D.files device.old name.now) (λ held. at + length bytes.now ≤ length held) }

    ensures files { IsTrue D.tells → OnOk result (D.files device.new
        ≡ update bytes_eq (D.files device.old) name.now
        (option_map (λ held. spliced held at bytes.now) (D.files device.old name.now))) }
    ensures changes { OnlyChanges D.Panel (λ other. other ≡ name.now) device.old device.new (IsErr result) }

    // A cut at any moment leaves the file's bytes outside of the range, and all other files, as they were.
    ensures cut { IsTrue D.tells → IsSettled (D.account device.old).now
        → LeavesSince (D.account device.old) (D.account device.new)
        (ChangesRange (D.files device.old) (D.said device.old) name.now at (length bytes.now)) }
    ensures others { IsTrue D.tells → ChangesAlone (D.account device.old).now name.now
        → LeavesBut (λ other. other ≡ name.now) (D.account device.old) (D.account device.new) }
    ensures settled { IsTrue D.tells → IsSettled (D.account device.old).now
        → OnOk result (IsSettled (D.account device.new).now) }
    ensures calls { IsTrue D.tells → OnOk result (moment (D.account device.new) ≡ moment (D.account device.old) + 2) }
{
    device.write_at(name, at, bytes)?;
    device.sync(name)?;
    Ok(())
}

/// Removes a file and syncs the names. Where there is no file, nothing changes. Two calls.
pub fn remove_synced<D: Device>(device: &mut D, name: &str) -> Result<(), Failed>
    ensures files { IsTrue D.tells → OnOk result (D.files device.new
        ≡ update bytes_eq (D.files device.old) name.now None) }
    ensures changes { OnlyChanges D.Panel (λ other. other ≡ name.now) device.old device.new (IsErr result) }

    // A cut at any moment leaves all other files as they were.
    ensures cut { IsTrue D.tells → IsSettled (D.account device.old).now
        → LeavesSince (D.account device.old) (D.account device.new)
        (IsEither (D.files device.old) (D.said device.old) (λ other. other ≡ name.now) (D.files device.old)) }
    ensures others { IsTrue D.tells → LeavesBut (λ other. other ≡ name.now) (D.account device.old)
        (D.account device.new) }
    ensures settled { IsTrue D.tells → IsSettled (D.account device.old).now
        → OnOk result (IsSettled (D.account device.new).now) }
    ensures names { IsTrue D.tells → OnOk result ((D.account device.new).now.pending ≡ []) }
    ensures calls { IsTrue D.tells → OnOk result (moment (D.account device.new) ≡ moment (D.account device.old) + 2) }
{
    device.remove(name)?;
    device.sync_names()?;
    Ok(())
}

/// Syncs a file that is there, and then the names. Two calls, that change no file.
///
/// A process that was killed and is run again without a restart of the machine reads what may not be on the
/// disk yet. So a store that is opened settles the file that names all others before it answers anything.
pub fn settle<D: Device>(device: &mut D, name: &str) -> Result<(), Failed>
    requires { IsTrue D.tells → IsSome (D.files device.old name.now) }

    ensures syncs { OnlySyncs D.Panel device.old device.new (IsErr result) }

    // A cut at any moment leaves what one at the start might have left.
    ensures cut { IsTrue D.tells → LeavesSince (D.account device.old) (D.account device.new)
        (MayLeave (D.account device.old).now) }
    ensures same { IsTrue D.tells → IsSettled (D.account device.old).now
        → LeavesSince (D.account device.old) (D.account device.new)
        (λ files said. (files ≡ D.files device.old) × (said ≡ D.said device.old)) }
    ensures settled { IsTrue D.tells → IsSettled (D.account device.old).now → IsSettled (D.account device.new).now }
    ensures names { IsTrue D.tells → OnOk result ((D.account device.new).now.pending ≡ []) }
    ensures synced { IsTrue D.tells → OnOk result (IsSyncedAt (D.account device.new).now name.now) }
    ensures calls { IsTrue D.tells → OnOk result (moment (D.account device.new) ≡ moment (D.account device.old) + 2) }
{
    device.sync(name)?;
    device.sync_names()?;
    Ok(())
}
