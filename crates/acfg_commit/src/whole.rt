//! Moves that are done whole or not at all.

ghost use Rattle.std.specs.Prelude.{◌≡◌, ◌≢◌, ◌⊎◌, ◌+◌, ◌*◌, IsTrue, IsErr, OnOk, length};
ghost use Rattle.acfg_device.specs.Account.{moment};
ghost use Rattle.acfg_device.specs.Disk.{IsSettled};
ghost use Rattle.acfg_device.specs.Left.{IsEither, IsReady, LeavesSince, LeftOrNew};
ghost use Rattle.acfg_device.specs.Only.{OnlyChanges};
ghost use Rattle.acfg_commit.specs.Written.{IsNameAmong, replaced, written};

use crate::{NewFile, write_files, write_synced};
use acfg_device::{Device, Failed, Panel};

/// Puts a file with these bytes under a name, by way of a file beside it and one rename. Four calls.
pub fn replace<D: Device>(
    device: &mut D,
    beside: &str,
    name: &str,
    bytes: &[u8],
) -> Result<(), Failed>
    requires { beside.now ≢ name.now }

    ensures files { IsTrue D.tells → OnOk result (D.files device.new
        ≡ replaced beside.now name.now bytes.now (D.files device.old)) }
    ensures changes { OnlyChanges D.Panel (λ other. (other ≡ beside.now) ⊎ (other ≡ name.now)) device.old device.new
        (IsErr result) }

    // A cut at any moment leaves the old file or the new one, whole.
    ensures cut { IsTrue D.tells → IsReady (D.account device.old).now
        → LeavesSince (D.account device.old) (D.account device.new)
        (LeftOrNew (D.account device.old).now (λ other. other ≡ beside.now)
        (replaced beside.now name.now bytes.now (D.files device.old))) }
    ensures settled { IsTrue D.tells → IsReady (D.account device.old).now
        → OnOk result (IsSettled (D.account device.new).now) }
    ensures calls { IsTrue D.tells → OnOk result (moment (D.account device.new) ≡ moment (D.account device.old) + 4) }
{
    write_synced(device, beside, bytes)?;
    device.rename(beside, name)?;
    device.sync_names()?;
    Ok(())
}

/// Writes files, and then replaces the one that names them. Two calls a file, and four.
///
/// From a settled device a cut at any moment leaves either all files as they were, but for those that were
/// written and the one beside, or exactly the files that it leaves after `Ok`. So these names have to be ones
/// that nothing reads yet.
pub fn commit<D: Device>(
    device: &mut D,
    files: &[NewFile],
    beside: &str,
    name: &str,
    bytes: &[u8],
) -> Result<(), Failed>
    requires { beside.now ≢ name.now }

    ensures files { IsTrue D.tells → OnOk result (D.files device.new
        ≡ replaced beside.now name.now bytes.now (written files.now (D.files device.old))) }
    ensures changes { OnlyChanges D.Panel (λ other. IsNameAmong files.now other
        ⊎ ((other ≡ beside.now) ⊎ (other ≡ name.now)))
        device.old device.new (IsErr result) }
    ensures cut { IsTrue D.tells → IsSettled (D.account device.old).now
        → LeavesSince (D.account device.old) (D.account device.new)
        (IsEither (D.files device.old) (D.said device.old) (λ other. IsNameAmong files.now other ⊎ (other ≡ beside.now))
        (replaced beside.now name.now bytes.now (written files.now (D.files device.old)))) }
    ensures settled { IsTrue D.tells → IsSettled (D.account device.old).now
        → OnOk result (IsSettled (D.account device.new).now) }
    ensures calls { IsTrue D.tells → OnOk result (moment (D.account device.new)
        ≡ moment (D.account device.old) + (2 * length files.now + 4)) }
{
    write_files(device, files)?;
    replace(device, beside, name, bytes)?;
    Ok(())
}
