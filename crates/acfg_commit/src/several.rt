//! Moves on several files.

ghost use Rattle.std.specs.Prelude.{◌≡◌, ◌+◌, ◌*◌, [], IsTrue, IsErr, OnOk, length};
ghost use Rattle.acfg_device.specs.Account.{moment};
ghost use Rattle.acfg_device.specs.Disk.{IsSettled};
ghost use Rattle.acfg_device.specs.Left.{IsEither, IsReady, IsSyncedAt, LeavesBut, LeavesSince, NotMovedTo};
ghost use Rattle.acfg_device.specs.Only.{OnlyChanges};
ghost use Rattle.acfg_commit.specs.Written.{AreFree, AreSynced, IsNameAmong, Last, written};

use crate::write_synced;
use acfg_device::{Device, Failed, Panel};

/// A file to be written.
#[derive(Drop)]
pub struct NewFile {
    pub name: String,
    pub bytes: Vec<u8>,
}

/// Writes files, one after another, and syncs each of them; their names are not synced. Two calls a file.
///
/// For files that nothing names yet: a cut may leave any bytes under these names, and none.
pub fn write_files<D: Device>(device: &mut D, files: &[NewFile]) -> Result<(), Failed>
    ensures files { IsTrue D.tells → OnOk result (D.files device.new ≡ written files.now (D.files device.old)) }
    ensures changes { OnlyChanges D.Panel (IsNameAmong files.now) device.old device.new (IsErr result) }

    // A cut at any moment leaves all other files as a cut at the start might have left them.
    ensures cut { IsTrue D.tells → AreFree files.now (D.account device.old).now
        → LeavesBut (IsNameAmong files.now) (D.account device.old) (D.account device.new) }
    ensures ready { IsTrue D.tells → IsReady (D.account device.old).now
        → OnOk result (IsReady (D.account device.new).now) }
    ensures synced { IsTrue D.tells → OnOk result (AreSynced files.now (D.account device.new).now) }
    ensures calls { IsTrue D.tells → OnOk result (moment (D.account device.new)
        ≡ moment (D.account device.old) + 2 * length files.now) }
{
    for file in files {
        write_synced(device, file.name.as_str(), file.bytes.as_slice())?;
    }
    Ok(())
}

/// Writes files, syncs each of them, and then the names. Two calls a file, and one.
///
/// For output files: after `Ok` each of them outlasts every cut, whatever was pending before. A cut in between
/// may leave some of them, and others with any bytes.
pub fn save_files<D: Device>(device: &mut D, files: &[NewFile]) -> Result<(), Failed>
    ensures files { IsTrue D.tells → OnOk result (D.files device.new ≡ written files.now (D.files device.old)) }
    ensures changes { OnlyChanges D.Panel (IsNameAmong files.now) device.old device.new (IsErr result) }

    // A cut at any moment leaves all other files as a cut at the start might have left them.
    ensures cut { IsTrue D.tells → AreFree files.now (D.account device.old).now
        → LeavesBut (IsNameAmong files.now) (D.account device.old) (D.account device.new) }

    // From then on a cut leaves the files as they were written.
    ensures last { IsTrue D.tells → OnOk result (Last files.now (D.files device.new) (D.account device.new).now) }
    ensures settled { IsTrue D.tells → IsSettled (D.account device.old).now
        → OnOk result (IsSettled (D.account device.new).now) }
    ensures names { IsTrue D.tells → OnOk result ((D.account device.new).now.pending ≡ []) }
    ensures calls { IsTrue D.tells → OnOk result (moment (D.account device.new)
        ≡ moment (D.account device.old) + (2 * length files.now + 1)) }
{
    write_files(device, files)?;
    device.sync_names()?;
    Ok(())
}
