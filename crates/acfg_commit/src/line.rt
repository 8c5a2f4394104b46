//! Words are said.

ghost use Rattle.std.specs.Prelude.{◌≡◌, ◌+◌, ◌++◌, IsTrue, IsErr, OnOk, OnErr};
ghost use Rattle.acfg_device.specs.Account.{moment};
ghost use Rattle.acfg_device.specs.Disk.{IsSettled, MayLeave};
ghost use Rattle.acfg_device.specs.Left.{LeavesSince, SaysOnly};
ghost use Rattle.acfg_device.specs.Only.{OnlySays};
ghost use Rattle.acfg_device.specs.Panel.{SaysPart};
ghost use Rattle.acfg_commit.specs.Spoken.{LeavesWords};

use acfg_device::{Failed, Panel};

/// Says a line, with its line feed. One call.
pub fn say_line<P: Panel>(panel: &mut P, line: &[u8]) -> Result<(), Failed>
    ensures said { IsTrue P.tells → OnOk result (P.said panel.new ≡ P.said panel.old ++ line.now) }
    ensures part { IsTrue P.tells → OnErr result (SaysPart (P.said panel.old) (P.said panel.new) line.now) }
    ensures says { OnlySays P.Panel panel.old panel.new (IsErr result) }

    // A cut at any moment leaves the files that one at the start might have left, and the first few bytes of
    // the line behind the words.
    ensures words { IsTrue P.tells → LeavesSince (P.account panel.old) (P.account panel.new)
        (LeavesWords (P.account panel.old).now line.now) }
    ensures cut { IsTrue P.tells → IsSettled (P.account panel.old).now
        → LeavesSince (P.account panel.old) (P.account panel.new)
        (SaysOnly (P.files panel.old) (P.said panel.old) line.now) }
    ensures settled { IsTrue P.tells → IsSettled (P.account panel.old).now → IsSettled (P.account panel.new).now }
    ensures calls { IsTrue P.tells → OnOk result (moment (P.account panel.new) ≡ moment (P.account panel.old) + 1) }
{
    panel.say(line)?;
    Ok(())
}
