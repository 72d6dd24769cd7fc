// EXAMINE: whether a disk is sound, on a device that is only read.
ghost use Rattle.std.specs.Prelude.{◌≡◌, true, false, [], length};
ghost use Rattle.std.specs.List.{AllByRecursion};
ghost use Rattle.device.specs.Device.{WellFormed};
ghost use Rattle.chains.specs.Layout.{sized};
ghost use Rattle.chains.specs.Sound.{TakesSoundDisks};
ghost use Rattle.rules.specs.Runs.{examined};
ghost use Rattle.drive.specs.Checks.{first_fault, initialize_checks};
ghost use Rattle.drive.specs.Parts.{Examines};
ghost use Rattle.drive.specs.Serves.{told_by};

use crate::answer::Answer;
use chains::{is_disk_size, read_disk};
use device::{Code, Fault, Layer, ReadingDevice};

// The answer that a new drive over the same sectors gives to INITIALIZE, from the door on: 80 for the sound disks and no others.
pub fn examine<D: ReadingDevice>(device: &mut D) -> Answer
    ensures answer { told_by result [] [] ≡ examined (D.ReadingDevice.medium device.old) }
    ensures same { D.ReadingDevice.medium device.new ≡ D.ReadingDevice.medium device.old }
    ensures exact { sized (length (D.ReadingDevice.medium device.old).sectors) ≡ true → TakesSoundDisks (D.ReadingDevice.medium device.old).sectors }
{
    try_examine(device).into()
}

fn try_examine<D: ReadingDevice>(device: &mut D) -> Result<(), Fault>
    ensures does { Examines (D.ReadingDevice.medium device.old) result }
    ensures same { D.ReadingDevice.medium device.new ≡ D.ReadingDevice.medium device.old }
    ensures whole { AllByRecursion WellFormed (D.ReadingDevice.medium device.old).sectors }
{
    let sectors = device.count();
    check_readable(device, sectors)?;
    read_disk(device)?;
    Ok(())
}

// Refused for an open door, then for a size that no disk has. The caller counts first: that tells it that the sectors are whole.
pub(crate) fn check_readable<D: ReadingDevice>(device: &D, sectors: u16) -> Result<(), Fault>
    requires { sectors ≡ length (D.ReadingDevice.medium device.now).sectors }
    ensures { result ≡ first_fault (initialize_checks false (D.ReadingDevice.medium device.now).door (length (D.ReadingDevice.medium device.now).sectors)) }
{
    device.check_door()?;
    if !is_disk_size(sectors) {
        return Err(Fault::new(Layer::Request, Code::BadSize));
    }
    Ok(())
}
