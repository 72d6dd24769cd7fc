// A new drive over a disk that was in use before.
ghost use Rattle.drive.specs.Exchanges.{Reopened};

use crate::answer::Answer;
use crate::drive::Drive;
use device::WritingDevice;
use freespace::SectorAllocator;

// Puts a new drive over the device and initialises it.
// Over the sectors that a run left with every unit closed, on whatever device and with whatever allocator, it has the files of that run.
pub fn reopen<D: WritingDevice, A: SectorAllocator>(
    device: D,
    allocator: A,
) -> (Drive<D, A>, Answer)
    ensures { Reopened D.ReadingDevice A.SectorAllocator device allocator result.1 result.0 }
{
    let mut drive = Drive::new(device, allocator);
    let answer = drive.initialize();
    (drive, answer)
}
