// A drive: its device, its allocator of free sectors, and its own state.
ghost use Rattle.std.specs.Prelude.{◌≡◌};
ghost use Rattle.drive.specs.Exchanges.{Fresh};

use crate::units::State;
use device::WritingDevice;
use freespace::SectorAllocator;

// Holds its device and its allocator by value; `release` hands the device back.
pub struct Drive<D: WritingDevice, A: SectorAllocator> {
    pub(crate) device: D,
    pub(crate) allocator: A,
    pub(crate) state: State,
}

impl<D: WritingDevice, A: SectorAllocator> Drive<D, A> {
    // A drive that has read nothing yet: no unit is open, and only FORMAT or INITIALIZE makes its disk known.
    pub fn new(device: D, allocator: A) -> Drive<D, A>
        ensures device { result.device ≡ device }
        ensures allocator { result.allocator ≡ allocator }
        ensures fresh { Fresh D.ReadingDevice A.SectorAllocator device allocator result }
    {
        Drive {
            device,
            allocator,
            state: State::new(),
        }
    }

    // Ends the drive, whatever its units do, and hands the device back.
    pub fn release(self) -> D
    where
        A: Drop,
        ensures { result ≡ self.device }
    {
        let Drive {
            device,
            allocator: _,
            state: _,
        } = self;
        device
    }
}
