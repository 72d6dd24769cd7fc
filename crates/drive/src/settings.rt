// DOOR and TAB.
ghost use Rattle.std.specs.Prelude.{[]};
ghost use Rattle.device.specs.Device.{with_door, with_tab};
ghost use Rattle.rules.specs.Model.{Door, Tab};
ghost use Rattle.drive.specs.Parts.{Sets};
ghost use Rattle.drive.specs.Serves.{ServesAlone};

use crate::answer::Answer;
use crate::drive::Drive;
use device::WritingDevice;
use freespace::SectorAllocator;

impl<D: WritingDevice, A: SectorAllocator> Drive<D, A> {
    // Opens or closes the door.
    pub fn door(&mut self, is_open: bool) -> Answer
        ensures { ServesAlone D.ReadingDevice A.SectorAllocator (Door is_open) self.old result [] self.new }
    {
        self.set_door(is_open)
    }

    // Puts the tab on or takes it off.
    pub fn tab(&mut self, is_on: bool) -> Answer
        ensures { ServesAlone D.ReadingDevice A.SectorAllocator (Tab is_on) self.old result [] self.new }
    {
        self.set_tab(is_on)
    }

    // What the call does to the medium; that this serves the request is shown above it.
    fn set_door(&mut self, is_open: bool) -> Answer
        ensures { Sets D.ReadingDevice (with_door (D.ReadingDevice.medium self.old.device) is_open) self.old result self.new }
    {
        self.device.set_door(is_open);
        Answer::done(0)
    }

    fn set_tab(&mut self, is_on: bool) -> Answer
        ensures { Sets D.ReadingDevice (with_tab (D.ReadingDevice.medium self.old.device) is_on) self.old result self.new }
    {
        self.device.set_tab(is_on);
        Answer::done(0)
    }
}
