// FORMAT.
ghost use Rattle.std.specs.Prelude.{◌≡◌, [], length};
ghost use Rattle.rules.specs.Model.{Format};
ghost use Rattle.drive.specs.Checks.{first_fault};
ghost use Rattle.drive.specs.Parts.{Formats, own_checks};
ghost use Rattle.drive.specs.Serves.{ServesAlone};

use crate::answer::Answer;
use crate::drive::Drive;
use chains::{RESERVED, format_disk, is_disk_size, is_legal_id};
use device::{Code, Fault, Layer, WritingDevice};
use freespace::{SectorAllocator, fill_from};

impl<D: WritingDevice, A: SectorAllocator> Drive<D, A> {
    // Makes the disk new: sectors 0 to 35 are written, and all others are free.
    pub fn format(&mut self, id: &[u8]) -> Answer
        ensures { ServesAlone D.ReadingDevice A.SectorAllocator (Format id.now) self.old result [] self.new }
    {
        self.try_format(id).into()
    }

    fn try_format(&mut self, id: &[u8]) -> Result<(), Fault>
        ensures { Formats D.ReadingDevice A.SectorAllocator id.now self.old result self.new }
    {
        self.check_format(id)?;
        let sectors = self.device.count();
        format_disk(&mut self.device, id)?;
        fill_from(&mut self.allocator, RESERVED, sectors);
        self.state.start(0);
        Ok(())
    }

    // FORMAT's refusals, in their order.
    fn check_format(&self, id: &[u8]) -> Result<(), Fault>
        ensures { result ≡ first_fault (own_checks D.ReadingDevice self.now id.now) }
    {
        if self.state.some_open() {
            return Err(Fault::new(Layer::Request, Code::AlreadyOpen));
        }
        self.device.check_door()?;
        self.device.check_tab()?;
        if !is_disk_size(self.device.count()) {
            return Err(Fault::new(Layer::Request, Code::BadSize));
        }
        if !is_legal_id(id) {
            return Err(Fault::new(Layer::Request, Code::BadLabel));
        }
        Ok(())
    }
}
