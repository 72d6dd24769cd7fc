// INITIALIZE.
ghost use Rattle.std.specs.Prelude.{◌≡◌, true, [], length};
ghost use Rattle.chains.specs.Layout.{Layout, sized};
ghost use Rattle.chains.specs.Reading.{Found};
ghost use Rattle.chains.specs.Scans.{Shows};
ghost use Rattle.chains.specs.Survey.{Tells};
ghost use Rattle.drive.specs.Checks.{first_fault};
ghost use Rattle.rules.specs.Model.{Initialize};
ghost use Rattle.drive.specs.Parts.{Initializes, ReadsIn, own_initialize_checks};
ghost use Rattle.drive.specs.Serves.{ServesAlone};

use crate::answer::Answer;
use crate::drive::Drive;
use crate::examination::check_readable;
use chains::{Survey, read_disk};
use device::{Code, Fault, Layer, WritingDevice};
use freespace::SectorAllocator;

impl<D: WritingDevice, A: SectorAllocator> Drive<D, A> {
    // Reads the disk: its files become the drive's, or its first fault is answered and nothing is known of it then.
    pub fn initialize(&mut self) -> Answer
        ensures { ServesAlone D.ReadingDevice A.SectorAllocator Initialize self.old result [] self.new }
    {
        self.try_initialize().into()
    }

    fn try_initialize(&mut self) -> Result<(), Fault>
        ensures { Initializes D.ReadingDevice A.SectorAllocator self.old result self.new }
    {
        let sectors = self.device.count();
        self.check_initialize(sectors)?;
        let survey = read_disk(&mut self.device);
        self.take_over(survey)
    }

    // INITIALIZE's refusals before the disk is read, in their order.
    fn check_initialize(&self, sectors: u16) -> Result<(), Fault>
        requires { sectors ≡ length (D.ReadingDevice.medium self.now.device).sectors }
        ensures { result ≡ first_fault (own_initialize_checks D.ReadingDevice self.now) }
    {
        if self.state.some_open() {
            return Err(Fault::new(Layer::Request, Code::AlreadyOpen));
        }
        check_readable(&self.device, sectors)
    }

    // Takes over what reading the disk gave: its files and its free sectors, or that nothing is known of it.
    fn take_over(&mut self, survey: Result<Survey, Fault>) -> Result<(), Fault>
        ensures device { self.new.device ≡ self.old.device }
        ensures reads { (x : Found Layout) → sized (length (D.ReadingDevice.medium self.old.device).sectors) ≡ true → Tells Shows x survey → ReadsIn D.ReadingDevice A.SectorAllocator self.old x result self.new }
    {
        // Either arm changes the drive, so this is no `?`.
        match survey {
            Ok(survey) => {
                survey.fill_free(&mut self.allocator, self.device.count());
                self.state.start(survey.files());
                Ok(())
            }
            Err(fault) => {
                self.state.forget();
                Err(fault)
            }
        }
    }
}
