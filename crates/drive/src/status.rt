// STATUS.
ghost use Rattle.std.specs.Prelude.{◌≡◌, [], ◌∷◌};
ghost use Rattle.rules.specs.Model.{Status};
ghost use Rattle.drive.specs.Parts.{own_usage};
ghost use Rattle.drive.specs.Serves.{ServesAlone};

use crate::answer::Answer;
use crate::drive::Drive;
use crate::request::Usage;
use device::{Code, Fault, Layer, WritingDevice};
use freespace::SectorAllocator;

impl<D: WritingDevice, A: SectorAllocator> Drive<D, A> {
    // Tells how many sectors are free, how many are not, and how many files there are: three zeros where it is refused, as a machine is told.
    pub fn status(&self) -> (Answer, Usage)
        ensures { ServesAlone D.ReadingDevice A.SectorAllocator Status self.now result.0 (result.1.free ∷ result.1.used ∷ result.1.files ∷ []) self.now }
    {
        match self.usage() {
            Ok(usage) => (Answer::done(0), usage),
            Err(fault) => (fault.into(), Usage::default()),
        }
    }

    // The door plays no part: nothing is read.
    fn usage(&self) -> Result<Usage, Fault>
        ensures { result ≡ own_usage D.ReadingDevice A.SectorAllocator self.now }
    {
        let Some(disk) = self.state.disk else {
            return Err(Fault::new(Layer::Request, Code::NotInitialized));
        };
        let free = self.allocator.count();
        Ok(Usage {
            free,
            used: self.device.count().saturating_sub(free),
            files: disk.files,
        })
    }
}
