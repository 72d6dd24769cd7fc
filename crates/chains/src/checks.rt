// Whether the reserved sectors of a disk hold what they must: label, directory and map.
ghost use Rattle.std.specs.Prelude.{◌≡◌, length, Ok};
ghost use Rattle.device.specs.declared.fault.Code.TheVariants.{BadLabel as bad_label};
ghost use Rattle.freespace.specs.Bits.{bit_of};
ghost use Rattle.chains.specs.Reading.{sector_at};
ghost use Rattle.chains.specs.Survey.{directory_on, exact_label, map_on, need, to_be_marked};
ghost use Rattle.chains.specs.Scans.{Keeps, disk_of};

use crate::directory::is_directory_frame;
use crate::fault::structure_fault;
use crate::label::is_exact_label;
use crate::layout::{DIRECTORY_SECTORS, DIRECTORY_START, MAP_SECTORS, MAP_START};
use crate::map::{FreshMarks, Marks, map_bytes};
use crate::scan::ReadableDisk;
use device::{Code, Fault, ReadingDevice};
use freespace::{BitMap, SectorAllocator};

// What a map has to mark: the reserved sectors, those met, and all numbers past the end.
#[derive(Clone, Copy)]
pub(crate) struct MetMarks<'a> {
    size: u16,
    met: &'a BitMap,
}

impl Marks for MetMarks<'_> {
    ghost marked = { λ f. to_be_marked f.size (bit_of f.met.now.bits) };

    fn is_marked(&self, n: u16) -> bool {
        FreshMarks { size: self.size }.is_marked(n) || self.met.contains(n)
    }
}

impl<D: ReadingDevice> ReadableDisk<'_, D> {
    pub(crate) fn check_label(&mut self) -> Result<(), Fault>
        ensures value { result ≡ need (exact_label (sector_at (disk_of self.old) 0).bytes (length (disk_of self.old))) bad_label 0 (Ok tt) }
        ensures same { Keeps self.old self.new }
    {
        let sector = self.fetch(0)?;
        if is_exact_label(&sector.bytes, self.size) {
            Ok(())
        } else {
            Err(structure_fault(Code::BadLabel, 0))
        }
    }

    #[tactic(auto, using(crate::proofs::CheckParts::directory_step, crate::proofs::CheckParts::directory_end))]
    pub(crate) fn check_directory(&mut self) -> Result<(), Fault>
        ensures value { result ≡ directory_on (disk_of self.old) 32 0 }
        ensures same { Keeps self.old self.new }
    {
        for i in 0..DIRECTORY_SECTORS {
            let sector = self.fetch(DIRECTORY_START + i)?;
            if !is_directory_frame(i, &sector) {
                return Err(structure_fault(Code::PointerError, DIRECTORY_START + i));
            }
        }
        Ok(())
    }

    #[tactic(auto, using(crate::proofs::CheckParts::map_end))]
    pub(crate) fn check_map(&mut self, met: &BitMap) -> Result<(), Fault>
        ensures value { result ≡ map_on (disk_of self.old) (to_be_marked (length (disk_of self.old)) (bit_of met.now.bits)) 3 0 }
        ensures same { Keeps self.old self.new }
    {
        let marks = MetMarks {
            size: self.size,
            met,
        };
        for j in 0..MAP_SECTORS {
            let sector = self.fetch(MAP_START + j)?;
            if sector.bytes != map_bytes(&marks, j) {
                return Err(structure_fault(Code::MapWrong, MAP_START + j));
            }
        }
        Ok(())
    }
}
