// Reading a whole disk: the first fault in a fixed order, or how many files there are and which sectors they use.
ghost use Rattle.std.specs.Prelude.{◌≡◌, ℕ, ◌+◌, ◌*◌, ◌<◌, ◌≤◌, not, ◌&&◌, if◌then◌else◌, nat_le, nat_lt};
ghost use Rattle.arrayvec.specs.ArrayVec.{array_vec_len};
ghost use Rattle.freespace.specs.Bits.{bit_of};
ghost use Rattle.chains.specs.Layout.{reserved};
ghost use Rattle.chains.specs.Survey.{nothing_seen, places_on, survey};
ghost use Rattle.chains.specs.Scans.{DiskRead, Keeps, Scans, disk_of, seen_of};

use crate::fault::structure_fault;
use crate::layout::{DIRECTORY_SECTORS, DIRECTORY_START, RESERVED, is_disk_size};
use crate::place::places_in;
use crate::scan::{ReadableDisk, Scan};
use device::{Code, Fault, ReadingDevice};
use freespace::{BitMap, SectorAllocator, fill_unused};

// What a disk without a fault holds.
#[derive(Drop)]
pub struct Survey {
    files: u16,
    used: BitMap,
}

impl Survey {
    pub fn files(&self) -> u16
        ensures { result ≡ self.now.files }
    {
        self.files
    }

    // Makes the set that of the disk's free sectors: all past the reserved ones that no file uses. Refused as `clear` is.
    pub fn fill_free<A: SectorAllocator>(&self, allocator: &mut A, sectors: u16) -> bool
        ensures value { result ≡ nat_le sectors 2464 }
        ensures spans { A.SectorAllocator.span allocator.new ≡ (if result then sectors else A.SectorAllocator.span allocator.old) }
        ensures after { (m : ℕ) → A.SectorAllocator.member allocator.new m ≡ (if result then nat_le reserved m && (nat_lt m sectors && not (bit_of self.now.used.bits m)) else A.SectorAllocator.member allocator.old m) }
    {
        fill_unused(allocator, RESERVED, sectors, &self.used)
    }
}

impl<D: ReadingDevice> Scan<'_, D> {
    // Reads the three places of directory sector i.
    #[tactic(auto, using(crate::proofs::PlaceParts::place_more, crate::proofs::PlaceParts::place_over))]
    fn read_directory_sector(&mut self, i: u16) -> Result<(), Fault>
        requires few { array_vec_len self.old.names + 3 ≤ 96 }
        requires below { i < 32 }
        ensures scans { Scans (places_on (disk_of self.old.disk) 3 (3 * i) (seen_of self.old)) result self.new }
        ensures same { Keeps self.old.disk self.new.disk }
    {
        let sector = self.disk.fetch(DIRECTORY_START + i)?;
        for place in places_in(&sector.bytes) {
            self.read_place(DIRECTORY_START + i, place)?;
        }
        Ok(())
    }

    // Reads all places of the directory.
    #[tactic(auto, using(crate::proofs::PlaceParts::sector_more, crate::proofs::PlaceParts::sector_over))]
    fn read_places(&mut self) -> Result<(), Fault>
        requires { array_vec_len self.old.names ≡ 0 }
        ensures scans { Scans (places_on (disk_of self.old.disk) 96 0 (seen_of self.old)) result self.new }
        ensures same { Keeps self.old.disk self.new.disk }
    {
        for i in 0..DIRECTORY_SECTORS {
            self.read_directory_sector(i)?;
        }
        Ok(())
    }

    // Label, directory, places with their files, map.
    #[tactic(auto, using(crate::proofs::SurveyParts::survey_is))]
    fn survey(&mut self) -> Result<(), Fault>
        requires { seen_of self.old ≡ nothing_seen }
        ensures scans { Scans (survey (disk_of self.old.disk)) result self.new }
        ensures same { Keeps self.old.disk self.new.disk }
    {
        self.disk.check_label()?;
        self.disk.check_directory()?;
        self.read_places()?;
        self.disk.check_map(&self.met)
    }

    fn into_survey(self) -> Survey
        ensures files { result.files ≡ (seen_of self.entry).files }
        ensures used { bit_of result.used.bits ≡ (seen_of self.entry).met }
        ensures same { D.ReadingDevice.medium self.exit.0.0.now ≡ D.ReadingDevice.medium self.entry.disk.device.now }
    {
        let Scan { met, names, .. } = self;
        Survey {
            files: names.len() as u16,
            used: met,
        }
    }
}

// Reads a whole disk. Refuses a size that no label can hold, then as the device does.
pub fn read_disk<D: ReadingDevice>(device: &mut D) -> Result<Survey, Fault>
    ensures value { DiskRead (D.ReadingDevice.medium device.old) result }
    ensures same { D.ReadingDevice.medium device.new ≡ D.ReadingDevice.medium device.old }
{
    let size = device.count();
    if !is_disk_size(size) {
        return Err(structure_fault(Code::BadLabel, 0));
    }
    // An open door is refused here.
    device.read(0)?;
    let mut scan = Scan::new(ReadableDisk { device, size });
    scan.survey()?;
    Ok(scan.into_survey())
}
