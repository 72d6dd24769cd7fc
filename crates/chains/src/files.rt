// One place of the directory and its file: descriptor and records.
ghost use Rattle.std.specs.Prelude.{◌≡◌, ◌<◌, not, ◌&&◌, length};
ghost use Rattle.arrayvec.specs.ArrayVec.{array_vec_len};
ghost use Rattle.chains.specs.NameBytes.{name_bytes};
ghost use Rattle.chains.specs.Reading.{sector_at, usable};
ghost use Rattle.chains.specs.Survey.{file_on, last_field, place_on};
ghost use Rattle.chains.specs.Scans.{Keeps, Scans, disk_of, seen_of};
ghost use Rattle.chains.specs.Files.{Enters, descriptor_from, records_from};

use crate::bytes::{all_zero, word_at};
use crate::descriptor::{is_descriptor_shaped, is_named_as};
use crate::fault::structure_fault;
use crate::layout::{NULL_LINK, RESERVED};
use crate::name::Name;
use crate::place::{Place, parse_place};
use crate::scan::Scan;
use crate::walk::Link;
use device::{Code, Fault, ReadingDevice, Sector};

fn last_field_of(count: u16, end: u16) -> u16
    ensures { result ≡ last_field count end }
{
    if count == 0 { NULL_LINK } else { end }
}

impl<D: ReadingDevice> Scan<'_, D> {
    // Goes along the records of a file whose descriptor is met already, and notes its name.
    fn read_records(&mut self, place: &Place, descriptor: &Sector) -> Result<(), Fault>
        requires few { array_vec_len self.old.names < 96 }
        requires there { descriptor.now ≡ sector_at (disk_of self.old.disk) place.now.at }
        ensures scans { Scans (records_from (disk_of self.old.disk) place.now.at (name_bytes place.now.name) (seen_of self.old)) result self.new }
        ensures same { Keeps self.old.disk self.new.disk }
    {
        let count = word_at(&descriptor.bytes, 4);
        let start = Link {
            from: place.at,
            to: descriptor.forward,
        };
        let end = self.walk(start, count)?;
        if word_at(&descriptor.bytes, 2) != last_field_of(count, end) {
            return Err(structure_fault(Code::PointerError, place.at));
        }
        self.names.push(place.name);
        Ok(())
    }

    // Reads the file of a place whose descriptor is met already.
    fn read_listed_file(&mut self, place: &Place, bytes: &[u8; 40]) -> Result<(), Fault>
        requires few { array_vec_len self.old.names < 96 }
        requires within { place.now.at < length (disk_of self.old.disk) }
        ensures scans { Scans (descriptor_from (disk_of self.old.disk) place.now.at (name_bytes place.now.name) bytes.now (seen_of self.old)) result self.new }
        ensures same { Keeps self.old.disk self.new.disk }
    {
        let descriptor = self.disk.fetch(place.at)?;
        if !is_named_as(&descriptor, bytes) {
            return Err(structure_fault(Code::NotInDirectory, place.at));
        }
        if !is_descriptor_shaped(&descriptor) {
            return Err(structure_fault(Code::PointerError, place.at));
        }
        self.read_records(place, &descriptor)
    }

    // Whether a file of this name was met.
    fn has_name(&self, name: &Name) -> bool
        ensures { result ≡ (seen_of self.now).names (name_bytes name.now) }
    {
        self.names.contains(name)
    }

    // Whether the name is new, and the descriptor lies where a file's sectors may.
    fn is_fit(&self, place: &Place) -> bool
        ensures { result ≡ (not ((seen_of self.now).names (name_bytes place.now.name)) && usable (disk_of self.now.disk) place.now.at) }
    {
        !self.has_name(&place.name) && (RESERVED..self.disk.size).contains(&place.at)
    }

    // Takes the name and the descriptor's sector from the bytes of a place, and notes that sector.
    #[tactic(auto, using(crate::proofs::FileParts::file_is))]
    fn enter_file(&mut self, from: u16, bytes: &[u8; 40]) -> Result<Place, Fault>
        ensures enters { Enters (disk_of self.old.disk) (seen_of self.old) from bytes.now result (seen_of self.new) }
        ensures names { self.new.names ≡ self.old.names }
        ensures same { Keeps self.old.disk self.new.disk }
    {
        let Some(place) = parse_place(bytes) else {
            return Err(structure_fault(Code::BadEntry, from));
        };
        if !self.is_fit(&place) {
            return Err(structure_fault(Code::BadEntry, from));
        }
        if !self.meet(place.at) {
            return Err(structure_fault(Code::PointerError, from));
        }
        Ok(place)
    }

    fn read_file(&mut self, from: u16, bytes: &[u8; 40]) -> Result<(), Fault>
        requires { array_vec_len self.old.names < 96 }
        ensures scans { Scans (file_on (disk_of self.old.disk) (seen_of self.old) from bytes.now) result self.new }
        ensures same { Keeps self.old.disk self.new.disk }
    {
        let place = self.enter_file(from, bytes)?;
        self.read_listed_file(&place, bytes)
    }

    // Reads one place of the directory sector `from`, with its file if it has one.
    pub(crate) fn read_place(&mut self, from: u16, bytes: &[u8; 40]) -> Result<(), Fault>
        requires { array_vec_len self.old.names < 96 }
        ensures scans { Scans (place_on (disk_of self.old.disk) (seen_of self.old) from bytes.now) result self.new }
        ensures same { Keeps self.old.disk self.new.disk }
    {
        if all_zero(bytes) {
            Ok(())
        } else {
            self.read_file(from, bytes)
        }
    }
}
