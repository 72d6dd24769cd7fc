// A flat image of a disk: a vector of 132-byte frames, with a door and a tab.
ghost use Rattle.std.specs.Prelude.{◌≡◌, ◌%◌, ◌<◌, true, false, length, is_ok, if◌then◌else◌, ◌==◌, slice_index_or};
ghost use Rattle.std.specs.List.{AllByRecursion};
ghost use Rattle.device.specs.Device.{WellFormed, blank, fetched, stored, wrote, with_door, with_tab};
ghost use Rattle.device.specs.Flat.{flat_medium, reader_medium, frame_count, with_frame};

use crate::fault::Fault;
use crate::flat_reader::FlatReader;
use crate::frame::{count_sectors, put_frame, sector_in};
use crate::reading::{ReadingDevice, WritingDevice};
use crate::sector::Sector;

#[derive(Drop)]
pub struct FlatImage {
    bytes: Vec<u8>,
    door: bool,
    tab: bool,
}

impl FlatImage {
    // The door is closed and the tab is off.
    pub fn new(bytes: Vec<u8>) -> FlatImage
        ensures bytes { result.bytes ≡ bytes }
        ensures door { result.door ≡ false }
        ensures tab { result.tab ≡ false }
    {
        FlatImage {
            bytes,
            door: false,
            tab: false,
        }
    }

    // Whether bytes are whole frames, with none left over.
    pub fn is_whole(bytes: &[u8]) -> bool
        ensures { result ≡ (length bytes.now % 132 == 0) }
    {
        bytes.len() % 132 == 0
    }

    pub fn into_bytes(self) -> Vec<u8>
        ensures { result ≡ self.bytes }
    {
        let FlatImage { bytes, .. } = self;
        bytes
    }

    // The same sectors for reading only, behind a closed door. While the reader lives the image cannot be written.
    pub fn reader(&self) -> FlatReader<'_>
        ensures medium { reader_medium result ≡ with_tab (with_door (flat_medium self.now) false) true }
        ensures bytes { result.bytes.now ≡ self.now.bytes.items }
    {
        FlatReader::new(self.bytes.as_slice())
    }

    fn sector_at(&self, n: u16) -> Sector
        requires { n < length (flat_medium self.now).sectors }
        ensures { result ≡ slice_index_or (flat_medium self.now).sectors n blank }
    {
        sector_in(self.bytes.as_slice(), n)
    }

    fn put_sector(&mut self, n: u16, sector: &Sector)
        requires { n < length (flat_medium self.old).sectors }
        ensures after { flat_medium self.new ≡ wrote (flat_medium self.old) n sector.now }
        ensures bytes { self.new.bytes.items ≡ with_frame self.old.bytes.items n sector.now }
    {
        put_frame(self.bytes.as_mut_slice(), n as usize, sector);
    }
}

impl ReadingDevice for FlatImage {
    ghost medium = { flat_medium };

    // Bytes past the last whole frame belong to no sector.
    fn count(&self) -> u16
        ensures value { result ≡ length (flat_medium self.now).sectors }
        ensures whole { AllByRecursion WellFormed (flat_medium self.now).sectors }
        ensures frames { result ≡ frame_count self.now.bytes.items }
    {
        count_sectors(self.bytes.as_slice())
    }

    fn door_open(&self) -> bool {
        self.door
    }

    fn read(&mut self, n: u16) -> Result<Sector, Fault>
        ensures value { result ≡ fetched (flat_medium self.old) n }
        ensures same { flat_medium self.new ≡ flat_medium self.old }
        ensures bytes { self.new.bytes.items ≡ self.old.bytes.items }
    {
        self.check_read(n)?;
        Ok(self.sector_at(n))
    }
}

impl WritingDevice for FlatImage {
    fn tab_on(&self) -> bool {
        self.tab
    }

    // Changes the one frame, and no other byte.
    fn write(&mut self, n: u16, sector: &Sector) -> Result<(), Fault>
        ensures value { result ≡ stored (flat_medium self.old) n }
        ensures after { flat_medium self.new ≡ (if is_ok result then wrote (flat_medium self.old) n sector.now else flat_medium self.old) }
        ensures bytes { self.new.bytes.items ≡ (if is_ok result then with_frame self.old.bytes.items n sector.now else self.old.bytes.items) }
    {
        self.check_write(n)?;
        self.put_sector(n, sector);
        Ok(())
    }

    fn set_door(&mut self, is_open: bool)
        ensures after { flat_medium self.new ≡ with_door (flat_medium self.old) is_open }
        ensures bytes { self.new.bytes.items ≡ self.old.bytes.items }
        ensures tab { self.new.tab ≡ self.old.tab }
    {
        self.door = is_open;
    }

    fn set_tab(&mut self, is_on: bool)
        ensures after { flat_medium self.new ≡ with_tab (flat_medium self.old) is_on }
        ensures bytes { self.new.bytes.items ≡ self.old.bytes.items }
        ensures door { self.new.door ≡ self.old.door }
    {
        self.tab = is_on;
    }
}
