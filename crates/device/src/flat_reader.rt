// A flat image held for reading only: while it lives, the bytes are neither written nor moved.
ghost use Rattle.std.specs.Prelude.{◌≡◌};
ghost use Rattle.device.specs.Flat.{reader_medium};

use crate::fault::Fault;
use crate::frame::{count_sectors, sector_in};
use crate::reading::ReadingDevice;
use crate::sector::Sector;

#[derive(Drop)]
pub struct FlatReader<'a> {
    bytes: &'a [u8],
}

impl<'a> FlatReader<'a> {
    pub fn new(bytes: &'a [u8]) -> FlatReader<'a>
        ensures { result.bytes.now ≡ bytes.now }
    {
        FlatReader { bytes }
    }
}

// Its door is closed, and its tab is on.
impl<'a> ReadingDevice for FlatReader<'a> {
    ghost medium = { reader_medium };

    fn count(&self) -> u16 {
        count_sectors(self.bytes)
    }

    fn door_open(&self) -> bool {
        false
    }

    fn read(&mut self, n: u16) -> Result<Sector, Fault> {
        self.check_read(n)?;
        Ok(sector_in(self.bytes, n))
    }
}
