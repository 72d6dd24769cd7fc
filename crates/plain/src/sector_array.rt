// A device over a vector of sectors, with a door and a tab.
ghost use Rattle.std.specs.Prelude.{◌≡◌, ◌^◌, ◌<◌, false, length, slice_index_or};
ghost use Rattle.std.specs.List.{AllByRecursion};
ghost use Rattle.device.specs.Device.{WellFormed, blank, wrote};
ghost use Rattle.plain.specs.Arrays.{array_medium};

use device::{Fault, ReadingDevice, Sector, WritingDevice};

#[derive(Drop)]
pub struct SectorArray {
    sectors: Vec<Sector>,
    door: bool,
    tab: bool,
}

impl SectorArray {
    // The door is closed and the tab is off. Sectors past the 65,535th are not used.
    pub fn new(sectors: Vec<Sector>) -> SectorArray
        ensures sectors { result.sectors ≡ sectors }
        ensures door { result.door ≡ false }
        ensures tab { result.tab ≡ false }
    {
        SectorArray {
            sectors,
            door: false,
            tab: false,
        }
    }

    fn sector_at(&self, n: u16) -> Sector
        requires { n < length (array_medium self.now).sectors }
        ensures { result ≡ slice_index_or (array_medium self.now).sectors n blank }
    {
        let sector = self.sectors[n as usize];
        whole(&sector);
        sector
    }

    fn put_sector(&mut self, n: u16, sector: &Sector)
        requires { n < length (array_medium self.old).sectors }
        ensures { array_medium self.new ≡ wrote (array_medium self.old) n sector.now }
    {
        whole(sector);
        self.sectors[n as usize] = *sector;
    }
}

impl ReadingDevice for SectorArray {
    ghost medium = { array_medium };

    fn count(&self) -> u16 {
        self.sectors.len().min(65535) as u16
    }

    fn door_open(&self) -> bool {
        self.door
    }

    fn read(&mut self, n: u16) -> Result<Sector, Fault> {
        self.check_read(n)?;
        Ok(self.sector_at(n))
    }
}

impl WritingDevice for SectorArray {
    fn tab_on(&self) -> bool {
        self.tab
    }

    fn write(&mut self, n: u16, sector: &Sector) -> Result<(), Fault> {
        self.check_write(n)?;
        self.put_sector(n, sector);
        Ok(())
    }

    fn set_door(&mut self, is_open: bool) {
        self.door = is_open;
    }

    fn set_tab(&mut self, is_on: bool) {
        self.tab = is_on;
    }
}

// What the type of a sector says of it: a proof learns what fits a slice or a number, and not what fits a field.
fn whole(sector: &Sector)
    ensures { WellFormed sector.now }
{
    fits(&sector.bytes, sector.back, sector.forward);
}

fn fits(bytes: &[u8], back: u16, forward: u16)
    ensures bytes { AllByRecursion (λ b. b < 2 ^ 8) bytes.now }
    ensures back { back < 2 ^ 16 }
    ensures forward { forward < 2 ^ 16 }
{}
