// A disk that is being read, and what was met on it so far.
ghost use Rattle.std.specs.Prelude.{◌≡◌, ◌<◌, length, Ok};
ghost use Rattle.std.proofs.Props.{props};
ghost use Rattle.chains.specs.Reading.{sector_at};
ghost use Rattle.chains.specs.Readable.{Readable};

use crate::name::Name;
use arrayvec::ArrayVec;
use device::{Fault, ReadingDevice, Sector};
use freespace::{BitMap, SectorAllocator};

// A disk that can be read, behind the device that holds it.
#[derive(Drop)]
pub(crate) struct ReadableDisk<'a, D: ReadingDevice> {
    pub(crate) device: &'a mut D,
    pub(crate) size: u16,
    ghost ready: { Readable (D.ReadingDevice.medium device.now) } by { Prim.hlevel props },
    ghost sized: { size ≡ length (D.ReadingDevice.medium device.now).sectors },
}

impl<D: ReadingDevice> ReadableDisk<'_, D> {
    ghost use Rattle.chains.specs.Scans.{Keeps, disk_of};

    // Reads a sector where the device cannot refuse.
    pub(crate) fn fetch(&mut self, n: u16) -> Result<Sector, Fault>
        requires { n < self.old.size }
        ensures value { result ≡ Ok (sector_at (disk_of self.old) n) }
        ensures same { Keeps self.old self.new }
    {
        self.device.read(n)
    }
}

// The disk, and the sectors and names met so far.
#[derive(Drop)]
pub(crate) struct Scan<'a, D: ReadingDevice> {
    pub(crate) disk: ReadableDisk<'a, D>,
    pub(crate) met: BitMap,
    pub(crate) names: ArrayVec<Name, 96>,
    ghost spans: { met.sectors ≡ disk.size },
}

impl<'a, D: ReadingDevice> Scan<'a, D> {
    ghost use Rattle.chains.specs.Survey.{nothing_seen};
    ghost use Rattle.chains.specs.Scans.{seen_of};

    // Nothing is met yet.
    pub(crate) fn new(disk: ReadableDisk<'a, D>) -> Self
        ensures disk { result.disk ≡ disk.entry }
        ensures seen { seen_of result ≡ nothing_seen }
    {
        let mut met = BitMap::new();
        met.clear(disk.size);
        Scan {
            disk,
            met,
            names: ArrayVec::new(),
        }
    }
}
