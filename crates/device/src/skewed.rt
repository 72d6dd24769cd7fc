// A device that lies skewed on a lower one: sector s of a track of 32 at place 5 * s mod 32 of that track.
ghost use Rattle.std.specs.Prelude.{◌≡◌, ℕ, ◌*◌, ◌%◌, ◌<◌, true, length, is_ok, if◌then◌else◌};
ghost use Rattle.std.specs.List.{AllByRecursion};
ghost use Rattle.device.specs.Device.{WellFormed, fetched, stored, wrote, with_door, with_tab};
ghost use Rattle.device.specs.Skew.{StandsFor, is_permutation, lower_medium, places, skewed, skewed_medium};

use crate::fault::Fault;
use crate::reading::{ReadingDevice, WritingDevice};
use crate::sector::Sector;

const PLACES: [u16; 32] = [
    0, 5, 10, 15, 20, 25, 30, 3, 8, 13, 18, 23, 28, 1, 6, 11, 16, 21, 26, 31, 4, 9, 14, 19, 24, 29,
    2, 7, 12, 17, 22, 27,
];

// The table as a value: every place of a track, once.
fn table() -> [u16; 32]
    ensures value { result ≡ places }
    ensures once { is_permutation result ≡ true }
{
    PLACES
}

// Where a sector of a track lies in it; no other sector of the track lies there.
fn place_in_track(s: u16) -> u16
    requires { s < 32 }
    ensures value { result ≡ 5 * s % 32 }
    ensures once { (t : ℕ) → t < 32 → 5 * t % 32 ≡ result → t ≡ s }
{
    table()[s as usize]
}

// Where sector n lies on a device of so many sectors.
pub fn place(sectors: u16, n: u16) -> u16
    ensures { result ≡ skewed sectors n }
{
    if n / 32 < sectors / 32 {
        n - n % 32 + place_in_track(n % 32)
    } else {
        n
    }
}

#[derive(Drop)]
pub struct Skewed<D> {
    lower: D,
}

impl<D> Skewed<D> {
    pub fn new(lower: D) -> Skewed<D>
        ensures { result.lower ≡ lower }
    {
        Skewed { lower }
    }

    pub fn into_lower(self) -> D
        ensures { result ≡ self.lower }
    {
        let Skewed { lower } = self;
        lower
    }
}

impl<D: ReadingDevice> Skewed<D> {
    // Where sector n lies on the lower device.
    fn place_of(&self, n: u16) -> u16
        ensures value { result ≡ skewed (length (lower_medium D.ReadingDevice self.now).sectors) n }
        ensures stands { StandsFor (lower_medium D.ReadingDevice self.now) n result }
    {
        place(self.lower.count(), n)
    }
}

impl<D: ReadingDevice> ReadingDevice for Skewed<D> {
    ghost medium = { λ d. skewed_medium (lower_medium D.ReadingDevice d) };

    fn count(&self) -> u16
        ensures value { result ≡ length (skewed_medium (lower_medium D.ReadingDevice self.now)).sectors }
        ensures whole { AllByRecursion WellFormed (skewed_medium (lower_medium D.ReadingDevice self.now)).sectors }
        ensures lower { result ≡ length (lower_medium D.ReadingDevice self.now).sectors }
    {
        self.lower.count()
    }

    fn door_open(&self) -> bool {
        self.lower.door_open()
    }

    // Leaves the lower device as it was.
    fn read(&mut self, n: u16) -> Result<Sector, Fault>
        ensures value { result ≡ fetched (skewed_medium (lower_medium D.ReadingDevice self.old)) n }
        ensures same { skewed_medium (lower_medium D.ReadingDevice self.new) ≡ skewed_medium (lower_medium D.ReadingDevice self.old) }
        ensures lower { lower_medium D.ReadingDevice self.new ≡ lower_medium D.ReadingDevice self.old }
    {
        let at = self.place_of(n);
        self.lower.read(at)
    }
}

impl<D: WritingDevice> WritingDevice for Skewed<D> {
    fn tab_on(&self) -> bool {
        self.lower.tab_on()
    }

    // Changes the one sector of the lower device where sector n lies, and nothing else.
    fn write(&mut self, n: u16, sector: &Sector) -> Result<(), Fault>
        ensures value { result ≡ stored (skewed_medium (lower_medium D.ReadingDevice self.old)) n }
        ensures after { skewed_medium (lower_medium D.ReadingDevice self.new) ≡ (if is_ok result then wrote (skewed_medium (lower_medium D.ReadingDevice self.old)) n sector.now else skewed_medium (lower_medium D.ReadingDevice self.old)) }
        ensures lower { lower_medium D.ReadingDevice self.new ≡ (if is_ok result then wrote (lower_medium D.ReadingDevice self.old) (skewed (length (lower_medium D.ReadingDevice self.old).sectors) n) sector.now else lower_medium D.ReadingDevice self.old) }
    {
        let at = self.place_of(n);
        self.lower.write(at, sector)
    }

    fn set_door(&mut self, is_open: bool)
        ensures after { skewed_medium (lower_medium D.ReadingDevice self.new) ≡ with_door (skewed_medium (lower_medium D.ReadingDevice self.old)) is_open }
        ensures lower { lower_medium D.ReadingDevice self.new ≡ with_door (lower_medium D.ReadingDevice self.old) is_open }
    {
        self.lower.set_door(is_open);
    }

    fn set_tab(&mut self, is_on: bool)
        ensures after { skewed_medium (lower_medium D.ReadingDevice self.new) ≡ with_tab (skewed_medium (lower_medium D.ReadingDevice self.old)) is_on }
        ensures lower { lower_medium D.ReadingDevice self.new ≡ with_tab (lower_medium D.ReadingDevice self.old) is_on }
    {
        self.lower.set_tab(is_on);
    }
}
