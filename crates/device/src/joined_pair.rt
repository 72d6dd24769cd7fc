// Two devices as one: the first one's sectors before the second's, cut at 65,535.
ghost use Rattle.std.specs.Prelude.{◌≡◌, ◌+◌, ◌<◌, min, false, length, is_ok, if◌then◌else◌};
ghost use Rattle.std.specs.List.{AllByRecursion};
ghost use Rattle.device.specs.Device.{WellFormed, fetched, stored, wrote, with_door, with_tab};
ghost use Rattle.device.specs.Joined.{joined_medium, wrote_first, wrote_second};

use crate::fault::Fault;
use crate::reading::{ReadingDevice, WritingDevice};
use crate::sector::Sector;

#[derive(Drop)]
pub struct JoinedPair<F, S> {
    first: F,
    second: S,
}

// The count has 16 bits: sectors past it are cut off.
fn cut_sum(first: u16, second: u16) -> u16
    ensures { result ≡ min 65535 (first + second) }
{
    first.saturating_add(second)
}

impl<F: WritingDevice, S: WritingDevice> JoinedPair<F, S> {
    pub fn new(first: F, second: S) -> JoinedPair<F, S>
        ensures first { result.first ≡ first }
        ensures second { result.second ≡ second }
    {
        JoinedPair { first, second }
    }

    pub fn into_parts(self) -> (F, S)
        ensures first { result.0 ≡ self.first }
        ensures second { result.1 ≡ self.second }
    {
        let JoinedPair { first, second } = self;
        (first, second)
    }

    // Asks the part that has sector n.
    fn read_part(&mut self, n: u16) -> Result<Sector, Fault>
        requires within { n < length (joined_medium F.ReadingDevice S.ReadingDevice self.old).sectors }
        requires closed { (joined_medium F.ReadingDevice S.ReadingDevice self.old).door ≡ false }
        ensures value { result ≡ fetched (joined_medium F.ReadingDevice S.ReadingDevice self.old) n }
        ensures first { F.ReadingDevice.medium self.new.first ≡ F.ReadingDevice.medium self.old.first }
        ensures second { S.ReadingDevice.medium self.new.second ≡ S.ReadingDevice.medium self.old.second }
    {
        let first = self.first.count();
        if n < first {
            self.first.read(n)
        } else {
            self.second.read(n - first)
        }
    }

    // Beside read_part and not one with it: the one answers a sector, the other takes one and changes a part.
    fn write_part(&mut self, n: u16, sector: &Sector) -> Result<(), Fault>
        requires within { n < length (joined_medium F.ReadingDevice S.ReadingDevice self.old).sectors }
        requires closed { (joined_medium F.ReadingDevice S.ReadingDevice self.old).door ≡ false }
        requires free { (joined_medium F.ReadingDevice S.ReadingDevice self.old).tab ≡ false }
        ensures value { result ≡ stored (joined_medium F.ReadingDevice S.ReadingDevice self.old) n }
        ensures after { joined_medium F.ReadingDevice S.ReadingDevice self.new ≡ (if is_ok result then wrote (joined_medium F.ReadingDevice S.ReadingDevice self.old) n sector.now else joined_medium F.ReadingDevice S.ReadingDevice self.old) }
        ensures first { F.ReadingDevice.medium self.new.first ≡ (if is_ok result then wrote_first (F.ReadingDevice.medium self.old.first) n sector.now else F.ReadingDevice.medium self.old.first) }
        ensures second { S.ReadingDevice.medium self.new.second ≡ (if is_ok result then wrote_second (F.ReadingDevice.medium self.old.first) (S.ReadingDevice.medium self.old.second) n sector.now else S.ReadingDevice.medium self.old.second) }
    {
        let first = self.first.count();
        if n < first {
            self.first.write(n, sector)
        } else {
            self.second.write(n - first, sector)
        }
    }
}

impl<F: WritingDevice, S: WritingDevice> ReadingDevice for JoinedPair<F, S> {
    ghost medium = { joined_medium F.ReadingDevice S.ReadingDevice };

    fn count(&self) -> u16
        ensures value { result ≡ length (joined_medium F.ReadingDevice S.ReadingDevice self.now).sectors }
        ensures whole { AllByRecursion WellFormed (joined_medium F.ReadingDevice S.ReadingDevice self.now).sectors }
        ensures cut { result ≡ min 65535 (length (F.ReadingDevice.medium self.now.first).sectors + length (S.ReadingDevice.medium self.now.second).sectors) }
    {
        cut_sum(self.first.count(), self.second.count())
    }

    // One open door refuses the sectors of both.
    fn door_open(&self) -> bool {
        self.first.door_open() || self.second.door_open()
    }

    // Neither part changes.
    fn read(&mut self, n: u16) -> Result<Sector, Fault>
        ensures value { result ≡ fetched (joined_medium F.ReadingDevice S.ReadingDevice self.old) n }
        ensures same { joined_medium F.ReadingDevice S.ReadingDevice self.new ≡ joined_medium F.ReadingDevice S.ReadingDevice self.old }
        ensures first { F.ReadingDevice.medium self.new.first ≡ F.ReadingDevice.medium self.old.first }
        ensures second { S.ReadingDevice.medium self.new.second ≡ S.ReadingDevice.medium self.old.second }
    {
        self.check_read(n)?;
        self.read_part(n)
    }
}

impl<F: WritingDevice, S: WritingDevice> WritingDevice for JoinedPair<F, S> {
    fn tab_on(&self) -> bool {
        self.first.tab_on() || self.second.tab_on()
    }

    // Changes the one part that has the sector, and only if the write is accepted.
    fn write(&mut self, n: u16, sector: &Sector) -> Result<(), Fault>
        ensures value { result ≡ stored (joined_medium F.ReadingDevice S.ReadingDevice self.old) n }
        ensures after { joined_medium F.ReadingDevice S.ReadingDevice self.new ≡ (if is_ok result then wrote (joined_medium F.ReadingDevice S.ReadingDevice self.old) n sector.now else joined_medium F.ReadingDevice S.ReadingDevice self.old) }
        ensures first { F.ReadingDevice.medium self.new.first ≡ (if is_ok result then wrote_first (F.ReadingDevice.medium self.old.first) n sector.now else F.ReadingDevice.medium self.old.first) }
        ensures second { S.ReadingDevice.medium self.new.second ≡ (if is_ok result then wrote_second (F.ReadingDevice.medium self.old.first) (S.ReadingDevice.medium self.old.second) n sector.now else S.ReadingDevice.medium self.old.second) }
    {
        self.check_write(n)?;
        self.write_part(n, sector)
    }

    fn set_door(&mut self, is_open: bool)
        ensures after { joined_medium F.ReadingDevice S.ReadingDevice self.new ≡ with_door (joined_medium F.ReadingDevice S.ReadingDevice self.old) is_open }
        ensures first { F.ReadingDevice.medium self.new.first ≡ with_door (F.ReadingDevice.medium self.old.first) is_open }
        ensures second { S.ReadingDevice.medium self.new.second ≡ with_door (S.ReadingDevice.medium self.old.second) is_open }
    {
        self.first.set_door(is_open);
        self.second.set_door(is_open);
    }

    fn set_tab(&mut self, is_on: bool)
        ensures after { joined_medium F.ReadingDevice S.ReadingDevice self.new ≡ with_tab (joined_medium F.ReadingDevice S.ReadingDevice self.old) is_on }
        ensures first { F.ReadingDevice.medium self.new.first ≡ with_tab (F.ReadingDevice.medium self.old.first) is_on }
        ensures second { S.ReadingDevice.medium self.new.second ≡ with_tab (S.ReadingDevice.medium self.old.second) is_on }
    {
        self.first.set_tab(is_on);
        self.second.set_tab(is_on);
    }
}
