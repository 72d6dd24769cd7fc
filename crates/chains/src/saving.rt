// Bringing the map up to date.
ghost use Rattle.std.specs.Prelude.{◌≡◌, ℕ, ◌+◌, ◌<◌, false, not, ◌&&◌, is_ok, if◌then◌else◌, Ok, nat_le, nat_lt};
ghost use Rattle.device.specs.Device.{stored, wrote};
ghost use Rattle.chains.specs.Layout.{Layout, reserved, member, numbers, chains};
ghost use Rattle.chains.specs.Fresh.{written_over};
ghost use Rattle.chains.specs.Changes.{LaidOut};
ghost use Rattle.chains.specs.Saving.{marks_by, remapped, remapped_all, with_map};

use crate::layout::{MAP_SECTORS, MAP_START};
use crate::map::{FreshMarks, Marks, map_bytes};
use device::{Fault, ReadingDevice, Sector, WritingDevice};
use freespace::SectorAllocator;

// The marks of a disk of this size whose free sectors an allocator has: all numbers but those.
#[derive(Drop)]
struct SpaceMarks<'a, A> {
    allocator: &'a A,
    size: u16,
}

impl<'a, A: SectorAllocator> Marks for SpaceMarks<'a, A> {
    ghost marked = { λ s. marks_by s.size (A.SectorAllocator.member s.allocator.now) };

    fn is_marked(&self, n: u16) -> bool {
        FreshMarks { size: self.size }.is_marked(n) || !self.allocator.contains(n)
    }
}

// Writes map sector j with these marks; its links stay.
fn save_map_sector<D: WritingDevice, M: Marks>(
    device: &mut D,
    marks: &M,
    j: u16,
) -> Result<(), Fault>
    requires { j < 3 }
    ensures value { result ≡ stored (D.ReadingDevice.medium device.old) (1 + j) }
    ensures after { D.ReadingDevice.medium device.new ≡ (if is_ok result then wrote (D.ReadingDevice.medium device.old) (1 + j) (remapped (D.ReadingDevice.medium device.old).sectors (M.Marks.marked marks.now) j) else D.ReadingDevice.medium device.old) }
{
    let old = device.read(MAP_START + j)?;
    let new = Sector {
        bytes: map_bytes(marks, j),
        ..old
    };
    device.write(MAP_START + j, &new)
}

// Writes the map with these marks, its last sector first. Each is read before it is written, so this is not the row of a new disk.
fn save_marks<D: WritingDevice, M: Marks>(device: &mut D, marks: &M) -> Result<(), Fault>
    ensures value { result ≡ stored (D.ReadingDevice.medium device.old) 3 }
    ensures after { D.ReadingDevice.medium device.new ≡ (if is_ok result then written_over (remapped_all (D.ReadingDevice.medium device.old).sectors (M.Marks.marked marks.now)) (D.ReadingDevice.medium device.old) else D.ReadingDevice.medium device.old) }
{
    for j in (0..MAP_SECTORS).rev() {
        save_map_sector(device, marks, j)?;
    }
    Ok(())
}

// Writes the map of a disk whose free sectors the allocator has. A refusal is that of the first write, and leaves the disk as it was.
pub fn save_map<D: WritingDevice, A: SectorAllocator>(
    device: &mut D,
    allocator: &A,
) -> Result<(), Fault>
    ensures value { result ≡ stored (D.ReadingDevice.medium device.old) 3 }
    ensures refused { is_ok result ≡ false → D.ReadingDevice.medium device.new ≡ D.ReadingDevice.medium device.old }
    ensures after { (d : Layout) → LaidOut d (D.ReadingDevice.medium device.old).sectors → (D.ReadingDevice.medium device.old).door ≡ false → (D.ReadingDevice.medium device.old).tab ≡ false → ((n : ℕ) → A.SectorAllocator.member allocator.now n ≡ (nat_le reserved n && (nat_lt n d.size && not (member n (numbers (chains d.places)))))) → (result ≡ Ok tt) × (D.ReadingDevice.medium device.new ≡ with_map d (D.ReadingDevice.medium device.old)) }
{
    let size = device.count();
    save_marks(device, &SpaceMarks { allocator, size })
}
