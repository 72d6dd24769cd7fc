// FORMAT: a new disk, with its label, its map and an empty directory.
ghost use Rattle.std.specs.Prelude.{◌≡◌, ℕ, ◌+◌, ◌<◌, ◌≤◌, length, is_ok, if◌then◌else◌};
ghost use Rattle.device.specs.declared.sector.Sector.{Sector};
ghost use Rattle.chains.specs.Fresh.{RowWritten, row};
ghost use Rattle.chains.specs.Formatting.{format_answer, formatted_medium};

use crate::directory::empty_directory_sector;
use crate::fault::structure_fault;
use crate::label::label_sector;
use crate::layout::{DIRECTORY_SECTORS, DIRECTORY_START, MAP_SECTORS, MAP_START, is_disk_size};
use crate::map::{FreshMarks, map_sector};
use crate::name::is_legal_id;
use device::{Code, Fault, Sector, WritingDevice};

// Writes `count` sectors from `start` on, the last first.
fn write_row<D: WritingDevice, F: Fn(u16) -> Sector>(
    device: &mut D,
    start: u16,
    count: u16,
    content: F,
) -> Result<(), Fault>
    requires some { 0 < count }
    requires low { start + count ≤ 36 }
    requires within { 36 ≤ length (D.ReadingDevice.medium device.old).sectors }
    requires callable { (i : ℕ) → i < count → F.pre content i }
    ensures { (made : ℕ → Sector) → ((i : ℕ) (s : Sector) → i < count → F.post content i s → s ≡ made i) → RowWritten (row start count made) (D.ReadingDevice.medium device.old) result (D.ReadingDevice.medium device.new) }
{
    for i in (0..count).rev() {
        device.write(start + i, &content(i))?;
    }
    Ok(())
}

// Writes sectors 0 to 35 of a new disk. Refuses, with nothing written, an ID or a size that no label can hold, then as the device does.
// The label comes last: a blank disk whose FORMAT is cut off has none, and is not taken for a formatted one.
pub fn format_disk<D: WritingDevice>(device: &mut D, id: &[u8]) -> Result<(), Fault>
    ensures value { result ≡ format_answer (D.ReadingDevice.medium device.old) id.now }
    ensures after { D.ReadingDevice.medium device.new ≡ (if is_ok result then formatted_medium (D.ReadingDevice.medium device.old) id.now else D.ReadingDevice.medium device.old) }
{
    let size = device.count();
    if !is_disk_size(size) || !is_legal_id(id) {
        return Err(structure_fault(Code::BadLabel, 0));
    }
    write_row(
        device,
        DIRECTORY_START,
        DIRECTORY_SECTORS,
        empty_directory_sector,
    )?;
    write_row(
        device,
        MAP_START,
        MAP_SECTORS,
        |j| map_sector(&FreshMarks { size }, j),
    )?;
    device.write(0, &label_sector(id, size))
}
