// Writing and clearing a place of the directory.
ghost use Rattle.std.specs.Prelude.{◌≡◌, ◌+◌, ◌*◌, ◌/◌, ◌%◌, ◌<◌, ◌≤◌, false, ◌&&◌, List, [], length, is_ok, if◌then◌else◌, Some, None, Err, nat_le, nat_lt};
ghost use Rattle.device.specs.Device.{stored};
ghost use Rattle.chains.specs.Layout.{Placed, place_bytes};
ghost use Rattle.chains.specs.Places.{PlaceChanged, entry_of, no_such_place, place_written};

use crate::layout::{DIRECTORY_START, NAME_BYTES, PLACES};
use crate::place::place_bytes;
use device::{Code, Fault, Layer, WritingDevice};

// What is no place, or has no room for the name.
fn no_such_place() -> Fault
    ensures { result ≡ no_such_place }
{
    Fault::new(Layer::Structure, Code::InvalidOperation)
}

// Where place p begins in its sector, which holds three.
fn place_start(p: u16) -> usize
    ensures { result ≡ 40 * (p % 3) }
{
    40 * (p % 3) as usize
}

// Writes the 40 bytes of place p; the other places of its sector and the links stay.
fn write_place<D: WritingDevice>(device: &mut D, p: u16, bytes: &[u8; 40]) -> Result<(), Fault>
    requires { p < 96 }
    ensures value { result ≡ stored (D.ReadingDevice.medium device.old) (4 + p / 3) }
    ensures after { D.ReadingDevice.medium device.new ≡ (if is_ok result then place_written (D.ReadingDevice.medium device.old) p bytes.now else D.ReadingDevice.medium device.old) }
{
    let mut sector = device.read(DIRECTORY_START + p / 3)?;
    let start = place_start(p);
    sector.bytes[start..start + 40].copy_from_slice(bytes);
    device.write(DIRECTORY_START + p / 3, &sector)
}

// Lists a file at place p. Refuses, with nothing written, what is no place and a name that has no room there, then as the device does.
pub fn put_entry<D: WritingDevice>(
    device: &mut D,
    p: u16,
    name: &[u8],
    descriptor: u16,
) -> Result<(), Fault>
    ensures value { result ≡ (if nat_lt p 96 && nat_le (length name.now) 32 then stored (D.ReadingDevice.medium device.old) (4 + p / 3) else Err no_such_place) }
    ensures only { D.ReadingDevice.medium device.new ≡ (if is_ok result then place_written (D.ReadingDevice.medium device.old) p (place_bytes (Some (entry_of name.now descriptor []))) else D.ReadingDevice.medium device.old) }
    ensures refused { is_ok result ≡ false → D.ReadingDevice.medium device.new ≡ D.ReadingDevice.medium device.old }
    ensures after { (ps : List Placed) → length name.now ≤ 32 → PlaceChanged (D.ReadingDevice.medium device.old) p (Some (entry_of name.now descriptor ps)) result (D.ReadingDevice.medium device.new) }
{
    if p >= PLACES || name.len() > NAME_BYTES {
        return Err(no_such_place());
    }
    write_place(device, p, &place_bytes(name, descriptor))
}

// Makes place p empty. Refuses, with nothing written, what is no place, then as the device does.
pub fn clear_entry<D: WritingDevice>(device: &mut D, p: u16) -> Result<(), Fault>
    ensures value { result ≡ (if nat_lt p 96 then stored (D.ReadingDevice.medium device.old) (4 + p / 3) else Err no_such_place) }
    ensures only { D.ReadingDevice.medium device.new ≡ (if is_ok result then place_written (D.ReadingDevice.medium device.old) p (place_bytes None) else D.ReadingDevice.medium device.old) }
    ensures refused { is_ok result ≡ false → D.ReadingDevice.medium device.new ≡ D.ReadingDevice.medium device.old }
    ensures after { PlaceChanged (D.ReadingDevice.medium device.old) p None result (D.ReadingDevice.medium device.new) }
{
    if p >= PLACES {
        return Err(no_such_place());
    }
    write_place(device, p, &[0; 40])
}
