// The first sector of a file's chain.
ghost use Rattle.std.specs.Prelude.{◌≡◌, ℕ, ◌≤◌, false, [], length, is_ok, if◌then◌else◌, Some, None, Ok, Err, MatchResult, slice_index_or};
ghost use Rattle.device.specs.Device.{wrote};
ghost use Rattle.chains.specs.Layout.{Layout, Entry};
ghost use Rattle.chains.specs.Survey.{descriptor_shaped, named_as};
ghost use Rattle.chains.specs.Changes.{LaidOut};
ghost use Rattle.chains.specs.Descriptors.{descriptor_read, descriptor_stored, described, fields_in, fields_of};

use crate::bytes::{put, put_word, word_at, zero_from};
use crate::fault::structure_fault;
use crate::layout::{NAME_BYTES, NULL_LINK};
use device::{Code, Fault, ReadingDevice, Sector, WritingDevice};
use freespace::{AllocatedSector, Unstored};

// What a descriptor says of its file's records: the sectors of the first and the last, and how many there are.
#[derive(Clone, Copy, Debug, PartialEq, Eq)]
pub struct Descriptor {
    pub first: u16,
    pub last: u16,
    pub count: u16,
}

// Whether the name is that of a place of the directory.
pub(crate) fn is_named_as(sector: &Sector, place: &[u8; 40]) -> bool
    ensures { result ≡ named_as sector.now place.now }
{
    sector.bytes[7..40] == place[0..33]
}

// Whether the zeros, the back link and the first field are those of a descriptor.
pub(crate) fn is_descriptor_shaped(sector: &Sector) -> bool
    ensures { result ≡ descriptor_shaped sector.now }
{
    sector.bytes[6] == 0
        && zero_from(&sector.bytes, 40)
        && sector.back == NULL_LINK
        && word_at(&sector.bytes, 0) == sector.forward
}

// The three fields, a zero, the name's length, the name in 32 bytes, zeros; linked to the first record.
pub(crate) fn descriptor_sector(name: &[u8], fields: Descriptor) -> Sector
    requires { length name.now ≤ 32 }
    ensures { result ≡ described name.now fields }
{
    let mut bytes = [0; 128];
    put_word(&mut bytes, 0, fields.first);
    put_word(&mut bytes, 2, fields.last);
    put_word(&mut bytes, 4, fields.count);
    put(&mut bytes, 6, &[0, name.len() as u8]);
    put(&mut bytes, 8, name);
    Sector {
        bytes,
        back: NULL_LINK,
        forward: fields.first,
    }
}

// The fields in the bytes of a descriptor. Any 128 bytes have some, so this reads and is no conversion.
fn parse_descriptor(bytes: &[u8; 128]) -> Descriptor
    ensures { result ≡ fields_in bytes.now }
{
    Descriptor {
        first: word_at(bytes, 0),
        last: word_at(bytes, 2),
        count: word_at(bytes, 4),
    }
}

// The fields of the descriptor in sector `at`.
pub fn read_descriptor<D: ReadingDevice>(device: &mut D, at: u16) -> Result<Descriptor, Fault>
    ensures same { D.ReadingDevice.medium device.new ≡ D.ReadingDevice.medium device.old }
    ensures value { result ≡ descriptor_read (D.ReadingDevice.medium device.old) at }
    ensures shows { (d : Layout) (f : Entry) (p : ℕ) → LaidOut d (D.ReadingDevice.medium device.old).sectors → (D.ReadingDevice.medium device.old).door ≡ false → slice_index_or d.places p None ≡ Some f → f.at ≡ at → result ≡ Ok (fields_of f.records) }
{
    let sector = device.read(at)?;
    Ok(parse_descriptor(&sector.bytes))
}

// Writes the descriptor of a file to sector `at`. Refuses, with nothing written, a name of more than 32 bytes.
pub fn write_descriptor<D: WritingDevice>(
    device: &mut D,
    at: u16,
    name: &[u8],
    fields: Descriptor,
) -> Result<(), Fault>
    ensures value { result ≡ descriptor_stored (D.ReadingDevice.medium device.old) at name.now }
    ensures after { D.ReadingDevice.medium device.new ≡ (if is_ok result then wrote (D.ReadingDevice.medium device.old) at (described name.now fields) else D.ReadingDevice.medium device.old) }
{
    if name.len() > NAME_BYTES {
        return Err(structure_fault(Code::BadEntry, at));
    }
    device.write(at, &descriptor_sector(name, fields))
}

// Writes the descriptor of a new file, which has no record, to the sector that was taken for it, and ends the token.
// Refuses, with nothing written, a name of more than 32 bytes.
pub fn store_descriptor<D: WritingDevice>(
    device: &mut D,
    sector: AllocatedSector,
    name: &[u8],
) -> Result<u16, Unstored>
    ensures answer { MatchResult result (λ n. (n ≡ sector.number) × (descriptor_stored (D.ReadingDevice.medium device.old) sector.number name.now ≡ Ok tt)) (λ e. (e.sector ≡ sector) × (descriptor_stored (D.ReadingDevice.medium device.old) sector.number name.now ≡ Err e.fault)) }
    ensures after { MatchResult result (λ _. D.ReadingDevice.medium device.new ≡ wrote (D.ReadingDevice.medium device.old) sector.number (described name.now (fields_of []))) (λ _. D.ReadingDevice.medium device.new ≡ D.ReadingDevice.medium device.old) }
{
    // The test of `write_descriptor` again: this refusal gives the token back.
    if name.len() > NAME_BYTES {
        return Err(Unstored {
            fault: structure_fault(Code::BadEntry, sector.number()),
            sector,
        });
    }
    let content = descriptor_sector(
        name,
        Descriptor {
            first: NULL_LINK,
            last: NULL_LINK,
            count: 0,
        },
    );
    sector.store(device, &content)
}
