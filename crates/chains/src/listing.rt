// The file that a place of the directory names.
ghost use Rattle.std.specs.Prelude.{◌≡◌, ◌*◌, ◌%◌, ◌<◌, drop, take};
ghost use Rattle.chains.specs.NameBytes.{name_bytes};
ghost use Rattle.chains.specs.Listings.{PlaceRead, listing, record_count, shown};

use crate::descriptor::read_descriptor;
use crate::layout::{DIRECTORY_START, PLACES};
use crate::name::Name;
use crate::place::{Place, parse_place, places_in};
use device::{Fault, ReadingDevice};

// A file as its place in the directory and its descriptor show it.
#[derive(Clone, Copy)]
pub struct FileEntry {
    name: Name,
    records: u16,
}

impl FileEntry {
    pub fn name(&self) -> &[u8]
        ensures { result.now ≡ name_bytes self.now.name }
    {
        self.name.bytes()
    }

    pub fn records(&self) -> u16
        ensures { result ≡ self.now.records }
    {
        self.records
    }
}

// Place p in the bytes of its sector, which holds three.
#[tactic(auto, using(crate::proofs::Listings::third_of))]
fn place_in(bytes: &[u8; 128], p: u16) -> &[u8; 40]
    ensures { result.now ≡ take 40 (drop (40 * (p % 3)) bytes.now) }
{
    &places_in(bytes)[(p % 3) as usize]
}

// Place p of the directory, if it names a file.
fn read_place<D: ReadingDevice>(device: &mut D, p: u16) -> Result<Option<Place>, Fault>
    requires { p < 96 }
    ensures same { D.ReadingDevice.medium device.new ≡ D.ReadingDevice.medium device.old }
    ensures value { PlaceRead (D.ReadingDevice.medium device.old) p result }
{
    let sector = device.read(DIRECTORY_START + p / 3)?;
    Ok(parse_place(place_in(&sector.bytes, p)))
}

// The count of the descriptor in sector n.
fn read_record_count<D: ReadingDevice>(device: &mut D, n: u16) -> Result<u16, Fault>
    ensures same { D.ReadingDevice.medium device.new ≡ D.ReadingDevice.medium device.old }
    ensures value { result ≡ record_count (D.ReadingDevice.medium device.old) n }
{
    let descriptor = read_descriptor(device, n)?;
    Ok(descriptor.count)
}

// The file that place p of the directory names, if it names one; none past the last place.
pub fn file_at<D: ReadingDevice>(device: &mut D, p: u16) -> Result<Option<FileEntry>, Fault>
    ensures same { D.ReadingDevice.medium device.new ≡ D.ReadingDevice.medium device.old }
    ensures listed { shown result ≡ listing (D.ReadingDevice.medium device.old) p }
{
    if p >= PLACES {
        return Ok(None);
    }
    let Some(place) = read_place(device, p)? else {
        return Ok(None);
    };
    let records = read_record_count(device, place.at)?;
    Ok(Some(FileEntry {
        name: place.name,
        records,
    }))
}
