// Looking a name up in the directory.
ghost use Rattle.std.specs.Prelude.{◌≡◌, ◌≤◌, false, Ok};
ghost use Rattle.chains.specs.Layout.{Layout};
ghost use Rattle.chains.specs.Changes.{LaidOut, lookup_of};
ghost use Rattle.chains.specs.Places.{lists, place_seen, sector_seen};

use crate::bytes::{all_zero, word_at};
use crate::layout::{DIRECTORY_SECTORS, DIRECTORY_START};
use crate::place::{name_in, places_in};
use device::{Fault, ReadingDevice};

// Where the directory lists a file, and the sector of its descriptor.
#[derive(Clone, Copy, Debug, PartialEq, Eq)]
pub struct Located {
    pub place: u16,
    pub descriptor: u16,
}

// What a look through the directory found: the file, if it is there, and the lowest empty place, if there is one.
#[derive(Clone, Copy, Debug, PartialEq, Eq)]
pub struct Lookup {
    pub file: Option<Located>,
    pub empty: Option<u16>,
}

// Whether a place that is not empty lists this name.
fn is_listed(bytes: &[u8; 40], name: &[u8]) -> bool
    ensures { result ≡ lists name.now bytes.now }
{
    Some(name) == name_in(bytes)
}

// What was found before place p, and in it.
#[tactic(auto, unfolding(crate::specs::Places::place_seen))]
fn look_in_place(before: Lookup, p: u16, bytes: &[u8; 40], name: &[u8]) -> Lookup
    ensures { result ≡ place_seen name.now before p bytes.now }
{
    if all_zero(bytes) {
        return Lookup {
            empty: before.empty.or(Some(p)),
            ..before
        };
    }
    if !is_listed(bytes, name) {
        return before;
    }
    let here = Located {
        place: p,
        descriptor: word_at(bytes, 33),
    };
    Lookup {
        file: before.file.or(Some(here)),
        ..before
    }
}

// What was found before the sector whose first place is p, and in it.
fn look_in_sector(before: Lookup, p: u16, bytes: &[u8; 128], name: &[u8]) -> Lookup
    requires { p ≤ 96 }
    ensures { result ≡ sector_seen name.now before p bytes.now }
{
    let places = places_in(bytes);
    let mut seen = before;
    for (k, place) in places.iter().enumerate() {
        seen = look_in_place(seen, p + k as u16, place, name);
    }
    seen
}

// The file of this name and the lowest empty place, after one read of each sector of the directory.
pub fn look_up<D: ReadingDevice>(device: &mut D, name: &[u8]) -> Result<Lookup, Fault>
    ensures same { D.ReadingDevice.medium device.new ≡ D.ReadingDevice.medium device.old }
    ensures found { (d : Layout) → LaidOut d (D.ReadingDevice.medium device.old).sectors → (D.ReadingDevice.medium device.old).door ≡ false → result ≡ Ok (lookup_of name.now d.places) }
{
    let mut lookup = Lookup {
        file: None,
        empty: None,
    };
    for i in 0..DIRECTORY_SECTORS {
        let sector = device.read(DIRECTORY_START + i)?;
        lookup = look_in_sector(lookup, 3 * i, &sector.bytes, name);
    }
    Ok(lookup)
}
