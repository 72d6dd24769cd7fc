// The numbers of the disk format.
ghost use Rattle.std.specs.Prelude.{◌≡◌};
ghost use Rattle.chains.specs.Layout.{null, sector, sized};

use device::Sector;
use freespace::LARGEST_SPAN;

// The link that leads nowhere.
pub(crate) const NULL_LINK: u16 = 0xFFFF;

// Label, map and directory: the sectors that no file uses.
pub const RESERVED: u16 = 36;

pub(crate) const MAP_START: u16 = 1;

pub(crate) const MAP_SECTORS: u16 = 3;

// How many sector numbers one map sector marks.
pub(crate) const MAP_BITS: u16 = 1024;

pub(crate) const DIRECTORY_START: u16 = 4;

pub(crate) const DIRECTORY_SECTORS: u16 = 32;

// The places of the directory, three to a sector.
pub(crate) const PLACES: u16 = 96;

// How many bytes of a name a place or a descriptor can hold.
pub(crate) const NAME_BYTES: usize = 32;

// The sizes that a disk can have.
pub(crate) const LEAST_SECTORS: u16 = 64;

pub(crate) const MOST_SECTORS: u16 = LARGEST_SPAN;

pub fn is_disk_size(sectors: u16) -> bool
    ensures { result ≡ sized sectors }
{
    (LEAST_SECTORS..=MOST_SECTORS).contains(&sectors)
}

// A sector that no chain holds.
pub(crate) fn unlinked(bytes: [u8; 128]) -> Sector
    ensures { result ≡ sector bytes null null }
{
    Sector {
        bytes,
        back: NULL_LINK,
        forward: NULL_LINK,
    }
}
