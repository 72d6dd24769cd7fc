// The map: one bit for each sector number, set where the sector is not free.
ghost use Rattle.std.specs.Prelude.{◌≡◌, ℕ, ◌<◌, Bool};
ghost use Rattle.chains.specs.Layout.{map_byte};
ghost use Rattle.chains.specs.Fresh.{fresh_marks, map_sector_bytes, map_sector};

use crate::layout::{MAP_BITS, RESERVED, unlinked};
use device::Sector;
use std::array;

// Which sector numbers a map marks.
pub(crate) trait Marks {
    ghost marked: { Self → ℕ → Bool };

    fn is_marked(&self, n: u16) -> bool
        ensures { result ≡ marked self.now n };
}

// The marks of a disk with no file: the reserved sectors, and all numbers past the end.
#[derive(Clone, Copy)]
pub(crate) struct FreshMarks {
    pub(crate) size: u16,
}

impl Marks for FreshMarks {
    ghost marked = { λ f. fresh_marks f.size };

    fn is_marked(&self, n: u16) -> bool {
        n < RESERVED || self.size <= n
    }
}

// The byte that marks the sectors n to n + 7, the first in the lowest bit.
fn byte_from<M: Marks>(marks: &M, n: u16) -> u8
    requires { n < 3072 }
    ensures { result ≡ map_byte (M.Marks.marked marks.now) n }
{
    let mut byte = 0;
    for k in 0..8 {
        if marks.is_marked(n + k) {
            byte |= 1 << k;
        }
    }
    byte
}

// The bytes of map sector j.
pub(crate) fn map_bytes<M: Marks>(marks: &M, j: u16) -> [u8; 128]
    requires { j < 3 }
    ensures { result ≡ map_sector_bytes (M.Marks.marked marks.now) j }
{
    array::from_fn(|k| byte_from(marks, MAP_BITS * j + 8 * k as u16))
}

// Map sector j of a new disk, with links that lead nowhere.
#[tactic(auto, unfolding(crate::specs::Fresh::map_sector))]
pub(crate) fn map_sector<M: Marks>(marks: &M, j: u16) -> Sector
    requires { j < 3 }
    ensures { result ≡ map_sector (M.Marks.marked marks.now) j }
{
    unlinked(map_bytes(marks, j))
}
