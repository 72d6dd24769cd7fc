// Free space: the sectors of a disk that no file uses, and the tokens of those that were taken.
#![tactic(auto)]

mod allocated;
mod allocator;
mod bit_map;
mod bits;
mod fill;
mod free_list;

pub use allocated::{AllocatedSector, Unstored};
pub use allocator::{LARGEST_SPAN, SectorAllocator};
pub use bit_map::BitMap;
pub use fill::{fill_from, fill_unused};
pub use free_list::FreeList;
