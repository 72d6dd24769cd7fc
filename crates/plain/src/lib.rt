// A plain device and a plain allocator: the traits of `device` and `freespace`, implemented from outside.
#![tactic(auto)]

mod number_list;
mod sector_array;

pub use number_list::NumberList;
pub use sector_array::SectorArray;
