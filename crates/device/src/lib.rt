// Devices: numbered sectors behind a door, and their meaning.
#![tactic(auto)]

mod fault;
mod flat_image;
mod flat_reader;
mod frame;
mod joined_pair;
mod reading;
mod sector;
mod skewed;

pub use fault::{Code, Fault, Layer, NO_SECTOR};
pub use flat_image::FlatImage;
pub use flat_reader::FlatReader;
pub use joined_pair::JoinedPair;
pub use reading::{ReadingDevice, WritingDevice};
pub use sector::Sector;
pub use skewed::{Skewed, place};
