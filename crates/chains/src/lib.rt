// The structure of a disk: names, label, map, directory and chains of records.
#![tactic(auto)]

mod bytes;
mod checks;
mod descriptor;
mod directory;
mod entries;
mod fault;
mod files;
mod format;
mod freeing;
mod label;
mod layout;
mod listing;
mod lookup;
mod map;
mod name;
mod place;
mod saving;
mod scan;
mod survey;
mod walk;

pub use descriptor::{Descriptor, read_descriptor, store_descriptor, write_descriptor};
pub use entries::{clear_entry, put_entry};
pub use format::format_disk;
pub use freeing::free_chain;
pub use layout::{RESERVED, is_disk_size};
pub use listing::{FileEntry, file_at};
pub use lookup::{Located, Lookup, look_up};
pub use name::{Name, is_legal_id, is_legal_name};
pub use saving::save_map;
pub use survey::{Survey, read_disk};
