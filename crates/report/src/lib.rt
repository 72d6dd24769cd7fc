// The text of answers, requests, sectors and the map.
#![tactic(auto)]

mod compare;
mod disk;
mod dumps;
mod lines;

pub use compare::same_answers;
pub use disk::disk_lines;
pub use dumps::{hex_line, hex_lines, map_lines};
pub use lines::{
    answer_line, exchanges_lines, file_line, link_line, place_line, request_line, size_line,
    usage_line,
};
