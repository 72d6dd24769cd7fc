// The exam: its list of requests, served on any device, and the image file that it is set on.
#![tactic(auto)]

mod files;
mod requests;

pub use files::{blank, image_at, keep_at, read_image};
pub use requests::{exam_text, take_exam};
