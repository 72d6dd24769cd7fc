// A drive: the requests of a Z80 machine, served over any device and any allocator of free sectors.
#![tactic(auto)]

mod answer;
mod drive;
mod erase;
mod examination;
mod format;
mod initialize;
mod reopening;
mod request;
mod serve;
mod settings;
mod status;
mod units;

pub use answer::Answer;
pub use drive::Drive;
pub use examination::examine;
pub use reopening::reopen;
pub use request::{Exchange, Request, Usage};
pub use serve::run;
