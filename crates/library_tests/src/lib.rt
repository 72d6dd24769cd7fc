#![tactic(auto)]

// The tests of all libraries, in a crate of their own: a crate with tests is proved once more for them.
#[cfg(test)]
mod access;
#[cfg(test)]
mod allocator_tests;
#[cfg(test)]
mod chains_tests;
#[cfg(test)]
mod device_tests;
#[cfg(test)]
mod drive_tests;
#[cfg(test)]
mod exam_tests;
#[cfg(test)]
mod freespace_tests;
#[cfg(test)]
mod pair_tests;
#[cfg(test)]
mod reader_tests;
#[cfg(test)]
mod reading_tests;
#[cfg(test)]
mod report_tests;
#[cfg(test)]
mod skew_tests;
