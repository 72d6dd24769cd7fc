// Formats an exam disk as exam_disk does, reads it again, serves the same list over other devices, and examines disk images.
#![tactic(auto)]

mod devices;
mod images;

use crate::devices::exam;
use crate::images::examine_images;
use anyhow::anyhow;
use std::env;

const HELP: &str = "usage: exam_devices [IMAGE] [--examine IMAGE...]

Serves a list of requests on a disk image, formats it as `EXAM 1`, and prints
each request with its answer, then the label, the map and the directory's links
as they lie in the image. A new drive reads the disk again. Then it serves the
same list on other devices of that size, and says whether the answers are the
same.

IMAGE is a file of 132-byte frames: 128 data bytes, back link, forward link,
low bytes first. It is left formatted. Without it the program works on 64 empty
sectors in memory.

Each image after --examine is only read: its size, whether it is sound or its
first fault, and the files of a sound one, each with the number of its records.
A sound one is then initialised in a drive, which tells its usage.";

fn start(rt: &HostRuntime) -> anyhow::Result<()> {
    let words: Vec<String> = env::args(rt)?.skip(1).collect(rt.alloc())?;
    let words = words.as_slice();
    let (image, rest) = match words.split_first() {
        None => (None, words),
        Some((first, others)) => match first.as_str() {
            "--help" | "-h" => return Ok(println!(rt; "{HELP}")?),
            "--examine" => (None, words),
            path => (Some(path), others),
        },
    };
    exam(rt, image)?;
    match rest {
        [] => Ok(()),
        [option, paths @ ..] if option.as_str() == "--examine" => examine_images(rt, paths),
        [word, ..] => Err(anyhow!(format!(in rt.alloc();
            "unexpected argument {word}; try exam_devices --help"
        )?)),
    }
}

fn main(rt: HostRuntime) -> anyhow::Result<()> {
    start(&rt)
}
