// Formats an exam disk and prints what the drive answered and what stands on the disk.
#![tactic(auto)]

use anyhow::anyhow;
use device::FlatImage;
use exam::{exam_text, image_at, keep_at};
use freespace::BitMap;
use std::env;

const HELP: &str = "usage: exam_disk [IMAGE]

Serves a list of requests on a disk image, formats it as `EXAM 1`, and prints
each request with its answer, then the label, the map and the directory's links
as they lie in the image.

IMAGE is a file of 132-byte frames: 128 data bytes, back link, forward link,
low bytes first. It is left formatted. Without it the program works on 64 empty
sectors in memory.";

// Serves the list on the image, prints what came of it, and keeps the image.
fn exam(rt: &HostRuntime, path: Option<&str>) -> anyhow::Result<()> {
    let image = FlatImage::new(image_at(rt, path)?);
    let (image, _, text) = exam_text(rt.alloc(), image, BitMap::new())?;
    print!(rt; "{text}")?;
    keep_at(rt, path, image.into_bytes().as_slice())
}

fn start(rt: &HostRuntime) -> anyhow::Result<()> {
    let mut words = env::args(rt)?.skip(1);
    let word = words.next();
    if words.next().is_some() {
        return Err(anyhow!("more than one argument; try exam_disk --help"));
    }
    match word.as_deref() {
        Some("--help" | "-h") => Ok(println!(rt; "{HELP}")?),
        path => exam(rt, path),
    }
}

fn main(rt: HostRuntime) -> anyhow::Result<()> {
    start(&rt)
}
