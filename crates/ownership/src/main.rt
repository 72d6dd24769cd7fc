// Who holds a device and a taken sector: a drive takes its device and hands it back, and a taken sector is given back.
#![tactic(auto)]

use device::{FlatImage, ReadingDevice};
use drive::Drive;
use freespace::{BitMap, SectorAllocator, fill_from};

// The image after FORMAT: the drive holds it in between.
fn formatted(image: FlatImage) -> FlatImage {
    let mut drive = Drive::new(image, BitMap::new());
    let _ = drive.format(b"EXAM 1");
    drive.release()
}

// Takes a free sector and gives it back; its number, or none where nothing is free.
fn borrowed(map: &mut BitMap) -> Option<u16> {
    let sector = map.take()?;
    let number = sector.number();
    let _ = map.give_back(sector);
    Some(number)
}

fn main(rt: HostRuntime) -> anyhow::Result<()> {
    let heap = rt.alloc();
    let image = formatted(FlatImage::new(vec![in heap; 0; 64 * 132]?));
    let sectors = image.count();
    println!(rt; "the image came back with {sectors} sectors")?;
    let mut map = BitMap::new();
    let _ = fill_from(&mut map, 36, 64);
    let taken = borrowed(&mut map);
    let free = map.count();
    println!(rt; "sector {taken:?} was taken and given back: {free} are free")?;
    Ok(())
}
