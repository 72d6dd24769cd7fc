// Images examined: whether each is sound, and what a sound one holds.
use chains::file_at;
use device::{Code, FlatImage, FlatReader, ReadingDevice};
use drive::{Drive, Exchange, Request, examine};
use exam::read_image;
use freespace::{BitMap, SectorAllocator};
use report::{answer_line, exchanges_lines, file_line, hex_line, size_line};

// The files of a sound disk, in the order of the directory.
fn print_files(rt: &HostRuntime, reader: &mut FlatReader) -> anyhow::Result<()> {
    for p in 0..96 {
        if let Ok(Some(file)) = file_at(reader, p) {
            let line = file_line(rt.alloc(), file.name(), file.records())?;
            print!(rt; " {line}")?;
        }
    }
    Ok(())
}

// One line for an image, which is not changed; tells whether it is sound.
fn examine_image(rt: &HostRuntime, path: &str, image: &FlatImage) -> anyhow::Result<bool> {
    let heap = rt.alloc();
    let mut reader = image.reader();
    let answer = examine(&mut reader);
    let size = size_line(heap, reader.count())?;
    let line = answer_line(heap, &answer)?;
    print!(rt; "{path} {size} {line}")?;
    let is_sound = answer.code == Code::Done;
    if is_sound {
        print_files(rt, &mut reader)?;
    }
    println!(rt; "")?;
    Ok(is_sound)
}

// A sound image in a drive: its usage, and the bytes of its map about the first free sectors.
fn initialize_image(rt: &HostRuntime, path: &str, image: FlatImage) -> anyhow::Result<()> {
    let heap = rt.alloc();
    let mut status = [Exchange::new(Request::Status, Vec::new(heap))];
    let mut drive = Drive::new(image, BitMap::new());
    let answer = drive.initialize();
    drive.serve_all(&mut status);
    let mut image = drive.release();
    let answer = answer_line(heap, &answer)?;
    let served = exchanges_lines(heap, &status)?;
    println!(rt; "\n{path} in a drive:")?;
    print!(rt; "INITIALIZE\n  {answer}\n{served}")?;
    if let Ok(map) = image.read(1) {
        let line = hex_line(heap, 4, &map.bytes[4..9])?;
        print!(rt; "Map, bytes 4 to 8:\n{line}")?;
    }
    Ok(())
}

pub(crate) fn examine_images(rt: &HostRuntime, paths: &[String]) -> anyhow::Result<()> {
    let mut sound = Vec::new(rt.alloc());
    println!(rt; "\nImages examined:")?;
    for path in paths {
        let image = FlatImage::new(read_image(rt, path.as_str())?);
        if examine_image(rt, path.as_str(), &image)? {
            sound.push((path.as_str(), image))?;
        }
    }
    for (path, image) in sound.into_iter() {
        initialize_image(rt, path, image)?;
    }
    Ok(())
}
