// The exam: a list of requests, served on a disk image and on other devices.
use device::{FlatImage, JoinedPair, ReadingDevice, Skewed, WritingDevice, place};
use drive::{Exchange, reopen};
use exam::{blank, exam_text, image_at, keep_at, take_exam};
use freespace::{BitMap, FreeList, SectorAllocator};
use report::{answer_line, place_line, same_answers, usage_line};

// Whether the same list is answered in the same way over another device.
fn compare<D: WritingDevice + Drop, A: SectorAllocator + Drop>(
    rt: &HostRuntime,
    over: &str,
    device: D,
    allocator: A,
    expected: &[Exchange],
) -> anyhow::Result<()> {
    let (_, exchanges) = take_exam(rt.alloc(), device, allocator)?;
    let verdict = if same_answers(expected, exchanges.as_slice()) {
        "are the same"
    } else {
        "differ"
    };
    println!(rt; "The answers over {over} {verdict}.")?;
    Ok(())
}

// The same list over two images joined as one disk, and over a skewed image with the other allocator.
// Each is made when its turn comes and let go after it, so that there is one image more than the disk's own and not two.
fn compare_others(rt: &HostRuntime, sectors: u16, expected: &[Exchange]) -> anyhow::Result<()> {
    let heap = rt.alloc();
    let half = sectors / 2;
    println!(rt; "\nOther devices:")?;
    let first = FlatImage::new(blank(heap, half)?);
    let second = FlatImage::new(blank(heap, sectors - half)?);
    let pair = JoinedPair::new(first, second);
    compare(rt, "two joined images", pair, BitMap::new(), expected)?;
    let skewed = Skewed::new(FlatImage::new(blank(heap, sectors)?));
    compare(
        rt,
        "a skewed image with a free list",
        skewed,
        FreeList::new(),
        expected,
    )?;
    let line = place_line(heap, 33, place(sectors, 33))?;
    println!(rt; "{line}")?;
    Ok(())
}

// What a new drive with the other allocator finds on the disk.
fn read_again(rt: &HostRuntime, image: FlatImage) -> anyhow::Result<FlatImage> {
    let heap = rt.alloc();
    let (drive, answer) = reopen(image, FreeList::new());
    let (_, usage) = drive.status();
    let image = drive.release();
    let line = answer_line(heap, &answer)?;
    let numbers = usage_line(heap, &usage)?;
    println!(rt; "\nThe disk read again, by a new drive with a free list:")?;
    println!(rt; "{line}\n{numbers}")?;
    Ok(image)
}

// Serves the list on the image, prints what came of it, and keeps the image.
pub(crate) fn exam(rt: &HostRuntime, path: Option<&str>) -> anyhow::Result<()> {
    let image = FlatImage::new(image_at(rt, path)?);
    let (image, exchanges, text) = exam_text(rt.alloc(), image, BitMap::new())?;
    print!(rt; "{text}")?;
    let image = read_again(rt, image)?;
    compare_others(rt, image.count(), exchanges.as_slice())?;
    keep_at(rt, path, image.into_bytes().as_slice())
}
