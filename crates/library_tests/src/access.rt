// What tests share: blank images, what is read and written, and what is expected of it.
use device::{Code, Fault, FlatImage, ReadingDevice, Sector, WritingDevice};
use drive::{Answer, Drive, Usage};
use freespace::SectorAllocator;
use std::alloc::Global;
use std::test::Fail;

// What STATUS tells of a new disk of 64 sectors.
pub(crate) const OF_NEW_DISK: Usage = Usage {
    free: 28,
    used: 36,
    files: 0,
};

// What the tests write.
pub(crate) const WRITTEN: Sector = Sector {
    bytes: [9; 128],
    back: 0x0102,
    forward: 0xFFFE,
};

pub(crate) fn expect(holds: bool, otherwise: &str) -> Result<(), Fail> {
    if holds {
        Ok(())
    } else {
        Err(Fail::new(otherwise))
    }
}

pub(crate) fn blank(heap: Global, sectors: u16) -> Result<FlatImage, Fail> {
    Ok(FlatImage::new(exam::blank(heap, sectors)?))
}

pub(crate) fn read_sector<D: ReadingDevice>(device: &mut D, n: u16) -> Result<Sector, Fail> {
    device.read(n).map_err(|_| Fail::new("a read is refused"))
}

pub(crate) fn write_sector<D: WritingDevice>(
    device: &mut D,
    n: u16,
    sector: &Sector,
) -> Result<(), Fail> {
    device
        .write(n, sector)
        .map_err(|_| Fail::new("a write is refused"))
}

// The number of the code that an access answers.
pub(crate) fn number<T: Drop>(answer: Result<T, Fault>) -> u8 {
    match answer {
        Ok(_) => u8::from(Code::Done),
        Err(fault) => u8::from(fault.code),
    }
}

// What a read of sector n and a write of this sector to it answer.
pub(crate) fn numbers<D: WritingDevice>(device: &mut D, n: u16, sector: &Sector) -> (u8, u8) {
    (number(device.read(n)), number(device.write(n, sector)))
}

// The device back from a drive that formatted it, what FORMAT answered, and what STATUS answered then.
pub(crate) fn formatted<D: WritingDevice + Drop, A: SectorAllocator + Drop>(
    device: D,
    allocator: A,
    id: &[u8],
) -> (D, Answer, (Answer, Usage)) {
    let mut drive = Drive::new(device, allocator);
    let answer = drive.format(id);
    let status = drive.status();
    (drive.release(), answer, status)
}
