// Sectors that lie skewed.
use crate::access::{OF_NEW_DISK, blank, expect, formatted, number, read_sector, write_sector};
use device::{FlatImage, ReadingDevice, Sector, Skewed, place};
use freespace::{BitMap, SectorAllocator};
use std::alloc::Global;
use std::test::Fail;

// What is written to sector n.
fn numbered(n: u16) -> Sector {
    Sector {
        bytes: [(n % 256) as u8; 128],
        back: n,
        forward: 0xFFFF,
    }
}

fn number_sectors(device: &mut Skewed<FlatImage>, sectors: u16) -> Result<(), Fail> {
    for n in 0..sectors {
        write_sector(device, n, &numbered(n))?;
    }
    Ok(())
}

fn check_read_back(device: &mut Skewed<FlatImage>, sectors: u16) -> Result<(), Fail> {
    for n in 0..sectors {
        let sector = read_sector(device, n)?;
        expect(sector == numbered(n), "another sector is read")?;
    }
    Ok(())
}

fn check_below(image: &mut FlatImage, sectors: u16) -> Result<(), Fail> {
    for n in 0..sectors {
        let below = read_sector(image, place(sectors, n))?;
        expect(below.back == n, "a sector lies elsewhere")?;
    }
    Ok(())
}

fn check_size(heap: Global, sectors: u16) -> Result<(), Fail> {
    let mut device = Skewed::new(blank(heap, sectors)?);
    expect(device.count() == sectors, "another count")?;
    number_sectors(&mut device, sectors)?;
    check_read_back(&mut device, sectors)?;
    expect(
        number(device.read(sectors)) == 0xC1,
        "a sector past the end is not refused as one",
    )?;
    check_below(&mut device.into_lower(), sectors)
}

#[test]
fn reads_back_what_it_wrote_at_every_size(rt: HostRuntime) -> Result<(), Fail> {
    let heap = rt.alloc();
    for sectors in [0, 1, 31, 32, 33, 63, 64] {
        check_size(heap, sectors)?;
    }
    Ok(())
}

#[test]
fn moves_only_within_whole_tracks(rt: HostRuntime) {
    assert_eq!(rt; place(64, 0), 0);
    assert_eq!(rt; place(64, 33), 37);
    assert_eq!(rt; place(64, 63), 59);
    assert_eq!(rt; place(63, 33), 33);
    assert_eq!(rt; place(63, 31), 27);
    assert_eq!(rt; place(33, 1), 5);
    assert_eq!(rt; place(33, 32), 32);
    assert_eq!(rt; place(31, 30), 30);
    assert_eq!(rt; place(65535, 65503), 65499);
    assert_eq!(rt; place(65535, 65534), 65534);
}

// The map, sector 1, lies at 5 on the lower disk.
#[test]
fn a_drive_works_over_a_skewed_disk(rt: HostRuntime) -> Result<(), Fail> {
    let skewed = Skewed::new(blank(rt.alloc(), 64)?);
    let (mut device, answer, (_, usage)) = formatted(skewed, BitMap::new(), b"EXAM 1");
    assert_eq!(rt; u8::from(answer.code), 0x80);
    assert_eq!(rt; usage, OF_NEW_DISK);
    let map = read_sector(&mut device, 1)?;
    let mut image = device.into_lower();
    let below = read_sector(&mut image, 5)?;
    assert!(rt; map.bytes == below.bytes);
    assert_eq!(rt; below.bytes[4], 0x0F);
    Ok(())
}
