// Whole drives.
use crate::access::{OF_NEW_DISK, blank, formatted, read_sector};
use device::FlatImage;
use drive::Drive;
use freespace::BitMap;
use std::alloc::Global;
use std::test::Fail;

// The number of FORMAT's code on a disk of so many sectors.
fn format_code(heap: Global, sectors: u16, id: &[u8]) -> Result<u8, Fail> {
    let (_, answer, _) = formatted(blank(heap, sectors)?, BitMap::new(), id);
    Ok(u8::from(answer.code))
}

#[test]
fn formats_only_sizes_that_a_disk_can_have(rt: HostRuntime) -> Result<(), Fail> {
    let heap = rt.alloc();
    assert_eq!(rt; format_code(heap, 0, b"EXAM 1")?, 0xE5);
    assert_eq!(rt; format_code(heap, 63, b"EXAM 1")?, 0xE5);
    assert_eq!(rt; format_code(heap, 64, b"EXAM 1")?, 0x80);
    assert_eq!(rt; format_code(heap, 2464, b"EXAM 1")?, 0x80);
    assert_eq!(rt; format_code(heap, 2465, b"EXAM 1")?, 0xE5);
    Ok(())
}

#[test]
fn refuses_an_id_that_is_not_legal(rt: HostRuntime) -> Result<(), Fail> {
    let heap = rt.alloc();
    assert_eq!(rt; format_code(heap, 64, b"")?, 0xE1);
    assert_eq!(rt; format_code(heap, 64, b"A;B")?, 0xE1);
    assert_eq!(rt; format_code(heap, 64, b"ABCDEFGHIJKLMNOPQRSTUVWXY")?, 0xE1);
    assert_eq!(rt; format_code(heap, 64, b"ABCDEFGHIJKLMNOPQRSTUVWX")?, 0x80);
    Ok(())
}

#[test]
fn status_tells_the_numbers_of_a_new_disk(rt: HostRuntime) -> Result<(), Fail> {
    let mut drive = Drive::new(blank(rt.alloc(), 64)?, BitMap::new());
    let (before, _) = drive.status();
    let _ = drive.format(b"EXAM 1");
    let _ = drive.door(true);
    let (after, usage) = drive.status();
    let _ = drive.release();
    assert_eq!(rt; u8::from(before.code), 0xE0);
    assert_eq!(rt; u8::from(after.code), 0x80);
    assert_eq!(rt; usage, OF_NEW_DISK);
    Ok(())
}

// FORMAT writes the map of 64 sectors, and no sector past the directory.
#[test]
fn format_leaves_the_rest_alone(rt: HostRuntime) -> Result<(), Fail> {
    let bytes = vec![in rt.alloc(); 7; 132 * 64]?;
    let (mut image, _, _) = formatted(FlatImage::new(bytes), BitMap::new(), b"EXAM 1");
    let map = read_sector(&mut image, 1)?;
    assert_eq!(rt; map.bytes[3], 0xFF);
    assert_eq!(rt; map.bytes[4], 0x0F);
    assert_eq!(rt; map.bytes[5], 0x00);
    assert_eq!(rt; map.bytes[7], 0x00);
    assert_eq!(rt; map.bytes[8], 0xFF);
    assert_eq!(rt; map.bytes[127], 0xFF);
    assert_eq!(rt; map.back, 0xFFFF);
    let last = read_sector(&mut image, 35)?;
    assert_eq!(rt; last.forward, 0xFFFF);
    let untouched = read_sector(&mut image, 36)?;
    assert_eq!(rt; untouched.bytes[0], 7);
    assert_eq!(rt; untouched.forward, 0x0707);
    Ok(())
}
