// Disks read: examined, initialised and reopened.
use crate::access::{OF_NEW_DISK, blank, expect, formatted};
use device::{Code, FlatImage, WritingDevice};
use drive::{Answer, examine, reopen};
use freespace::{BitMap, FreeList};
use std::alloc::Global;
use std::test::Fail;

fn formatted_image(heap: Global) -> Result<FlatImage, Fail> {
    let (image, answer, _) = formatted(blank(heap, 64)?, BitMap::new(), b"EXAM 1");
    expect(answer.code == Code::Done, "FORMAT is refused")?;
    Ok(image)
}

// An answer as a machine is told it: code, length, layer and sector, by their numbers.
fn told(answer: Answer) -> (u8, u16, u8, u16) {
    (
        u8::from(answer.code),
        answer.length,
        u8::from(answer.layer),
        answer.sector,
    )
}

#[test]
fn a_formatted_disk_is_sound(rt: HostRuntime) -> Result<(), Fail> {
    let image = formatted_image(rt.alloc())?;
    let answer = examine(&mut image.reader());
    assert_eq!(rt; told(answer), (0x80, 0, 0, 0xFFFF));
    Ok(())
}

#[test]
fn a_new_drive_finds_what_was_formatted(rt: HostRuntime) -> Result<(), Fail> {
    let mut image = formatted_image(rt.alloc())?;
    image.set_tab(true);
    let (drive, answer) = reopen(image, FreeList::new());
    let (_, usage) = drive.status();
    let _ = drive.release();
    assert_eq!(rt; told(answer), (0x80, 0, 0, 0xFFFF));
    assert_eq!(rt; usage, OF_NEW_DISK);
    Ok(())
}

#[test]
fn a_disk_without_a_label_is_turned_away(rt: HostRuntime) -> Result<(), Fail> {
    let (drive, answer) = reopen(blank(rt.alloc(), 64)?, BitMap::new());
    let (status, _) = drive.status();
    let _ = drive.release();
    assert_eq!(rt; told(answer), (0xE1, 0, 3, 0));
    assert_eq!(rt; told(status), (0xE0, 0, 4, 0xFFFF));
    Ok(())
}

#[test]
fn the_door_counts_before_the_size(rt: HostRuntime) -> Result<(), Fail> {
    let mut image = blank(rt.alloc(), 63)?;
    assert_eq!(rt; told(examine(&mut image)), (0xE5, 0, 4, 0xFFFF));
    image.set_door(true);
    assert_eq!(rt; told(examine(&mut image)), (0xC2, 0, 1, 0xFFFF));
    Ok(())
}
