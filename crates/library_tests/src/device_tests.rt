// What a flat image answers, on bytes.
use crate::access::{WRITTEN, blank, number, numbers, read_sector};
use device::{FlatImage, ReadingDevice, Sector, WritingDevice};
use std::test::Fail;

#[test]
fn no_whole_frame(rt: HostRuntime) -> Result<(), Fail> {
    let mut none = blank(rt.alloc(), 0)?;
    assert_eq!(rt; none.count(), 0);
    assert_eq!(rt; number(none.read(0)), 0xC1);
    let mut short = FlatImage::new(vec![in rt.alloc(); 0u8; 131]?);
    assert_eq!(rt; short.count(), 0);
    assert_eq!(rt; number(short.read(0)), 0xC1);
    Ok(())
}

#[test]
fn one_frame_and_five_bytes(rt: HostRuntime) -> Result<(), Fail> {
    let mut image = FlatImage::new(vec![in rt.alloc(); 7u8; 137]?);
    assert_eq!(rt; image.count(), 1);
    assert_eq!(rt; number(image.write(0, &WRITTEN)), 0x80);
    assert_eq!(rt; read_sector(&mut image, 0)?, WRITTEN);
    let bytes = image.into_bytes();
    assert!(rt; bytes.len() == 137);
    assert!(rt; bytes[0..128] == [9; 128]);
    assert!(rt; bytes[128..137] == [0x02, 0x01, 0xFE, 0xFF, 7, 7, 7, 7, 7]);
    Ok(())
}

#[test]
fn refusals_in_order(rt: HostRuntime) -> Result<(), Fail> {
    let sector = Sector {
        bytes: [1; 128],
        back: 2,
        forward: 3,
    };
    let mut image = blank(rt.alloc(), 1)?;
    image.set_door(true);
    image.set_tab(true);
    assert_eq!(rt; numbers(&mut image, 1, &sector), (0xC1, 0xC1));
    assert_eq!(rt; numbers(&mut image, 0, &sector), (0xC2, 0xC2));
    image.set_door(false);
    assert_eq!(rt; numbers(&mut image, 0, &sector), (0x80, 0xC3));
    image.set_tab(false);
    assert_eq!(rt; numbers(&mut image, 0, &sector), (0x80, 0x80));
    Ok(())
}
