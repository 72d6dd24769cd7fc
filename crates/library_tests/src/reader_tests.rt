// A flat image held for reading only.
use crate::access::{WRITTEN, read_sector, write_sector};
use device::{FlatImage, ReadingDevice, WritingDevice};
use std::test::Fail;

// It reads what the image holds, also while the image's own door is open.
#[test]
fn a_reader_of_an_open_image(rt: HostRuntime) -> Result<(), Fail> {
    let mut image = FlatImage::new(vec![in rt.alloc(); 0; 270]?);
    write_sector(&mut image, 1, &WRITTEN)?;
    image.set_door(true);
    let mut reader = image.reader();
    assert_eq!(rt; reader.count(), 2);
    assert!(rt; !reader.door_open());
    assert_eq!(rt; read_sector(&mut reader, 1)?.back, 0x0102);
    assert!(rt; reader.read(2).is_err());
    assert!(rt; image.read(1).is_err());
    Ok(())
}
