// Free lists, and a device and an allocator of another crate.
use crate::access::{OF_NEW_DISK, blank, formatted};
use device::{ReadingDevice, Sector};
use freespace::{FreeList, SectorAllocator, fill_from};
use plain::{NumberList, SectorArray};
use std::test::Fail;

#[test]
fn serves_a_flat_image_with_a_free_list(rt: HostRuntime) -> Result<(), Fail> {
    let (_, _, (_, usage)) = formatted(blank(rt.alloc(), 64)?, FreeList::new(), b"EXAM 1");
    assert_eq!(rt; usage, OF_NEW_DISK);
    Ok(())
}

#[test]
fn serves_a_sector_array_with_a_number_list(rt: HostRuntime) -> Result<(), Fail> {
    let empty = Sector {
        bytes: [0; 128],
        back: 0xFFFF,
        forward: 0xFFFF,
    };
    let sectors = vec![in rt.alloc(); empty; 64]?;
    let allocator = NumberList::new(rt.alloc())?;
    let (_, _, (_, usage)) = formatted(SectorArray::new(sectors), allocator, b"EXAM 1");
    assert_eq!(rt; usage, OF_NEW_DISK);
    Ok(())
}

#[test]
fn a_free_list_takes_the_lowest_first(rt: HostRuntime) {
    let mut list = FreeList::new();
    assert!(rt; fill_from(&mut list, 2460, 2464));
    assert!(rt; list.give(7));
    assert!(rt; !list.give(7));
    assert!(rt; !list.give(2464));
    assert_eq!(rt; list.count(), 5);
    assert_eq!(rt; list.remove_one(), Some(7));
    for n in 2460..2464 {
        assert_eq!(rt; list.remove_one(), Some(n));
        assert!(rt; !list.contains(n));
    }
    assert_eq!(rt; list.count(), 0);
    assert_eq!(rt; list.remove_one(), None);
}

#[test]
fn a_free_list_takes_again_what_was_given_back(rt: HostRuntime) -> Result<(), Fail> {
    let mut list = FreeList::new();
    assert!(rt; fill_from(&mut list, 36, 64));
    let Some(sector) = list.take() else {
        return Err(Fail::new("none is free"));
    };
    let number = sector.number();
    let is_back = list.give_back(sector);
    assert_eq!(rt; number, 36);
    assert!(rt; is_back);
    assert_eq!(rt; list.count(), 28);
    assert_eq!(rt; list.remove_one(), Some(36));
    Ok(())
}
