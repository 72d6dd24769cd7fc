// Two images as one disk.
ghost use Rattle.std.specs.Prelude.{◌≡◌, length, Err};
ghost use Rattle.device.specs.declared.fault.Code.TheVariants.{InvalidOperation};
ghost use Rattle.device.specs.Device.{Medium, device_fault, fetched, stored};
ghost use Rattle.device.specs.Joined.{joined};

use crate::access::{OF_NEW_DISK, WRITTEN, blank, formatted, number, numbers, read_sector};
use device::{JoinedPair, ReadingDevice, WritingDevice};
use freespace::{BitMap, SectorAllocator};
use std::test::Fail;

#[test]
fn a_pair_with_an_empty_first(rt: HostRuntime) -> Result<(), Fail> {
    let heap = rt.alloc();
    let mut pair = JoinedPair::new(blank(heap, 0)?, blank(heap, 2)?);
    assert_eq!(rt; pair.count(), 2);
    assert_eq!(rt; numbers(&mut pair, 1, &WRITTEN), (0x80, 0x80));
    assert_eq!(rt; numbers(&mut pair, 2, &WRITTEN), (0xC1, 0xC1));
    let (mut first, mut second) = pair.into_parts();
    assert_eq!(rt; number(first.read(0)), 0xC1);
    assert_eq!(rt; read_sector(&mut second, 0)?.back, 0);
    assert_eq!(rt; read_sector(&mut second, 1)?.back, 0x0102);
    Ok(())
}

// The cut, by what a pair means: where the first device has 65,535 sectors, none of the second's can be read or written.
fn cut_at_65535()
    ensures length { (a b : Medium) → length a.sectors ≡ 65535 → length (joined a b).sectors ≡ 65535 }
    ensures read { (a b : Medium) → length a.sectors ≡ 65535 → fetched (joined a b) 65535 ≡ Err (device_fault InvalidOperation) }
    ensures write { (a b : Medium) → length a.sectors ≡ 65535 → stored (joined a b) 65535 ≡ Err (device_fault InvalidOperation) }
{}

// The pair's own door and tab decide, whichever part has them.
#[test]
fn one_door_or_tab_closes_both(rt: HostRuntime) -> Result<(), Fail> {
    let heap = rt.alloc();
    let mut second = blank(heap, 1)?;
    second.set_door(true);
    second.set_tab(true);
    let mut pair = JoinedPair::new(blank(heap, 1)?, second);
    assert_eq!(rt; numbers(&mut pair, 0, &WRITTEN), (0xC2, 0xC2));
    pair.set_door(false);
    assert_eq!(rt; numbers(&mut pair, 0, &WRITTEN), (0x80, 0xC3));
    pair.set_tab(false);
    assert_eq!(rt; numbers(&mut pair, 0, &WRITTEN), (0x80, 0x80));
    Ok(())
}

#[test]
fn a_drive_over_a_pair(rt: HostRuntime) -> Result<(), Fail> {
    let heap = rt.alloc();
    let pair = JoinedPair::new(blank(heap, 32)?, blank(heap, 32)?);
    let (_, answer, (status, usage)) = formatted(pair, BitMap::new(), b"EXAM 1");
    assert_eq!(rt; u8::from(answer.code), 0x80);
    assert_eq!(rt; u8::from(status.code), 0x80);
    assert_eq!(rt; usage, OF_NEW_DISK);
    Ok(())
}
