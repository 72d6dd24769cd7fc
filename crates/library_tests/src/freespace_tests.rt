// What a bit map takes and gives.
use freespace::{BitMap, SectorAllocator, fill_from};
use std::test::Fail;

#[test]
fn clears_up_to_its_size(rt: HostRuntime) {
    let mut map = BitMap::new();
    assert!(rt; map.clear(2464));
    assert!(rt; map.give(2463));
    assert!(rt; !map.clear(2465));
    assert!(rt; map.contains(2463));
    assert_eq!(rt; map.count(), 1);
}

#[test]
fn refuses_what_is_there_or_past_the_span(rt: HostRuntime) {
    let mut map = BitMap::new();
    assert!(rt; !map.give(0));
    assert!(rt; map.clear(10));
    assert!(rt; map.give(9));
    assert!(rt; !map.give(9));
    assert!(rt; !map.give(10));
    assert!(rt; !map.contains(10));
    assert_eq!(rt; map.count(), 1);
}

#[test]
fn takes_each_once(rt: HostRuntime) {
    let mut map = BitMap::new();
    assert!(rt; fill_from(&mut map, 2460, 2464));
    for i in 0..4 {
        assert_eq!(rt; map.count(), 4 - i);
        assert_eq!(rt; map.remove_one(), Some(2460 + i));
        assert!(rt; !map.contains(2460 + i));
    }
    assert_eq!(rt; map.count(), 0);
    assert_eq!(rt; map.remove_one(), None);
}

#[test]
fn is_there_again_when_given_back(rt: HostRuntime) -> Result<(), Fail> {
    let mut map = BitMap::new();
    assert!(rt; fill_from(&mut map, 36, 720));
    let Some(sector) = map.take() else {
        return Err(Fail::new("none is free"));
    };
    let number = sector.number();
    let was_there = map.contains(number);
    let is_back = map.give_back(sector);
    assert!(rt; !was_there && is_back);
    assert!(rt; map.contains(number));
    assert_eq!(rt; map.count(), 684);
    Ok(())
}
