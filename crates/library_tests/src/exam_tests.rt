// The exam and its texts, where there is memory enough.
use crate::access::blank;
use drive::{Exchange, Request};
use exam::{exam_text, image_at, keep_at, take_exam};
use freespace::{BitMap, FreeList};
use report::{disk_lines, exchanges_lines};
use std::test::Fail;

#[test]
fn shows_an_exchange_that_is_not_served(rt: HostRuntime) -> Result<(), Fail> {
    let heap = rt.alloc();
    let exchanges = [Exchange::new(Request::Status, Vec::new(heap))];
    let text = exchanges_lines(heap, &exchanges)?;
    assert_eq!(rt;
        text.as_str(),
        "STATUS\n  CODE=C1 LENGTH=0 LAYER=4 SECTOR=FFFF\n"
    );
    Ok(())
}

#[test]
fn shows_nothing_of_sectors_that_are_not_there(rt: HostRuntime) -> Result<(), Fail> {
    let mut none = blank(rt.alloc(), 0)?;
    let text = disk_lines(rt.alloc(), &mut none)?;
    assert_eq!(rt;
        text.as_str(),
        "\nLabel, sector 0:\n\nMap, sectors 1 to 3:\n\nSectors allocated (#) and free (.), by the map:\n\nLinks of the directory:\n"
    );
    Ok(())
}

#[test]
fn takes_the_exam_and_shows_it(rt: HostRuntime) -> Result<(), Fail> {
    let heap = rt.alloc();
    let (_, exchanges) = take_exam(heap, blank(heap, 64)?, FreeList::new())?;
    assert_eq!(rt; exchanges.len(), 10);
    let (_, shown, text) = exam_text(heap, blank(heap, 64)?, BitMap::new())?;
    assert_eq!(rt; shown.len(), 10);
    assert!(rt;
        text.as_str()
            .starts_with("STATUS\n  CODE=E0 LENGTH=0 LAYER=4 SECTOR=FFFF\n")
    );
    Ok(())
}

// 64 sectors of 132 bytes, and nothing to keep.
#[test]
fn an_image_without_a_path(rt: HostRuntime) -> Result<(), Fail> {
    let Ok(bytes) = image_at(&rt, None) else {
        return Err(Fail::new("there is no image"));
    };
    assert_eq!(rt; bytes.len(), 8448);
    assert!(rt; keep_at(&rt, None, bytes.as_slice()).is_ok());
    Ok(())
}
