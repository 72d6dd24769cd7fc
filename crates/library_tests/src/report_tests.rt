// Lines as they are read.
use device::{Code, Layer};
use drive::{Answer, Request};
use report::{answer_line, hex_lines, map_lines, request_line};
use std::test::Fail;

#[test]
fn shows_an_answer(rt: HostRuntime) -> Result<(), Fail> {
    let done = Answer {
        code: Code::Done,
        length: 0,
        layer: Layer::None,
        sector: 0xFFFF,
    };
    let line = answer_line(rt.alloc(), &done)?;
    assert_eq!(rt; line.as_str(), "CODE=80 LENGTH=0 LAYER=0 SECTOR=FFFF");
    let fault = Answer {
        code: Code::BadLabel,
        length: 65408,
        layer: Layer::Structure,
        sector: 0,
    };
    let line = answer_line(rt.alloc(), &fault)?;
    assert_eq!(rt; line.as_str(), "CODE=E1 LENGTH=65408 LAYER=3 SECTOR=0000");
    Ok(())
}

#[test]
fn shows_what_is_not_printed_as_a_point(rt: HostRuntime) -> Result<(), Fail> {
    let id = b"EXAM 1\x1F\x7E\x7F".to_vec(rt.alloc())?;
    let line = request_line(rt.alloc(), &Request::Format { id })?;
    assert_eq!(rt; line.as_str(), "FORMAT ID=EXAM 1.~.");
    Ok(())
}

#[test]
fn shows_sixteen_bytes_a_line(rt: HostRuntime) -> Result<(), Fail> {
    let lines = hex_lines(rt.alloc(), b"0123456789ABCDEF\n\xFF")?;
    assert_eq!(rt;
        lines.as_str(),
        "0000  30 31 32 33 34 35 36 37 38 39 41 42 43 44 45 46\n0010  0A FF\n"
    );
    Ok(())
}

#[test]
fn shows_sixty_four_sectors_a_line(rt: HostRuntime) -> Result<(), Fail> {
    let map = [0xFF, 0xFF, 0xFF, 0xFF, 0x3F, 0, 0, 0];
    let lines = map_lines(rt.alloc(), &map)?;
    assert_eq!(rt;
        lines.as_str(),
        "0000  ######################################..........................\n"
    );
    Ok(())
}
