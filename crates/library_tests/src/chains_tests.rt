// The values at the edges.
use chains::{is_disk_size, is_legal_id};

#[test]
fn ids_at_the_edges(rt: HostRuntime) {
    assert!(rt; is_legal_id(b"123456789012345678901234"));
    assert!(rt; !is_legal_id(b"1234567890123456789012345"));
    assert!(rt; !is_legal_id(b""));
    assert!(rt; !is_legal_id(b"EXAM\x1F1"));
    assert!(rt; is_legal_id(b" "));
    assert!(rt; is_legal_id(b"~"));
    assert!(rt; !is_legal_id(b"EXAM\x7F1"));
    assert!(rt; !is_legal_id(b"EXAM;1"));
}

#[test]
fn sizes_at_the_edges(rt: HostRuntime) {
    assert!(rt; !is_disk_size(63));
    assert!(rt; is_disk_size(64));
    assert!(rt; is_disk_size(2464));
    assert!(rt; !is_disk_size(2465));
}
