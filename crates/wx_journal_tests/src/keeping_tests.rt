// Tests of a source that keeps what it gave.
use wx_bytes::{MemSource, read_all};
use wx_refusal::KeepingSource;

#[test]
fn keeps_what_was_read(rt: HostRuntime) {
    let inner = MemSource::new(rt.alloc(), b"turn 0 lst\n").expect(&rt, "a source");
    let mut source = KeepingSource::new(rt.alloc(), inner.in_pieces(3));
    let read = read_all(rt.alloc(), &mut source).expect(&rt, "a text");
    assert!(rt; read.as_slice() == b"turn 0 lst\n".as_slice());
    assert!(rt; source.kept() == Some(b"turn 0 lst\n".as_slice()));
}

#[test]
fn keeps_what_came_before_a_fault(rt: HostRuntime) {
    let at = vec![in rt.alloc(); 3].expect(&rt, "a call");
    let inner = MemSource::new(rt.alloc(), b"turn 0 lst\n").expect(&rt, "a source");
    let mut source = KeepingSource::new(rt.alloc(), inner.in_pieces(3).failing(at));
    assert!(rt; read_all(rt.alloc(), &mut source).is_err());
    assert!(rt; source.kept() == Some(b"turn 0".as_slice()));
}
