// Tests of floods by what is written of them.
use crate::word_tests::{call, expect_so, unread};
use std::alloc::Global;
use std::process::Abort;
use std::sync::Wait;
use std::thread::Threads;
use wx_bytes::MemSink;
use wx_replay::Status;
use wx_text::Text;

/// A flood, with the lines of its summary.
type Row = (&'static [u8], &'static [u8]);

// The first has no step, and no event is sent. The only step of the second is an arrival. The numbers of the others are those of another
// program that takes the same steps.
const FLOODS: [Row; 4] = [
    (
        b"flood 0 1",
        b"turns 1\nqueued 0\nfull 0\nbatches 0\nhanded 0\nspawned 0\nreaped 0\ndropped 0\nraised 0\nlost 0\nend ok\n",
    ),
    (
        b"flood 1 0",
        b"turns 2\nqueued 1\nfull 0\nbatches 0\nhanded 0\nspawned 0\nreaped 0\ndropped 0\nraised 0\nlost 0\nend ok\n",
    ),
    (
        b"flood 1000 7",
        b"turns 1001\nqueued 276\nfull 99\nbatches 129\nhanded 213\nspawned 70\nreaped 67\ndropped 3\nraised 157\nlost 1\nend ok\n",
    ),
    (
        b"flood 10000 7",
        b"turns 10001\nqueued 1913\nfull 1885\nbatches 1097\nhanded 1848\nspawned 568\nreaped 564\ndropped 4\nraised 1373\nlost 2\nend ok\n",
    ),
];

#[test]
fn a_flood_is_summed_up(rt: HostRuntime) {
    for (line, text) in &FLOODS {
        let written = summary(&rt, rt.alloc(), line);
        expect_so(&rt, written.as_slice() == *text, line);
        drop(written);
    }
}

/// The summary of this flood, which ends well and reads nothing.
fn summary<R: Abort + Threads + Wait + Copy + Send + Sync>(
    rt: &R,
    alloc: Global,
    line: &[u8],
) -> Text {
    let mut source = unread(rt, alloc);
    let (sink, status) = call(rt, alloc, line, &mut source, MemSink::new(alloc)).expect(
        rt,
        "memory for a call",
    );
    expect_so(rt, status == Status::Done, line);
    expect_so(rt, source.faults() == 0, line);
    let text = Text::from_slice(alloc, sink.text().as_slice()).expect(rt, "a copy");
    drop(sink);
    drop(source);
    text
}

const LONGEST: &[u8] =
    b"turns 100001\nqueued 18788\nfull 18909\nbatches 10803\nhanded 18725\nspawned 5377\nreaped 5374\ndropped 3\nraised 13447\nlost 0\nend ok\n";

#[test]
fn the_longest_flood_is_the_same_again(rt: HostRuntime) {
    let text = summary(&rt, rt.alloc(), b"flood 100000 7");
    let again = summary(&rt, rt.alloc(), b"flood 100000 7");
    assert!(rt; text.as_slice() == LONGEST);
    assert!(rt; text == again);
}

#[test]
fn another_seed_draws_others(rt: HostRuntime) {
    let text = summary(&rt, rt.alloc(), b"flood 1000 7");
    let other = summary(&rt, rt.alloc(), b"flood 1000 8");
    assert!(rt; text != other);
}

#[test]
fn a_failed_write_leaves_a_front_of_a_summary(rt: HostRuntime) {
    let at = vec![in rt.alloc(); 3].expect(&rt, "a number");
    let sink = MemSink::new(rt.alloc()).in_pieces(4).failing(at);
    let mut source = unread(&rt, rt.alloc());
    let (sink, status) = call(&rt, rt.alloc(), b"flood 1 0", &mut source, sink).expect(
        &rt,
        "memory for a call",
    );
    assert!(rt; status == Status::WriteFault);
    assert!(rt; sink.text().as_slice() == b"turns 2\n".as_slice());
    assert_eq!(rt; sink.faults(), 1);
    drop(sink);
}
